//! Writes the beginning of an object.

ghost use Rattle.std.specs.Prelude.{◌≡◌, ◌+◌, ◌<◌, ◌≤◌, ◌^◌, length, IfOk, IfErr};
ghost use Rattle.iim_object.specs.Format.Objects.{most_out};
ghost use Rattle.iim_object.specs.States.Writing.{plan_bound, plan_capacity, IsWrittenFrom};
ghost use Rattle.iim_pack.specs.Steps.{OpensObject};
ghost use Rattle.iim_pack.specs.States.Packing.{StartBreaksOff};

use iim_dataset::Target;
use iim_dataset::device_laws::writes_join;
use iim_object::{StartFault, SubfileBuffer, SubfileWriter};

/// Writes record 7, and writes these octets at the beginning of the object.
pub(crate) fn open_object<W: Target>(
    buffer: SubfileBuffer,
    front: &[u8],
    writer: W,
) -> Result<SubfileWriter<W>, StartFault<W>>
    requires { length front.now ≤ plan_bound buffer }
    ensures ok { IfOk result (OpensObject W.state writer buffer front.now) }
    ensures room { IfOk result (λ object. object.room ≡ plan_capacity buffer) }
    ensures err { IfErr result (StartBreaksOff W.state (IsWrittenFrom buffer front.now) writer) }
    ensures small { IfErr result (λ fault. fault.written < most_out) }
{
    writes_join();
    match SubfileWriter::start(buffer, writer) {
        Ok(mut object) => match object.write(front) {
            Ok(()) => Ok(object),
            Err(cause) => {
                let written = object.written();
                let writer = object.into_writer();
                Err(StartFault {
                    cause,
                    writer,
                    written,
                })
            }
        },
        Err(fault) => Err(fault),
    }
}
