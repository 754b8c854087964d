//! Writes the end of an object.

ghost use Rattle.std.specs.Prelude.{◌≡◌, ◌+◌, ◌++◌, ◌≤◌, false, length, IfOk, IfErr};
ghost use Rattle.iim_object.specs.Format.Objects.{is_short};
ghost use Rattle.iim_object.specs.States.Writing.{WriterFails, WriterFinishes, IsWrittenOf, WriterAccepts, Writing, plan_bound, total_of};
ghost use Rattle.iim_object.specs.declared.writing.cause.PackCause.TheVariants as causes;

use iim_dataset::Target;
use iim_dataset::device_laws::writes_join;
use iim_object::{PackCause, SubfileWriter};

/// Writes the last octets of an object, its last subfile and record 9. Returns the writer.
pub(crate) fn end_object<W: Target>(
    mut object: SubfileWriter<W>,
    tail: &[u8],
) -> Result<W, (SubfileWriter<W>, PackCause)>
    requires unfailed { object.failed ≡ false }
    requires fits { total_of object + length tail.now ≤ plan_bound object.plan }
    requires whole { is_short object.plan.size (total_of object + length tail.now) ≡ false }
    ensures ok { IfOk result (λ writer. (last : Writing W) × WriterAccepts W.state object last tail.now
        × WriterFinishes W.state last writer) }
    ensures cause { IfErr result (λ refused. refused.1 ≡ causes.Write) }
    ensures broke { IfErr result (λ refused. WriterFails W.state
        (λ front whole. IsWrittenOf object.plan (front ++ tail.now) whole) object refused.0) }
    ensures room { IfErr result (λ refused. refused.0.room ≡ object.room) }
{
    writes_join();
    match object.write(tail) {
        Ok(()) => object.finish(),
        Err(cause) => Err((object, cause)),
    }
}
