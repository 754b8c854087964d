//! An example caller of `iim_pack`.

ghost use Rattle.std.specs.Prelude.{ℕ, List, [], map, IfOk};
ghost use Rattle.iim_dataset.specs.States.Devices.{WroteAllOf};
ghost use Rattle.iim_pack.specs.Format.Packed.{Packed};
ghost use Rattle.wire_story.specs.Format.Texts.{LineOctet};
ghost use Rattle.wire_story.specs.Format.Packing.{lines_of};

use iim_dataset::Target;
use iim_fields::Envelope;
use iim_object::{PackCause, Plan};
use iim_pack::Packer;
use std::alloc::Global;
use wire_message::MessageHead;

/// Packs an envelope whose story has one line and whose message has no trailer. Returns the writer.
pub fn pack_line<W: Target + Drop>(
    alloc: Global,
    envelope: &Envelope,
    head: &MessageHead,
    line: &[u8],
    plan: Plan,
    writer: W,
) -> Result<W, PackCause>
    ensures { IfOk result (λ out. (form : List ℕ)
        × Packed envelope.now head.now (lines_of (map LineOctet line.now)) [] plan form
        × WroteAllOf (W.state writer) (W.state out) form) }
{
    let mut packer = match Packer::start(alloc, envelope, head, plan, writer) {
        Ok(packer) => packer,
        Err(fault) => return Err(fault.cause),
    };
    packer.text(line)?;
    match packer.finish(b"") {
        Ok(writer) => Ok(writer),
        Err((_, cause)) => Err(cause),
    }
}
