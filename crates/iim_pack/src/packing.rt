//! Packs a complete envelope in one call.

ghost use Rattle.std.specs.Prelude.{◌≡◌, [], ◌∷◌, false, length, IfOk, IfErr, IfSome, IfNone, MatchResult};
ghost use Rattle.iim_pack.specs.States.Packing.{written_of, RejectsStart, Packs, IsStartFault};
ghost use Rattle.iim_pack.specs.States.Packing as words;
ghost use Rattle.iim_object.specs.declared.writing.cause.PackCause.TheVariants as causes;
ghost use Rattle.iim_pack.specs.Format.Orders.{IsFirstInOrder, CauseHolds};
ghost use Rattle.iim_pack.specs.Format.Packed.{Packed};
ghost use Rattle.wire_message.specs.Format.Messages.{canonical};

use crate::lines::put_lines;
use crate::packer::Packer;
use crate::size::packed_size;
use iim_dataset::Target;
use iim_dataset::device_laws::writes_join;
use iim_fields::Envelope;
use iim_object::{PackCause, Plan, StartFault};
use std::alloc::Global;
use wire_message::{MessageHead, is_trailer};
use wire_story::Lines;
use wire_story::laws::{
    lines_are_packed_as_their_events, story_laws, texts_are_delivered_as_lines,
};

/// Returns why an envelope cannot be packed under a plan, or `None` if it can.
fn pack_cause(head: &MessageHead, lines: &Lines, trailer: &[u8], plan: Plan) -> Option<PackCause>
    ensures { result ≡ words.pack_cause head.now lines.now.lines trailer.now plan }
{
    if !is_trailer(trailer) {
        return Some(PackCause::BadTrailer);
    }
    let Some(size) = packed_size(head, lines, trailer) else {
        return Some(PackCause::PastAnnounced);
    };
    if size > plan.bound() {
        return Some(PackCause::PastAnnounced);
    }
    if plan.is_short(size) {
        return Some(PackCause::ShortOfAnnounced);
    }
    None
}

/// Converts a packer whose write failed to an error.
fn write_fault<W: Target>(packer: Packer<W>, cause: PackCause) -> StartFault<W>
    ensures cause { result.cause ≡ cause }
    ensures writer { result.writer ≡ packer.object.writer }
    ensures written { result.written ≡ written_of packer }
{
    let written = packer.written();
    let writer = packer.into_writer();
    StartFault {
        cause,
        writer,
        written,
    }
}

/// Packs an envelope, a header, lines and a trailer under a plan. Returns the writer, to which the
/// packed form was written.
///
/// **Errors**, in this order: `BadTrailer` if the octets are not a valid trailer; `PastAnnounced`
/// if the object exceeds the plan's bound; `ShortOfAnnounced` if the object is shorter than a known
/// size; `OutOfMemory` if the allocation fails; `Write` if a write fails. All but `Write` write
/// nothing. After `Write`, the `written` octets that were written are a prefix of the packed form.
/// Each error has the writer.
pub fn pack<W: Target>(
    alloc: Global,
    envelope: &Envelope,
    head: &MessageHead,
    lines: &Lines,
    trailer: &[u8],
    plan: Plan,
    writer: W,
) -> Result<W, StartFault<W>>
    ensures refused { IfSome (words.pack_cause head.now lines.now.lines trailer.now plan)
        (λ cause. MatchResult result (λ _. ⊥) (RejectsStart cause writer)) }
    ensures order { IsFirstInOrder
        (CauseHolds false [] trailer.now plan (length (canonical head.now lines.now.lines trailer.now)))
        (causes.BadTrailer ∷ causes.PastAnnounced ∷ causes.ShortOfAnnounced ∷ [])
        (words.pack_cause head.now lines.now.lines trailer.now plan) }
    ensures ok { IfOk result (Packs W.state writer envelope.now head.now lines.now.lines trailer.now plan) }
    ensures fault { IfNone (words.pack_cause head.now lines.now.lines trailer.now plan)
        (IfErr result (IsStartFault W.state (Packed envelope.now head.now lines.now.lines trailer.now plan) writer)) }
{
    writes_join();
    lines_are_packed_as_their_events();
    story_laws();
    texts_are_delivered_as_lines();
    if let Some(cause) = pack_cause(head, lines, trailer, plan) {
        return Err(StartFault {
            cause,
            writer,
            written: 0,
        });
    }
    let mut packer = match Packer::start(alloc, envelope, head, plan, writer) {
        Ok(packer) => packer,
        Err(fault) => return Err(fault),
    };
    match put_lines(&mut packer, lines) {
        Ok(()) => {}
        Err(cause) => return Err(write_fault(packer, cause)),
    }
    match packer.finish(trailer) {
        Ok(writer) => Ok(writer),
        Err((packer, cause)) => Err(write_fault(packer, cause)),
    }
}
