//! Packs the text of a script without copying it.

ghost use Rattle.std.specs.Prelude.{◌≡◌, ◌+◌, ◌<◌, ◌≤◌, ◌++◌, ◌∷◌, [], None, false, length, map, IfOk, IfErr, IfSome, IfNone, OnOk, OnErr};
ghost use Rattle.iim_dataset.specs.Format.Octets.{greatest_size};
ghost use Rattle.iim_object.specs.States.Writing.{plan_bound, total_of};
ghost use Rattle.iim_object.specs.declared.writing.cause.PackCause.TheVariants as causes;
ghost use Rattle.wire_message.specs.Format.Messages.{IsTrailer, canonical};
ghost use Rattle.wire_story.specs.Format.Texts.{LineEnd, LineOctet, events_of_lines, IsLine, IsText, packed_text};
ghost use Rattle.wire_story.specs.Format.Packing.{packed_events};
ghost use Rattle.iim_pack.specs.Format.Packed.{Packed};
ghost use Rattle.iim_pack.specs.States.Packing.{BreaksOff, ContinuesWith, Lengthens, least_ending, pack_cause, written_of, IsStartFault, Packs};
ghost use Rattle.iim_script.specs.Format.Scripts.{text_lines};

use iim_dataset::Target;
use iim_dataset::device_laws::writes_join;
use iim_fields::Envelope;
use iim_object::{PackCause, Plan, StartFault};
use iim_pack::Packer;
use iim_script::split_text;
use std::alloc::Global;
use wire_message::{MessageHead, head_text};
use wire_story::laws::{lines_are_packed_as_their_events, texts_are_delivered_as_lines};

/// The length of the shortest ending of an object, in octets: ETX and EOT.
const LEAST_ENDING: u64 = 2;

/// Returns the size in octets of the object that a header, a text of `text_len` packed octets and a
/// trailer are packed into. Returns `None` if the size exceeds 64 bits.
pub(crate) fn object_len(
    head: &MessageHead,
    text: &[u8],
    text_len: u64,
    trailer: &[u8],
) -> Option<u64>
    requires trailer { IsTrailer trailer.now }
    requires len { text_len ≡ length (packed_text (text_lines text.now)) }
    ensures len { IfSome result (λ len. len ≡ length (canonical head.now (text_lines text.now) trailer.now)) }
    ensures past { IfNone result (greatest_size < length (canonical head.now (text_lines text.now) trailer.now)) }
{
    let _ = text;
    let front = head_text(head);
    text_len.checked_add(front.len() as u64 + trailer.len() as u64 + LEAST_ENDING)
}

/// Packs a line and its line end.
fn put_line<W: Target>(packer: &mut Packer<W>, line: &[u8]) -> Result<(), PackCause>
    requires line { IsLine line.now }
    requires unfailed { packer.old.object.failed ≡ false }
    requires fits { total_of packer.old.object + (length line.now + 2 + least_ending) ≤ plan_bound
        packer.old.object.plan }
    ensures ok { OnOk result (Lengthens W.state packer.old packer.new (map LineOctet line.now ++ LineEnd ∷ [])) }
    ensures cause { IfErr result (λ cause. cause ≡ causes.Write) }
    ensures broke { OnErr result (BreaksOff W.state (ContinuesWith (map LineOctet line.now ++ LineEnd ∷ []))
        packer.old packer.new) }
{
    writes_join();
    match packer.text_unchecked(line) {
        Ok(()) => packer.line_end(),
        Err(cause) => Err(cause),
    }
}

/// Packs the lines of a text.
fn put_text<W: Target>(packer: &mut Packer<W>, text: &[u8]) -> Result<(), PackCause>
    requires text { IsText text.now (text_lines text.now) }
    requires unfailed { packer.old.object.failed ≡ false }
    requires fits { total_of packer.old.object
        + (length (packed_events (events_of_lines (text_lines text.now))) + least_ending)
        ≤ plan_bound packer.old.object.plan }
    ensures ok { OnOk result (Lengthens W.state packer.old packer.new (events_of_lines (text_lines text.now))) }
    ensures cause { IfErr result (λ cause. cause ≡ causes.Write) }
    ensures broke { OnErr result (BreaksOff W.state (ContinuesWith (events_of_lines (text_lines text.now)))
        packer.old packer.new) }
{
    writes_join();
    let mut rest = text;
    while let Some((line, after)) = split_text(rest) {
        match put_line(packer, line) {
            Ok(()) => rest = after,
            Err(cause) => return Err(cause),
        }
    }
    packer.text_unchecked(rest)
}

/// Converts a packer whose write failed to an error.
fn write_fault<W: Target>(packer: Packer<W>, cause: PackCause) -> StartFault<W>
    ensures cause { result.cause ≡ cause }
    ensures writer { result.writer ≡ packer.object.writer }
    ensures written { result.written ≡ written_of packer }
{
    let written = packer.written();
    let writer = packer.into_writer();
    StartFault {
        cause,
        writer,
        written,
    }
}

/// Packs an envelope, a header, a text and a trailer under a plan that allows them. Returns the
/// writer.
pub(crate) fn pack_text<W: Target>(
    alloc: Global,
    envelope: &Envelope,
    head: &MessageHead,
    text: &[u8],
    trailer: &[u8],
    plan: Plan,
    writer: W,
) -> Result<W, StartFault<W>>
    requires text { IsText text.now (text_lines text.now) }
    requires fits { pack_cause head.now (text_lines text.now) trailer.now plan ≡ None }
    ensures ok { IfOk result (Packs W.state writer envelope.now head.now (text_lines text.now) trailer.now plan) }
    ensures fault { IfErr result (IsStartFault W.state
        (Packed envelope.now head.now (text_lines text.now) trailer.now plan) writer) }
{
    writes_join();
    lines_are_packed_as_their_events();
    texts_are_delivered_as_lines();
    let mut packer = match Packer::start(alloc, envelope, head, plan, writer) {
        Ok(packer) => packer,
        Err(fault) => return Err(fault),
    };
    match put_text(&mut packer, text) {
        Ok(()) => {}
        Err(cause) => return Err(write_fault(packer, cause)),
    }
    match packer.finish(trailer) {
        Ok(writer) => Ok(writer),
        Err((packer, cause)) => Err(write_fault(packer, cause)),
    }
}
