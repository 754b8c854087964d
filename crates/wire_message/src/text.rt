//! Consumes the text. The reader of the story consumes it up to ETX, which ends the text of the
//! message.

ghost use Rattle.std.specs.Prelude.{◌≡◌, ◌<◌, ◌≤◌, ℕ, false, true, [], length, take, IfOk, IfErr};
ghost use Rattle.arrayvec.specs.ArrayVec.{ArrayVec};
ghost use Rattle.wire_message.specs.declared.place.Place.{Place};
ghost use Rattle.wire_message.specs.States.Reading.{IsMessageState};
ghost use Rattle.wire_message.specs.Steps.{message_cause_of, ConsumesOctets, RejectsOctetOfMessage};

use crate::fault::{MessageCause, MessageFault};
use crate::head::MessageHead;
use iim_dataset::octets::ETX;
use wire_story::laws::{story_laws, text_states_are_reached};
use wire_story::{StorySink, TextCause, TextReader};

/// Converts a cause of the text to a cause of the message.
#[inline(always)]
fn cause_in_text(cause: TextCause) -> MessageCause
    ensures { result ≡ message_cause_of cause }
{
    match cause {
        TextCause::LoneReturn => MessageCause::LoneReturn,
        TextCause::ControlOctet => MessageCause::ControlOctet,
        TextCause::Sink => MessageCause::Sink,
    }
}

/// Checks whether a cause of the text is a control octet.
#[inline(always)]
fn is_control(cause: TextCause) -> bool
    ensures yes { result ≡ true → cause ≡ TextCause.ControlOctet }
    ensures no { result ≡ false → cause ≡ TextCause.ControlOctet → ⊥ }
{
    matches!(cause, TextCause::ControlOctet)
}

/// Consumes octets of the text, and the ETX that ends it. Returns the number of octets consumed,
/// and whether the last of them was ETX.
#[inline(always)]
pub(crate) fn in_text<S: StorySink>(
    head: &MessageHead,
    text: &mut TextReader,
    rest: &[u8],
    sink: &mut S,
) -> Result<(usize, bool), MessageFault>
    requires place { IsMessageState (Place.Text head.now text.old) }
    requires some { 0 < length rest.now }
    ensures some { IfOk result (λ front. 0 < front.0) }
    ensures within { IfOk result (λ front. front.0 ≤ length rest.now) }
    ensures takes { IfOk result (λ front. front.1 ≡ false →
        ConsumesOctets S.goes S.failures (Place.Text head.now text.old) sink.old (take front.0 rest.now)
        (Place.Text head.now text.new) sink.new) }
    ensures ended { IfOk result (λ front. front.1 ≡ true → (trailer : ArrayVec ℕ) → trailer.items ≡ [] →
        ConsumesOctets S.goes S.failures (Place.Text head.now text.old) sink.old (take front.0 rest.now)
        (Place.Trailer head.now trailer) sink.new) }
    ensures stops { IfErr result (
        RejectsOctetOfMessage S.goes S.failures (Place.Text head.now text.old) sink.old rest.now sink.new) }
{
    let _ = head;
    story_laws();
    text_states_are_reached();
    match text.run(rest, sink) {
        Ok(()) => Ok((rest.len(), false)),
        Err(fault) => {
            if is_control(fault.cause) && rest[fault.taken] == ETX {
                return Ok((fault.taken + 1, true));
            }
            Err(MessageFault {
                taken: fault.taken,
                cause: cause_in_text(fault.cause),
            })
        }
    }
}
