//! Consumes a chunk of a message in a given state: the longest slices that are within one part, and
//! otherwise octet by octet.

ghost use Rattle.std.specs.Prelude.{◌≡◌, ◌<◌, ◌≤◌, length, slice_index, take, IfOk, IfErr, IfSome, IfNone, OnOk};
ghost use Rattle.wire_message.specs.Format.Messages.{Header};
ghost use Rattle.wire_message.specs.States.Reading.{IsMessageState};
ghost use Rattle.wire_story.specs.declared.reader.TextReader.{TextReader};
ghost use Rattle.wire_message.specs.declared.place.Place.TheVariants.{Filler};
ghost use Rattle.wire_message.specs.Steps.{OctetEndsViableMessage, ConsumesAnOctet, ConsumesOctets, RejectsOctetOfMessage};

use crate::fault::{MessageCause, MessageFault};
use crate::lengthen::lengthen;
use crate::next::{begin_next, end_text};
use crate::place::Place;
use crate::text::in_text;
use crate::whole::whole_head;
use wire_story::StorySink;

/// Returns the number of octets of filler received, if SOH has not been received.
#[inline(always)]
fn filler_in(place: &Place) -> Option<u8>
    ensures { IfSome result (λ count. place.now ≡ Filler count) }
{
    match place {
        Place::Filler { count } => Some(*count),
        _ => None,
    }
}

/// Consumes a header that is complete in the chunk, if the state is in the filler before SOH.
/// Returns the number of octets consumed.
#[inline(always)]
fn consume_header(place: &mut Place, rest: &[u8]) -> Option<usize>
    ensures takes { IfSome result (λ used. ConsumesAnOctet place.old rest.now place.new used) }
    ensures same { IfNone result (place.new ≡ place.old) }
{
    let Some(_) = filler_in(place) else {
        return None;
    };
    whole_head(place, rest)
}

/// Consumes octets outside the text. Returns their number, or `None` if no message can have the
/// first one there.
#[inline(never)]
fn consume_outside_text(place: &mut Place, rest: &[u8]) -> Option<usize>
    requires place { IsMessageState place.old }
    requires outside { (head : Header) (text : TextReader) → place.old ≡ Place.Text head text → ⊥ }
    requires some { 0 < length rest.now }
    ensures takes { IfSome result (λ used. ConsumesAnOctet place.old rest.now place.new used) }
    ensures dies { IfNone result (OctetEndsViableMessage place.old (slice_index rest.now 0)) }
{
    if let Some(used) = consume_header(place, rest) {
        return Some(used);
    }
    let used = lengthen(place, rest);
    if used > 0 {
        return Some(used);
    }
    if begin_next(place, rest) {
        return Some(1);
    }
    None
}

/// Consumes octets outside the text, as `consume_outside_text` does. The sink receives nothing.
#[inline(always)]
fn pass_outside_text<S: StorySink>(
    place: &mut Place,
    rest: &[u8],
    sink: &mut S,
) -> Result<usize, MessageFault>
    requires place { IsMessageState place.old }
    requires outside { (head : Header) (text : TextReader) → place.old ≡ Place.Text head text → ⊥ }
    requires some { 0 < length rest.now }
    ensures some { IfOk result (λ used. 0 < used) }
    ensures within { IfOk result (λ used. used ≤ length rest.now) }
    ensures takes { IfOk result (λ used.
        ConsumesOctets S.goes S.failures place.old sink.old (take used rest.now) place.new sink.new) }
    ensures stops { IfErr result (RejectsOctetOfMessage S.goes S.failures place.old sink.old rest.now sink.new) }
{
    let _ = sink;
    match consume_outside_text(place, rest) {
        Some(used) => Ok(used),
        None => Err(MessageFault {
            taken: 0,
            cause: MessageCause::BadOctet,
        }),
    }
}

/// Consumes a prefix of the remaining octets. Returns its length.
#[inline(always)]
fn consume_prefix<S: StorySink>(
    place: &mut Place,
    rest: &[u8],
    sink: &mut S,
) -> Result<usize, MessageFault>
    requires place { IsMessageState place.old }
    requires some { 0 < length rest.now }
    ensures some { IfOk result (λ used. 0 < used) }
    ensures within { IfOk result (λ used. used ≤ length rest.now) }
    ensures takes { IfOk result (λ used.
        ConsumesOctets S.goes S.failures place.old sink.old (take used rest.now) place.new sink.new) }
    ensures stops { IfErr result (RejectsOctetOfMessage S.goes S.failures place.old sink.old rest.now sink.new) }
{
    match place {
        Place::Text { head, text } => match in_text(head, text, rest, sink) {
            Ok((used, ended)) => {
                if ended {
                    return Ok(used + end_text(place, &rest[used..]));
                }
                Ok(used)
            }
            Err(fault) => Err(fault),
        },
        _ => pass_outside_text(place, rest, sink),
    }
}

/// Consumes a chunk, and updates the state in place.
pub(crate) fn consume_chunk<S: StorySink>(
    place: &mut Place,
    piece: &[u8],
    sink: &mut S,
) -> Result<(), MessageFault>
    requires { IsMessageState place.old }
    ensures takes { OnOk result (ConsumesOctets S.goes S.failures place.old sink.old piece.now place.new sink.new) }
    ensures nothing { length piece.now ≡ 0 → (place.new ≡ place.old) × (sink.new ≡ sink.old) }
    ensures stops { IfErr result (RejectsOctetOfMessage S.goes S.failures place.old sink.old piece.now sink.new) }
{
    let mut at = 0;
    while at < piece.len() {
        match consume_prefix(place, &piece[at..], sink) {
            Ok(used) => at += used,
            Err(fault) => {
                return Err(MessageFault {
                    taken: at + fault.taken,
                    cause: fault.cause,
                });
            }
        }
    }
    Ok(())
}
