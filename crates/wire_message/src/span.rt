//! Computes how many octets can reach a state.

ghost use Rattle.std.specs.Prelude.{◌≡◌, ◌≤◌, ◌+◌, Some, None, length};
ghost use Rattle.wire_message.specs.Format.Messages.{max_filler, max_source, max_number, max_priority, max_category, max_words, max_info, packed_info};
ghost use Rattle.wire_message.specs.States.Reading.{IsMessageState, so_far, fixed_octets, least_head, least_of, greatest_of};

use crate::head::MessageHead;
use crate::lengths::MAX_FILLER;
use crate::part::{HeaderPart, HeaderTexts};
use crate::place::Place;

/// Returns the minimum and the maximum length of a filler and `octets` octets from SOH on.
fn after_filler(octets: usize) -> (u64, Option<u64>)
    requires { octets ≤ 256 }
    ensures least { result.0 ≡ octets }
    ensures greatest { result.1 ≡ Some (max_filler + octets) }
{
    let octets = octets as u64;
    (octets, Some(u64::from(MAX_FILLER) + octets))
}

/// Returns the minimum length, and no maximum, of octets that contain a text of any length and at
/// least `octets` octets from SOH on.
fn with_text(octets: usize) -> (u64, Option<u64>)
    ensures least { result.0 ≡ octets }
    ensures greatest { result.1 ≡ None }
{
    (octets as u64, None)
}

/// Returns the length of the parts of a header up to the one in progress, including the SP between
/// them.
fn so_far_len(part: HeaderPart, texts: &HeaderTexts) -> usize
    ensures sum { result ≡ length (so_far part texts.now) }
    ensures within { result ≤ 3 + max_source + max_number + max_priority + max_category + max_words }
{
    let numbered = texts.source.len() + texts.number.len();
    let named = numbered + texts.priority.len() + texts.category.len();
    match part {
        HeaderPart::Source => texts.source.len(),
        HeaderPart::Number => numbered,
        HeaderPart::Priority => 1 + numbered + texts.priority.len(),
        HeaderPart::Category => 2 + named,
        HeaderPart::Words => 3 + named + texts.words.len(),
    }
}

/// Returns the length of SOH and the parts up to the words, including the SP between them.
fn fixed_len(head: &MessageHead) -> usize
    ensures sum { result ≡ fixed_octets head.now }
    ensures within { result ≤ 4 + max_source + max_number + max_priority + max_category + max_words }
{
    let numbered = head.source().len() + head.number().len();
    4 + numbered + head.priority().len() + head.category().len() + head.words().len()
}

/// Returns the length of SP and the info, or 0 if the info is empty.
fn info_len(head: &MessageHead) -> usize
    ensures least { result ≡ length (packed_info head.now.info) }
    ensures within { result ≤ 1 + max_info }
{
    let info = head.info();
    if info.is_empty() { 0 } else { 1 + info.len() }
}

/// Returns the length from SOH to STX if the gap is a single LF.
fn head_len(head: &MessageHead) -> usize
    ensures least { result ≡ least_head head.now }
    ensures within { result ≤ 7 + max_source + max_number + max_priority + max_category + max_words + max_info }
{
    fixed_len(head) + info_len(head) + 2
}

/// Returns the minimum and the maximum length up to the octet `count` of the gap.
fn in_gap(head: &MessageHead, count: u8) -> (u64, Option<u64>)
    requires { count ≤ max_filler }
    ensures least { result.0 ≡ fixed_octets head.now + length (packed_info head.now.info) + count }
    ensures greatest { result.1 ≡ Some (max_filler + (fixed_octets head.now + 1 + length head.now.info + count)) }
{
    let others = fixed_len(head) + usize::from(count);
    let (least, _) = after_filler(others + info_len(head));
    let (_, greatest) = after_filler(others + 1 + head.info().len());
    (least, greatest)
}

/// Returns the minimum length of octets that reach a state, and the maximum length if there is one.
pub(crate) fn lengths_to(place: &Place) -> (u64, Option<u64>)
    requires { IsMessageState place.now }
    ensures least { result.0 ≡ least_of place.now }
    ensures greatest { result.1 ≡ greatest_of place.now }
{
    match place {
        Place::Filler { count } => (u64::from(*count), Some(u64::from(*count))),
        Place::InHeader { part, texts } => after_filler(1 + so_far_len(*part, texts)),
        Place::Info { head } => after_filler(fixed_len(head) + 1 + head.info().len()),
        Place::Gap { head, count, .. } => in_gap(head, *count),
        Place::Text { head, text } => with_text(head_len(head) + usize::from(text.held())),
        Place::Trailer { head, trailer } => with_text(head_len(head) + 1 + trailer.len()),
        Place::AfterEnd {
            head,
            trailer,
            count,
        } => with_text(head_len(head) + 2 + trailer.len() + usize::from(*count)),
    }
}
