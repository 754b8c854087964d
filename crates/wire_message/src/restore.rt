//! Restores a state from its saved parts, and checks that the state saves to the same parts.

ghost use Rattle.std.specs.Prelude.{◌≡◌, ◌≤◌, ◌↔◌, ◌||◌, nat_lt, if◌then◌else◌, IsTrue, IsSome, IfSome};
ghost use Rattle.wire_message.specs.declared.place.Place.{Place};
ghost use Rattle.wire_message.specs.declared.saved.MessagePart.TheVariants as part;
ghost use Rattle.wire_message.specs.Kept.{is_in_class};
ghost use Rattle.wire_message.specs.Format.Messages.{IsField, max_filler, IsHeader};
ghost use Rattle.wire_message.specs.States.Reading.{IsMessageState, saved};
ghost use Rattle.wire_message.specs.Steps.{head_in, texts_in, IsOnlyState};

use crate::class::Class;
use crate::field::{is_field, kept};
use crate::head::MessageHead;
use crate::lengths::{MAX_CATEGORY, MAX_FILLER, MAX_NUMBER, MAX_PRIORITY, MAX_SOURCE, MAX_WORDS};
use crate::part::{HeaderPart, HeaderTexts};
use crate::place::Place;
use crate::save::save;
use crate::saved::{MessagePart, MessagePlace};
use crate::writing::is_trailer;
use wire_story::TextReader;
use wire_story::laws::text_states_are_reached;

/// Checks whether filler may have `count` octets.
fn is_filler(count: u8) -> bool
    ensures { IsTrue result ↔ (count ≤ max_filler) }
{
    count <= MAX_FILLER
}

/// Checks whether the octets are valid for a part. They must be non-empty if `some`, must be empty
/// unless `begun`, and may have at most `most` octets.
fn is_part(class: Class, some: bool, begun: bool, most: usize, octets: &[u8]) -> bool
    ensures { IsTrue result ↔
        IsField (is_in_class class) (if some then 1 else 0) (if begun then most else 0) octets.now }
{
    let most = if begun { most } else { 0 };
    is_field(class, usize::from(some), most, octets)
}

/// Checks whether the saved header is consistent with `part`, the part in progress. The first
/// `some` parts must be non-empty, and the parts after the first `begun` must be empty.
fn is_header_so_far(part: HeaderPart, place: &MessagePlace) -> bool
    ensures { IsTrue result ↔ IsMessageState (Place.InHeader part (texts_in place.now)) }
{
    let (some, begun) = match part {
        HeaderPart::Source => (0, 1),
        HeaderPart::Number => (2, 2),
        HeaderPart::Priority => (2, 3),
        HeaderPart::Category => (3, 4),
        HeaderPart::Words => (4, 5),
    };
    is_part(
        Class::Letter,
        some > 0,
        begun > 0,
        MAX_SOURCE,
        &place.source,
    ) && is_part(Class::Digit, some > 1, begun > 1, MAX_NUMBER, &place.number)
        && is_part(
            Class::Digit,
            some > 2,
            begun > 2,
            MAX_PRIORITY,
            &place.priority,
        )
        && is_part(
            Class::Alphanumeric,
            some > 3,
            begun > 3,
            MAX_CATEGORY,
            &place.category,
        )
        && is_part(Class::Digit, some > 4, begun > 4, MAX_WORDS, &place.words)
}

/// Checks whether STX may still follow a gap of `count` octets. `has_feed` is whether the gap has
/// an LF.
fn is_gap(count: u8, has_feed: bool) -> bool
    ensures { IsTrue result ↔ (1 ≤ count) × (count ≤ max_filler) × IsTrue (has_feed || nat_lt count max_filler) }
{
    1 <= count && count <= MAX_FILLER && (has_feed || count < MAX_FILLER)
}

/// Returns the header of a saved state, if it is valid.
fn head_of(place: &MessagePlace) -> Option<MessageHead>
    ensures admitted { IsSome result ↔ IsHeader (head_in place.now) }
    ensures parts { IfSome result (λ head. head ≡ head_in place.now) }
{
    MessageHead::new(
        &place.source,
        &place.number,
        &place.priority,
        &place.category,
        &place.words,
        &place.info,
    )
}

/// Restores a state in the filler before SOH.
fn in_filler(place: &MessagePlace) -> Option<Place>
    requires { place.now.part ≡ part.Filler }
    ensures place { IfSome result IsMessageState }
    ensures only { IsOnlyState result place.now }
{
    if is_filler(place.counter) {
        return Some(Place::Filler {
            count: place.counter,
        });
    }
    None
}

/// Restores a state in a part of the header.
fn in_header(part: HeaderPart, place: &MessagePlace) -> Option<Place>
    requires { (at : Place) → IsMessageState at → saved at ≡ place.now → at ≡ Place.InHeader part (texts_in place.now) }
    ensures place { IfSome result IsMessageState }
    ensures only { IsOnlyState result place.now }
{
    if !is_header_so_far(part, place) {
        return None;
    }
    let texts = HeaderTexts {
        source: kept(&place.source),
        number: kept(&place.number),
        priority: kept(&place.priority),
        category: kept(&place.category),
        words: kept(&place.words),
    };
    Some(Place::InHeader { part, texts })
}

/// Restores a state in the gap.
fn in_gap(place: &MessagePlace) -> Option<Place>
    requires { place.now.part ≡ part.Gap }
    ensures place { IfSome result IsMessageState }
    ensures only { IsOnlyState result place.now }
{
    let head = head_of(place)?;
    let has_feed = place.flag == 1;
    if is_gap(place.counter, has_feed) {
        return Some(Place::Gap {
            head,
            count: place.counter,
            has_feed,
        });
    }
    None
}

/// Restores a state in the text.
fn in_text(place: &MessagePlace) -> Option<Place>
    requires { place.now.part ≡ part.Text }
    ensures place { IfSome result IsMessageState }
    ensures only { IsOnlyState result place.now }
{
    text_states_are_reached();
    let head = head_of(place)?;
    let text = TextReader::at(place.flag)?;
    Some(Place::Text { head, text })
}

/// Restores a state in the trailer.
fn in_trailer(place: &MessagePlace) -> Option<Place>
    requires { place.now.part ≡ part.Trailer }
    ensures place { IfSome result IsMessageState }
    ensures only { IsOnlyState result place.now }
{
    let head = head_of(place)?;
    if is_trailer(&place.trailer) {
        let trailer = kept(&place.trailer);
        return Some(Place::Trailer { head, trailer });
    }
    None
}

/// Restores a state after EOT.
fn after_end(place: &MessagePlace) -> Option<Place>
    requires { place.now.part ≡ part.AfterEnd }
    ensures place { IfSome result IsMessageState }
    ensures only { IsOnlyState result place.now }
{
    let head = head_of(place)?;
    if is_trailer(&place.trailer) && is_filler(place.counter) {
        return Some(Place::AfterEnd {
            head,
            trailer: kept(&place.trailer),
            count: place.counter,
        });
    }
    None
}

/// Returns the only state that could have this saved form, or `None`.
fn only_state_for(place: &MessagePlace) -> Option<Place>
    ensures place { IfSome result IsMessageState }
    ensures only { IsOnlyState result place.now }
{
    match place.part {
        MessagePart::Filler => in_filler(place),
        MessagePart::Source => in_header(HeaderPart::Source, place),
        MessagePart::Number => in_header(HeaderPart::Number, place),
        MessagePart::Priority => in_header(HeaderPart::Priority, place),
        MessagePart::PriorityRead => in_header(HeaderPart::Priority, place),
        MessagePart::Category => in_header(HeaderPart::Category, place),
        MessagePart::Words => in_header(HeaderPart::Words, place),
        MessagePart::Info => {
            let head = head_of(place)?;
            Some(Place::Info { head })
        }
        MessagePart::Gap => in_gap(place),
        MessagePart::Text => in_text(place),
        MessagePart::Trailer => in_trailer(place),
        MessagePart::AfterEnd => after_end(place),
    }
}

/// Returns the state with this saved form, or `None` if there is no such state.
pub(crate) fn restore(saved_place: &MessagePlace) -> Option<Place>
    ensures place { IfSome result IsMessageState }
    ensures same { IfSome result (λ place. saved place ≡ saved_place.now) }
    ensures only { IsOnlyState result saved_place.now }
{
    let place = only_state_for(saved_place)?;
    if save(&place).is(saved_place) {
        return Some(place);
    }
    None
}
