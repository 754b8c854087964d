//! Saves a state of a reader.

ghost use Rattle.std.specs.Prelude.{◌≡◌, ◌≤◌, [], length};
ghost use Rattle.wire_message.specs.States.Reading.{IsMessageState, place_with_header, saved, saved_part};

use crate::field::kept;
use crate::head::MessageHead;
use crate::lengths::MAX_SAVED;
use crate::part::{HeaderPart, HeaderTexts};
use crate::place::Place;
use crate::saved::{MessagePart as Part, MessagePlace};

/// Converts a part of the header to its saved form, which distinguishes whether the digit of the
/// priority was received.
fn saved_part(part: HeaderPart, priority: &[u8]) -> Part
    ensures { result ≡ saved_part part priority.now }
{
    match part {
        HeaderPart::Source => Part::Source,
        HeaderPart::Number => Part::Number,
        HeaderPart::Priority => match priority {
            [] => Part::Priority,
            _ => Part::PriorityRead,
        },
        HeaderPart::Category => Part::Category,
        HeaderPart::Words => Part::Words,
    }
}

/// Saves a state inside a header, with the octets received of each part.
fn in_header(part: HeaderPart, texts: &HeaderTexts) -> MessagePlace
    ensures { result ≡ saved (Place.InHeader part texts.now) }
{
    MessagePlace {
        source: kept(&texts.source),
        number: kept(&texts.number),
        priority: kept(&texts.priority),
        category: kept(&texts.category),
        words: kept(&texts.words),
        ..MessagePlace::bare(saved_part(part, &texts.priority))
    }
}

/// Saves a state after a header, with the octets received of the trailer.
fn saved_after_header(
    part: Part,
    counter: u8,
    flag: u8,
    head: &MessageHead,
    trailer: &[u8],
) -> MessagePlace
    requires { length trailer.now ≤ MAX_SAVED }
    ensures { result ≡ place_with_header part counter flag head.now trailer.now }
{
    MessagePlace {
        part,
        counter,
        flag,
        source: kept(head.source()),
        number: kept(head.number()),
        priority: kept(head.priority()),
        category: kept(head.category()),
        words: kept(head.words()),
        info: kept(head.info()),
        trailer: kept(trailer),
    }
}

/// Saves a state.
pub(crate) fn save(place: &Place) -> MessagePlace
    requires { IsMessageState place.now }
    ensures { result ≡ saved place.now }
{
    match place {
        Place::Filler { count } => MessagePlace {
            counter: *count,
            ..MessagePlace::bare(Part::Filler)
        },
        Place::InHeader { part, texts } => in_header(*part, texts),
        Place::Info { head } => saved_after_header(Part::Info, 0, 0, head, &[]),
        Place::Gap {
            head,
            count,
            has_feed,
        } => saved_after_header(Part::Gap, *count, u8::from(*has_feed), head, &[]),
        Place::Text { head, text } => saved_after_header(Part::Text, 0, text.held(), head, &[]),
        Place::Trailer { head, trailer } => saved_after_header(Part::Trailer, 0, 0, head, trailer),
        Place::AfterEnd {
            head,
            trailer,
            count,
        } => saved_after_header(Part::AfterEnd, *count, 0, head, trailer),
    }
}
