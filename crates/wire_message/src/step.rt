//! The octets that end the filler and each part of the header, and the part that follows.

ghost use Rattle.std.specs.Prelude.{◌≡◌, ◌<◌, ◌&&◌, nat_lt, IfSome, IfNone, length, slice_index};
ghost use Rattle.std.specs.Option.{unwrap_or};
ghost use Rattle.wire_message.specs.States.Reading.{IsMessageState};
ghost use Rattle.wire_message.specs.Steps.{DoesNotExtendPart, ends, begins, octets_of_part, OctetEndsViableMessage, ConsumesAnOctet};

use crate::class::{Class, is_in};
use crate::field::part_of_one;
use crate::head::MessageHead;
use crate::part::{HeaderPart, HeaderTexts};
use crate::place::Place;
use arrayvec::ArrayVec;
use iim_dataset::octets::{LF, SOH, SP};

/// Consumes SOH, which ends the filler before it.
#[inline(never)]
pub(crate) fn after_filler(count: u8, rest: &[u8]) -> Option<Place>
    requires place { IsMessageState (Place.Filler count) }
    requires some { 0 < length rest.now }
    requires ends { DoesNotExtendPart (Place.Filler count) (slice_index rest.now 0) }
    ensures takes { IfSome result (λ next. ConsumesAnOctet (Place.Filler count) rest.now next 1) }
    ensures dies { IfNone result (OctetEndsViableMessage (Place.Filler count) (slice_index rest.now 0)) }
{
    let _ = count;
    if rest[0] == SOH {
        return Some(Place::InHeader {
            part: HeaderPart::Source,
            texts: HeaderTexts {
                source: ArrayVec::new(),
                number: ArrayVec::new(),
                priority: ArrayVec::new(),
                category: ArrayVec::new(),
                words: ArrayVec::new(),
            },
        });
    }
    None
}

/// Checks whether an octet ends a part of the header: the part is non-empty, and the octet is its
/// separator.
#[inline(always)]
pub(crate) fn ends_part(part: HeaderPart, texts: &HeaderTexts, octet: u8) -> bool
    ensures { result ≡ (ends part octet && nat_lt 0 (length (octets_of_part part texts.now))) }
{
    match part {
        HeaderPart::Source => is_in(Class::Digit, octet) && !texts.source.is_empty(),
        HeaderPart::Number => octet == SP && !texts.number.is_empty(),
        HeaderPart::Priority => octet == SP && !texts.priority.is_empty(),
        HeaderPart::Category => octet == SP && !texts.category.is_empty(),
        HeaderPart::Words => {
            (octet == SP || is_in(Class::Filler, octet)) && !texts.words.is_empty()
        }
    }
}

/// Returns the state after the octet that ends the words.
fn after_words(texts: &HeaderTexts, octet: u8) -> Place
    requires { IsMessageState (begins HeaderPart.Words octet texts.now) }
    ensures { result ≡ begins HeaderPart.Words octet texts.now }
{
    let head = MessageHead::begun(texts);
    if octet == SP {
        return Place::Info { head };
    }
    Place::Gap {
        head,
        count: 1,
        has_feed: octet == LF,
    }
}

/// Begins the part that follows the octet. If the info or the gap follows, returns that state
/// instead.
pub(crate) fn begin_part(part: &mut HeaderPart, texts: &mut HeaderTexts, octet: u8) -> Option<Place>
    requires { IsMessageState (begins part.old octet texts.old) }
    ensures { unwrap_or result (Place.InHeader part.new texts.new) ≡ begins part.old octet texts.old }
{
    match *part {
        HeaderPart::Source => {
            texts.number = part_of_one(octet);
            *part = HeaderPart::Number;
        }
        HeaderPart::Number => *part = HeaderPart::Priority,
        HeaderPart::Priority => *part = HeaderPart::Category,
        HeaderPart::Category => *part = HeaderPart::Words,
        HeaderPart::Words => return Some(after_words(texts, octet)),
    }
    None
}
