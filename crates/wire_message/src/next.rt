//! The transition from one part of a message to the next.

ghost use Rattle.std.specs.Prelude.{◌<◌, ◌≤◌, ◌≡◌, true, false, [], length, slice_index, IfSome, IfNone};
ghost use Rattle.iim_dataset.specs.Format.Octets.{eot};
ghost use Rattle.wire_message.specs.Format.Messages.{Header};
ghost use Rattle.wire_message.specs.States.Reading.{IsMessageState};
ghost use Rattle.wire_message.specs.declared.part.HeaderPart.{HeaderPart};
ghost use Rattle.wire_message.specs.declared.part.HeaderTexts.{HeaderTexts};
ghost use Rattle.wire_story.specs.declared.reader.TextReader.{TextReader};
ghost use Rattle.wire_message.specs.Steps.{DoesNotExtendPart, OctetEndsViableMessage, ConsumesAnOctet};

use crate::place::Place;
use crate::step::{after_filler, begin_part, ends_part};
use crate::tail::{after_gap, after_info, after_trailer};
use crate::whole::after;
use arrayvec::ArrayVec;
use iim_dataset::octets::EOT;
use std::mem;

/// Returns the state after an octet that cannot belong to the part in progress, or `None` if no
/// message can have that octet there. The part must not be the text, or a part of the header before
/// its info.
fn next_part(place: Place, rest: &[u8]) -> Option<Place>
    requires place { IsMessageState place }
    requires outside { (head : Header) (text : TextReader) → place ≡ Place.Text head text → ⊥ }
    requires no_header { (part : HeaderPart) (texts : HeaderTexts) → place ≡ Place.InHeader part texts → ⊥ }
    requires some { 0 < length rest.now }
    requires ends { DoesNotExtendPart place (slice_index rest.now 0) }
    ensures takes { IfSome result (λ next. ConsumesAnOctet place rest.now next 1) }
    ensures dies { IfNone result (OctetEndsViableMessage place (slice_index rest.now 0)) }
{
    match place {
        Place::Filler { count } => after_filler(count, rest),
        Place::InHeader { .. } => unreachable!(),
        Place::Info { head } => after_info(head, rest),
        Place::Gap {
            head,
            count,
            has_feed,
        } => after_gap(head, count, has_feed, rest),
        Place::Text { .. } => unreachable!(),
        Place::Trailer { head, trailer } => after_trailer(head, trailer, rest),
        Place::AfterEnd { .. } => None,
    }
}

/// Consumes an octet that cannot belong to the part in progress. Returns whether it begins the next
/// part.
#[inline(never)]
pub(crate) fn begin_next(place: &mut Place, rest: &[u8]) -> bool
    requires place { IsMessageState place.old }
    requires outside { (head : Header) (text : TextReader) → place.old ≡ Place.Text head text → ⊥ }
    requires some { 0 < length rest.now }
    requires ends { DoesNotExtendPart place.old (slice_index rest.now 0) }
    ensures takes { result ≡ true → ConsumesAnOctet place.old rest.now place.new 1 }
    ensures dies { result ≡ false → OctetEndsViableMessage place.old (slice_index rest.now 0) }
{
    if let Place::InHeader { part, texts } = place {
        if !ends_part(*part, texts, rest[0]) {
            return false;
        }
        if let Some(next) = begin_part(part, texts, rest[0]) {
            *place = next;
        }
        return true;
    }
    let old = mem::replace(place, Place::Filler { count: 0 });
    match next_part(old, rest) {
        Some(next) => {
            *place = next;
            true
        }
        None => false,
    }
}

/// Ends the text and begins the trailer. If EOT follows, ends the trailer too. Returns the number
/// of octets consumed: 1 if EOT follows, otherwise 0.
#[inline(never)]
pub(crate) fn end_text(place: &mut Place, rest: &[u8]) -> usize
    ensures few { result ≤ 1 }
    ensures within { result ≤ length rest.now }
    ensures begins { result ≡ 0 → (head : Header) (text : TextReader) → place.old ≡ Place.Text head text →
        place.new ≡ Place.Trailer head (record { items = [] }) }
    ensures first { result ≡ 1 → slice_index rest.now 0 ≡ eot }
    ensures ends { result ≡ 1 → (head : Header) (text : TextReader) → place.old ≡ Place.Text head text →
        place.new ≡ Place.AfterEnd head (record { items = [] }) 0 }
{
    let old = mem::replace(place, Place::Filler { count: 0 });
    if let Place::Text { head, .. } = old {
        let trailer = ArrayVec::new();
        if let Some(_) = after(EOT, rest) {
            *place = Place::AfterEnd {
                head,
                trailer,
                count: 0,
            };
            return 1;
        }
        *place = Place::Trailer { head, trailer };
    }
    0
}
