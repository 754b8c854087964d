//! The octets that end the info, the gap and the trailer, and the part that follows.

ghost use Rattle.std.specs.Prelude.{◌≡◌, ◌<◌, ◌&&◌, ◌==◌, IfSome, IfNone, length, slice_index};
ghost use Rattle.iim_dataset.specs.Format.Octets.{stx};
ghost use Rattle.wire_message.specs.States.Reading.{IsMessageState};
ghost use Rattle.wire_message.specs.Steps.{DoesNotExtendPart, OctetEndsViableMessage, ConsumesAnOctet};

use crate::class::{Class, is_in};
use crate::head::MessageHead;
use crate::lengths::MAX_TRAILER;
use crate::place::Place;
use arrayvec::ArrayVec;
use iim_dataset::octets::{EOT, LF, STX};
use wire_story::TextReader;

/// Consumes the first octet of the gap, which ends the info.
#[inline(never)]
pub(crate) fn after_info(head: MessageHead, rest: &[u8]) -> Option<Place>
    requires place { IsMessageState (Place.Info head) }
    requires some { 0 < length rest.now }
    requires ends { DoesNotExtendPart (Place.Info head) (slice_index rest.now 0) }
    ensures takes { IfSome result (λ next. ConsumesAnOctet (Place.Info head) rest.now next 1) }
    ensures dies { IfNone result (OctetEndsViableMessage (Place.Info head) (slice_index rest.now 0)) }
{
    let octet = rest[0];
    if is_in(Class::Filler, octet) {
        return Some(Place::Gap {
            head,
            count: 1,
            has_feed: octet == LF,
        });
    }
    None
}

/// Checks whether an octet ends a gap. `feed` is whether the gap has an LF.
#[inline(always)]
fn ends_gap(feed: bool, octet: u8) -> bool
    ensures { result ≡ (octet == stx && feed) }
{
    octet == STX && feed
}

/// Consumes STX, which ends the gap.
#[inline(never)]
pub(crate) fn after_gap(head: MessageHead, count: u8, feed: bool, rest: &[u8]) -> Option<Place>
    requires place { IsMessageState (Place.Gap head count feed) }
    requires some { 0 < length rest.now }
    requires ends { DoesNotExtendPart (Place.Gap head count feed) (slice_index rest.now 0) }
    ensures takes { IfSome result (λ next. ConsumesAnOctet (Place.Gap head count feed) rest.now next 1) }
    ensures dies { IfNone result (OctetEndsViableMessage (Place.Gap head count feed) (slice_index rest.now 0)) }
{
    let _ = count;
    if ends_gap(feed, rest[0]) {
        let text = TextReader::new();
        return Some(Place::Text { head, text });
    }
    None
}

/// Consumes EOT, which ends the trailer.
#[inline(never)]
pub(crate) fn after_trailer(
    head: MessageHead,
    trailer: ArrayVec<u8, MAX_TRAILER>,
    rest: &[u8],
) -> Option<Place>
    requires place { IsMessageState (Place.Trailer head trailer) }
    requires some { 0 < length rest.now }
    requires ends { DoesNotExtendPart (Place.Trailer head trailer) (slice_index rest.now 0) }
    ensures takes { IfSome result (λ next. ConsumesAnOctet (Place.Trailer head trailer) rest.now next 1) }
    ensures dies { IfNone result (OctetEndsViableMessage (Place.Trailer head trailer) (slice_index rest.now 0)) }
{
    if rest[0] == EOT {
        return Some(Place::AfterEnd {
            head,
            trailer,
            count: 0,
        });
    }
    None
}
