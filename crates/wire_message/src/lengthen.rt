//! Appends octets to the part of a message that is in progress.

ghost use Rattle.std.specs.Prelude.{◌≡◌, ◌<◌, ◌≤◌, ◌+◌, ◌&&◌, ◌||◌, ◌==◌, nat_lt, true, false, length, slice_index};
ghost use Rattle.iim_dataset.specs.Format.Octets.{lf};
ghost use Rattle.wire_message.specs.Format.Messages.{is_filler_octet, max_filler};
ghost use Rattle.wire_message.specs.States.Reading.{IsMessageState};
ghost use Rattle.wire_message.specs.Steps.{DoesNotExtendPart, lengthens_gap, ConsumesAnOctet};

use crate::class::{Class, is_in};
use crate::field::take_run;
use crate::lengths::MAX_FILLER;
use crate::part::HeaderPart;
use crate::place::Place;
use iim_dataset::octets::LF;

/// Checks whether an octet may be the next octet of filler after `count` octets of filler.
#[inline(always)]
fn fills(count: u8, octet: u8) -> bool
    ensures { result ≡ (is_filler_octet octet && nat_lt count max_filler) }
{
    is_in(Class::Filler, octet) && count < MAX_FILLER
}

/// Counts an octet if it may be the next octet of filler. Returns the number of octets counted, 0
/// or 1.
#[inline(always)]
fn lengthen_filler(count: &mut u8, octet: u8) -> usize
    ensures one { result ≤ 1 }
    ensures some { result ≡ 1 → (is_filler_octet octet && nat_lt count.old max_filler) ≡ true }
    ensures none { result ≡ 0 → (is_filler_octet octet && nat_lt count.old max_filler) ≡ false }
    ensures counted { count.new ≡ count.old + result }
{
    if !fills(*count, octet) {
        return 0;
    }
    *count += 1;
    1
}

/// Checks whether an octet may be the next octet of a gap of `count` octets, so that an STX may
/// still follow. `feed` is whether the gap has an LF.
#[inline(always)]
fn extends_gap(count: u8, feed: bool, octet: u8) -> bool
    ensures { result ≡ lengthens_gap count feed octet }
{
    fills(count, octet) && (feed || octet == LF || count < MAX_FILLER - 1)
}

/// Counts an octet if it may be the next octet of a gap, and records whether it is an LF. Returns
/// the number of octets counted, 0 or 1.
#[inline(always)]
fn lengthen_gap(count: &mut u8, feed: &mut bool, octet: u8) -> usize
    ensures one { result ≤ 1 }
    ensures some { result ≡ 1 → lengthens_gap count.old feed.old octet ≡ true }
    ensures none { result ≡ 0 → lengthens_gap count.old feed.old octet ≡ false }
    ensures counted { count.new ≡ count.old + result }
    ensures feed { result ≡ 1 → feed.new ≡ (feed.old || octet == lf) }
    ensures same { result ≡ 0 → feed.new ≡ feed.old }
{
    if !extends_gap(*count, *feed, octet) {
        return 0;
    }
    *count += 1;
    *feed = *feed || octet == LF;
    1
}

/// Appends octets from the start of a slice to the part in progress, as long as that part may have
/// them. Returns their number.
#[inline(always)]
pub(crate) fn lengthen(place: &mut Place, rest: &[u8]) -> usize
    requires place { IsMessageState place.old }
    requires some { 0 < length rest.now }
    ensures takes { 0 < result → ConsumesAnOctet place.old rest.now place.new result }
    ensures same { result ≡ 0 → place.new ≡ place.old }
    ensures ends { result ≡ 0 → DoesNotExtendPart place.old (slice_index rest.now 0) }
{
    match place {
        Place::Filler { count } => lengthen_filler(count, rest[0]),
        Place::InHeader { part, texts } => match part {
            HeaderPart::Source => take_run(&mut texts.source, Class::Letter, rest),
            HeaderPart::Number => take_run(&mut texts.number, Class::Digit, rest),
            HeaderPart::Priority => take_run(&mut texts.priority, Class::Digit, rest),
            HeaderPart::Category => take_run(&mut texts.category, Class::Alphanumeric, rest),
            HeaderPart::Words => take_run(&mut texts.words, Class::Digit, rest),
        },
        Place::Info { head } => head.take_info(rest),
        Place::Gap {
            count,
            has_feed,
            ..
        } => lengthen_gap(count, has_feed, rest[0]),
        Place::Trailer { trailer, .. } => take_run(trailer, Class::Trailer, rest),
        Place::AfterEnd { count, .. } => lengthen_filler(count, rest[0]),
        _ => 0,
    }
}
