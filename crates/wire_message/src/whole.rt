//! Parses in one step a header that is complete in a chunk.

ghost use Rattle.std.specs.Prelude.{ℕ, ◌≡◌, ◌≤◌, ◌<◌, ◌⊎◌, List, [], ◌∷◌, ◌++◌, length, take, IsTrue, IfSome, IfNone};
ghost use Rattle.iim_dataset.specs.Format.Octets.{stx, sp};
ghost use Rattle.wire_message.specs.Kept.{is_in_class, parts_in, IsKept};
ghost use Rattle.wire_message.specs.Format.Messages.{Are, IsField, is_info_octet, max_info, IsGap, BeginsWithHeader, has_feed};
ghost use Rattle.wire_message.specs.declared.place.Place.TheVariants.{Filler};
ghost use Rattle.wire_message.specs.Steps.{ConsumesAnOctet};

use crate::class::Class;
use crate::ends::Ends;
use crate::field::prefix_len;
use crate::head::MessageHead;
use crate::lengths::{
    MAX_CATEGORY, MAX_FILLER, MAX_INFO, MAX_NUMBER, MAX_PRIORITY, MAX_SOURCE, MAX_WORDS,
};
use crate::place::Place;
use iim_dataset::octets::{LF, SOH, SP, STX};
use wire_story::TextReader;

/// Splits off the longest prefix whose octets are in the class, but at most `most` octets. Returns
/// the prefix and the rest.
#[inline(always)]
fn part(class: Class, most: usize, octets: &[u8]) -> (&[u8], &[u8])
    ensures parts { octets.now ≡ result.0.now ++ result.1.now }
    ensures class { Are (is_in_class class) result.0.now }
    ensures few { length result.0.now ≤ most }
{
    octets.split_at(prefix_len(class, most, octets))
}

/// Removes `octet` from the start. Returns the rest, or `None` if another octet is first.
#[inline(always)]
pub(crate) fn after(octet: u8, octets: &[u8]) -> Option<&[u8]>
    ensures { IfSome result (λ rest. octets.now ≡ octet ∷ rest.now) }
{
    match octets {
        [first, rest @ ..] if *first == octet => Some(rest),
        _ => None,
    }
}

/// Splits off the info of a header, which may be missing together with the SP before it. Returns
/// the info and the rest.
#[inline(always)]
fn info_part(octets: &[u8]) -> (&[u8], &[u8])
    ensures front { (octets.now ≡ sp ∷ result.0.now ++ result.1.now)
        ⊎ ((result.0.now ≡ []) × (octets.now ≡ result.1.now)) }
    ensures info { IsField is_info_octet 0 max_info result.0.now }
{
    match after(SP, octets) {
        Some(rest) => part(Class::Info, MAX_INFO, rest),
        None => octets.split_at(0),
    }
}

/// Checks whether the octets contain an LF.
#[inline(always)]
fn has_feed(octets: &[u8]) -> bool
    ensures { result ≡ has_feed octets.now }
{
    octets.iter().any(|octet| *octet == LF)
}

/// Removes a gap and STX from the start. Returns the rest, or `None` if the octets do not begin
/// with a gap and STX.
#[inline(always)]
fn after_gap(octets: &[u8]) -> Option<&[u8]>
    ensures { IfSome result (λ rest. (gap : List ℕ) × IsGap gap × (octets.now ≡ gap ++ stx ∷ rest.now)) }
{
    let (gap, rest) = part(Class::Filler, MAX_FILLER as usize, octets);
    if !has_feed(gap) {
        return None;
    }
    after(STX, rest)
}

/// Checks whether each part is non-empty.
#[inline(always)]
fn are_some(source: &[u8], number: &[u8], priority: &[u8], category: &[u8], words: &[u8]) -> bool
    ensures source { IsTrue result → 0 < length source.now }
    ensures number { IsTrue result → 0 < length number.now }
    ensures priority { IsTrue result → 0 < length priority.now }
    ensures category { IsTrue result → 0 < length category.now }
    ensures words { IsTrue result → 0 < length words.now }
{
    !source.is_empty()
        && !number.is_empty()
        && !priority.is_empty()
        && !category.is_empty()
        && !words.is_empty()
}

/// Parses a complete header at the start, from SOH to STX. Returns its joined parts, the offsets at
/// which they end, and the octets after STX.
#[inline(always)]
fn parse_header(octets: &[u8]) -> Option<(&[u8], Ends, &[u8])>
    ensures head { IfSome result (λ front. (begins : BeginsWithHeader octets.now (parts_in front.0.now front.1))
        × (begins.before ≡ []) × (begins.rest ≡ front.2.now)) }
    ensures kept { IfSome result (λ front. IsKept front.0.now front.1) }
{
    let header = after(SOH, octets)?;
    let (source, rest) = part(Class::Letter, MAX_SOURCE, header);
    let (number, rest) = part(Class::Digit, MAX_NUMBER, rest);
    let rest = after(SP, rest)?;
    let (priority, rest) = part(Class::Digit, MAX_PRIORITY, rest);
    let rest = after(SP, rest)?;
    let (category, rest) = part(Class::Alphanumeric, MAX_CATEGORY, rest);
    let rest = after(SP, rest)?;
    let (words, rest) = part(Class::Digit, MAX_WORDS, rest);
    let (info, rest) = info_part(rest);
    let rest = after_gap(rest)?;
    if !are_some(source, number, priority, category, words) {
        return None;
    }
    let ends = Ends::of(source, number, category, words);
    Some((
        &header[..usize::from(ends.words) + 1 + info.len()],
        ends,
        rest,
    ))
}

/// Consumes a complete header at the start, which filler may precede. Returns the number of octets
/// consumed.
#[inline(never)]
pub(crate) fn whole_head(place: &mut Place, octets: &[u8]) -> Option<usize>
    ensures takes { IfSome result (λ used. (count : ℕ) → ConsumesAnOctet (Filler count) octets.now place.new used) }
    ensures same { IfNone result (place.new ≡ place.old) }
{
    let (header, ends, rest) = parse_header(octets)?;
    let head = MessageHead::of_octets(header, ends);
    let text = TextReader::new();
    *place = Place::Text { head, text };
    Some(octets.len() - rest.len())
}
