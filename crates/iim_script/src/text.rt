//! Checks the text of a story in blocks of sixteen octets, if its lines end in LF without CR.

ghost use Rattle.std.specs.Prelude.{◌≡◌, ◌==◌, ◌≤◌, count_by, length, map, take, IsTrue, IfSome};
ghost use Rattle.std.specs.List.{list_all};
ghost use Rattle.std.specs.Simd.Lanes.{mask_l};
ghost use Rattle.iim_dataset.specs.Format.Octets.{lf};
ghost use Rattle.iim_script.specs.Format.Scripts.{max_script, WithoutLast};
ghost use Rattle.wire_story.specs.Steps.{is_low};
ghost use Rattle.iim_script.specs.Steps.{is_plain, IsPackedTextOf};

use iim_dataset::octets::{CR, EOT, ETX, LF, SOH, STX};
use std::simd::prelude::*;

/// The number of octets that are checked at once.
const BLOCK: usize = 16;

/// Every octet that is not allowed in a line is less than this one. Only a few allowed octets are.
const LEAST_UNMARKED: u8 = 14;

/// The text of a story, borrowed from the script, and the size of the packed text in octets.
#[derive(Clone, Copy)]
pub(crate) struct StoryText<'a> {
    pub(crate) octets: &'a [u8],
    pub(crate) packed_len: u64,
}

/// Checks whether the octet is allowed in a line, or is LF.
fn is_allowed(octet: u8) -> bool
    ensures { result ≡ is_plain octet }
{
    !(octet == SOH || octet == STX || octet == ETX || octet == EOT || octet == CR)
}

/// Checks whether each octet is allowed in a line, or is LF.
fn are_plain(octets: &[u8]) -> bool
    ensures { result ≡ list_all is_plain octets.now }
{
    octets.iter().all(|octet| is_allowed(*octet))
}

/// Counts the octets that are LF.
fn count_feeds(octets: &[u8]) -> usize
    ensures { result ≡ count_by (λ b. b == lf) octets.now }
{
    octets.iter().filter(|octet| **octet == LF).count()
}

/// Counts the octets that are LF, checking one octet after another. Returns `None` if an octet is
/// neither LF nor allowed in a line.
fn feeds_in_rest(octets: &[u8]) -> Option<usize>
    ensures { IfSome result (λ count. IsTrue (list_all is_plain octets.now)
        × (count ≡ count_by (λ b. b == lf) octets.now)) }
{
    if are_plain(octets) {
        Some(count_feeds(octets))
    } else {
        None
    }
}

/// Returns a mask of those of the first sixteen octets that are less than `LEAST_UNMARKED`.
#[inline(always)]
fn low_in_block(block: &[u8]) -> u64
    requires { 16 ≤ length block.now }
    ensures { result ≡ mask_l (map is_low (take 16 block.now)) }
{
    let octets = u8x16::from_slice(block);
    octets.simd_lt(u8x16::splat(LEAST_UNMARKED)).to_bitmask()
}

/// Returns a mask of those of the first sixteen octets that are LF.
#[inline(always)]
fn feed_mask(block: &[u8]) -> u64
    requires { 16 ≤ length block.now }
    ensures { result ≡ mask_l (map (λ b. b == lf) (take 16 block.now)) }
{
    let octets = u8x16::from_slice(block);
    octets.simd_eq(u8x16::splat(LF)).to_bitmask()
}

/// Counts those of the first sixteen octets that are LF. Returns `None` if one is neither LF nor
/// allowed in a line.
#[inline(always)]
fn feeds_in_block(block: &[u8]) -> Option<usize>
    requires { 16 ≤ length block.now }
    ensures { IfSome result (λ count. IsTrue (list_all is_plain (take 16 block.now))
        × (count ≡ count_by (λ b. b == lf) (take 16 block.now))) }
{
    let feeds = feed_mask(block);
    if low_in_block(block) != feeds {
        return feeds_in_rest(&block[..BLOCK]);
    }
    Some(feeds.count_ones() as usize)
}

/// Counts the octets that are LF. Returns `None` if an octet is neither LF nor allowed in a line.
fn count_feeds_checked(octets: &[u8]) -> Option<usize>
    ensures { IfSome result (λ count. IsTrue (list_all is_plain octets.now)
        × (count ≡ count_by (λ b. b == lf) octets.now)) }
{
    let mut at = 0;
    let mut count = 0;
    while octets.len() - at >= BLOCK {
        match feeds_in_block(&octets[at..]) {
            Some(more) => count += more,
            None => return None,
        }
        at += BLOCK;
    }
    match feeds_in_rest(&octets[at..]) {
        Some(more) => Some(count + more),
        None => None,
    }
}

/// Removes the LF at the end of a story, if there is one.
fn without_feed(story: &[u8]) -> &[u8]
    ensures { WithoutLast lf story.now result.now }
{
    match story.strip_suffix(b"\n") {
        Some(text) => text,
        None => story,
    }
}

/// Returns the text of a story, or `None` if it has an octet that is neither LF nor allowed in a
/// line.
pub(crate) fn plain_text(story: &[u8]) -> Option<StoryText<'_>>
    requires { length story.now ≤ max_script }
    ensures { IfSome result (λ text. IsPackedTextOf story.now text.octets.now text.packed_len) }
{
    let octets = without_feed(story);
    match count_feeds_checked(octets) {
        Some(feeds) => Some(StoryText {
            octets,
            packed_len: octets.len() as u64 + feeds as u64,
        }),
        None => None,
    }
}
