//! Finds the next octet that may end a line. Sixteen octets are tested at once, and the result is a
//! mask with a bit for each. All bits of a mask are used before the next sixteen octets are tested.

ghost use Rattle.std.specs.Prelude.{◌≡◌, ◌<◌, ◌≤◌, ◌+◌, ◌/◌, ◌^◌, nat_lt, count_ones, false, length, drop, map, slice_index, take};
ghost use Rattle.std.specs.Int.Count.{count_trailing_zeros};
ghost use Rattle.std.specs.Simd.Lanes.{mask_l};
ghost use Rattle.wire_story.specs.Format.Texts.{is_line_octet, IsLine};
ghost use Rattle.wire_story.specs.Steps.{is_low, MaskCovers};

use crate::line::may_be_in_line;
use std::simd::prelude::*;

/// The number of octets that are tested at once.
pub(crate) const BLOCK: usize = 16;

/// Every octet that is not allowed in a line is less than this one. Only a few allowed octets are.
const LEAST_UNMARKED: u8 = 14;

/// The sentinel bit, above the sixteen bits of a mask.
const END: u64 = 1 << 16;

/// A mask of the next octets. It marks the octets that are less than `LEAST_UNMARKED`, which are
/// called low.
#[derive(Clone, Copy)]
pub(crate) struct Marks {
    // The lowest bit belongs to the next octet. The highest bit that is set is the sentinel, above
    // the bits of the octets.
    left: u64,
}

/// Returns a mask of the low octets of a block.
#[inline(always)]
fn mask_of(block: &[u8]) -> u64
    requires { 16 ≤ length block.now }
    ensures { result ≡ mask_l (map is_low (take 16 block.now)) }
{
    let octets = u8x16::from_slice(block);
    octets.simd_lt(u8x16::splat(LEAST_UNMARKED)).to_bitmask()
}

/// Returns the number of octets before the lowest bit that is set, and the mask shifted to that
/// bit.
#[inline(always)]
fn first_marked(left: u64) -> (usize, u64)
    requires { 0 < left }
    ensures count { result.0 ≡ count_trailing_zeros 64 left }
    ensures digits { result.1 ≡ left / 2 ^ count_trailing_zeros 64 left }
{
    let calm = left.trailing_zeros() as usize;
    (calm, left >> calm)
}

/// Returns the index of the first low octet at or after `from`, found in the last block, which may
/// overlap earlier octets. Returns the number of octets if there is no low octet.
#[inline(always)]
fn next_low_octet(from: usize, octets: &[u8]) -> usize
    requires room { 16 ≤ length octets.now }
    requires within { from ≤ length octets.now }
    requires near { length octets.now ≤ from + 16 }
    requires line { IsLine (take from octets.now) }
    ensures within { result ≤ length octets.now }
    ensures line { IsLine (take result octets.now) }
{
    let start = octets.len() - BLOCK;
    let mask = mask_of(&octets[start..]);
    let (calm, _) = first_marked((mask + END) >> (from - start));
    from + calm
}

/// Returns the length of the longest prefix that is within one line. The first `from` octets must
/// be within one line.
#[inline(always)]
pub(crate) fn tail_len(from: usize, octets: &[u8]) -> usize
    requires within { from ≤ length octets.now }
    requires line { IsLine (take from octets.now) }
    ensures within { result ≤ length octets.now }
    ensures line { IsLine (take result octets.now) }
    ensures longest { result < length octets.now → is_line_octet (slice_index octets.now result) ≡ false }
{
    let mut at = from;
    if octets.len() >= BLOCK && octets.len() - from < BLOCK {
        at = next_low_octet(from, octets);
    }
    while at < octets.len() {
        if !may_be_in_line(octets[at]) {
            return at;
        }
        at += 1;
    }
    at
}

/// Returns the index of the first low octet at or after `from`, with the mask from that octet on.
/// If the complete blocks have no low octet, returns the end of the last complete block.
#[inline(always)]
fn next_marks(from: usize, octets: &[u8]) -> (usize, u64)
    requires room { from + 16 ≤ length octets.now }
    requires line { IsLine (take from octets.now) }
    ensures within { result.0 ≤ length octets.now }
    ensures line { IsLine (take result.0 octets.now) }
    ensures marks { MaskCovers (drop result.0 octets.now) (record { left = result.1 }) }
    ensures later { from ≤ result.0 }
    ensures more { result.0 ≡ from → 2 ≤ result.1 }
{
    let mut at = from;
    let mut mask = mask_of(&octets[at..]);
    while mask == 0 && octets.len() - at >= 2 * BLOCK {
        at += BLOCK;
        mask = mask_of(&octets[at..]);
    }
    let (calm, left) = first_marked(mask + END);
    (at + calm, left)
}

impl Marks {
    /// Creates a mask that covers no octets.
    #[inline(always)]
    pub(crate) fn new() -> Marks
        ensures { result ≡ record { left = 1 } }
    {
        Marks { left: 1 }
    }

    /// Returns the mask without the next `used` octets.
    #[inline(always)]
    pub(crate) fn after(self, used: usize, octets: &[u8]) -> Marks
        requires marks { MaskCovers octets.now self }
        requires within { used ≤ length octets.now }
        requires short { used < 64 }
        ensures { MaskCovers (drop used octets.now) result }
    {
        let _ = octets;
        let left = self.left >> used;
        if left == 0 {
            return Marks { left: 1 };
        }
        Marks { left }
    }

    /// Checks whether the mask marks a low octet.
    #[inline(always)]
    pub(crate) fn has_low_octet(self) -> bool
        ensures { result ≡ nat_lt 1 (count_ones self.left) }
    {
        self.left.count_ones() > 1
    }

    /// Returns the number of octets before the first one that is low or not covered by the mask.
    /// These octets are within one line.
    #[inline(always)]
    pub(crate) fn unmarked_len(self, octets: &[u8]) -> usize
        requires { MaskCovers octets.now self }
        ensures within { result ≤ length octets.now }
        ensures line { IsLine (take result octets.now) }
        ensures short { result ≤ 16 }
    {
        let _ = octets;
        first_marked(self.left).0
    }

    /// Returns the length of the longest prefix that is within one line, and the mask after it.
    #[inline(always)]
    pub(crate) fn run_len(self, octets: &[u8]) -> (usize, Marks)
        requires { MaskCovers octets.now self }
        ensures within { result.0 ≤ length octets.now }
        ensures line { IsLine (take result.0 octets.now) }
        ensures longest { result.0 < length octets.now → is_line_octet (slice_index octets.now result.0) ≡ false }
        ensures marks { MaskCovers (drop result.0 octets.now) result.1 }
    {
        let first = first_marked(self.left);
        let mut at = first.0;
        let mut left = first.1;
        while left != 1 || octets.len() - at >= BLOCK {
            if left == 1 {
                let next = next_marks(at, octets);
                at = next.0;
                left = next.1;
            } else {
                if !may_be_in_line(octets[at]) {
                    return (at, Marks { left });
                }
                let next = first_marked(left >> 1);
                at += 1 + next.0;
                left = next.1;
            }
        }
        (tail_len(at, octets), Marks { left: 1 })
    }
}
