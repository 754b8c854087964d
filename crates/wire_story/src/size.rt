//! Computes the length of a packed text.

ghost use Rattle.std.specs.Prelude.{◌≡◌, ◌≤◌, ◌↔◌, ◌==◌, length, count_by, take, IsSome, IfSome};
ghost use Rattle.iim_dataset.specs.Format.Octets.{lf, greatest_size};
ghost use Rattle.wire_story.specs.Format.Texts.{packed_text};

use crate::lines::Lines;
use iim_dataset::GREATEST_SIZE;
use iim_dataset::octets::LF;
use std::simd::prelude::*;

/// The number of octets that are tested at once.
const BLOCK: usize = 16;

/// Counts the LF in the first sixteen octets.
#[inline(always)]
fn feeds_in_block(block: &[u8]) -> usize
    requires { 16 ≤ length block.now }
    ensures { result ≡ count_by (λ b. b == lf) (take 16 block.now) }
{
    let octets = u8x16::from_slice(block);
    octets.simd_eq(u8x16::splat(LF)).to_bitmask().count_ones() as usize
}

/// Counts the LF in the octets, one after another.
fn feeds_in_rest(octets: &[u8]) -> usize
    ensures { result ≡ count_by (λ b. b == lf) octets.now }
{
    octets.iter().filter(|octet| **octet == LF).count()
}

/// Counts the line ends in lines that are joined by LF.
fn line_ends(octets: &[u8]) -> usize
    ensures { result ≡ count_by (λ b. b == lf) octets.now }
{
    let mut at = 0;
    let mut count = 0;
    while octets.len() - at >= BLOCK {
        count += feeds_in_block(&octets[at..]);
        at += BLOCK;
    }
    count + feeds_in_rest(&octets[at..])
}

/// Returns the length of the lines joined by CR LF, in octets, or `None` if it exceeds the greatest
/// size of an object.
pub fn text_len(lines: &Lines) -> Option<u64>
    ensures len { IfSome result (λ len. len ≡ length (packed_text lines.now.lines)) }
    ensures fits { IsSome result ↔ (length (packed_text lines.now.lines) ≤ greatest_size) }
{
    let octets = lines.octets();
    let len = (octets.len() as u64).checked_add(line_ends(octets) as u64)?;
    if len <= GREATEST_SIZE {
        Some(len)
    } else {
        None
    }
}
