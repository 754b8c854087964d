//! A sink that counts words.

ghost use Rattle.std.specs.Prelude.{List, ℕ, ◌≡◌, ◌==◌, ◌<◌, ◌≤◌, ◌∷◌, [], false, drop, length, map, take, IsOk};
ghost use Rattle.std.specs.Simd.Lanes.{mask_l};
ghost use Rattle.wire_story.specs.Format.Texts.{LineOctet, LineEnd, WordsSoFar, is_word_octet, is_blank, words_begun, inside_after, CountsWords};
ghost use Rattle.wire_story.specs.Steps.{outside_after};

use crate::marks::BLOCK;
use crate::sink::StorySink;
use iim_dataset::Stop;
use iim_dataset::octets::{SP, TAB};
use std::marker::Model;
use std::simd::prelude::*;

/// The number of octets that are tested at once in a slice of at least this length.
const WIDE: usize = 2 * BLOCK;

/// The mask in which the bits of all 64 octets are set.
const ALL: u64 = u64::MAX;

/// A sink that counts words. A word is a longest slice, inside one line, of octets other than SP
/// and TAB. The counter saturates at `u64::MAX`. The sink accepts every call and stores no text.
///
/// Its model in contracts is the number of words, and whether the current line so far ends inside a
/// word.
#[derive(Debug, Drop)]
pub struct WordCount {
    words: u64,
    inside: bool,
}

impl Model for WordCount {
    ghost Value = { WordsSoFar };

    ghost view = { λ count. record { words = count.words; inside = count.inside } };
}

/// Checks whether an octet of a line is part of a word.
#[inline(always)]
fn belongs_to_word(octet: u8) -> bool
    ensures { result ≡ is_word_octet octet }
{
    !(octet == SP || octet == TAB)
}

/// Returns a mask of the SP and TAB in a block.
#[inline(always)]
fn block_blanks(block: &[u8]) -> u64
    requires { 16 ≤ length block.now }
    ensures { result ≡ mask_l (map is_blank (take 16 block.now)) }
{
    let octets = u8x16::from_slice(block);
    (octets.simd_eq(u8x16::splat(SP)) | octets.simd_eq(u8x16::splat(TAB))).to_bitmask()
}

/// Returns a mask of the SP and TAB in a wide block.
#[inline(always)]
fn wide_blanks(block: &[u8]) -> u64
    requires { 32 ≤ length block.now }
    ensures { result ≡ mask_l (map is_blank (take 32 block.now)) }
{
    let octets = u8x32::from_slice(block);
    (octets.simd_eq(u8x32::splat(SP)) | octets.simd_eq(u8x32::splat(TAB))).to_bitmask()
}

/// Counts the words that begin in octets of a line, given the mask of their blanks. A word begins
/// at an octet that is not a blank and follows a blank or the beginning of a line. `before` is 0 if
/// a word is in progress before the octets, and otherwise 1; `after` is 0 if a word is in progress
/// after them, and otherwise 1.
#[inline(always)]
fn count_words_begun(before: u64, octets: &[u8], blanks: u64, after: u64) -> u64
    requires short { length octets.now < 64 }
    requires blanks { blanks ≡ mask_l (map is_blank octets.now) }
    requires one { before ≤ 1 }
    requires last { after ≡ outside_after (before == 0) octets.now }
    ensures { result ≡ words_begun (before == 0) octets.now }
{
    let _ = octets;
    // If the last octet is a blank, its bit counts a word that is not there; `after` subtracts it.
    let begun = (ALL - blanks) & (blanks * 2 + before);
    u64::from(begun.count_ones()) - after
}

/// Counts the words that begin in octets of a line, in two blocks, which may overlap. Also returns
/// 1 if the last octet is a blank, and otherwise 0.
#[inline(always)]
fn count_in_two_blocks(before: u64, octets: &[u8]) -> (u64, u64)
    requires one { before ≤ 1 }
    requires some { 16 ≤ length octets.now }
    requires few { length octets.now ≤ 32 }
    ensures begun { result.0 ≡ words_begun (before == 0) octets.now }
    ensures last { result.1 ≡ outside_after (before == 0) octets.now }
{
    let first = block_blanks(octets);
    let last = block_blanks(&octets[octets.len() - BLOCK..]);
    let blanks = first + (last >> (2 * BLOCK - octets.len())) * (1 << BLOCK);
    let after = last >> (BLOCK - 1);
    (count_words_begun(before, octets, blanks, after), after)
}

/// Counts the words that begin in octets of a line, in two wide blocks, which may overlap. Also
/// returns 1 if the last octet is a blank, and otherwise 0.
#[inline(always)]
fn count_in_two_wide_blocks(before: u64, octets: &[u8]) -> (u64, u64)
    requires one { before ≤ 1 }
    requires some { 32 ≤ length octets.now }
    requires few { length octets.now < 64 }
    ensures begun { result.0 ≡ words_begun (before == 0) octets.now }
    ensures last { result.1 ≡ outside_after (before == 0) octets.now }
{
    let first = wide_blanks(octets);
    let last = wide_blanks(&octets[octets.len() - WIDE..]);
    let blanks = first + (last >> (2 * WIDE - octets.len())) * (1 << WIDE);
    let after = last >> (WIDE - 1);
    (count_words_begun(before, octets, blanks, after), after)
}

/// Counts the words that begin in octets of a line, in wide blocks, of which the last may overlap
/// the one before. Also returns 1 if the last octet is a blank, and otherwise 0.
#[inline(always)]
fn count_in_wide_blocks(before: u64, octets: &[u8]) -> (u64, u64)
    requires one { before ≤ 1 }
    requires some { 32 ≤ length octets.now }
    ensures begun { result.0 ≡ words_begun (before == 0) octets.now }
    ensures last { result.1 ≡ outside_after (before == 0) octets.now }
{
    let mut begun = 0;
    let mut after = before;
    let mut at = 0;
    while octets.len() - at >= 2 * WIDE {
        let (more, last) = count_in_two_wide_blocks(after, &octets[at..at + WIDE]);
        begun += more;
        after = last;
        at += WIDE;
    }
    let (more, last) = count_in_two_wide_blocks(after, &octets[at..]);
    (begun + more, last)
}

/// Counts the words that begin in octets of a line, in blocks as wide as the number of octets
/// allows. Also returns 1 if the last octet is a blank, and otherwise 0.
#[inline(always)]
fn count_in_blocks(before: u64, octets: &[u8]) -> (u64, u64)
    requires one { before ≤ 1 }
    requires some { 16 ≤ length octets.now }
    ensures begun { result.0 ≡ words_begun (before == 0) octets.now }
    ensures last { result.1 ≡ outside_after (before == 0) octets.now }
{
    if octets.len() < WIDE {
        return count_in_two_blocks(before, octets);
    }
    if octets.len() < 2 * WIDE {
        return count_in_two_wide_blocks(before, octets);
    }
    count_in_wide_blocks(before, octets)
}

impl WordCount {
    /// Creates a counter at the beginning of a line, with no words.
    pub fn new() -> WordCount
        ensures words { result.words ≡ 0 }
        ensures inside { result.inside ≡ false }
    {
        WordCount {
            words: 0,
            inside: false,
        }
    }

    /// Creates a counter that continues from `words` words. `inside` is whether the current line so
    /// far ends inside a word.
    pub fn resume(words: u64, inside: bool) -> WordCount
        ensures words { result.words ≡ words }
        ensures inside { result.inside ≡ inside }
    {
        WordCount { words, inside }
    }

    /// Returns the number of words so far, and whether the current line so far ends inside a word.
    /// [`WordCount::resume`] continues from these values.
    pub fn so_far(&self) -> (u64, bool)
        ensures words { result.0 ≡ self.now.words }
        ensures inside { result.1 ≡ self.now.inside }
    {
        (self.words, self.inside)
    }

    /// Returns the number of words so far.
    pub fn words(&self) -> u64
        ensures { result ≡ self.now.words }
    {
        self.words
    }

    /// Adds the words that begin in octets of the current line. `after` is 1 if the last octet is a
    /// blank, and otherwise 0.
    #[inline(always)]
    fn add(&mut self, begun: u64, after: u64)
        ensures { (xs : List ℕ) → begun ≡ words_begun self.old.inside xs → after ≡ outside_after self.old.inside xs
            → CountsWords self.old (map LineOctet xs) self.new }
    {
        self.words = self.words.saturating_add(begun);
        self.inside = after == 0;
    }

    /// Counts octets of the current line, in blocks.
    #[inline(never)]
    fn count_blocks(&mut self, octets: &[u8])
        requires { 16 ≤ length octets.now }
        ensures { CountsWords self.old (map LineOctet octets.now) self.new }
    {
        let (begun, after) = count_in_blocks(u64::from(!self.inside), octets);
        self.add(begun, after);
    }

    /// Counts an octet of the current line.
    #[inline(always)]
    fn take(&mut self, octet: u8)
        ensures { CountsWords self.old (LineOctet octet ∷ []) self.new }
    {
        if !belongs_to_word(octet) {
            self.inside = false;
            return;
        }
        if !self.inside {
            self.words = self.words.saturating_add(1);
            self.inside = true;
        }
    }

    /// Counts octets of the current line, one after another.
    #[inline(always)]
    fn count_each(&mut self, octets: &[u8])
        ensures { CountsWords self.old (map LineOctet octets.now) self.new }
    {
        for octet in octets {
            self.take(*octet);
        }
    }
}

impl StorySink for WordCount {
    ghost goes = { CountsWords };

    ghost failures = { λ sink. 0 };

    ghost use Rattle.wire_story.specs.Steps.{counts_nothing, counts_joined};

    ghost nothing = { counts_nothing };

    ghost joined = { counts_joined };

    #[inline(always)]
    fn text(&mut self, run: &[u8]) -> Result<(), Stop>
        ensures takes { IsOk result }
        ensures counts { CountsWords self.old (map LineOctet run.now) self.new }
    {
        if run.len() < BLOCK {
            self.count_each(run);
        } else {
            self.count_blocks(run);
        }
        Ok(())
    }

    fn line_end(&mut self) -> Result<(), Stop>
        ensures takes { IsOk result }
        ensures counts { CountsWords self.old (LineEnd ∷ []) self.new }
    {
        self.inside = false;
        Ok(())
    }
}
