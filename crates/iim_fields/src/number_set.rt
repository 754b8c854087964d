//! Sets of the numbers of datasets.

ghost use Rattle.std.specs.Prelude.{◌≡◌, false, true, replicate, slice_index_or, slice_set};

use std::marker::Model;

/// The number of bits of a word.
const BITS: u8 = 64;

/// A set of numbers from 0 to 255. Its model in contracts is a list of 256 Booleans: whether each
/// number is in the set.
#[derive(Drop)]
pub(crate) struct NumberSet {
    /// A bit for each number. The lowest bit of the first word is that of 0.
    words: [u64; 4],
}

impl Model for NumberSet {
    ghost use Rattle.std.specs.Prelude.{◌≡◌, Bool, List, length};
    ghost use Rattle.iim_fields.specs.StoreLayout.{members};

    ghost Value = { List Bool };

    ghost view = { λ s. members s.words };

    ghost invariant = { λ s. length s.words ≡ 4 };
}

impl NumberSet {
    /// Creates an empty set.
    #[inline(always)]
    pub(crate) fn new() -> NumberSet
        ensures { result ≡ replicate 256 false }
    {
        NumberSet { words: [0; 4] }
    }

    /// Returns a copy of the set.
    pub(crate) fn copied(&self) -> NumberSet
        ensures { result ≡ self.now }
    {
        NumberSet { words: self.words }
    }

    /// Checks whether the number is in the set.
    #[inline(always)]
    pub(crate) fn contains(&self, number: u8) -> bool
        ensures { result ≡ slice_index_or self.now number false }
    {
        let word = self.words[usize::from(number / BITS)];
        word >> (number % BITS) & 1 == 1
    }

    /// Adds a number.
    #[inline(always)]
    pub(crate) fn insert(&mut self, number: u8)
        ensures { self.new ≡ slice_set self.old number true }
    {
        self.words[usize::from(number / BITS)] |= 1 << (number % BITS);
    }
}
