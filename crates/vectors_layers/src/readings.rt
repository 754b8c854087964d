//! Splits octets into chunks in each way that a reader must accept, and prints sets of numbers as
//! ranges.

use crate::answers::Answers;

/// The greatest length of octets that are split at every index. Longer octets are split in the
/// middle only.
const MOST_CUT: usize = 128;

/// How octets are split into chunks.
#[derive(Clone, Copy)]
pub enum Cut {
    /// In one chunk.
    Whole,
    /// Octet by octet, with an empty chunk before each octet.
    Each,
    /// In two chunks, of which the first has this number of octets.
    At(usize),
}

impl Cut {
    /// Returns the chunk with this index, and the number of octets before it.
    pub fn piece(self, octets: &[u8], number: usize) -> Option<(usize, &[u8])> {
        let at = number / 2;
        let (from, to) = match self {
            Cut::Whole if number == 0 => (0, octets.len()),
            Cut::At(end) if number == 0 => (0, end),
            Cut::At(end) if number == 1 => (end, octets.len()),
            Cut::Each => (at, at.saturating_add(number % 2)),
            _ => return None,
        };
        Some((from, octets.get(from..to)?))
    }

    /// Returns the greatest number of chunks that these octets are split into.
    pub fn most_pieces(octets: &[u8]) -> usize {
        octets.len().saturating_mul(2).saturating_add(2)
    }
}

/// A way to read octets, whose result is a reply.
pub trait Reading {
    /// Reads the octets in these chunks.
    fn read(&self, octets: &[u8], cut: Cut) -> Answers;
}

/// Returns the split with this index, among the splits of `len` octets into more than one chunk.
fn other_cut(len: usize, number: usize) -> Option<Cut> {
    match number {
        0 => Some(Cut::Each),
        1 if len > MOST_CUT => Some(Cut::At(len / 2)),
        _ if number <= len && len <= MOST_CUT => Some(Cut::At(number)),
        _ => None,
    }
}

/// Prints a split.
fn tell_cut(answers: &mut Answers, cut: Cut) {
    match cut {
        Cut::Whole => answers.line("but whole"),
        Cut::Each => answers.line("but Each"),
        Cut::At(len) => {
            answers.number("  but At(", len as u64);
            answers.put(")\n");
        }
    }
}

/// Prints the reply for the octets in one chunk. If the reply for another split differs, prints
/// that reply too.
pub(crate) fn tell_reading<R: Reading>(answers: &mut Answers, reading: &R, octets: &[u8]) {
    let whole = reading.read(octets, Cut::Whole);
    answers.join(&whole);
    for number in 0..=MOST_CUT {
        let Some(cut) = other_cut(octets.len(), number) else {
            break;
        };
        let other = reading.read(octets, cut);
        if !other.are(&whole) {
            tell_cut(answers, cut);
            answers.join(&other);
        }
    }
}

/// A set of numbers.
pub trait Class {
    /// Checks whether the set has the number.
    fn has(&self, number: u64) -> bool;
}

/// The notation in which numbers are printed.
#[derive(Clone, Copy)]
pub enum Digits {
    /// As octets, in hexadecimal digits.
    Octets,
    /// In decimal.
    Decimal,
}

/// Prints a number.
fn tell_digits(answers: &mut Answers, number: u64, digits: Digits) {
    match digits {
        Digits::Octets => {
            let [.., octet] = number.to_be_bytes();
            answers.digits(octet);
        }
        Digits::Decimal => answers.show(&number),
    }
}

/// Prints a range of numbers, from first to last.
fn tell_range(answers: &mut Answers, first: u64, last: u64, digits: Digits) {
    answers.put(" ");
    tell_digits(answers, first, digits);
    if first != last {
        answers.put("..");
        tell_digits(answers, last, digits);
    }
}

/// Prints the numbers of a set, up to the greatest one, as ranges in one line.
pub(crate) fn tell_class<C: Class>(
    answers: &mut Answers,
    class: &C,
    greatest: u64,
    digits: Digits,
) {
    let mut first = None;
    let mut is_none = true;
    answers.put(" ");
    for number in 0..=greatest.saturating_add(1) {
        let is_in = number <= greatest && class.has(number);
        match first {
            None if is_in => first = Some(number),
            Some(from) if !is_in => {
                tell_range(answers, from, number.saturating_sub(1), digits);
                first = None;
                is_none = false;
            }
            _ => {}
        }
    }
    answers.put(if is_none { " none" } else { "" });
    answers.end();
}
