//! Parses the words of a question, and the octets in them.

use std::alloc::Global;

/// The largest number of octets that a question may repeat.
const MOST: u64 = 1_000_000;

/// The largest number of arguments of a question that takes any number of them.
pub const MOST_ARGUMENTS: u32 = 1_000;

/// Returns the value of a hexadecimal digit in upper case.
fn digit(octet: u8) -> Option<u8> {
    match octet {
        b'0'..=b'9' => octet.checked_sub(b'0'),
        b'A'..=b'F' => octet.checked_sub(b'A' - 10),
        _ => None,
    }
}

/// Parses a decimal number.
pub fn number_of(digits: &[u8]) -> Option<u64> {
    if digits.is_empty() {
        return None;
    }
    let mut number = 0u64;
    for octet in digits {
        let digit = octet.checked_sub(b'0')?;
        if digit > 9 {
            return None;
        }
        number = number.checked_mul(10)?.checked_add(u64::from(digit))?;
    }
    Some(number)
}

/// Splits octets at an index.
fn parted(octets: &[u8], at: usize) -> (&[u8], &[u8]) {
    (
        octets.get(..at).unwrap_or(octets),
        octets.get(at..).unwrap_or(&[]),
    )
}

/// Returns the number of octets before the first `end`.
fn len_before(octets: &[u8], end: u8) -> usize {
    let mut len = 0usize;
    for octet in octets {
        if *octet == end {
            break;
        }
        len = len.saturating_add(1);
    }
    len
}

/// Splits octets at the first `end`, which is removed. Returns `None` if there is no such octet.
fn cut_at(octets: &[u8], end: u8) -> Option<(&[u8], &[u8])> {
    match parted(octets, len_before(octets, end)) {
        (before, [_, after @ ..]) => Some((before, after)),
        _ => None,
    }
}

/// Checks whether an octet is allowed in a name.
fn is_in_name(octet: u8) -> bool {
    octet == b'_' || octet.is_ascii_lowercase()
}

/// Returns the number of octets before the first one that is not allowed in a name.
fn name_len(octets: &[u8]) -> usize {
    let mut len = 0usize;
    for octet in octets {
        if !is_in_name(*octet) {
            break;
        }
        len = len.saturating_add(1);
    }
    len
}

/// Returns the number of octets before the first that is not a decimal digit.
fn digits_len(octets: &[u8]) -> usize {
    let mut len = 0usize;
    for octet in octets {
        if !octet.is_ascii_digit() {
            break;
        }
        len = len.saturating_add(1);
    }
    len
}

/// The words of a question that have not been read yet. An invalid word is replaced with a default
/// value, and the error is reported at the end.
#[derive(Clone, Copy)]
pub struct Words<'q> {
    rest: &'q [u8],
    is_wrong: bool,
}

/// Returns the length of the first word, which ends at a space outside quotes.
fn word_len(octets: &[u8]) -> usize {
    let mut is_quoted = false;
    let mut len = 0usize;
    for octet in octets {
        if *octet == b'"' {
            is_quoted = !is_quoted;
        }
        if *octet == b' ' && !is_quoted {
            break;
        }
        len = len.saturating_add(1);
    }
    len
}

impl<'q> Words<'q> {
    /// Creates a reader of the words of a question.
    pub fn new(question: &'q [u8]) -> Words<'q> {
        Words {
            rest: question,
            is_wrong: false,
        }
    }

    /// Returns the next word.
    pub fn word(&mut self) -> &'q [u8] {
        let (word, rest) = parted(self.rest, word_len(self.rest));
        self.is_wrong |= word.is_empty();
        self.rest = rest.get(1..).unwrap_or(&[]);
        word
    }

    /// Returns the next word, as text.
    pub fn text(&mut self) -> &'q str {
        match str::from_utf8(self.word()) {
            Ok(text) => text,
            Err(_) => {
                self.is_wrong = true;
                ""
            }
        }
    }

    /// Checks whether there are more words.
    pub fn has_more(&self) -> bool {
        !self.rest.is_empty()
    }

    /// Reports that a word is invalid.
    pub fn refuse(&mut self) {
        self.is_wrong = true;
    }

    /// Parses the next word as a decimal number.
    pub fn number(&mut self) -> u64 {
        let number = number_of(self.word());
        self.is_wrong |= number.is_none();
        number.unwrap_or(0)
    }

    /// Parses the next word as a number of one octet.
    pub fn octet(&mut self) -> u8 {
        match u8::try_from(self.number()) {
            Ok(octet) => octet,
            Err(_) => {
                self.is_wrong = true;
                0
            }
        }
    }

    /// Parses the next word as a number, or `-` for `None`.
    pub fn number_or_none(&mut self) -> Option<u64> {
        let word = self.word();
        if matches!(word, b"-") {
            return None;
        }
        let number = number_of(word);
        self.is_wrong |= number.is_none();
        number
    }

    /// Parses the next word as two numbers below 2^32 with a slash between them.
    pub fn pair(&mut self) -> (u32, u32) {
        let pair = pair_of(self.word());
        self.is_wrong |= pair.is_none();
        pair.unwrap_or((0, 0))
    }

    /// Parses the next word as octets.
    pub fn octets(&mut self, names: &Names) -> Vec<u8> {
        let octets = names.octets_of(self.word());
        self.is_wrong |= octets.is_none();
        octets.unwrap_or(Vec::new(names.alloc))
    }

    /// Checks whether all words were valid, and all were read.
    pub fn are_right(&self) -> bool {
        !self.is_wrong && self.rest.is_empty()
    }
}

/// Parses a decimal number below 2^32.
fn short_number_of(digits: &[u8]) -> Option<u32> {
    u32::try_from(number_of(digits)?).ok()
}

/// Parses two numbers with a slash between them.
fn pair_of(word: &[u8]) -> Option<(u32, u32)> {
    let (first, second) = cut_at(word, b'/')?;
    Some((short_number_of(first)?, short_number_of(second)?))
}

/// A name, with its octets.
#[derive(Drop)]
struct Named {
    name: Vec<u8>,
    octets: Vec<u8>,
}

/// The names that were given so far, with their octets.
#[derive(Drop)]
pub struct Names {
    alloc: Global,
    named: Vec<Named>,
}

impl Names {
    /// Creates the value without any name.
    pub fn new(alloc: Global) -> Names {
        Names {
            alloc,
            named: Vec::new(alloc),
        }
    }

    /// Gives octets a name. The next two words are the name and the octets.
    pub fn name(&mut self, words: &mut Words) {
        let word = words.word();
        let octets = words.octets(self);
        let mut name = Vec::new(self.alloc);
        let is_kept = name.extend_from_slice(word).is_ok()
            && name_len(word) == word.len()
            && self.named.push(Named { name, octets }).is_ok();
        if !is_kept {
            words.refuse();
        }
    }

    /// Returns the octets with this name. If the name was given more than once, returns the last
    /// octets.
    fn find(&self, name: &[u8]) -> Option<&[u8]> {
        let mut found = None;
        for named in self.named.as_slice() {
            if named.name.as_slice() == name {
                found = Some(named.octets.as_slice());
            }
        }
        found
    }

    /// Parses the octets that a word specifies.
    fn octets_of(&self, word: &[u8]) -> Option<Vec<u8>> {
        let mut octets = Vec::new(self.alloc);
        if matches!(word, b"-") {
            return Some(octets);
        }
        let mut rest = word;
        for _ in 0..word.len() {
            rest = match rest {
                [] => break,
                [b'(', more @ ..] => self.push_repeated(&mut octets, more)?,
                _ => self.push_item(&mut octets, rest)?,
            };
        }
        Some(octets)
    }

    /// Appends repeated items: the number of repetitions follows the items. Returns the remaining
    /// octets of the word.
    fn push_repeated<'w>(&self, octets: &mut Vec<u8>, rest: &'w [u8]) -> Option<&'w [u8]> {
        let Some((items, [b'*', more @ ..])) = cut_at(rest, b')') else {
            return None;
        };
        let (times, more) = parted(more, digits_len(more));
        let mut once = Vec::new(self.alloc);
        self.push_items(&mut once, items)?;
        for _ in 0..number_of(times)?.min(MOST) {
            octets.extend_from_slice(once.as_slice()).ok()?;
        }
        Some(more)
    }

    /// Appends items that are not repeated.
    fn push_items(&self, octets: &mut Vec<u8>, items: &[u8]) -> Option<()> {
        let mut rest = items;
        for _ in 0..items.len() {
            if rest.is_empty() {
                break;
            }
            rest = self.push_item(octets, rest)?;
        }
        Some(())
    }

    /// Appends the first item. Returns the remaining octets of the word.
    fn push_item<'w>(&self, octets: &mut Vec<u8>, rest: &'w [u8]) -> Option<&'w [u8]> {
        match rest {
            [b'.', more @ ..] => Some(more),
            [b'"', more @ ..] => push_text(octets, more),
            [b'$', more @ ..] => self.push_named(octets, more),
            [high, low, more @ ..] => {
                octets.push((digit(*high)? << 4) | digit(*low)?).ok()?;
                Some(more)
            }
            _ => None,
        }
    }

    /// Appends the octets with a name, or those of them between two indices. Returns the remaining
    /// octets of the word.
    fn push_named<'w>(&self, octets: &mut Vec<u8>, rest: &'w [u8]) -> Option<&'w [u8]> {
        let (name, more) = parted(rest, name_len(rest));
        let named = self.find(name)?;
        let [b'[', more @ ..] = more else {
            octets.extend_from_slice(named).ok()?;
            return Some(more);
        };
        let (places, more) = cut_at(more, b']')?;
        octets.extend_from_slice(between(named, places)?).ok()?;
        Some(more)
    }
}

/// Appends the octets up to a quote. Returns the octets after it.
fn push_text<'w>(octets: &mut Vec<u8>, rest: &'w [u8]) -> Option<&'w [u8]> {
    let (text, more) = cut_at(rest, b'"')?;
    octets.extend_from_slice(text).ok()?;
    Some(more)
}

/// Returns the octets between two indices, which the word has with a colon between them.
fn between<'n>(named: &'n [u8], places: &[u8]) -> Option<&'n [u8]> {
    let (from, to) = cut_at(places, b':')?;
    let from = if from.is_empty() { 0 } else { number_of(from)? };
    let to = if to.is_empty() {
        named.len() as u64
    } else {
        number_of(to)?
    };
    named.get(from as usize..to as usize)
}
