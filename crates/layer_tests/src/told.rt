//! The log of the tests.

use std::alloc::Global;
use std::fmt::{Debug, Display};
use std::io::Write;

/// The lines that the tests have logged so far. After a failed allocation the log has no text, so
/// that a test need not check each line for errors.
#[derive(Drop)]
pub struct TestLog {
    text: Vec<u8>,
    is_cut: bool,
}

impl TestLog {
    /// Creates an empty log.
    pub(crate) fn new(alloc: Global) -> TestLog {
        TestLog {
            text: Vec::new(alloc),
            is_cut: false,
        }
    }

    /// Returns the text of the lines, or `None` if an allocation failed.
    pub fn text(&self) -> Option<&[u8]> {
        if self.is_cut {
            return None;
        }
        Some(self.text.as_slice())
    }

    /// Appends text.
    pub(crate) fn put(&mut self, words: &str) {
        if self.text.extend_from_slice(words.as_bytes()).is_err() {
            self.is_cut = true;
        }
    }

    /// Appends text and then the printed form of a value.
    fn show<T: Display>(&mut self, words: &str, value: &T) {
        self.put(words);
        if write!(self.text, "{value}").is_err() {
            self.is_cut = true;
        }
    }

    /// Appends text and then a result.
    pub(crate) fn answer<A: Debug>(&mut self, words: &str, answer: &A) {
        self.put(words);
        if write!(self.text, "{answer:?}").is_err() {
            self.is_cut = true;
        }
    }

    /// Appends text and then octets.
    pub(crate) fn octets(&mut self, words: &str, octets: &[u8]) {
        self.show(words, &octets.escape_ascii());
    }

    /// Begins a line of the log with the name of a test, text and a result.
    pub(crate) fn begin<A: Debug>(&mut self, trial: &str, words: &str, answer: &A) {
        self.put(trial);
        self.put(":");
        self.answer(words, answer);
    }

    /// Begins a line of the log with the name of a test, text and octets.
    pub(crate) fn begin_octets(&mut self, trial: &str, words: &str, octets: &[u8]) {
        self.put(trial);
        self.put(":");
        self.octets(words, octets);
    }

    /// Ends a line with text.
    pub(crate) fn end_words(&mut self, words: &str) {
        self.put(words);
        self.put("\n");
    }

    /// Ends a line with text and a result.
    pub(crate) fn end<A: Debug>(&mut self, words: &str, answer: &A) {
        self.answer(words, answer);
        self.put("\n");
    }

    /// Ends a line with text and octets.
    pub(crate) fn end_octets(&mut self, words: &str, octets: &[u8]) {
        self.octets(words, octets);
        self.put("\n");
    }

    /// Ends a line with text and the printed form of a value.
    pub(crate) fn end_shown<T: Display>(&mut self, words: &str, value: &T) {
        self.show(words, value);
        self.put("\n");
    }

    /// Appends a line with the name of a test, text and a result.
    pub(crate) fn line<A: Debug>(&mut self, trial: &str, words: &str, answer: &A) {
        self.begin(trial, words, answer);
        self.put("\n");
    }

    /// Appends a line with the name of a test, text and octets.
    pub(crate) fn line_of_octets(&mut self, trial: &str, words: &str, octets: &[u8]) {
        self.begin_octets(trial, words, octets);
        self.put("\n");
    }

    /// Appends a line with the name of a test and the printed form of a value.
    pub(crate) fn line_shown<T: Display>(&mut self, trial: &str, value: &T) {
        self.put(trial);
        self.end_shown(": ", value);
    }

    /// Appends a line with the name of a test and text.
    pub(crate) fn line_of_words(&mut self, trial: &str, words: &str) {
        self.line_shown(trial, &words);
    }

    /// Appends a line with the name of a test, a result and octets.
    pub(crate) fn line_and_octets<A: Debug>(&mut self, trial: &str, answer: &A, octets: &[u8]) {
        self.begin(trial, " ", answer);
        self.end_octets(" ", octets);
    }

    /// Appends a line for a writer that fails after `good` successful calls, with the result and
    /// octets.
    pub(crate) fn line_after<A: Debug>(
        &mut self,
        trial: &str,
        good: u64,
        answer: &A,
        octets: &[u8],
    ) {
        self.begin(trial, " ", &good);
        self.answer(" good: ", answer);
        self.end_octets(" ", octets);
    }
}

/// Counts how often an octet occurs.
pub(crate) fn count_of(octet: u8, octets: &[u8]) -> usize {
    let mut count = 0usize;
    for other in octets {
        if *other == octet {
            count = count.saturating_add(1);
        }
    }
    count
}
