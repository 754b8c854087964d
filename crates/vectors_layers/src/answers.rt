//! The reply to a question.

use iim_dataset::{DatasetName, push_with_escapes};
use std::alloc::Global;
use std::fmt::{Debug, Display};
use std::io::Write;

/// The reply to a question. Errors, such as a failed allocation, are stored and reported at the
/// end, so that the code for a question need not check for them in each line.
#[derive(Drop)]
pub struct Answers {
    text: Vec<u8>,
    fault: Option<&'static str>,
}

/// The error if an allocation failed.
const NO_MEMORY: &str = "memory was refused";

/// Returns the hexadecimal digit, in upper case, of a number below 16.
fn digit_of(number: u8) -> u8 {
    let zero = if number < 10 { b'0' } else { b'A' - 10 };
    zero.saturating_add(number)
}

/// Checks whether octets can be printed in quotes: all are printable ASCII, and none is a quote.
fn are_plain(octets: &[u8]) -> bool {
    for octet in octets {
        if !matches!(*octet, b' '..=b'!' | b'#'..=b'~') {
            return false;
        }
    }
    true
}

impl Answers {
    /// Creates an empty reply.
    pub fn new(alloc: Global) -> Answers {
        Answers {
            text: Vec::new(alloc),
            fault: None,
        }
    }

    /// Returns the text of the reply, up to the first error.
    pub fn text(&self) -> &[u8] {
        self.text.as_slice()
    }

    /// Returns the first error.
    pub fn fault(&self) -> Option<&'static str> {
        self.fault
    }

    /// Reports an error. Only the first one is stored.
    pub fn fail(&mut self, fault: &'static str) {
        if self.fault.is_none() {
            self.fault = Some(fault);
        }
    }

    /// Reports that an allocation failed.
    pub fn lack_memory(&mut self) {
        self.fail(NO_MEMORY);
    }

    /// Checks whether two replies have equal text.
    pub fn are(&self, others: &Answers) -> bool {
        self.text.as_slice() == others.text.as_slice()
    }

    /// Checks whether the last line has not been ended.
    pub fn is_begun(&self) -> bool {
        !matches!(self.text.last(), None | Some(b'\n'))
    }

    /// Appends octets unchanged.
    pub fn add(&mut self, octets: &[u8]) {
        if self.text.extend_from_slice(octets).is_err() {
            self.lack_memory();
        }
    }

    /// Appends text.
    pub fn put(&mut self, text: &str) {
        self.add(text.as_bytes());
    }

    /// Appends the printed form of a value.
    pub fn show<T: Display>(&mut self, value: &T) {
        if write!(self.text, "{value}").is_err() {
            self.lack_memory();
        }
    }

    /// Appends the name of an enum variant.
    pub fn name<T: Debug>(&mut self, choice: &T) {
        if write!(self.text, "{choice:?}").is_err() {
            self.lack_memory();
        }
    }

    /// Appends a label and a number.
    pub fn number(&mut self, label: &str, number: u64) {
        self.put(label);
        self.show(&number);
    }

    /// Appends a label, and a number or a dash.
    pub fn number_or_dash(&mut self, label: &str, number: Option<u64>) {
        self.put(label);
        match number {
            Some(number) => self.show(&number),
            None => self.put("-"),
        }
    }

    /// Appends a label, and `true` or `false`.
    pub fn holds(&mut self, label: &str, holds: bool) {
        self.put(label);
        self.put(if holds { "true" } else { "false" });
    }

    /// Appends a label and the name of a dataset.
    pub fn dataset(&mut self, label: &str, rec: u8, set: u8) {
        self.put(label);
        self.show(&DatasetName { rec, set });
    }

    /// Appends an octet in hexadecimal digits.
    pub fn digits(&mut self, octet: u8) {
        self.add(&[digit_of(octet >> 4), digit_of(octet & 15)]);
    }

    /// Appends octets in hexadecimal digits.
    pub fn hexadecimal(&mut self, octets: &[u8]) {
        for octet in octets {
            self.digits(*octet);
        }
    }

    /// Appends octets: `-` if there are none; text in quotes if all octets are printable ASCII and
    /// none is a quote; otherwise hexadecimal digits.
    pub fn octets(&mut self, octets: &[u8]) {
        if octets.is_empty() {
            self.put("-");
        } else if are_plain(octets) {
            self.put("\"");
            self.add(octets);
            self.put("\"");
        } else {
            self.hexadecimal(octets);
        }
    }

    /// Appends items of octets, each after a space.
    pub fn each(&mut self, all: &[&[u8]]) {
        for octets in all {
            self.put(" ");
            self.octets(octets);
        }
    }

    /// Appends octets as the libraries escape them.
    pub fn shown(&mut self, octets: &[u8]) {
        if push_with_escapes(&mut self.text, octets).is_err() {
            self.lack_memory();
        }
    }

    /// Ends the line.
    pub fn end(&mut self) {
        self.put("\n");
    }

    /// Appends a line of text.
    pub fn line(&mut self, line: &str) {
        self.put("  ");
        self.put(line);
        self.end();
    }

    /// Appends a line with a label and octets.
    pub fn octets_line(&mut self, label: &str, octets: &[u8]) {
        self.put(label);
        self.octets(octets);
        self.end();
    }

    /// Appends a line with a label and a number.
    pub fn number_line(&mut self, label: &str, number: u64) {
        self.number(label, number);
        self.end();
    }

    /// Appends a line with a label, the name of a dataset and its data.
    pub fn field_line(&mut self, label: &str, rec: u8, set: u8, octets: &[u8]) {
        self.dataset(label, rec, set);
        self.each(&[octets]);
        self.end();
    }

    /// Appends a line with the printed form of a value.
    pub fn tell<T: Display>(&mut self, line: &T) {
        self.put("  ");
        self.show(line);
        self.end();
    }

    /// Appends a line with the printed form of a value, or `none`.
    pub fn found<T: Display + Drop>(&mut self, found: Option<T>) {
        match found {
            Some(value) => self.tell(&value),
            None => self.line("none"),
        }
    }

    /// Appends a line: `yes` if `holds` is true, otherwise `no`.
    pub fn truth(&mut self, holds: bool) {
        self.line(if holds { "yes" } else { "no" });
    }

    /// Appends another reply.
    pub fn join(&mut self, others: &Answers) {
        self.add(others.text.as_slice());
        if let Some(fault) = others.fault {
            self.fail(fault);
        }
    }
}
