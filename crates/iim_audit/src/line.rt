//! Lines of a report, in a buffer of fixed length. A line is built from its end to its beginning,
//! so that the digits of a number are written in place.

ghost use Rattle.std.specs.Prelude.{◌≡◌, ◌+◌, ◌*◌, ◌≤◌, [], ◌++◌, decimal, length};
ghost use Rattle.iim_dataset.specs.Format.Datasets.{shown, shown_octet};

use iim_dataset::internals::{escaped, is_plain};
use itoa::write_digits;
use std::marker::Model;

/// The capacity of a line in octets. No line of a report is longer.
pub(crate) const ROOM: usize = 272;

/// A line of a report, as it is printed. It allocates nothing. Its model in contracts is the list
/// of its octets.
#[derive(Drop)]
pub struct ReportLine {
    room: [u8; ROOM],
    // The index of the first octet. The octets of the line are at the end of the buffer.
    from: usize,
}

impl Model for ReportLine {
    ghost use Rattle.std.specs.Prelude.{ℕ, ◌≤◌, List, drop};

    ghost Value = { List ℕ };

    ghost view = { λ line. drop line.from line.room };

    ghost invariant = { λ line. line.from ≤ 272 };
}

impl ReportLine {
    /// Creates an empty line.
    pub(crate) fn new() -> ReportLine
        ensures { result ≡ [] }
    {
        ReportLine {
            room: [0; ROOM],
            from: ROOM,
        }
    }

    /// Returns the octets of the line.
    pub fn as_slice(&self) -> &[u8]
        ensures { result.now ≡ self.now }
    {
        &self.room[self.from..]
    }

    /// Inserts octets at the front.
    #[inline(always)]
    pub(crate) fn prepend(&mut self, octets: &[u8])
        requires { length self.old + length octets.now ≤ ROOM }
        ensures octets { self.new ≡ octets.now ++ self.old }
        ensures len { length self.new ≡ length self.old + length octets.now }
    {
        let from = self.from - octets.len();
        self.room[from..self.from].copy_from_slice(octets);
        self.from = from;
    }

    /// Inserts a number at the front, in decimal.
    pub(crate) fn prepend_number(&mut self, number: u64)
        requires { length self.old + 20 ≤ ROOM }
        ensures octets { self.new ≡ decimal number ++ self.old }
        ensures len { length self.new ≤ length self.old + 20 }
    {
        self.from = write_digits(number, &mut self.room, self.from);
    }

    /// Inserts an octet at the front, escaped if it is not printable.
    fn prepend_shown_octet(&mut self, octet: u8)
        requires { length self.old + 4 ≤ ROOM }
        ensures octets { self.new ≡ shown_octet octet ++ self.old }
        ensures len { length self.new ≤ length self.old + 4 }
    {
        if is_plain(octet) {
            self.prepend(&[octet]);
        } else {
            self.prepend(&escaped(octet));
        }
    }

    /// Inserts octets at the front, each escaped if it is not printable.
    pub(crate) fn prepend_shown(&mut self, octets: &[u8])
        requires { length self.old + 4 * length octets.now ≤ ROOM }
        ensures octets { self.new ≡ shown octets.now ++ self.old }
        ensures len { length self.new ≤ length self.old + 4 * length octets.now }
    {
        let mut left = octets.len();
        while left > 0 {
            left -= 1;
            self.prepend_shown_octet(octets[left]);
        }
    }
}
