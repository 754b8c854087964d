//! The results of calls and tests.

use std::alloc::AllocError;
use std::{fmt, io};

/// Why a call or a test did not have the expected result.
#[derive(Clone, Copy)]
pub enum Trouble {
    /// An allocation failed, and nothing else changed.
    OutOfMemory,
    /// An allocation failed at the envelope with this number, and nothing else changed.
    OutOfMemoryAt(u64),
    /// The allocation of the lines failed at the octet with this offset. The other numbers are
    /// those of the lines, and of their octets.
    StoppedAt(u64, usize, usize),
    /// Any other result, in the row or after the calls with this number.
    WrongAt(usize),
    /// Any other result.
    Wrong,
}

impl fmt::Display for Trouble {
    fn fmt<W: fmt::Write>(&self, f: &mut fmt::Formatter<W>) -> fmt::Result {
        match self {
            Trouble::OutOfMemory => f.write_str("out of memory"),
            Trouble::OutOfMemoryAt(envelope) => write!(f, "out of memory at envelope {envelope}"),
            Trouble::StoppedAt(octet, lines, octets) => {
                write!(
                    f,
                    "stopped at octet {octet}, lines {lines}, octets {octets}"
                )
            }
            Trouble::WrongAt(place) => write!(f, "wrong at {place}"),
            Trouble::Wrong => f.write_str("wrong"),
        }
    }
}

impl From<AllocError> for Trouble {
    fn from(_: AllocError) -> Trouble {
        Trouble::OutOfMemory
    }
}

/// Checks that a result is as expected.
pub(crate) fn right(is_right: bool) -> Result<(), Trouble> {
    if is_right {
        Ok(())
    } else {
        Err(Trouble::Wrong)
    }
}

/// Checks that a result is as expected. An error reports `place`, the number of the row or of the
/// calls before.
pub(crate) fn right_at(place: usize, is_right: bool) -> Result<(), Trouble> {
    if is_right {
        Ok(())
    } else {
        Err(Trouble::WrongAt(place))
    }
}

/// Checks that a result is as expected. `was_refused` is whether an earlier allocation failed.
pub(crate) fn right_after(is_right: bool, was_refused: bool) -> Result<(), Trouble> {
    match (is_right, was_refused) {
        (true, false) => Ok(()),
        (true, true) => Err(Trouble::OutOfMemory),
        (false, _) => Err(Trouble::Wrong),
    }
}

/// The reason why no further call is made.
#[derive(Clone, Copy)]
pub enum End {
    /// A call failed twice.
    Refused,
    /// A write to the output failed.
    CannotWrite,
    /// A test did not have the expected result.
    Wrong,
}

impl From<io::Error> for End {
    fn from(_: io::Error) -> End {
        End::CannotWrite
    }
}
