//! The error by which a sink rejects an octet.

ghost use Rattle.std.specs.Prelude.{Some};
ghost use Rattle.iim_dataset.specs.Format.Faults.{text_of_stop};

use std::error::Error;
use std::fmt;
use std::fmt::{Display, Formatter};

/// The error of a sink that rejected an octet of the slice that it received.
#[derive(Clone, Copy, Debug, PartialEq, Eq)]
pub struct Stop {
    /// The number of octets of the slice before the rejected one.
    pub taken: usize,
}

/// Writes the number of octets that the sink accepted, as `stopped after 5 octets`.
impl Display for Stop {
    ghost output = { λ stop. Some (text_of_stop stop) };

    fn fmt<W: fmt::Write>(&self, f: &mut Formatter<W>) -> fmt::Result {
        let taken = self.taken;
        write!(f, "stopped after {taken} octets")
    }
}

impl Error for Stop {}
