//! Why the reader of datasets rejects octets.

ghost use Rattle.std.specs.Prelude.{◌≡◌, Some};
ghost use Rattle.iim_dataset.specs.States.Reading.{tag_cause_of};
ghost use Rattle.iim_dataset.specs.Format.Faults.{number_of_dataset_cause, name_of_dataset_cause, text_of_dataset_cause, text_of_dataset_fault};

use crate::head::HeadCause;
use std::error::Error;
use std::fmt;
use std::fmt::{Display, Formatter};

/// Why an octet is rejected.
#[derive(Clone, Copy, Debug, PartialEq, Eq)]
pub enum FaultCause {
    /// The first octet of a tag is not the tag marker.
    Marker,
    /// The octets encode a count in neither the standard nor the extended form.
    CountForm,
    /// The sink stopped.
    Stopped,
}

impl FaultCause {
    /// Returns the number of the cause, as it is printed. A stop of the sink is 60.
    pub fn number(self) -> u8
        ensures { result ≡ number_of_dataset_cause self }
    {
        match self {
            FaultCause::Marker => 1,
            FaultCause::CountForm => 2,
            FaultCause::Stopped => 60,
        }
    }

    /// Returns the name of the cause, as it is printed. A stop of the sink is `Sink`.
    pub fn name(self) -> &'static str
        ensures { result.now ≡ name_of_dataset_cause self }
    {
        match self {
            FaultCause::Marker => "Marker",
            FaultCause::CountForm => "CountForm",
            FaultCause::Stopped => "Sink",
        }
    }
}

/// Writes the number and the name, as `1 Marker`.
impl Display for FaultCause {
    ghost output = { λ cause. Some (text_of_dataset_cause cause) };

    fn fmt<W: fmt::Write>(&self, f: &mut Formatter<W>) -> fmt::Result {
        let number = self.number();
        let name = self.name();
        write!(f, "{number} {name}")
    }
}

impl Error for FaultCause {}

/// An octet of a chunk was rejected.
#[derive(Clone, Copy, Debug, PartialEq, Eq)]
pub struct Fault {
    /// Why the octet was rejected.
    pub cause: FaultCause,
    /// The number of octets of the chunk before the rejected one.
    pub used: usize,
}

/// Writes the number of octets before the rejected one, and the cause, as `refused after 5 octets,
/// cause 1 Marker`.
impl Display for Fault {
    ghost output = { λ fault. Some (text_of_dataset_fault fault) };

    fn fmt<W: fmt::Write>(&self, f: &mut Formatter<W>) -> fmt::Result {
        let used = self.used;
        let cause = self.cause;
        write!(f, "refused after {used} octets, cause {cause}")
    }
}

impl Error for Fault {}

/// Converts the reason why octets are not a tag to the cause of a fault.
pub(crate) fn tag_fault(cause: HeadCause) -> FaultCause
    ensures { tag_cause_of result ≡ Some cause }
{
    match cause {
        HeadCause::Marker => FaultCause::Marker,
        HeadCause::CountForm => FaultCause::CountForm,
    }
}
