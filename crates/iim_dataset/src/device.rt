//! Errors and counters for both sources and targets.

ghost use Rattle.std.specs.Prelude.{◌≡◌, ◌≢◌, ◌↔◌, None, Some};
ghost use Rattle.std.specs.IoError.{error_kind};
ghost use Rattle.iim_dataset.specs.States.Devices.{CountedFailure, CountedFault, faulty};
ghost use Rattle.iim_dataset.specs.Format.Datasets.{text_of_fault};

use std::fmt::{Display, Formatter};
use std::io::{Error, ErrorKind};
use std::{error, fmt};

/// Why a read or a write transferred no octet.
#[derive(Clone, Copy, Debug, PartialEq, Eq)]
pub enum IoFault {
    /// A signal interrupted the call, which can be repeated.
    Interrupted,
    /// The reader or the writer failed.
    Failed,
}

impl IoFault {
    /// Returns the text of the error, as it is printed.
    pub fn text(self) -> &'static str
        ensures { result.now ≡ text_of_fault self }
    {
        match self {
            IoFault::Interrupted => "the device was interrupted",
            IoFault::Failed => "the device failed",
        }
    }
}

impl Display for IoFault {
    ghost output = { λ fault. Some (text_of_fault fault) };

    fn fmt<W: fmt::Write>(&self, f: &mut Formatter<W>) -> fmt::Result {
        f.write_str(self.text())
    }
}

impl error::Error for IoFault {}

/// The number of consecutive interruptions after which a call returns an error instead of a retry.
pub(crate) const MAX_INTERRUPTIONS: u32 = 1_000_000;

/// Converts an error of `std`: the kind `Interrupted` is an interruption, and any other kind is a
/// failure.
fn fault_of(error: Error) -> IoFault
    ensures interrupted { (result ≡ IoFault.Interrupted) ↔ (error_kind error ≡ ErrorKind.Interrupted) }
    ensures failed { (result ≡ IoFault.Failed) ↔ (error_kind error ≢ ErrorKind.Interrupted) }
{
    match error.kind() {
        ErrorKind::Interrupted => IoFault::Interrupted,
        _ => IoFault::Failed,
    }
}

/// Counters of the failures and interruptions of a `std` reader or writer. They saturate at
/// `u64::MAX`.
#[derive(Clone, Copy)]
pub(crate) struct Faults {
    failures: u64,
    interruptions: u64,
}

impl Faults {
    /// Creates counters that are zero.
    pub(crate) fn new() -> Faults
        ensures { result ≡ record { failures = 0; interruptions = 0 } }
    {
        Faults {
            failures: 0,
            interruptions: 0,
        }
    }

    /// Counts a failure.
    pub(crate) fn fail(&mut self)
        ensures { CountedFailure (faulty None self.old) (faulty None self.new) }
    {
        self.failures = self.failures.saturating_add(1);
    }

    /// Counts an error of `std`, and returns what it is: the kind `Interrupted` is an interruption,
    /// and any other kind is a failure.
    pub(crate) fn count(&mut self, error: Error) -> IoFault
        ensures counted { CountedFault (faulty None self.old) (faulty None self.new) result }
        ensures interrupted { (result ≡ IoFault.Interrupted) ↔ (error_kind error ≡ ErrorKind.Interrupted) }
        ensures failed { (result ≡ IoFault.Failed) ↔ (error_kind error ≢ ErrorKind.Interrupted) }
    {
        let fault = fault_of(error);
        match fault {
            IoFault::Interrupted => self.interruptions = self.interruptions.saturating_add(1),
            IoFault::Failed => self.fail(),
        }
        fault
    }
}
