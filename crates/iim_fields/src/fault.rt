//! Why a dataset is rejected.

ghost use Rattle.std.specs.Prelude.{◌≡◌, Some};
ghost use Rattle.iim_fields.specs.Format.Causes.{number_of_cause, name_of_cause, name_of_copy, number_of_copy, text_of_cause, text_of_copy, text_of_field};

use iim_dataset::DatasetName;
use std::alloc::AllocError;
use std::error::Error;
use std::fmt;
use std::fmt::{Display, Formatter};

/// The cause of a fault, with its number. If a dataset has several faults, the one with the lowest
/// number is reported, so that the causes of the record layer precede those of the limits.
#[derive(Clone, Copy, Debug, PartialEq, Eq)]
pub enum FieldCause {
    /// The record is neither the current one nor the next.
    RecordOrder = 10,
    /// Record 7, 8 or 9 has no dataset with this number.
    UnknownDataset = 11,
    /// The dataset must not repeat, and has already occurred.
    Repeated = 12,
    /// The number of octets is outside the bounds of the dataset's row in the tables.
    CountRange = 13,
    /// The next record begins, but a mandatory dataset of the current record is missing.
    Missing = 14,
    /// The octets are not a value of the dataset's kind.
    BadValue = 15,
    /// 1:20 File Format is not 2.
    FileFormat = 16,
    /// The octets of data of records 1 and 2 exceed their limit.
    HeaderFull = 50,
    /// The datasets of records 1 and 2 exceed the limit on their number.
    TooManyFields = 51,
}

impl FieldCause {
    /// Returns the number of the cause, as it is printed.
    pub fn number(self) -> u8
        ensures { result ≡ number_of_cause self }
    {
        self as u8
    }

    /// Returns the name of the cause, as it is printed.
    pub fn name(self) -> &'static str
        ensures { result.now ≡ name_of_cause self }
    {
        match self {
            FieldCause::RecordOrder => "RecordOrder",
            FieldCause::UnknownDataset => "UnknownDataset",
            FieldCause::Repeated => "Repeated",
            FieldCause::CountRange => "CountRange",
            FieldCause::Missing => "Missing",
            FieldCause::BadValue => "BadValue",
            FieldCause::FileFormat => "FileFormat",
            FieldCause::HeaderFull => "HeaderFull",
            FieldCause::TooManyFields => "TooManyFields",
        }
    }
}

/// Writes the number and the name, as `14 Missing`.
impl Display for FieldCause {
    ghost output = { λ cause. Some (text_of_cause cause) };

    fn fmt<W: fmt::Write>(&self, f: &mut Formatter<W>) -> fmt::Result {
        let number = self.number();
        let name = self.name();
        write!(f, "{number} {name}")
    }
}

impl Error for FieldCause {}

/// A rejected dataset, and the reason. For [`FieldCause::Missing`] it is the missing dataset with
/// the lowest number.
#[derive(Clone, Copy, Debug, PartialEq, Eq)]
pub struct FieldFault {
    /// The record of the dataset.
    pub rec: u8,
    /// The number of the dataset within its record.
    pub set: u8,
    /// Why the dataset is rejected.
    pub cause: FieldCause,
}

/// Writes the dataset and the cause, as `refused on 1:70, cause 14 Missing`.
impl Display for FieldFault {
    ghost output = { λ fault. Some (text_of_field fault) };

    fn fmt<W: fmt::Write>(&self, f: &mut Formatter<W>) -> fmt::Result {
        let dataset = DatasetName {
            rec: self.rec,
            set: self.set,
        };
        let cause = self.cause;
        write!(f, "refused on {dataset}, cause {cause}")
    }
}

impl Error for FieldFault {}

/// Why an envelope cannot be copied into a builder.
#[derive(Clone, Copy, Debug, PartialEq, Eq)]
pub enum CopyFault {
    /// The datasets of the envelope exceed a limit: `HeaderFull` or, if the octets do not exceed
    /// theirs, `TooManyFields`.
    Passed(FieldCause),
    /// The allocation failed.
    OutOfMemory,
}

impl CopyFault {
    /// Returns the number of the cause, as it is printed. A failed allocation has the number 70.
    pub fn number(self) -> u8
        ensures { result ≡ number_of_copy self }
    {
        match self {
            CopyFault::Passed(cause) => cause.number(),
            CopyFault::OutOfMemory => 70,
        }
    }

    /// Returns the name of the cause, as it is printed.
    pub fn name(self) -> &'static str
        ensures { result.now ≡ name_of_copy self }
    {
        match self {
            CopyFault::Passed(cause) => cause.name(),
            CopyFault::OutOfMemory => "OutOfMemory",
        }
    }
}

/// Writes the number and the name, as `50 HeaderFull`.
impl Display for CopyFault {
    ghost output = { λ fault. Some (text_of_copy fault) };

    fn fmt<W: fmt::Write>(&self, f: &mut Formatter<W>) -> fmt::Result {
        let code = self.number();
        let name = self.name();
        write!(f, "{code} {name}")
    }
}

impl Error for CopyFault {}

impl From<AllocError> for CopyFault {
    ghost use Rattle.iim_fields.specs.declared.fault.CopyFault.TheVariants.{OutOfMemory};

    ghost from_gives = { λ _ fault. fault ≡ OutOfMemory };

    fn from(_error: AllocError) -> CopyFault {
        CopyFault::OutOfMemory
    }
}
