//! Why an object is rejected.

ghost use Rattle.std.specs.Prelude.{◌≡◌, Some};
ghost use Rattle.iim_object.specs.Format.Causes.{number_of_size_cause, name_of_size_cause, text_of_size_cause, number_of_object_fault, name_of_object_fault, text_of_object_fault};
ghost use Rattle.iim_object.specs.declared.reading.fault.ObjectFault.TheVariants.{Size, Stopped};

use iim_dataset::Stop;
use std::error::Error;
use std::fmt;
use std::fmt::{Display, Formatter};

/// What is wrong with the sizes of an object. Each cause has a number. If several causes hold, the
/// one with the lowest number is reported.
#[derive(Clone, Copy, Debug, PartialEq, Eq)]
pub enum SizeCause {
    /// The mode states that the size is unknown, but 7:90 announces a size; or the mode states that
    /// the size is known, but no size has been announced before the first subfile.
    ModeClash = 20,
    /// The announced size, 7:90, is above the maximum, 7:95.
    SizeClash = 21,
    /// A subfile is longer than 7:20 allows.
    SubfileTooLong = 22,
    /// The total exceeds the announced size, the maximum or the greatest size of an object.
    PastSize = 23,
    /// The object ends with fewer octets than were announced.
    Short = 24,
    /// The confirmed size, 9:10, is not the total.
    ConfirmedWrong = 25,
}

impl SizeCause {
    /// Returns the number of the cause, as it is printed.
    pub fn number(self) -> u8
        ensures { result ≡ number_of_size_cause self }
    {
        self as u8
    }

    /// Returns the name of the cause, as it is printed.
    pub fn name(self) -> &'static str
        ensures { result.now ≡ name_of_size_cause self }
    {
        match self {
            SizeCause::ModeClash => "ModeClash",
            SizeCause::SizeClash => "SizeClash",
            SizeCause::SubfileTooLong => "SubfileTooLong",
            SizeCause::PastSize => "PastSize",
            SizeCause::Short => "Short",
            SizeCause::ConfirmedWrong => "ConfirmedWrong",
        }
    }
}

/// Writes the number and the name, as `20 ModeClash`.
impl Display for SizeCause {
    ghost output = { λ cause. Some (text_of_size_cause cause) };

    fn fmt<W: fmt::Write>(&self, f: &mut Formatter<W>) -> fmt::Result {
        let number = self.number();
        let name = self.name();
        write!(f, "{number} {name}")
    }
}

impl Error for SizeCause {}

/// Why a reader of objects rejected a token.
#[derive(Clone, Copy, Debug, PartialEq, Eq)]
pub enum ObjectFault {
    /// The sizes are inconsistent.
    Size {
        /// What is wrong with them.
        cause: SizeCause,
    },
    /// The sink stopped. The stop has the number of octets of the slice that the sink accepted. If
    /// this is 0, the sink may have stopped at the end of the object.
    Stopped(Stop),
}

impl ObjectFault {
    /// Returns the number of the cause, as it is printed. A stop of the sink has the number 60.
    pub fn number(self) -> u8
        ensures { result ≡ number_of_object_fault self }
    {
        match self {
            ObjectFault::Size { cause } => cause.number(),
            ObjectFault::Stopped(_) => 60,
        }
    }

    /// Returns the name of the cause, as it is printed. A stop of the sink has the name `Sink`.
    pub fn name(self) -> &'static str
        ensures { result.now ≡ name_of_object_fault self }
    {
        match self {
            ObjectFault::Size { cause } => cause.name(),
            ObjectFault::Stopped(_) => "Sink",
        }
    }
}

/// Writes the number and the name, as `20 ModeClash` or `60 Sink`.
impl Display for ObjectFault {
    ghost output = { λ fault. Some (text_of_object_fault fault) };

    fn fmt<W: fmt::Write>(&self, f: &mut Formatter<W>) -> fmt::Result {
        let number = self.number();
        let name = self.name();
        write!(f, "{number} {name}")
    }
}

impl Error for ObjectFault {}

impl From<SizeCause> for ObjectFault {
    ghost from_gives = { λ cause fault. fault ≡ Size cause };

    fn from(cause: SizeCause) -> ObjectFault
        ensures { result ≡ Size cause }
    {
        ObjectFault::Size { cause }
    }
}

impl From<Stop> for ObjectFault {
    ghost from_gives = { λ stop fault. fault ≡ Stopped stop };

    fn from(stop: Stop) -> ObjectFault
        ensures { result ≡ Stopped stop }
    {
        ObjectFault::Stopped(stop)
    }
}
