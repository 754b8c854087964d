//! Why a packer rejects a call.

ghost use Rattle.std.specs.Prelude.{◌≡◌, Some};
ghost use Rattle.iim_object.specs.Format.Causes.{pack_number, pack_name, pack_text, start_text};

use std::error::Error;
use std::fmt;
use std::fmt::{Debug, Display, Formatter};

/// Why a packer rejects a call. Each cause has a number.
#[derive(Clone, Copy, Debug, PartialEq, Eq)]
pub enum PackCause {
    /// The allocation failed.
    OutOfMemory = 70,
    /// The object so far, together with these octets and the shortest possible ending, would exceed
    /// the bound of the plan.
    PastAnnounced = 80,
    /// The object would be shorter than the known size.
    ShortOfAnnounced = 81,
    /// An octet is not allowed in a line.
    BadTextOctet = 82,
    /// The octets are not a valid trailer.
    BadTrailer = 83,
    /// The writer failed, a write accepted no octet, or the writer was interrupted a million times
    /// in a row.
    Write = 84,
    /// An earlier call returned `Write`.
    Failed = 85,
}

impl PackCause {
    /// Returns the number of the cause, as it is printed.
    pub fn number(self) -> u8
        ensures { result ≡ pack_number self }
    {
        self as u8
    }

    /// Returns the name of the cause, as it is printed.
    pub fn name(self) -> &'static str
        ensures { result.now ≡ pack_name self }
    {
        match self {
            PackCause::OutOfMemory => "OutOfMemory",
            PackCause::PastAnnounced => "PastAnnounced",
            PackCause::ShortOfAnnounced => "ShortOfAnnounced",
            PackCause::BadTextOctet => "BadTextOctet",
            PackCause::BadTrailer => "BadTrailer",
            PackCause::Write => "Write",
            PackCause::Failed => "Failed",
        }
    }
}

/// Writes the number and the name, as `80 PastAnnounced`.
impl Display for PackCause {
    ghost output = { λ cause. Some (pack_text cause) };

    fn fmt<W: fmt::Write>(&self, f: &mut Formatter<W>) -> fmt::Result {
        let number = self.number();
        let name = self.name();
        write!(f, "{number} {name}")
    }
}

impl Error for PackCause {}

/// An error at the start of an object or envelope. It has the writer, so that the caller gets the
/// writer back.
#[derive(Debug, Drop)]
pub struct StartFault<W> {
    /// Why the writing did not start.
    pub cause: PackCause,
    /// The writer, in its current state.
    pub writer: W,
    /// The number of octets that were written.
    pub written: u64,
}

/// Writes the cause and the number of octets written, as `cause 84 Write, octets written 10`.
impl<W> Display for StartFault<W> {
    ghost output = { λ fault. Some (start_text fault.cause fault.written) };

    fn fmt<F: fmt::Write>(&self, f: &mut Formatter<F>) -> fmt::Result {
        let cause = self.cause;
        let written = self.written;
        write!(f, "cause {cause}, octets written {written}")
    }
}

impl<W: Debug + Drop> Error for StartFault<W> {}
