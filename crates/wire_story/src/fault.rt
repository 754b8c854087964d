//! Why a text is rejected.

ghost use Rattle.std.specs.Prelude.{◌≡◌, ◌<◌, ◌+◌, ◌^◌, Some};
ghost use Rattle.wire_story.specs.Format.Texts.{number_of_text, name_of_text, print_of_text, print_of_fault};

use std::error::Error;
use std::fmt;
use std::fmt::{Display, Formatter};

/// Why a reader of a text rejected an octet, or the end of the text. Each cause has a number.
#[derive(Clone, Copy, Debug, PartialEq, Eq)]
pub enum TextCause {
    /// The text has a CR before this octet that no LF follows.
    LoneReturn = 40,
    /// SOH, STX, ETX or EOT occurs in the text.
    ControlOctet = 41,
    /// The sink stopped.
    Sink = 60,
}

impl TextCause {
    /// Returns the number of the cause, as it is printed.
    pub fn number(self) -> u8
        ensures { result ≡ number_of_text self }
    {
        self as u8
    }

    /// Returns the name of the cause, as it is printed.
    pub fn name(self) -> &'static str
        ensures { result.now ≡ name_of_text self }
    {
        match self {
            TextCause::LoneReturn => "LoneReturn",
            TextCause::ControlOctet => "ControlOctet",
            TextCause::Sink => "Sink",
        }
    }
}

/// Writes the number and the name, as `40 LoneReturn`.
impl Display for TextCause {
    ghost output = { λ cause. Some (print_of_text cause) };

    fn fmt<W: fmt::Write>(&self, f: &mut Formatter<W>) -> fmt::Result {
        let number = self.number();
        let name = self.name();
        write!(f, "{number} {name}")
    }
}

impl Error for TextCause {}

/// The error of a reader of a text that rejected an octet, or the end of the text.
#[derive(Clone, Copy, Debug, PartialEq, Eq)]
pub struct TextFault {
    /// The number of octets of the slice before the rejected one.
    pub taken: usize,
    /// Why the octet or the end was rejected.
    pub cause: TextCause,
}

/// Writes the number of octets before the rejected one, and the cause, as `refused after 5 octets,
/// cause 40 LoneReturn`.
impl Display for TextFault {
    ghost output = { λ fault. Some (print_of_fault fault) };

    fn fmt<W: fmt::Write>(&self, f: &mut Formatter<W>) -> fmt::Result {
        let taken = self.taken;
        let cause = self.cause;
        write!(f, "refused after {taken} octets, cause {cause}")
    }
}

impl Error for TextFault {}

impl TextFault {
    /// Converts the fault to one for a longer slice, which begins `octets` octets earlier.
    pub(crate) fn after(self, octets: usize) -> TextFault
        requires { octets + self.taken < 2 ^ 64 }
        ensures { result ≡ record { taken = octets + self.taken; cause = self.cause } }
    {
        TextFault {
            taken: octets + self.taken,
            cause: self.cause,
        }
    }
}
