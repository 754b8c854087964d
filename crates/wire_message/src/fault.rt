//! Why an object is rejected.

ghost use Rattle.std.specs.Prelude.{◌≡◌, Some};
ghost use Rattle.wire_message.specs.Format.Causes.{number_of_message, name_of_message, print_of_message, print_of_fault};

use std::error::Error;
use std::fmt;
use std::fmt::{Display, Formatter};
use wire_story::TextCause;

/// Why a reader of messages rejected an octet, or the end of the object. Each cause has a number.
#[derive(Clone, Copy, Debug, PartialEq, Eq)]
pub enum MessageCause {
    /// The octet cannot be part of any message here.
    BadOctet = 30,
    /// No message may end here.
    Unfinished = 32,
    /// The text has a CR before this octet that no LF follows.
    LoneReturn = 40,
    /// SOH, STX or EOT occurs in the text.
    ControlOctet = 41,
    /// The sink stopped.
    Sink = 60,
}

impl MessageCause {
    /// Returns the number of the cause, as it is printed.
    pub fn number(self) -> u8
        ensures { result ≡ number_of_message self }
    {
        self as u8
    }

    /// Returns the name of the cause, as it is printed. The causes of the text have the names of
    /// [`TextCause`].
    pub fn name(self) -> &'static str
        ensures { result.now ≡ name_of_message self }
    {
        match self {
            MessageCause::BadOctet => "BadOctet",
            MessageCause::Unfinished => "Unfinished",
            MessageCause::LoneReturn => TextCause::LoneReturn.name(),
            MessageCause::ControlOctet => TextCause::ControlOctet.name(),
            MessageCause::Sink => TextCause::Sink.name(),
        }
    }
}

/// Writes the number and the name, as `30 BadOctet`.
impl Display for MessageCause {
    ghost output = { λ cause. Some (print_of_message cause) };

    fn fmt<W: fmt::Write>(&self, f: &mut Formatter<W>) -> fmt::Result {
        let number = self.number();
        let name = self.name();
        write!(f, "{number} {name}")
    }
}

impl Error for MessageCause {}

/// The error of a reader of messages that rejected an octet, or the end of the object.
#[derive(Clone, Copy, Debug, PartialEq, Eq)]
pub struct MessageFault {
    /// The number of octets of the chunk before the rejected one.
    pub taken: usize,
    /// Why the octet or the end was rejected.
    pub cause: MessageCause,
}

/// Writes the number of octets before the rejected one, and the cause, as `refused after 5 octets,
/// cause 40 LoneReturn`.
impl Display for MessageFault {
    ghost output = { λ fault. Some (print_of_fault fault) };

    fn fmt<W: fmt::Write>(&self, f: &mut Formatter<W>) -> fmt::Result {
        let taken = self.taken;
        let cause = self.cause;
        write!(f, "refused after {taken} octets, cause {cause}")
    }
}

impl Error for MessageFault {}
