//! Classes of the octets of a message.

ghost use Rattle.std.specs.Prelude.{◌≡◌};
ghost use Rattle.wire_message.specs.Format.Messages.{is_info_octet, is_filler_octet};
ghost use Rattle.iim_dataset.specs.Format.Octets.{is_letter, is_digit};
ghost use Rattle.wire_message.specs.Kept.{is_in_class};

use iim_dataset::octets::{CR, ETX, LF, NUL, SYN};

/// A class of octets.
#[derive(Clone, Copy)]
pub(crate) enum Class {
    /// A to Z and a to z.
    Letter,
    /// 0 to 9.
    Digit,
    /// Letters and digits.
    Alphanumeric,
    /// 20 to 7E and 80 to FF.
    Info,
    /// Info octets, LF and CR.
    Trailer,
    /// NUL, LF, CR and SYN.
    Filler,
    /// Any octet but ETX.
    Text,
}

#[inline(always)]
fn letter(octet: u8) -> bool
    ensures { result ≡ is_letter octet }
{
    (b'A' <= octet && octet <= b'Z') || (b'a' <= octet && octet <= b'z')
}

#[inline(always)]
fn digit(octet: u8) -> bool
    ensures { result ≡ is_digit octet }
{
    b'0' <= octet && octet <= b'9'
}

#[inline(always)]
fn printable(octet: u8) -> bool
    ensures { result ≡ is_info_octet octet }
{
    (b' ' <= octet && octet <= b'~') || 0x80 <= octet
}

#[inline(always)]
fn filler(octet: u8) -> bool
    ensures { result ≡ is_filler_octet octet }
{
    octet == NUL || octet == LF || octet == CR || octet == SYN
}

/// Checks whether the octet is of the class.
#[inline(always)]
pub(crate) fn is_in(class: Class, octet: u8) -> bool
    ensures { result ≡ is_in_class class octet }
{
    match class {
        Class::Letter => letter(octet),
        Class::Digit => digit(octet),
        Class::Alphanumeric => letter(octet) || digit(octet),
        Class::Info => printable(octet),
        Class::Trailer => printable(octet) || octet == LF || octet == CR,
        Class::Filler => filler(octet),
        Class::Text => octet != ETX,
    }
}
