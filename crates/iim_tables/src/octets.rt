//! Classes of octets.

ghost use Rattle.std.specs.Prelude.{◌≡◌};
ghost use Rattle.iim_tables.specs.Text.{is_text};

use iim_dataset::octets::{CR, LF, SP};

pub(crate) const DEL: u8 = 0x7f;

pub(crate) const PLUS: u8 = b'+';

pub(crate) const MINUS: u8 = b'-';

pub(crate) const DIGIT_ZERO: u8 = b'0';

/// Checks whether the octet is text: at least `least` and not DEL, or, if `lines` is true, CR or
/// LF.
pub(crate) fn is_text(least: u8, lines: bool, octet: u8) -> bool
    ensures { result ≡ is_text least lines octet }
{
    octet >= least && octet != DEL || lines && matches!(octet, LF | CR)
}
