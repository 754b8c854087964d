//! Lines and line ends.

ghost use Rattle.std.specs.Prelude.{◌≡◌, ◌↔◌, IsTrue};
ghost use Rattle.wire_story.specs.Format.Texts.{is_line_octet, IsLine};

use crate::marks::Marks;
use iim_dataset::octets::{CR, EOT, ETX, LF, SOH, STX};

/// The line end that a packer writes.
pub const LINE_END: [u8; 2] = [CR, LF];

/// Checks whether the octet is allowed in a line.
#[inline(always)]
pub(crate) fn may_be_in_line(octet: u8) -> bool
    ensures { result ≡ is_line_octet octet }
{
    !(octet == SOH || octet == STX || octet == ETX || octet == EOT || octet == LF || octet == CR)
}

/// Checks whether all octets are allowed in a line: any octets but SOH, STX, ETX, EOT, LF and CR.
pub fn is_text(octets: &[u8]) -> bool
    ensures { IsTrue result ↔ IsLine octets.now }
{
    Marks::new().run_len(octets).0 == octets.len()
}
