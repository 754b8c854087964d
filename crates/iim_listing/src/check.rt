//! The command `check`: one line for each envelope.

ghost use Rattle.iim_listing.specs.Format.{check_line_of};

use crate::list::EnvelopeLines;
use iim_output::lines::push_accepted;
use iim_unpack::UnpackedRef;
use std::alloc::AllocError;

/// Lists the number of each envelope and its length in octets.
#[derive(Clone, Copy)]
pub struct Check;

impl EnvelopeLines for Check {
    ghost written = { check_line_of };

    fn push_text(
        &self,
        text: &mut Vec<u8>,
        number: u64,
        octets: u64,
        _got: &UnpackedRef<'_>,
    ) -> Result<(), AllocError> {
        push_accepted(text, number, octets)
    }
}
