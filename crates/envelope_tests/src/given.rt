//! Limits, headers and plans for the sample envelopes, and a ticket whose position no input
//! reaches.

use crate::outcome::Trouble;
use iim_fields::Limits;
use iim_object::{Plan, Size};
use std::alloc::{AllocError, Global};
use wire_message::MessageHead;

/// The limits of the command.
pub const LIMITS: Limits = Limits::WIRE;

/// A ticket whose position no input reaches: one octet of the object was received, but no subfile.
pub const IMPOSSIBLE: [u8; 38] = [
    0x49, 0x49, 0x4d, 0x54, 2, 0, 0, 0, 0, 0, 0, 0, 0, 0, 0, 0, 0, 0, 0, 0, 0, 0, 0, 1, 0, 0, 0, 0,
    0, 0, 0, 0, 0, 0, 0, 0, 0, 0,
];

/// Returns the header of the longer sample envelope.
pub(crate) fn head() -> Result<MessageHead, Trouble> {
    MessageHead::new(b"TST", b"0007", b"4", b"ECO", b"5", b"rates").ok_or(Trouble::Wrong)
}

/// Creates a plan with this size, and with subfiles of up to `subfile` octets.
pub(crate) fn plan(subfile: u64, size: Size) -> Result<Plan, Trouble> {
    Plan::new(subfile, size).ok_or(Trouble::Wrong)
}

/// Concatenates chunks.
pub(crate) fn joined(alloc: Global, pieces: &[&[u8]]) -> Result<Vec<u8>, AllocError> {
    let mut all = Vec::new(alloc);
    for piece in pieces {
        all.extend_from_slice(piece)?;
    }
    Ok(all)
}
