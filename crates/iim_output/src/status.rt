//! The exit statuses of the program.

/// All envelopes were accepted.
pub const ACCEPTED: u8 = 0;

/// Octets were rejected, or the input has too many envelopes.
pub const REFUSED: u8 = 1;

/// The arguments are invalid.
pub const USAGE: u8 = 2;

/// A file, the output or an allocation failed.
pub const FAILED: u8 = 3;
