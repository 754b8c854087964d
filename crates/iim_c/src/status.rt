//! The statuses of calls.

/// Complete: an envelope has ended, or the requested value was written.
pub const DONE: u8 = 0;

/// All octets were consumed, and the envelope can continue.
pub const MORE: u8 = 1;

/// An octet of an envelope, or a line of a script, is rejected.
pub const REFUSED: u8 = 2;

/// The input ends inside an envelope.
pub const TRUNCATED: u8 = 3;

/// There is no dataset with this index.
pub const NONE: u8 = 4;

/// A buffer is too short: the answer has the lengths that are needed.
pub const SHORT: u8 = 5;

/// An allocation failed.
pub const NO_MEMORY: u8 = 6;

/// The octets are not a ticket, or not one from which this call can continue.
pub const BAD_TICKET: u8 = 7;

/// The options for packing are invalid.
pub const BAD_PACKING: u8 = 8;

/// The instant is invalid.
pub const BAD_INSTANT: u8 = 9;
