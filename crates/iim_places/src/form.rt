//! Numbers in the encoding of tickets: versions, and the kinds of what is in progress.

/// The first version of tickets, in which counts and sizes have four octets.
pub const FIRST_VERSION: u8 = 1;

/// The version that is written now, in which counts and sizes have eight octets.
pub const PRESENT_VERSION: u8 = 2;

/// Between datasets, or within a tag.
pub const IN_TAG: u8 = 0;

/// Within the data of a dataset.
pub const IN_DATA: u8 = 1;

/// After the last dataset.
pub const ENDED: u8 = 2;
