//! The statuses of calls with a handle, in addition to those of `iim_c`.

/// The handle is closed or, for a call that opens a handle, already open.
pub const BAD_HANDLE: u8 = 10;

/// An octet was rejected earlier, so there is no state to save.
pub const FAILED: u8 = 11;
