//! The maximum lengths of the parts of a message, in octets.

pub(crate) const MAX_SOURCE: usize = 8;

pub(crate) const MAX_NUMBER: usize = 8;

pub(crate) const MAX_PRIORITY: usize = 1;

pub(crate) const MAX_CATEGORY: usize = 8;

pub(crate) const MAX_WORDS: usize = 6;

pub(crate) const MAX_INFO: usize = 64;

/// The length of the parts of a header together with the four octets between them.
pub(crate) const MAX_KEPT: usize = 99;

pub(crate) const MAX_TRAILER: usize = 64;

/// The maximum length of the filler before SOH, of the gap, and of the filler after EOT.
pub(crate) const MAX_FILLER: u8 = 32;

/// The capacity for each part in a saved state.
pub(crate) const MAX_SAVED: usize = 64;
