//! The limit on the number of envelopes of one input.

/// The maximum number of envelopes that are listed or audited in one input.
pub const MAX_ENVELOPES: u64 = 1_000_000;
