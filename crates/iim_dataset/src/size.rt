//! Limits on counts and on sizes of objects. To change these limits, change both constants and
//! their definitions in `specs/`.

/// The greatest number of octets of the number in an extended count, and of a size in records 7 and
/// 9. This limit is part of the profile.
pub const COUNT_OCTETS: u8 = 8;

/// The greatest size of an object in octets, and so the greatest count that a row of the tables
/// allows. This limit is part of the profile.
pub const GREATEST_SIZE: u64 = 9_223_372_036_854_775_807;
