//! Instants without the types of `jiff`.
//!
//! No public item of this crate has a type of `jiff`, so that the crates above need not load most
//! of `jiff` when they are proved.

ghost use Rattle.std.specs.Prelude.{◌≡◌, IfSome, IfNone};
ghost use Rattle.jiff.specs.Words.{IsTimestampNanos};

use jiff::Timestamp;

/// An instant in the range of `jiff`, as the number of nanoseconds since 1970-01-01T00:00:00Z.
#[derive(Clone, Copy, Debug, PartialEq, Eq)]
pub struct Instant {
    nanosecond: i128,
    ghost in_range: { IsTimestampNanos nanosecond },
}

impl Instant {
    /// Creates the instant `nanosecond` nanoseconds after 1970-01-01T00:00:00Z. Returns `None` if
    /// it is outside the range of `jiff`.
    pub fn new(nanosecond: i128) -> Option<Instant>
        ensures some { IfSome result (λ instant. instant.nanosecond ≡ nanosecond) }
        ensures none { IfNone result (IsTimestampNanos nanosecond → ⊥) }
    {
        match Timestamp::from_nanosecond(nanosecond) {
            Ok(_) => Some(Instant { nanosecond }),
            Err(_) => None,
        }
    }

    /// Returns the nanoseconds since 1970-01-01T00:00:00Z. They are in the range of `jiff`.
    pub fn nanosecond(self) -> i128
        ensures value { result ≡ self.nanosecond }
        ensures in_range { IsTimestampNanos result }
    {
        self.nanosecond
    }
}

/// Converts an instant of `jiff`.
pub(crate) fn instant_of(timestamp: Timestamp) -> Instant
    ensures { result.nanosecond ≡ timestamp.nanosecond }
{
    Instant {
        nanosecond: timestamp.as_nanosecond(),
    }
}
