//! Instants for C.

ghost use Rattle.std.specs.Prelude.{◌≡◌, ◌<◌, IfSome, IfNone};
ghost use Rattle.std.specs.Option.{option_map};
ghost use Rattle.iim_tables.specs.Format.Dates.{nanoseconds_in_second};
ghost use Rattle.iim_c.specs.Format.Tables.{IsInstant, IsInstantAt, IsOptionalInstant, nanoseconds_to};

use jiff::Timestamp;

/// The number of nanoseconds in a second.
const SECOND: i128 = 1_000_000_000;

/// An instant, relative to 1970-01-01T00:00:00Z.
#[repr(C)]
#[derive(Clone, Copy)]
pub struct IimInstant {
    /// Whole seconds, rounded down: negative for earlier instants.
    pub second: i64,
    /// The nanoseconds after that second, below 1,000,000,000.
    pub nanosecond: u32,
}

/// The value in which both fields are 0.
const NO_INSTANT: IimInstant = IimInstant {
    second: 0,
    nanosecond: 0,
};

/// Converts an instant to its form for C.
fn instant_of(instant: Timestamp) -> IimInstant
    ensures { (result.nanosecond < nanoseconds_in_second) × (nanoseconds_to result ≡ instant.nanosecond) }
{
    let nanosecond = instant.as_nanosecond();
    IimInstant {
        second: nanosecond.div_euclid(SECOND) as i64,
        nanosecond: nanosecond.rem_euclid(SECOND) as u32,
    }
}

/// Returns whether an instant is present, and the instant in its form for C.
pub(crate) fn optional_instant(instant: Option<Timestamp>) -> (bool, IimInstant)
    ensures { IsOptionalInstant (option_map (λ t. t.nanosecond) instant) result.0 result.1 }
{
    match instant {
        Some(instant) => (true, instant_of(instant)),
        None => (false, NO_INSTANT),
    }
}

impl IimInstant {
    /// Converts to a `jiff` instant. Returns `None` if the nanoseconds are 1,000,000,000 or more,
    /// or if the instant is earlier than -009999-01-02T01:59:59Z or later than
    /// 9999-12-30T22:00:00.999999999Z.
    pub(crate) fn to_library(self) -> Option<Timestamp>
        ensures some { IfSome result (λ t. IsInstantAt self t.nanosecond) }
        ensures none { IfNone result (IsInstant self → ⊥) }
    {
        let nanosecond = i128::from(self.nanosecond);
        if nanosecond >= SECOND {
            return None;
        }
        match Timestamp::from_nanosecond(i128::from(self.second) * SECOND + nanosecond) {
            Ok(instant) => Some(instant),
            Err(_) => None,
        }
    }
}
