//! Ages: the time since an envelope was sent.

ghost use Rattle.std.specs.Prelude.{◌≡◌, ◌-ℤ◌};
ghost use Rattle.iim_audit.specs.Format.{age_at, whole_seconds, WholeSecondsAreFloors};

use iim_fields::{EnvelopeRef, instants};
use jiff::Timestamp;

/// The number of nanoseconds in a second.
const SECOND: i128 = 1_000_000_000;

/// Returns the whole seconds from `sent` to `now`: the greatest integer that is not above the
/// exact difference. The result is negative if `sent` is later than `now`.
pub(crate) fn seconds_between(sent: Timestamp, now: Timestamp) -> i64
    ensures { result ≡ whole_seconds (now.nanosecond -ℤ sent.nanosecond) }
{
    (now.as_nanosecond() - sent.as_nanosecond()).div_euclid(SECOND) as i64
}

/// Returns the number of whole seconds since the envelope was sent, or `None` if the envelope
/// states no such instant.
pub(crate) fn age_at(envelope: &EnvelopeRef<'_>, now: Timestamp) -> Option<i64>
    ensures { result ≡ age_at now.nanosecond envelope.now }
{
    instants::sent(envelope).map(|sent| seconds_between(sent, now))
}

/// Proves that ages are rounded down: the whole seconds are the greatest integer that is not above
/// the exact number of seconds.
pub fn whole_seconds_are_floors()
    ensures { WholeSecondsAreFloors }
{}
