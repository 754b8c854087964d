//! Times of day with an offset, and the instants of dates and times.

ghost use Rattle.std.specs.Prelude.{◌≡◌, ◌↔◌, ◌*◌, ◌<◌, length, IsTrue, IsSome, IfSome};
ghost use Rattle.std.specs.Option.{option_map};
ghost use Rattle.jiff.specs.Words.{IsOffsetSeconds, time_nanos};
ghost use Rattle.iim_tables.specs.Format.Dates.{has_time_form, is_clock, is_time, clock_seconds, offset_seconds, instant_nanos, instant_in, HasInstant, nanoseconds_in_second};

use crate::dates::{date_of, pair_at};
use crate::kinds::are_digits;
use crate::octets::{MINUS, PLUS};
use jiff::Timestamp;
use jiff::civil::{Time, time};
use jiff::tz::Offset;

fn has_time_form(octets: &[u8]) -> bool
    ensures exactly { result ≡ has_time_form octets.now }
    ensures long { IsTrue result → length octets.now ≡ 11 }
{
    octets.len() == 11
        && are_digits(&octets[..6])
        && matches!(octets[6], PLUS | MINUS)
        && are_digits(&octets[7..])
}

fn is_clock(hour: u16, minute: u16, second: u16) -> bool
    ensures { result ≡ is_clock hour minute second }
{
    hour < 24 && minute < 60 && second < 60
}

/// Checks whether the octets are a time of day with its offset.
#[inline(never)]
pub(crate) fn is_time(octets: &[u8]) -> bool
    ensures exactly { result ≡ is_time octets.now }
    ensures long { IsTrue result → length octets.now ≡ 11 }
{
    has_time_form(octets)
        && is_clock(pair_at(octets, 0), pair_at(octets, 2), pair_at(octets, 4))
        && is_clock(pair_at(octets, 7), pair_at(octets, 9), 0)
}

/// Returns the time of day.
fn clock_of(hour: u16, minute: u16, second: u16) -> Time
    requires { IsTrue (is_clock hour minute second) }
    ensures { time_nanos result ≡ clock_seconds hour minute second * nanoseconds_in_second }
{
    time(hour as i8, minute as i8, second as i8, 0)
}

/// Converts an offset from universal time to seconds, which are negative if the local time is
/// behind.
fn offset_seconds(is_behind: bool, hour: u16, minute: u16) -> i32
    requires hour_in { hour < 24 }
    requires minute_in { minute < 60 }
    ensures value { result ≡ offset_seconds is_behind hour minute }
    ensures fits { IsOffsetSeconds result }
{
    let ahead = i32::from(hour) * 3600 + i32::from(minute) * 60;
    if is_behind {
        return -ahead;
    }
    ahead
}

/// Returns this offset from universal time.
fn offset_of(is_behind: bool, hour: u16, minute: u16) -> Offset
    requires hour_in { hour < 24 }
    requires minute_in { minute < 60 }
    ensures { result.seconds ≡ offset_seconds is_behind hour minute }
{
    Offset::from_seconds(offset_seconds(is_behind, hour, minute)).unwrap()
}

/// Computes the instant of a date and a time with `jiff`.
fn instant(date: &[u8], time: &[u8]) -> Option<Timestamp>
    ensures exactly { IsSome result ↔ HasInstant date.now time.now }
    ensures instant { IfSome result (λ t. t.nanosecond ≡ instant_nanos date.now time.now) }
{
    let day = date_of(date)?;
    if !is_time(time) {
        return None;
    }
    let clock = clock_of(pair_at(time, 0), pair_at(time, 2), pair_at(time, 4));
    let offset = offset_of(time[6] == MINUS, pair_at(time, 7), pair_at(time, 9));
    offset.to_timestamp(day.to_datetime(clock)).ok()
}

/// Returns the instant of a date and a time: the local time minus its offset. Returns `None` if the
/// date is not complete, if the time is invalid, or if the instant is out of range for `jiff`,
/// whose last instant is 9999-12-30T22:00:00.999999999Z.
///
/// For example, 1:70 Date Sent and 1:80 Time Sent state the instant at which an envelope was sent.
pub fn instant_of(date: &[u8], time: &[u8]) -> Option<Timestamp>
    ensures exactly { IsSome result ↔ HasInstant date.now time.now }
    ensures instant { IfSome result (λ t. t.nanosecond ≡ instant_nanos date.now time.now) }

    // The same result, as a function of the two texts.
    ensures value { option_map (λ t. t.nanosecond) result ≡ instant_in date.now time.now }
{
    instant(date, time)
}
