//! Computes the instants and the day of an envelope.

ghost use Rattle.std.specs.Prelude.{◌≡◌, IsSomeAnd, pos};
ghost use Rattle.std.specs.Option.{option_map};
ghost use Rattle.jiff.specs.Words.{IsYmd};
ghost use Rattle.iim_tables.specs.Format.Dates.{year_in, month_in, day_in};
ghost use Rattle.iim_fields.specs.Format.Records.{first_data, instant_sent, instant_of_pair, instant_of_release, instant_of_expiration};

use crate::envelope_ref::EnvelopeRef;
use iim_tables::records::{APPLICATION, ENVELOPE};
use iim_tables::{date_of, instant_of};
use jiff::Timestamp;
use jiff::civil::Date;

/// Computes the instant of these two datasets, a date and a time. Returns `None` if there is no
/// date, or if the date and time have no instant. If no time was sent, `absent` is used; if that is
/// also `None`, so is the result.
fn instant(
    envelope: &EnvelopeRef<'_>,
    rec: u8,
    date_set: u8,
    time_set: u8,
    absent: Option<&[u8]>,
) -> Option<Timestamp>
    ensures { option_map (λ t. t.nanosecond) result ≡ instant_of_pair rec date_set time_set
        (option_map (λ x. x.now) absent.entry) envelope.now }
{
    let date = envelope.first(rec, date_set)?;
    let time = envelope.first(rec, time_set).or(absent)?;
    instant_of(date, time)
}

/// Returns the day of 1:70 Date Sent.
pub fn date_sent(envelope: &EnvelopeRef<'_>) -> Date
    ensures { IsSomeAnd (first_data 1 70 envelope.now)
        (λ date. IsYmd (pos (year_in date)) (pos (month_in date)) (pos (day_in date)) result) }
{
    date_of(envelope.date_sent_text()).unwrap()
}

/// Returns the instant of 1:70 Date Sent and 1:80 Time Sent: the local time minus its offset.
/// Returns `None` if no time was sent, or if the instant is out of range for `jiff`, whose last
/// instant is 9999-12-30T22:00:00.999999999Z.
pub fn sent(envelope: &EnvelopeRef<'_>) -> Option<Timestamp>
    ensures { option_map (λ t. t.nanosecond) result ≡ instant_sent envelope.now }
{
    instant(envelope, ENVELOPE, 70, 80, None)
}

/// Returns the first instant at which the copy may be used: 2:30 Release Date and 2:35 Release
/// Time, as local time minus its offset, or the beginning of that day in universal time if no time
/// was sent. Returns `None` if no date was sent, or if the instant is out of range for `jiff`.
pub fn release(envelope: &EnvelopeRef<'_>) -> Option<Timestamp>
    ensures { option_map (λ t. t.nanosecond) result ≡ instant_of_release envelope.now }
{
    let first: &[u8] = b"000000+0000";
    instant(envelope, APPLICATION, 30, 35, Some(first))
}

/// Returns the last instant at which the copy may be used: 2:37 Expiration Date and 2:38 Expiration
/// Time, as local time minus its offset, or the last second of that day in universal time if no
/// time was sent. Returns `None` if no date was sent, or if the instant is out of range for `jiff`.
pub fn expires(envelope: &EnvelopeRef<'_>) -> Option<Timestamp>
    ensures { option_map (λ t. t.nanosecond) result ≡ instant_of_expiration envelope.now }
{
    let last: &[u8] = b"235959+0000";
    instant(envelope, APPLICATION, 37, 38, Some(last))
}
