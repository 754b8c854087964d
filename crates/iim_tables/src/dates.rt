//! Dates, with or without a missing month or day.

ghost use Rattle.std.specs.Prelude.{◌≡◌, ◌↔◌, ◌+◌, ◌<◌, ◌&&◌, ◌||◌, ◌==◌, nat_le, pos, length, IsTrue, IsSome, IfSome};
ghost use Rattle.iim_dataset.specs.Format.Octets.{within};
ghost use Rattle.jiff.specs.Words.{IsYmd};
ghost use Rattle.iim_tables.specs.Format.Dates.{pair_at, year_in, month_in, day_in, is_day, is_part_day, are_eight_digits, is_date, is_part_date};

use crate::kinds::are_digits;
use crate::octets::DIGIT_ZERO;
use jiff::civil::Date;

/// Returns the number of the two digits at index `at`.
pub(crate) fn pair_at(octets: &[u8], at: usize) -> u16
    requires { at + 1 < length octets.now }
    ensures { result ≡ pair_at octets.now at }
{
    let tens = octets[at].saturating_sub(DIGIT_ZERO);
    let ones = octets[at + 1].saturating_sub(DIGIT_ZERO);
    10 * u16::from(tens) + u16::from(ones)
}

/// Returns the year of a date, from its first four digits.
fn year_in(octets: &[u8]) -> u32
    requires { length octets.now ≡ 8 }
    ensures { result ≡ year_in octets.now }
{
    100 * u32::from(pair_at(octets, 0)) + u32::from(pair_at(octets, 2))
}

fn is_year(year: u32) -> bool
    ensures { result ≡ within 1 9999 year }
{
    (1..=9999).contains(&year)
}

fn is_month(month: u16) -> bool
    ensures { result ≡ within 1 12 month }
{
    (1..=12).contains(&month)
}

/// Returns this day, or `None` if the calendar has no such day.
fn day_of(year: u32, month: u16, day: u16) -> Option<Date>
    ensures exactly { IsSome result ↔ IsTrue (is_day year month day) }
    ensures day { IfSome result (IsYmd (pos year) (pos month) (pos day)) }
{
    if !is_year(year) || !is_month(month) || day > 31 {
        return None;
    }
    Date::new(year as i16, month as i8, day as i8).ok()
}

/// Checks whether the month is 00 and the day is 00 to 31, or the day is 00.
fn has_missing_part(month: u16, day: u16) -> bool
    ensures { result ≡ (((month == 0) && nat_le day 31) || (within 1 12 month && (day == 0))) }
{
    (month == 0 && day <= 31) || (is_month(month) && day == 0)
}

fn is_part_day(year: u32, month: u16, day: u16) -> bool
    ensures { result ≡ is_part_day year month day }
{
    day_of(year, month, day).is_some() || (is_year(year) && has_missing_part(month, day))
}

fn are_eight_digits(octets: &[u8]) -> bool
    ensures { result ≡ are_eight_digits octets.now }
{
    octets.len() == 8 && are_digits(octets)
}

/// Parses the day of a date of eight digits, CCYYMMDD. Returns `None` if the octets are not eight
/// digits, or if the proleptic Gregorian calendar has no such day in the years 1 to 9999.
///
/// 1:70 Date Sent has this form. 2:55 Date Created has it too, but its month or day may be 00,
/// which stands for a missing part; such a date has no day.
pub fn date_of(octets: &[u8]) -> Option<Date>
    ensures exactly { IsSome result ↔ IsTrue (is_date octets.now) }
    ensures day { IfSome result
        (IsYmd (pos (year_in octets.now)) (pos (month_in octets.now)) (pos (day_in octets.now))) }
{
    if !are_eight_digits(octets) {
        return None;
    }
    day_of(year_in(octets), pair_at(octets, 4), pair_at(octets, 6))
}

/// Checks whether the octets are a complete date.
#[inline(never)]
pub(crate) fn is_date(octets: &[u8]) -> bool
    ensures { result ≡ is_date octets.now }
{
    date_of(octets).is_some()
}

/// Checks whether the octets are a date whose month or day may be 00.
#[inline(never)]
pub(crate) fn is_part_date(octets: &[u8]) -> bool
    ensures { result ≡ is_part_date octets.now }
{
    are_eight_digits(octets) && is_part_day(year_in(octets), pair_at(octets, 4), pair_at(octets, 6))
}
