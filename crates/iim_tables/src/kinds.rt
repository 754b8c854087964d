//! Checks the kind of octets.

ghost use Rattle.std.specs.Prelude.{◌≡◌, ◌≤◌, length, take};
ghost use Rattle.std.specs.List.{list_all};
ghost use Rattle.iim_tables.specs.Format.Kinds.{is_graphic, is_spaced, is_spaced_or_line_end, is_mode, is_size_from, has_kind};
ghost use Rattle.iim_tables.specs.Text.{is_text};
ghost use Rattle.iim_dataset.specs.Format.Octets.{is_digit, is_letter};
ghost use Rattle.iim_tables.specs.Format.Rows.{is_admitted};

use crate::dates::{is_date, is_part_date};
use crate::instants::is_time;
use crate::numbers::number_of;
use crate::octets::{DEL, is_text};
use crate::shape::{Kind, Row};
use iim_dataset::GREATEST_SIZE;
use iim_dataset::octets::{CR, LF, SP};
use std::simd::prelude::*;

/// Expands to a check that each lane of a vector is an octet of text. It agrees with `is_text`.
macro_rules! lanes_are_text {
    ($vector:ident; $least:expr, $lines:expr, $octets:expr) => {{
        let lanes = $vector::from_slice($octets);
        let text = lanes.simd_ge($vector::splat($least)) & lanes.simd_ne($vector::splat(DEL));
        if $lines {
            (text | lanes.simd_eq($vector::splat(LF)) | lanes.simd_eq($vector::splat(CR))).all()
        } else {
            text.all()
        }
    }};
}

/// Checks whether the first 16 octets are text.
#[inline(always)]
fn text_in_16(least: u8, lines: bool, octets: &[u8]) -> bool
    requires { 16 ≤ length octets.now }
    ensures { result ≡ list_all (is_text least lines) (take 16 octets.now) }
{
    lanes_are_text!(u8x16; least, lines, octets)
}

/// Checks whether the first 8 octets are text.
#[inline(always)]
fn text_in_8(least: u8, lines: bool, octets: &[u8]) -> bool
    requires { 8 ≤ length octets.now }
    ensures { result ≡ list_all (is_text least lines) (take 8 octets.now) }
{
    lanes_are_text!(u8x8; least, lines, octets)
}

/// Checks whether the first 4 octets are text.
#[inline(always)]
fn text_in_4(least: u8, lines: bool, octets: &[u8]) -> bool
    requires { 4 ≤ length octets.now }
    ensures { result ≡ list_all (is_text least lines) (take 4 octets.now) }
{
    lanes_are_text!(u8x4; least, lines, octets)
}

/// Checks whether all octets are text, in blocks of 16, 8 or 4 octets. The last block overlaps the
/// previous one.
#[inline(always)]
fn are_text(least: u8, lines: bool, octets: &[u8]) -> bool
    ensures { result ≡ list_all (is_text least lines) octets.now }
{
    let count = octets.len();
    if count >= 16 {
        let mut at = 0;
        while count - at > 16 {
            if !text_in_16(least, lines, &octets[at..]) {
                return false;
            }
            at += 16;
        }
        return text_in_16(least, lines, &octets[count - 16..]);
    }
    if count >= 8 {
        return text_in_8(least, lines, octets) && text_in_8(least, lines, &octets[count - 8..]);
    }
    if count >= 4 {
        return text_in_4(least, lines, octets) && text_in_4(least, lines, &octets[count - 4..]);
    }
    octets.iter().all(|octet| is_text(least, lines, *octet))
}

fn are_graphic(octets: &[u8]) -> bool
    ensures { result ≡ list_all is_graphic octets.now }
{
    are_text(SP + 1, false, octets)
}

#[inline(never)]
fn are_spaced(octets: &[u8]) -> bool
    ensures { result ≡ list_all is_spaced octets.now }
{
    are_text(SP, false, octets)
}

fn are_spaced_or_line_ends(octets: &[u8]) -> bool
    ensures { result ≡ list_all is_spaced_or_line_end octets.now }
{
    are_text(SP, true, octets)
}

fn are_letters(octets: &[u8]) -> bool
    ensures { result ≡ list_all is_letter octets.now }
{
    octets.iter().all(|octet| octet.is_ascii_alphabetic())
}

/// Checks whether the first 8 octets are digits.
#[inline(always)]
fn digits_in_8(octets: &[u8]) -> bool
    requires { 8 ≤ length octets.now }
    ensures { result ≡ list_all is_digit (take 8 octets.now) }
{
    let lanes = u8x8::from_slice(octets);
    (lanes.simd_ge(u8x8::splat(b'0')) & lanes.simd_le(u8x8::splat(b'9'))).all()
}

pub(crate) fn are_digits(octets: &[u8]) -> bool
    ensures { result ≡ list_all is_digit octets.now }
{
    if octets.len() == 8 {
        return digits_in_8(octets);
    }
    octets.iter().all(|octet| octet.is_ascii_digit())
}

fn is_mode(octets: &[u8]) -> bool
    ensures { result ≡ is_mode octets.now }
{
    octets.len() == 1 && octets.iter().all(|octet| *octet <= 1)
}

fn is_size_from(least: u64, octets: &[u8]) -> bool
    ensures { result ≡ is_size_from least octets.now }
{
    number_of(octets).is_some_and(|number| (least..=GREATEST_SIZE).contains(&number))
}

/// Checks whether the octets are of the kind, which may be any.
#[inline(never)]
fn has_any_kind(kind: Kind, octets: &[u8]) -> bool
    ensures { result ≡ has_kind kind octets.now }
{
    match kind {
        Kind::Graphic => are_graphic(octets),
        Kind::Spaced => are_spaced(octets),
        Kind::SpacedLines => are_spaced_or_line_ends(octets),
        Kind::Letters => are_letters(octets),
        Kind::Digits => are_digits(octets),
        Kind::Date => is_date(octets),
        Kind::PartDate => is_part_date(octets),
        Kind::Time => is_time(octets),
        Kind::Binary | Kind::Octets => true,
        Kind::Mode => is_mode(octets),
        Kind::Size => is_size_from(0, octets),
        Kind::SizeFromOne => is_size_from(1, octets),
    }
}

/// Checks whether the octets are of the kind. The most common kind is checked without a jump table.
#[inline(always)]
pub fn has_kind(kind: Kind, octets: &[u8]) -> bool
    ensures { result ≡ has_kind kind octets.now }
{
    match kind {
        Kind::Spaced => are_spaced(octets),
        _ => has_any_kind(kind, octets),
    }
}

/// Checks whether the octets are valid for the row: their number is within its bounds, and they are
/// of its kind. Two rules are not part of a row: the value of 1:20 File Format must be 2, and some
/// datasets must not repeat.
pub fn admits(row: &Row, octets: &[u8]) -> bool
    ensures { result ≡ is_admitted row.now octets.now }
{
    (row.min..=row.max).contains(&(octets.len() as u64)) && has_kind(row.kind, octets)
}
