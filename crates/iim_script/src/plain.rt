//! Checks blocks of octets for octets that are printed with an escape.

ghost use Rattle.std.specs.Prelude.{◌≡◌, ◌≤◌, length, take};
ghost use Rattle.std.specs.List.{list_all};
ghost use Rattle.iim_dataset.specs.Format.Datasets.{is_plain};

use iim_dataset::internals::is_plain;
use std::simd::prelude::*;

/// Expands to a check that each lane of a vector is an octet that is printed without an escape. It
/// agrees with `is_plain`.
macro_rules! lanes_are_plain {
    ($vector:ident; $octets:expr) => {{
        let lanes = $vector::from_slice($octets);
        (lanes.simd_ge($vector::splat(b' '))
            & lanes.simd_le($vector::splat(b'~'))
            & lanes.simd_ne($vector::splat(b'\\'))).all()
    }};
}

/// Checks whether the first 32 octets are printed without an escape.
#[inline(always)]
fn plain_in_32(octets: &[u8]) -> bool
    requires { 32 ≤ length octets.now }
    ensures { result ≡ list_all is_plain (take 32 octets.now) }
{
    lanes_are_plain!(u8x32; octets)
}

/// Checks whether the first 16 octets are printed without an escape.
#[inline(always)]
pub(crate) fn plain_in_16(octets: &[u8]) -> bool
    requires { 16 ≤ length octets.now }
    ensures { result ≡ list_all is_plain (take 16 octets.now) }
{
    lanes_are_plain!(u8x16; octets)
}

/// Checks whether the first 8 octets are printed without an escape.
#[inline(always)]
fn plain_in_8(octets: &[u8]) -> bool
    requires { 8 ≤ length octets.now }
    ensures { result ≡ list_all is_plain (take 8 octets.now) }
{
    lanes_are_plain!(u8x8; octets)
}

/// Checks whether the first 4 octets are printed without an escape.
#[inline(always)]
fn plain_in_4(octets: &[u8]) -> bool
    requires { 4 ≤ length octets.now }
    ensures { result ≡ list_all is_plain (take 4 octets.now) }
{
    lanes_are_plain!(u8x4; octets)
}

/// Checks whether all octets are printed without an escape, in blocks of 32, 16, 8 or 4 octets. The
/// last block overlaps the previous one.
#[inline(always)]
pub(crate) fn are_plain(octets: &[u8]) -> bool
    ensures { result ≡ list_all is_plain octets.now }
{
    let count = octets.len();
    if count >= 32 {
        let mut at = 0;
        while count - at > 32 {
            if !plain_in_32(&octets[at..]) {
                return false;
            }
            at += 32;
        }
        return plain_in_32(&octets[count - 32..]);
    }
    if count >= 16 {
        return plain_in_16(octets) && plain_in_16(&octets[count - 16..]);
    }
    if count >= 8 {
        return plain_in_8(octets) && plain_in_8(&octets[count - 8..]);
    }
    if count >= 4 {
        return plain_in_4(octets) && plain_in_4(&octets[count - 4..]);
    }
    octets.iter().all(|octet| is_plain(*octet))
}
