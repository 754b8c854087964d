//! Formats octets as printable text.

ghost use Rattle.std.specs.Prelude.{◌≡◌, ◌++◌, ◌<◌, ◌≤◌, length, slice_index, take, true, false, OnOk};
ghost use Rattle.std.specs.List.{list_all};
ghost use Rattle.iim_dataset.specs.Format.Datasets.{escape, hex_digit, is_plain, shown};

use std::alloc::AllocError;
use std::simd::prelude::*;

/// Returns the hexadecimal digit of a number below 16: `0` to `9`, `A` to `F`.
fn hex_digit(number: u8) -> u8
    requires { number < 16 }
    ensures { result ≡ hex_digit number }
{
    if number < 10 {
        b'0' + number
    } else {
        b'A' - 10 + number
    }
}

/// Returns `\x` and the two hexadecimal digits of an octet.
pub fn escaped(octet: u8) -> [u8; 4]
    ensures { result ≡ escape octet }
{
    [b'\\', b'x', hex_digit(octet / 16), hex_digit(octet % 16)]
}

/// Appends `\x` and the two hexadecimal digits of an octet.
///
/// **Errors:** the allocation fails.
pub fn push_escape(text: &mut Vec<u8>, octet: u8) -> Result<(), AllocError>
    ensures { OnOk result (text.new.items ≡ text.old.items ++ escape octet) }
{
    text.extend_from_slice(&escaped(octet))
}

/// Checks whether an octet is printed as itself: from 20 to 7E hexadecimal, except the backslash.
pub fn is_plain(octet: u8) -> bool
    ensures { result ≡ is_plain octet }
{
    octet >= b' ' && octet <= b'~' && octet != b'\\'
}

/// Checks whether the first 16 octets are all printed as themselves.
#[inline(always)]
fn are_plain_16(octets: &[u8]) -> bool
    requires { 16 ≤ length octets.now }
    ensures { result ≡ list_all is_plain (take 16 octets.now) }
{
    let x = u8x16::from_slice(octets);
    (x.simd_ge(u8x16::splat(b' '))
        & x.simd_le(u8x16::splat(b'~'))
        & x.simd_ne(u8x16::splat(b'\\'))).all()
}

/// Counts octets that are printed as themselves in blocks of sixteen, up to the first block with an
/// octet that is escaped.
fn plain_blocks_len(octets: &[u8]) -> usize
    ensures within { result ≤ length octets.now }
    ensures plain { list_all is_plain (take result octets.now) ≡ true }
{
    let mut at = 0;
    while octets.len() - at >= 16 && are_plain_16(&octets[at..]) {
        at += 16;
    }
    at
}

/// Counts the octets before the first one that is escaped.
fn plain_prefix_len(octets: &[u8]) -> usize
    ensures within { result ≤ length octets.now }
    ensures plain { list_all is_plain (take result octets.now) ≡ true }
    ensures end { result < length octets.now → is_plain (slice_index octets.now result) ≡ false }
{
    let mut at = plain_blocks_len(octets);
    while at < octets.len() && is_plain(octets[at]) {
        at += 1;
    }
    at
}

/// Appends octets as printable text: those from 20 to 7E hexadecimal, except the backslash, as they
/// are, and all others as `\x` and two hexadecimal digits.
///
/// **Errors:** the allocation fails.
pub fn push_with_escapes(text: &mut Vec<u8>, octets: &[u8]) -> Result<(), AllocError>
    ensures { OnOk result (text.new.items ≡ text.old.items ++ shown octets.now) }
{
    let mut rest = octets;
    'showing: loop {
        let (plain, others) = rest.split_at(plain_prefix_len(rest));
        text.extend_from_slice(plain)?;
        let Some((octet, after)) = others.split_first() else {
            return Ok(());
        };
        push_escape(text, *octet)?;
        rest = after;
    }
}
