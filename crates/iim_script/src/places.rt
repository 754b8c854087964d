//! Writes the line of a dataset into a slice, at a given index.

ghost use Rattle.std.specs.Prelude.{◌≡◌, ◌+◌, ◌*◌, ◌≤◌, ◌++◌, length, take, decimal};
ghost use Rattle.iim_dataset.specs.Format.Datasets.{dataset_name, shown, shown_octet};
ghost use Rattle.iim_script.specs.Format.Scripts.{after_space, field_line};

use crate::plain::{are_plain, plain_in_16};
use iim_dataset::DatasetName;
use iim_dataset::internals::{escaped, is_plain};

/// Writes octets at the index `at`. Returns the index after them.
#[inline(always)]
fn put_octets(line: &mut [u8], at: usize, octets: &[u8]) -> usize
    requires { at + length octets.now ≤ length line.old }
    ensures end { result ≡ at + length octets.now }
    ensures written { take result line.new ≡ take at line.old ++ octets.now }
{
    let end = at + octets.len();
    line[at..end].copy_from_slice(octets);
    end
}

/// Writes an octet, escaped if necessary. Returns the index after it.
#[inline(always)]
fn put_shown_octet(line: &mut [u8], at: usize, octet: u8) -> usize
    requires { at + 4 ≤ length line.old }
    ensures end { result ≤ at + 4 }
    ensures written { take result line.new ≡ take at line.old ++ shown_octet octet }
{
    if is_plain(octet) {
        return put_octets(line, at, &[octet]);
    }
    put_octets(line, at, &escaped(octet))
}

/// Writes octets one by one, escaped if necessary. Returns the index after them.
fn put_each(line: &mut [u8], at: usize, octets: &[u8]) -> usize
    requires { at + 4 * length octets.now ≤ length line.old }
    ensures end { result ≤ at + 4 * length octets.now }
    ensures written { take result line.new ≡ take at line.old ++ shown octets.now }
{
    let mut end = at;
    for octet in octets {
        end = put_shown_octet(line, end, *octet);
    }
    end
}

/// Writes sixteen octets, escaped if necessary. Returns the index after them.
#[inline(always)]
fn put_sixteen(line: &mut [u8], at: usize, octets: &[u8]) -> usize
    requires within { at + 4 * length octets.now ≤ length line.old }
    requires sixteen { length octets.now ≡ 16 }
    ensures end { result ≤ at + 4 * length octets.now }
    ensures written { take result line.new ≡ take at line.old ++ shown octets.now }
{
    if plain_in_16(octets) {
        return put_octets(line, at, octets);
    }
    put_each(line, at, octets)
}

/// Writes octets, sixteen at a time, escaped if necessary. Returns the index after them.
#[inline(never)]
fn put_by_sixteen(line: &mut [u8], at: usize, octets: &[u8]) -> usize
    requires { at + 4 * length octets.now ≤ length line.old }
    ensures end { result ≤ at + 4 * length octets.now }
    ensures written { take result line.new ≡ take at line.old ++ shown octets.now }
{
    let mut end = at;
    let mut rest = octets;
    while rest.len() >= 16 {
        let (part, after) = rest.split_at(16);
        end = put_sixteen(line, end, part);
        rest = after;
    }
    put_each(line, end, rest)
}

/// Writes octets, escaped if necessary. Returns the index after them. If no octet needs an escape,
/// which is the usual case, all are copied at once.
#[inline(always)]
fn put_shown(line: &mut [u8], at: usize, octets: &[u8]) -> usize
    requires { at + 4 * length octets.now ≤ length line.old }
    ensures end { result ≤ at + 4 * length octets.now }
    ensures written { take result line.new ≡ take at line.old ++ shown octets.now }
{
    if are_plain(octets) {
        return put_octets(line, at, octets);
    }
    put_by_sixteen(line, at, octets)
}

/// Writes a space and octets, escaped if necessary. Writes nothing if there are no octets. Returns
/// the index after them.
#[inline(always)]
fn put_after_space(line: &mut [u8], at: usize, octets: &[u8]) -> usize
    requires { at + (1 + 4 * length octets.now) ≤ length line.old }
    ensures end { result ≤ at + (1 + 4 * length octets.now) }
    ensures written { take result line.new ≡ take at line.old ++ after_space octets.now }
{
    if octets.is_empty() {
        return at;
    }
    let first = put_octets(line, at, b" ");
    put_shown(line, first, octets)
}

/// Writes a number in decimal. Returns the index after it.
#[inline(always)]
fn put_number(line: &mut [u8], at: usize, number: u8) -> usize
    requires { at + 3 ≤ length line.old }
    ensures end { result ≤ at + 3 }
    ensures written { take result line.new ≡ take at line.old ++ decimal number }
{
    if number < 10 {
        return put_octets(line, at, &[b'0' + number]);
    }
    let tens = number / 10;
    let ones = b'0' + number % 10;
    if tens < 10 {
        return put_octets(line, at, &[b'0' + tens, ones]);
    }
    put_octets(line, at, &[b'0' + tens / 10, b'0' + tens % 10, ones])
}

/// Writes the name of a dataset: its record, a colon and its number with at least two digits.
/// Returns the index after it.
#[inline(always)]
fn put_name(line: &mut [u8], at: usize, name: DatasetName) -> usize
    requires { at + 8 ≤ length line.old }
    ensures end { result ≤ at + 8 }
    ensures written { take result line.new ≡ take at line.old ++ dataset_name name.rec name.set }
{
    let colon = put_number(line, at, name.rec);
    let number = put_octets(line, colon, b":");
    let digits = if name.set < 10 {
        put_octets(line, number, b"0")
    } else {
        number
    };
    put_number(line, digits, name.set)
}

/// Writes the line of a dataset. Returns the index after it.
#[inline(always)]
pub(crate) fn put_field(line: &mut [u8], at: usize, name: DatasetName, octets: &[u8]) -> usize
    requires { at + (10 + 4 * length octets.now) ≤ length line.old }
    ensures end { result ≤ at + (10 + 4 * length octets.now) }
    ensures written { take result line.new ≡ take at line.old
        ++ field_line (record { rec = name.rec; set = name.set; octets = octets.now }) }
{
    let space = put_name(line, at, name);
    let shown = put_after_space(line, space, octets);
    put_octets(line, shown, b"\n")
}
