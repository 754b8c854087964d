//! The command `show`: everything in an envelope except its story.

ghost use Rattle.std.specs.Prelude.{◌≡◌, ◌+◌, ◌≤◌, ◌++◌, length, drop, OnOk, codes, decimal};
ghost use Rattle.iim_dataset.specs.Format.Datasets.{number_or_dash};
ghost use Rattle.iim_object.specs.Format.Objects.{mode_number};
ghost use Rattle.iim_listing.specs.Format.{number_line, show_text_of, sizes_line};

use crate::list::EnvelopeLines;
use iim_object::Sizes;
use iim_script::{push_decimal, push_fields, push_message, push_trailer, write_word};
use iim_unpack::UnpackedRef;
use itoa::write_digits;
use std::alloc::AllocError;

/// Lists the fields of each envelope, the header and the trailer of its message, and its sizes.
#[derive(Clone, Copy)]
pub struct Show;

impl EnvelopeLines for Show {
    ghost written = { show_text_of };

    fn push_text(
        &self,
        text: &mut Vec<u8>,
        number: u64,
        _octets: u64,
        got: &UnpackedRef<'_>,
    ) -> Result<(), AllocError> {
        push_number(text, number)?;
        push_fields(text, &got.envelope)?;
        push_message(text, got.head)?;
        push_trailer(text, got.trailer)?;
        push_sizes(text, got.sizes)
    }
}

/// Appends the first line, which has the number of the envelope.
fn push_number(text: &mut Vec<u8>, number: u64) -> Result<(), AllocError>
    ensures { OnOk result (text.new.items ≡ text.old.items ++ number_line number) }
{
    push_word_and_number(text, b"envelope ", number)?;
    text.push(b'\n')?;
    Ok(())
}

/// Appends a word and a number.
fn push_word_and_number(text: &mut Vec<u8>, word: &[u8], number: u64) -> Result<(), AllocError>
    ensures { OnOk result (text.new.items ≡ text.old.items ++ (word.now ++ decimal number)) }
{
    text.extend_from_slice(word)?;
    push_decimal(text, number)
}

/// Writes a number into a line so that it ends just before the offset `end`. Returns the offset at
/// which the number begins.
#[inline(always)]
fn write_number(number: u64, line: &mut [u8], end: usize) -> usize
    requires { 20 ≤ end × end ≤ length line.old }
    ensures room { result ≤ end × end ≤ result + 20 }
    ensures written { drop result line.new ≡ decimal number ++ drop end line.old }
{
    write_digits(number, line, end)
}

/// Writes a number, or `-` for `None`, into a line so that it ends just before the offset `end`.
/// Returns the offset at which the number begins.
#[inline(always)]
fn write_number_or_dash(number: Option<u64>, line: &mut [u8], end: usize) -> usize
    requires { 20 ≤ end × end ≤ length line.old }
    ensures room { result ≤ end × end ≤ result + 20 }
    ensures written { drop result line.new ≡ number_or_dash number ++ drop end line.old }
{
    match number {
        Some(number) => write_number(number, line, end),
        None => write_word(b"-", line, end),
    }
}

/// Returns the size mode: 1 if the size is known at the start, otherwise 0.
fn mode(known: bool) -> u64
    ensures { result ≡ mode_number known }
{
    if known { 1 } else { 0 }
}

/// Writes the first half of the line of sizes so that it ends just before the offset `end`. Returns
/// the offset at which it begins.
fn write_counts(sizes: Sizes, line: &mut [u8], end: usize) -> usize
    requires { 92 ≤ end × end ≤ length line.old }
    ensures { drop result line.new ≡ codes "object " ++ (decimal sizes.total
        ++ (codes " octets, " ++ (decimal sizes.subfiles
        ++ (codes " subfiles, mode " ++ (decimal (mode_number sizes.known) ++ drop end line.old))))) }
{
    let known = write_number(mode(sizes.known), line, end);
    let mode = write_word(b" subfiles, mode ", line, known);
    let subfiles = write_number(sizes.subfiles, line, mode);
    let octets = write_word(b" octets, ", line, subfiles);
    let total = write_number(sizes.total, line, octets);
    write_word(b"object ", line, total)
}

/// Writes the second half of the line of sizes so that it ends just before the offset `end`.
/// Returns the offset at which it begins.
fn write_bounds(sizes: Sizes, line: &mut [u8], end: usize) -> usize
    requires { 91 ≤ end × end ≤ length line.old }
    ensures start { end ≤ result + 91 }
    ensures written { drop result line.new ≡ codes ", limit " ++ (decimal sizes.subfile
        ++ (codes ", announced " ++ (number_or_dash sizes.announced
        ++ (codes ", maximum " ++ (number_or_dash sizes.maximum ++ (codes "\n" ++ drop end line.old)))))) }
{
    let end_of_line = write_word(b"\n", line, end);
    let greatest = write_number_or_dash(sizes.maximum, line, end_of_line);
    let maximum = write_word(b", maximum ", line, greatest);
    let stated = write_number_or_dash(sizes.announced, line, maximum);
    let announced = write_word(b", announced ", line, stated);
    let subfile = write_number(sizes.subfile, line, announced);
    write_word(b", limit ", line, subfile)
}

/// The capacity for the line of sizes. The longest line has six numbers of 20 digits, and 63 other
/// octets.
const SIZES: usize = 192;

/// Appends the line of the object's sizes.
fn push_sizes(text: &mut Vec<u8>, sizes: Sizes) -> Result<(), AllocError>
    ensures { OnOk result (text.new.items ≡ text.old.items ++ sizes_line sizes) }
{
    let mut line = [0; SIZES];
    let bounds = write_bounds(sizes, &mut line, SIZES);
    let counts = write_counts(sizes, &mut line, bounds);
    text.extend_from_slice(&line[counts..])
}
