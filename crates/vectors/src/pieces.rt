//! Unpacks a stream of several chunks.

use crate::lines::print_lines;
use crate::values::{limits_of, print_done, print_value};
use iim_fields::Limits;
use iim_unpack::{Refusal, Unpacked, Unpacker, unpack_pieces};
use std::alloc::Global;
use vectors_layers::{Answers, MOST_ARGUMENTS, Names, Words};
use wire_story::Lines;

/// Parses the octets of all remaining arguments. Returns `None` if an allocation failed.
fn all_octets(alloc: Global, names: &Names, words: &mut Words) -> Option<Vec<Vec<u8>>> {
    let mut all = Vec::new(alloc);
    for _ in 0..MOST_ARGUMENTS {
        if !words.has_more() {
            break;
        }
        all.push(words.octets(names)).ok()?;
    }
    Some(all)
}

/// Returns the chunks as slices, or `None` if an allocation failed.
fn slices_of(alloc: Global, pieces: &[Vec<u8>]) -> Option<Vec<&[u8]>> {
    let mut slices = Vec::new(alloc);
    for piece in pieces {
        slices.push(piece.as_slice()).ok()?;
    }
    Some(slices)
}

/// Prints the result of unpacking chunks.
fn print_end(out: &mut Answers, answer: Result<(Unpacked, u64), Refusal>) {
    match answer {
        Ok((got, used)) => {
            print_done(out, used);
            print_value(out, &got);
        }
        Err(refusal) => out.tell(&refusal),
    }
}

/// Prints the result for the stream that chunks form, and the lines of its story.
fn print_taken(out: &mut Answers, alloc: Global, limits: Limits, pieces: &[&[u8]]) {
    let mut lines = Lines::new(alloc);
    let Ok(unpacker) = Unpacker::new(alloc, limits) else {
        out.lack_memory();
        return;
    };
    print_end(out, unpack_pieces(unpacker, pieces, &mut lines));
    print_lines(out, &lines);
}

/// Prints the result for the stream that the remaining chunks form. Returns `None` if an allocation
/// failed.
fn print_left(out: &mut Answers, alloc: Global, names: &Names, words: &mut Words) -> Option<()> {
    let limits = limits_of(words);
    let pieces = all_octets(alloc, names, words)?;
    let slices = slices_of(alloc, pieces.as_slice())?;
    print_taken(out, alloc, limits, slices.as_slice());
    Some(())
}

/// Prints the result for the stream that the remaining chunks form.
pub(crate) fn print_pieces(out: &mut Answers, alloc: Global, names: &Names, words: &mut Words) {
    if print_left(out, alloc, names, words).is_none() {
        out.lack_memory();
    }
}
