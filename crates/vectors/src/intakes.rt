//! Reads one envelope after another with an intake.

use crate::values::limits_of;
use iim_dataset::FromRead;
use iim_fields::Limits;
use iim_unpack::{Intake, IntakeFault, Unpacked, Unpacker};
use std::alloc::Global;
use vectors_layers::{Answers, Names, Words};
use wire_story::Discard;

/// Prints the length of an envelope and the length of its object.
fn print_sums(out: &mut Answers, octets: u64, total: u64) {
    out.number("  ", octets);
    out.number(" octets, ", total);
    out.put(" total\n");
}

/// Prints the result of an intake. Returns whether the result is an envelope.
fn print_answer(
    out: &mut Answers,
    answer: Result<Option<Unpacked>, IntakeFault>,
    octets: u64,
) -> bool {
    match answer {
        Ok(Some(got)) => {
            print_sums(out, octets, got.sizes.total);
            return true;
        }
        Ok(None) => out.line("end"),
        Err(fault) => out.tell(&fault),
    }
    false
}

/// Reads the next envelope with a new unpacker, and prints the result. Returns whether there was an
/// envelope.
fn print_envelope(
    out: &mut Answers,
    alloc: Global,
    limits: Limits,
    intake: &mut Intake<FromRead<&[u8]>>,
) -> bool {
    let Ok(unpacker) = Unpacker::new(alloc, limits) else {
        out.lack_memory();
        return false;
    };
    let answer = intake.next_envelope(unpacker, &mut Discard);
    print_answer(out, answer, intake.octets())
}

/// Prints all envelopes of the octets, up to their end or to the first refusal.
pub(crate) fn print_envelopes(out: &mut Answers, alloc: Global, names: &Names, words: &mut Words) {
    let limits = limits_of(words);
    let octets = words.octets(names);
    let mut intake = Intake::new(FromRead::new(octets.as_slice()));
    for _ in 0..=octets.len() {
        if !print_envelope(out, alloc, limits, &mut intake) {
            break;
        }
    }
}

/// Prints the results of an intake with an unpacker that may already have consumed octets, and then
/// with two new unpackers.
pub(crate) fn print_next(
    out: &mut Answers,
    alloc: Global,
    limits: Limits,
    unpacker: Unpacker,
    octets: &[u8],
) {
    if unpacker.is_done() || unpacker.is_failed() {
        out.line("none");
        return;
    }
    let mut intake = Intake::new(FromRead::new(octets));
    let answer = intake.next_envelope(unpacker, &mut Discard);
    print_answer(out, answer, intake.octets());
    print_envelope(out, alloc, limits, &mut intake);
    print_envelope(out, alloc, limits, &mut intake);
}
