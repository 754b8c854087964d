//! Tests readers and writers that are interrupted and fail, and sinks of datasets that stop.

mod halting;
mod reading;

use crate::told::TestLog;
use iim_dataset::{FromRead, Source, put, take};
use std::alloc::Global;
use trials::{TrialReader, TrialWriter, Trouble};

/// Tests of a writer: the name, the number of successful calls, and what goes wrong after them.
const WRITERS: [(&str, u64, Trouble); 3] = [
    (
        "writer_at_a_million_interruptions: 2 good, Interruptions(999999)",
        2,
        Trouble::Interruptions(999_999),
    ),
    (
        "writer_at_a_million_interruptions: 2 good, Interruptions(1000000)",
        2,
        Trouble::Interruptions(1_000_000),
    ),
    (
        "writer_at_a_million_interruptions: 4 good, Failure",
        4,
        Trouble::Failure,
    ),
];

/// Tests of a reader: the name, and the number of interruptions.
const READERS: [(&str, u32); 2] = [
    ("reader_at_a_million_interruptions: 999999", 999_999),
    ("reader_at_a_million_interruptions: 1000000", 1_000_000),
];

pub(crate) fn tell(told: &mut TestLog, alloc: Global) {
    writer_at_a_million_interruptions(told);
    a_full_writer_fails(told);
    reader_at_a_million_interruptions(told);
    a_failing_reader_gives_what_came_before(told);
    a_slice_is_a_source(told);
    halting::tell(told, alloc);
    reading::tell(told);
}

fn writer_at_a_million_interruptions(told: &mut TestLog) {
    for (trial, good, trouble) in &WRITERS {
        let mut writer: TrialWriter<8> = TrialWriter::new(*good, *trouble);
        let answer = put(&mut writer, b"abcde");
        told.line_and_octets(trial, &answer, writer.octets());
    }
}

fn a_full_writer_fails(told: &mut TestLog) {
    let mut full: TrialWriter<3> = TrialWriter::new(8, Trouble::Failure);
    let answer = put(&mut full, b"abcde");
    told.line_and_octets("a_full_writer_fails", &answer, full.octets());
}

fn reader_at_a_million_interruptions(told: &mut TestLog) {
    for (trial, running) in &READERS {
        let mut reader = TrialReader::new(b"ab", 0, Trouble::Interruptions(*running));
        told.line(trial, " ", &take(&mut reader, &mut [0u8; 4]));
    }
}

fn a_failing_reader_gives_what_came_before(told: &mut TestLog) {
    let trial = "a_failing_reader_gives_what_came_before";
    let mut reader = TrialReader::new(b"ab", 1, Trouble::Failure);
    let mut buffer = [0u8; 4];
    let first = take(&mut reader, &mut buffer);
    told.line_and_octets(trial, &first, &buffer[..1]);
    told.line(trial, " ", &take(&mut reader, &mut buffer));
}

/// Logs three reads from a source of three octets.
fn log_reads<S: Source>(told: &mut TestLog, trial: &str, source: &mut S) {
    let mut buffer = [0u8; 2];
    let first = take(source, &mut buffer);
    told.line_and_octets(trial, &first, &buffer);
    let second = source.read(&mut buffer);
    told.line_and_octets(trial, &second, &buffer[..1]);
    told.line(trial, " ", &take(source, &mut buffer));
}

/// Checks that a slice can be read as a source.
fn a_slice_is_a_source(told: &mut TestLog) {
    let mut reader = FromRead::new(b"abc".as_slice());
    log_reads(told, "a_slice_is_a_source", &mut reader);
}
