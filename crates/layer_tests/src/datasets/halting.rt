//! Tests readers and writers of `std` that are interrupted and then fail.

use crate::told::{TestLog, count_of};
use iim_dataset::{FromRead, FromWrite, Source, Target, put, take};
use std::alloc::Global;
use std::io::{Error, ErrorKind, Read, Result, Write};

/// A reader and writer that is interrupted `waits` times before each octet, and fails after `good`
/// octets.
#[derive(Drop)]
struct Halting {
    waits: u32,
    left: u32,
    good: u32,
}

impl Halting {
    fn new(waits: u32, good: u32) -> Halting {
        Halting {
            waits,
            left: waits,
            good,
        }
    }

    fn call(&mut self) -> Result<()> {
        if self.left > 0 {
            self.left -= 1;
            return Err(Error::from(ErrorKind::Interrupted));
        }
        self.left = self.waits;
        if self.good == 0 {
            return Err(Error::from(ErrorKind::WouldBlock));
        }
        self.good -= 1;
        Ok(())
    }
}

impl Read for Halting {
    fn read(&mut self, buffer: &mut [u8]) -> Result<usize> {
        self.call()?;
        if buffer.is_empty() {
            return Ok(0);
        }
        buffer[0] = b'x';
        Ok(1)
    }
}

impl Write for Halting {
    fn write(&mut self, piece: &[u8]) -> Result<usize> {
        self.call()?;
        Ok(piece.len().min(1))
    }

    fn flush(&mut self) -> Result<()> {
        Ok(())
    }
}

pub(crate) fn tell(told: &mut TestLog, alloc: Global) {
    faults_of_a_reader_of_std(told);
    faults_of_a_writer_of_std(told);
    interruptions_between_octets(told);
    a_long_piece_goes_at_once(told, alloc);
    a_long_piece_comes_at_once(told);
}

/// Checks that an error of the kind `Interrupted` is an interruption, and every other error is a
/// failure.
fn faults_of_a_reader_of_std(told: &mut TestLog) {
    let mut reader = FromRead::new(Halting::new(1, 1));
    let mut buffer = [0u8; 8];
    told.begin("faults_of_a_reader_of_std", " ", &reader.read(&mut buffer));
    told.answer(" ", &reader.read(&mut buffer));
    told.end(" ", &take(&mut reader, &mut buffer));
}

/// Checks that a writer's error of the kind `Interrupted` is an interruption, and that after any
/// other error `put` stops after 0 octets.
fn faults_of_a_writer_of_std(told: &mut TestLog) {
    let mut writer = FromWrite::new(Halting::new(1, 1));
    told.begin("faults_of_a_writer_of_std", " ", &writer.write(b"abcdef"));
    told.answer(" ", &writer.write(b"abcdef"));
    told.end(" ", &put(&mut writer, b"bcdef"));
}

/// Checks that a million interruptions are a fault only if they are consecutive.
fn interruptions_between_octets(told: &mut TestLog) {
    let mut writer = FromWrite::new(Halting::new(600_000, 3));
    told.begin(
        "interruptions_between_octets",
        " ",
        &put(&mut writer, b"abc"),
    );
    told.end(" ", &put(&mut writer, b"d"));
}

/// Writes a long slice twice, and begins a line of the log with the results.
fn write_twice<T: Target>(told: &mut TestLog, target: &mut T) {
    let piece = [b'x'; 32_768];
    told.begin("a_long_piece_goes_at_once", " ", &target.write(&piece));
    told.answer(" ", &put(target, &piece));
}

/// Checks that a long slice is written in one call, if the writer accepts all of it.
fn a_long_piece_goes_at_once(told: &mut TestLog, alloc: Global) {
    let mut writer = FromWrite::new(Vec::new(alloc));
    write_twice(told, &mut writer);
    let written = writer.into_inner();
    told.answer(": ", &written.len());
    told.answer(" octets, ", &count_of(b'x', &written));
    told.end_words(" of them x");
}

/// Logs three reads from a source of two long slices, and the number of octets of the first that
/// are right.
fn read_thrice<S: Source>(told: &mut TestLog, source: &mut S) {
    let mut buffer = [0u8; 32_768];
    told.begin("a_long_piece_comes_at_once", " ", &source.read(&mut buffer));
    told.answer(": ", &count_of(b'x', &buffer));
    told.answer(" of them x, then ", &take(source, &mut buffer));
    told.end(" ", &take(source, &mut buffer));
}

/// Checks that a long slice is read in one call, if the reader returns all of it.
fn a_long_piece_comes_at_once(told: &mut TestLog) {
    let octets = [b'x'; 65_536];
    read_thrice(told, &mut FromRead::new(octets.as_slice()));
}
