//! Tests sinks of objects that stop, and objects that are written to writers that fail.

ghost use Rattle.std.specs.Prelude.{⊤};

mod writing;

use crate::told::TestLog;
use iim_dataset::Stop;
use iim_object::{ObjectReader, ObjectSink};
use std::alloc::Global;

/// A sink that counts slices and their octets. It rejects the octet after the first `room` octets,
/// and may reject the end.
#[derive(Drop)]
struct Counter {
    runs: usize,
    octets: usize,
    room: usize,
    refuses_end: bool,
}

impl ObjectSink for Counter {
    ghost goes = { λ old events new. ⊤ };

    ghost stops = { λ old events refused new. ⊤ };

    ghost stands = { λ sink. ⊤ };

    ghost nothing = { λ sink. tt };

    ghost joined = { λ a b c xs ys first then. tt };

    ghost joined_stop = { λ a b c xs ys refused first then. tt };

    fn run(&mut self, run: &[u8]) -> Result<(), Stop> {
        self.runs = self.runs.saturating_add(1);
        let left = self.room.saturating_sub(self.octets);
        if run.len() > left {
            self.octets = self.room;
            return Err(Stop { taken: left });
        }
        self.octets = self.octets.saturating_add(run.len());
        Ok(())
    }

    fn close(&mut self) -> Result<(), Stop> {
        if self.refuses_end {
            return Err(Stop { taken: 0 });
        }
        Ok(())
    }
}

fn make_counter(room: usize, refuses_end: bool) -> Counter {
    Counter {
        runs: 0,
        octets: 0,
        room,
        refuses_end,
    }
}

/// Logs the result of a reader whose sink stops inside a slice.
fn stop_in_a_run(told: &mut TestLog, sink: &mut Counter) {
    let mut reader = ObjectReader::new();
    told.begin("stops_of_the_sink", " failed: ", &reader.is_failed());
    told.answer(", ", &reader.run(b"abcd", sink));
    told.end(", failed: ", &reader.is_failed());
}

/// Logs the result of a reader whose sink rejects the end.
fn stop_at_the_end(told: &mut TestLog, sink: &mut Counter) {
    let mut reader = ObjectReader::new();
    told.begin("stops_of_the_sink", " failed: ", &reader.is_failed());
    told.answer(", ", &reader.head(9, 10, 4, sink));
    told.end(", failed: ", &reader.is_failed());
}

fn stops_of_the_sink(told: &mut TestLog) {
    let mut sink = make_counter(3, true);
    stop_in_a_run(told, &mut sink);
    stop_at_the_end(told, &mut sink);
}

/// Logs the result of a reader for a slice, and the counts of its sink so far.
fn log_run(told: &mut TestLog, reader: &mut ObjectReader, sink: &mut Counter, run: &[u8]) {
    let trial = "runs_of_an_object";
    if reader.is_failed() {
        return told.line_of_words(trial, "failed");
    }
    told.begin(trial, " ", &reader.run(run, sink));
    told.answer(", ", &sink.runs);
    told.answer(" runs of ", &sink.octets);
    told.end_words(" octets");
}

/// Checks that each slice of an object is passed to the sink in one call.
fn runs_of_an_object(told: &mut TestLog) {
    let mut reader = ObjectReader::new();
    let mut sink = make_counter(100, false);
    log_run(told, &mut reader, &mut sink, b"abcd");
    log_run(told, &mut reader, &mut sink, b"e");
    log_run(told, &mut reader, &mut sink, b"fghijk");
}

pub(crate) fn tell(told: &mut TestLog, alloc: Global) {
    writing::tell(told, alloc);
    stops_of_the_sink(told);
    runs_of_an_object(told);
}
