//! Tests sinks of messages that count calls and stop, and a long line.

use crate::stories::log_lines;
use crate::told::TestLog;
use iim_dataset::Stop;
use std::alloc::Global;
use trials::{TrialWriter, Trouble};
use wire_message::{MessageCause, MessageReader};
use wire_story::{LineWriter, Lines, StorySink};
use worked::STORY_OBJECT;

/// A call of a sink: a number of octets of a line, or the end of a line.
#[derive(Clone, Copy, Debug)]
enum Call {
    Text(usize),
    LineEnd,
}

impl Default for Call {
    fn default() -> Call {
        Call::LineEnd
    }
}

/// A sink that records its first calls.
#[derive(Drop)]
struct Calls {
    first: arrayvec::ArrayVec<Call, 8>,
}

impl StorySink for Calls {
    ghost goes = { λ old events new. Unit {0} };

    ghost failures = { λ sink. 0 };

    ghost nothing = { λ sink. tt };

    ghost joined = { λ a b c xs ys first then. tt };

    fn text(&mut self, run: &[u8]) -> Result<(), Stop> {
        let _ = self.first.try_push(Call::Text(run.len()));
        Ok(())
    }

    fn line_end(&mut self) -> Result<(), Stop> {
        let _ = self.first.try_push(Call::LineEnd);
        Ok(())
    }
}

/// Returns an object with the smallest header, a text of one line of 32,754 octets, and no trailer.
fn long_object() -> arrayvec::ArrayVec<u8, 32_768> {
    let mut object = arrayvec::ArrayVec::new();
    let _ = object.try_extend_from_slice(b"\x01X1 4 N 0\r\n\x02");
    for _ in 0..32_754 {
        let _ = object.try_push(b'a');
    }
    let _ = object.try_extend_from_slice(b"\x03\x04");
    object
}

/// Reads an object in one chunk, or octet by octet. Returns the octet at which it is rejected, and
/// the cause.
fn read<S: StorySink>(
    object: &[u8],
    by_octets: bool,
    sink: &mut S,
) -> Option<(usize, MessageCause)> {
    let mut reader = MessageReader::new();
    if by_octets {
        for (at, octet) in object.iter().enumerate() {
            if let Err(fault) = reader.feed(&[*octet], sink) {
                return Some((at, fault.cause));
            }
        }
    } else if let Err(fault) = reader.feed(object, sink) {
        return Some((fault.taken, fault.cause));
    }
    match reader.close() {
        Ok(()) => None,
        Err(fault) => Some((object.len(), fault.cause)),
    }
}

/// Reads an object in one chunk. Logs the first calls of the sink, and the octet and the cause if
/// the object is rejected.
fn log_calls(told: &mut TestLog, object: &[u8]) {
    let mut sink = Calls {
        first: arrayvec::ArrayVec::new(),
    };
    let answer = read(object, false, &mut sink);
    told.begin("runs_of_messages_are_passed_on_whole", " ", &answer);
    told.end(" ", &sink.first.as_slice());
}

fn runs_of_messages_are_passed_on_whole(told: &mut TestLog) {
    log_calls(told, STORY_OBJECT);
    log_calls(told, &long_object());
}

/// Reads an object in one chunk into lines. If an allocation fails, reads it once more.
fn read_lines(alloc: Global, object: &[u8], lines: &mut Lines) -> Option<(usize, MessageCause)> {
    let answer = read(object, false, lines);
    if !matches!(answer, Some((_, MessageCause::Sink))) {
        return answer;
    }
    *lines = Lines::new(alloc);
    read(object, false, lines)
}

/// Logs the lines of an object.
fn log_kept(told: &mut TestLog, alloc: Global, object: &[u8]) {
    let trial = "a_long_line_is_kept";
    let mut lines = Lines::new(alloc);
    let answer = read_lines(alloc, object, &mut lines);
    told.begin(trial, " ", &object.len());
    told.end(" octets, ", &answer);
    log_lines(told, trial, &lines);
}

fn a_long_line_is_kept(told: &mut TestLog, alloc: Global) {
    log_kept(told, alloc, &long_object());
}

/// Reads an object into a writer that fails after `good` octets. Logs the result, and what was
/// written.
fn log_stop(told: &mut TestLog, good: u64, by_octets: bool) {
    let target: TrialWriter<32> = TrialWriter::new(good, Trouble::Failure);
    let mut sink = LineWriter::new(target);
    let answer = read(STORY_OBJECT, by_octets, &mut sink);
    let target = sink.into_writer();
    told.line_after(
        "sinks_of_messages_that_stop",
        good,
        &answer,
        target.octets(),
    );
}

fn sinks_of_messages_that_stop(told: &mut TestLog) {
    for good in [0, 4, 11, 12] {
        log_stop(told, good, false);
        log_stop(told, good, true);
    }
}

pub(crate) fn tell(told: &mut TestLog, alloc: Global) {
    runs_of_messages_are_passed_on_whole(told);
    a_long_line_is_kept(told, alloc);
    sinks_of_messages_that_stop(told);
}
