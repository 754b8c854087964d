//! Tests sinks of stories that count calls, that stop, and that write to writers that fail.

ghost use Rattle.std.specs.Prelude.{◌≡◌, ◌++◌, OnOk};
ghost use Rattle.wire_story.specs.Format.Texts.{HasLines, IsLine, delivered};

use crate::told::{TestLog, count_of};
use iim_dataset::Stop;
use std::alloc::Global;
use trials::{TrialSink, TrialWriter, Trouble};
use wire_story::{LineWriter, Lines, StorySink, TextCause, TextFault, TextReader, text_len};

/// A story of two lines.
const RATES: &[u8] = b"Rates stay.\r\nNo change.";

/// A line of ten octets.
const TEN: &[u8] = b"0123456789";

/// The name of tests that are logged by several functions.
const STOPPING: &str = "sinks_that_stop_at_a_call";

/// A sink that stops, in front of a sink that writes lines.
type Stopping = TrialSink<LineWriter<TrialWriter<32>>>;

/// Returns a line as long as the text of a message of 32,768 octets.
fn long_line() -> [u8; 32_754] {
    [b'a'; 32_754]
}

/// A sink that counts its calls and the octets received.
struct Calls {
    calls: u32,
    octets: usize,
}

impl StorySink for Calls {
    ghost goes = { λ old events new. Unit {0} };

    ghost failures = { λ sink. 0 };

    ghost nothing = { λ sink. tt };

    ghost joined = { λ a b c xs ys first then. tt };

    fn text(&mut self, run: &[u8]) -> Result<(), Stop> {
        self.calls = self.calls.wrapping_add(1);
        self.octets = self.octets.wrapping_add(run.len());
        Ok(())
    }

    fn line_end(&mut self) -> Result<(), Stop> {
        self.calls = self.calls.wrapping_add(1);
        Ok(())
    }
}

/// Reads a text in two slices, with any sink. The contract follows from the contracts of the text
/// layer alone.
fn read_in_two<S: StorySink>(front: &[u8], back: &[u8], sink: &mut S) -> Result<(), TextFault>
    ensures text { OnOk result (HasLines (front.now ++ back.now)) }
    ensures told { OnOk result (S.goes sink.old (delivered (front.now ++ back.now)) sink.new) }
    ensures no_failure { OnOk result (S.failures sink.new ≡ S.failures sink.old) }
{
    let mut reader = TextReader::new();
    reader.run(front, sink)?;
    reader.run(back, sink)?;
    reader.close()
}

/// Reads a text octet by octet, with an empty slice before each octet.
fn read_by_octets<S: StorySink>(text: &[u8], sink: &mut S) -> Result<(), TextFault> {
    let mut reader = TextReader::new();
    for octet in text {
        reader.run(&[], sink)?;
        reader.run(&[*octet], sink)?;
    }
    reader.close()
}

/// Reads a text into lines. If an allocation fails, reads it once more, so that each test tolerates
/// one failed allocation.
fn read_lines(alloc: Global, text: &[u8], lines: &mut Lines) -> Result<(), TextFault> {
    let answer = read_in_two(text, b"", lines);
    if !matches!(
        answer,
        Err(TextFault {
            taken: _,
            cause: TextCause::Sink,
        })
    ) {
        return answer;
    }
    *lines = Lines::new(alloc);
    read_in_two(text, b"", lines)
}

/// Logs the number of octets in each line, and how many of them are an `a`.
pub(crate) fn log_lines(told: &mut TestLog, trial: &str, lines: &Lines) {
    for line in lines.iter() {
        told.begin(trial, " a line of ", &line.len());
        told.answer(" octets, ", &count_of(b'a', line));
        told.end_words(" of them a");
    }
}

/// Reads a text in one slice. Logs what the sink has counted, and the result.
fn log_calls(told: &mut TestLog, trial: &str, text: &[u8]) {
    let mut sink = Calls {
        calls: 0,
        octets: 0,
    };
    let answer = read_in_two(text, b"", &mut sink);
    let Calls { calls, octets } = sink;
    told.begin(trial, " ", &answer);
    told.answer(", ", &calls);
    told.answer(" calls, ", &octets);
    told.end_words(" octets");
}

fn runs_of_texts_are_passed_on_whole(told: &mut TestLog) {
    log_calls(told, "runs_of_texts_are_passed_on_whole", RATES);
}

fn a_long_run_is_passed_on_whole(told: &mut TestLog, alloc: Global) {
    let trial = "a_long_run_is_passed_on_whole";
    let line = long_line();
    log_calls(told, trial, &line);
    let mut lines = Lines::new(alloc);
    told.line(trial, " ", &read_lines(alloc, &line, &mut lines));
    log_lines(told, trial, &lines);
}

/// Appends octets to the lines. If the allocation fails, the lines must be unchanged, and a second
/// call must succeed. Returns whether this is so.
fn insists_on_text(lines: &mut Lines, line: &[u8]) -> bool
    requires { IsLine line.now }
{
    let before = text_len(lines);
    match lines.text(line) {
        Ok(()) => true,
        Err(stop) => stop.taken == 0 && text_len(lines) == before && lines.text(line).is_ok(),
    }
}

/// Appends a line end to the lines. If the allocation fails, the lines must be unchanged, and a
/// second call must succeed. Returns whether this is so.
fn insists_on_line_end(lines: &mut Lines) -> bool {
    let before = text_len(lines);
    match lines.line_end() {
        Ok(()) => true,
        Err(stop) => stop.taken == 0 && text_len(lines) == before && lines.line_end().is_ok(),
    }
}

/// Appends a hundred lines of ten octets. Returns whether each failed allocation was tolerated.
fn grow(lines: &mut Lines) -> bool {
    let mut borne = true;
    for _ in 0..100 {
        borne &= insists_on_text(lines, TEN);
        borne &= insists_on_line_end(lines);
    }
    borne
}

/// Counts the lines that consist of the ten octets.
fn full_lines(lines: &Lines) -> usize {
    let mut count = 0usize;
    for line in lines.iter() {
        if line == TEN {
            count = count.saturating_add(1);
        }
    }
    count
}

fn lines_bear_refused_growths(told: &mut TestLog, alloc: Global) {
    let mut lines = Lines::new(alloc);
    let borne = grow(&mut lines);
    told.begin("lines_bear_refused_growths", " ", &text_len(&lines));
    told.answer(" octets, ", &full_lines(&lines));
    told.end(" full lines, borne: ", &borne);
}

fn lines_are_written_past_interruptions(told: &mut TestLog) {
    let target: TrialWriter<32> = TrialWriter::new(5, Trouble::Interruptions(3));
    let mut sink = LineWriter::new(target);
    let answer = read_by_octets(RATES, &mut sink);
    let target = sink.into_writer();
    let trial = "lines_are_written_past_interruptions";
    told.line_and_octets(trial, &answer, target.octets());
}

/// Writes to a target that accepts `good` octets, one in each call, and then fails.
fn write_and_fail(told: &mut TestLog, good: u64) {
    let target: TrialWriter<32> = TrialWriter::new(good, Trouble::Failure);
    let mut sink = LineWriter::new(target);
    let answer = read_in_two(RATES, b"", &mut sink);
    let target = sink.into_writer();
    told.line_after("writes_that_fail", good, &answer, target.octets());
}

/// Passes a slice and the end of a line to a sink, and begins a line of the log with the results.
fn begin_calls<S: StorySink>(told: &mut TestLog, trial: &str, words: &str, sink: &mut S, run: &[u8])
    requires { IsLine run.now }
{
    told.begin(trial, words, &sink.text(run));
    told.answer(" ", &sink.line_end());
}

/// Writes to a target with capacity for three octets.
fn write_past_room(told: &mut TestLog) {
    let full: TrialWriter<3> = TrialWriter::new(100, Trouble::Failure);
    let mut sink = LineWriter::new(full);
    begin_calls(told, "writes_that_fail", " full: ", &mut sink, b"abcd");
    told.end_octets(" ", sink.into_writer().octets());
}

fn writes_that_fail(told: &mut TestLog) {
    for good in [0, 4, 11, 12, 21] {
        write_and_fail(told, good);
    }
    write_past_room(told);
}

/// Creates a sink that stops after `good` successful calls, in front of a writer that accepts
/// `room` octets.
fn trial_sink(good: u64, front: usize, room: u64) -> Stopping {
    let target = TrialWriter::new(room, Trouble::Failure);
    TrialSink::new(LineWriter::new(target), good, front)
}

/// Logs the number of stops of a sink, and the octets that it forwarded.
fn log_passed(told: &mut TestLog, trial: &str, sink: Stopping) {
    told.begin(trial, " ", &sink.failures());
    let target = sink.into_sink().into_writer();
    told.end_octets(" stops, ", target.octets());
}

/// Reads a text with a sink that stops after `good` successful calls and `front` octets of a later
/// call. Begins a line of the log with the result.
fn stop_at_a_call<S: StorySink>(told: &mut TestLog, good: u64, front: usize, sink: &mut S) {
    let answer = read_in_two(RATES, b"", sink);
    told.begin(STOPPING, " ", &good);
    told.answer(" good, ", &front);
    told.answer(": ", &answer);
}

/// Logs how a sink stops, and what it forwarded.
fn log_stop(told: &mut TestLog, good: u64, front: usize) {
    let mut sink = trial_sink(good, front, 100);
    stop_at_a_call(told, good, front, &mut sink);
    told.end_words("");
    log_passed(told, STOPPING, sink);
}

/// Logs the results of calls after a sink has stopped.
fn log_calls_after<S: StorySink>(told: &mut TestLog, sink: &mut S) {
    begin_calls(told, STOPPING, " then ", sink, b"ab");
    told.end(" ", &sink.text(b""));
}

/// Logs the results of a sink that accepts the whole text, and then stops.
fn stop_after_the_text(told: &mut TestLog) {
    let mut sink = trial_sink(3, 0, 100);
    stop_at_a_call(told, 3, 0, &mut sink);
    told.answer(", ", &sink.failures());
    told.end_words(" stops");
    log_calls_after(told, &mut sink);
    log_passed(told, STOPPING, sink);
}

/// Tests sinks that stop after different numbers of successful calls, and of octets of a later
/// call.
fn sinks_that_stop_at_a_call(told: &mut TestLog) {
    log_stop(told, 0, 4);
    log_stop(told, 1, 4);
    log_stop(told, 2, 0);
    log_stop(told, 2, 99);
    stop_after_the_text(told);
}

fn stops_of_the_other_sink_are_counted(told: &mut TestLog) {
    let trial = "stops_of_the_other_sink_are_counted";
    let mut sink = trial_sink(9, 9, 2);
    begin_calls(told, trial, " ", &mut sink, b"abc");
    told.end_words("");
    log_passed(told, trial, sink);
}

pub(crate) fn tell(told: &mut TestLog, alloc: Global) {
    runs_of_texts_are_passed_on_whole(told);
    a_long_run_is_passed_on_whole(told, alloc);
    lines_bear_refused_growths(told, alloc);
    lines_are_written_past_interruptions(told);
    writes_that_fail(told);
    sinks_that_stop_at_a_call(told);
    stops_of_the_other_sink_are_counted(told);
}
