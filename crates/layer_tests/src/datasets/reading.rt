//! Tests sinks of datasets that stop, and octets after the dataset that a sink called the last one.

ghost use Rattle.std.specs.Prelude.{◌≡◌, ◌≢◌, ⊤, IfSome};
ghost use Rattle.iim_dataset.specs.States.Reading.{DatasetReaderAccepts};

use crate::told::TestLog;
use arrayvec::ArrayVec;
use iim_dataset::{DatasetSink, Fault, Head, HeadReader, Step, Stop};

/// Three datasets, with a standard count, with an extended count, and without data, and one octet
/// after them.
const STREAM: &[u8] = b"\x1c\x01\x1e\x00\x03TST\x1c\x02\x05\x80\x01\x02ab\x1c\x07\x0a\x00\x00x";

/// A sink that records what it receives. It calls the third dataset the last one, and accepts
/// nothing after it until `go_on` is called.
#[derive(Drop)]
struct Recorder {
    record: ArrayVec<u8, 64>,
    runs: usize,
    ended: usize,
    /// The number of events that are accepted before one is rejected.
    retry_limit: usize,
}

impl Recorder {
    fn new(retry_limit: usize) -> Recorder
        ensures { result.ended ≡ 0 }
    {
        Recorder {
            record: ArrayVec::new(),
            runs: 0,
            ended: 0,
            retry_limit,
        }
    }

    /// Makes the sink accept further datasets after the last one.
    fn go_on(&mut self)
        ensures { self.new.ended ≡ 0 }
    {
        self.ended = 0;
    }

    /// Accepts an event, or rejects it.
    fn takes(&mut self, octets: &[u8]) -> bool
        ensures { self.new.ended ≡ self.old.ended }
    {
        if self.retry_limit == 0 {
            return false;
        }
        self.retry_limit -= 1;
        let _ = self.record.try_extend_from_slice(octets);
        true
    }
}

impl DatasetSink for Recorder {
    ghost goes = { λ a events b. ⊤ };

    ghost stops = { λ a events refused b. ⊤ };

    ghost stands = { λ a left. a.ended ≢ 3 };

    ghost ends = { λ a. a.ended ≡ 3 };

    ghost nothing = { λ a. tt };

    ghost joined = { λ a b c xs ys h k. tt };

    ghost ended = { λ a left ended stands. stands ended };

    ghost joined_stop = { λ a b c xs ys refused h k. tt };

    fn head(&mut self, head: Head) -> Result<(), Stop> {
        let count = head.count.min(255) as u8;
        if self.takes(&[b'<', head.rec, head.set, count]) {
            return Ok(());
        }
        Err(Stop { taken: 0 })
    }

    fn run(&mut self, run: &[u8]) -> Result<(), Stop> {
        self.runs = self.runs.saturating_add(1);
        let taken = run.len().min(self.retry_limit);
        self.retry_limit -= taken;
        let _ = self.record.try_extend_from_slice(&run[..taken]);
        if taken < run.len() {
            return Err(Stop { taken });
        }
        Ok(())
    }

    fn close(&mut self) -> Result<Step, Stop> {
        if !self.takes(b">") {
            return Err(Stop { taken: 0 });
        }
        self.ended = self.ended.saturating_add(1);
        if self.ended == 3 {
            return Ok(Step::Last);
        }
        Ok(Step::More)
    }
}

pub(crate) fn tell(told: &mut TestLog) {
    a_dataset_after_the_last(told);
    octets_after_the_last_dataset(told);
    sinks_of_datasets_that_stop(told);
}

/// Feeds octets one by one, up to the end of the last dataset. Returns the number of octets
/// consumed. Also stops at a call that consumes no octet.
fn feed_by_octets(
    reader: &mut HeadReader,
    octets: &[u8],
    sink: &mut Recorder,
) -> Result<usize, Fault>
    requires { DatasetReaderAccepts reader.old }
{
    for (at, octet) in octets.iter().enumerate() {
        if sink.ended == 3 {
            return Ok(at);
        }
        match reader.feed(&[*octet], sink) {
            Ok(1) => {}
            Ok(_) => return Ok(at),
            Err(fault) => {
                return Err(Fault {
                    cause: fault.cause,
                    used: at.saturating_add(fault.used),
                });
            }
        }
    }
    Ok(octets.len())
}

/// Feeds octets in one chunk, or one by one. Returns the number of octets consumed, or the fault.
fn feed(
    reader: &mut HeadReader,
    octets: &[u8],
    one_by_one: bool,
    sink: &mut Recorder,
) -> Result<usize, Fault>
    requires reader { DatasetReaderAccepts reader.old }
    requires sink { sink.old.ended ≡ 0 }
{
    if one_by_one {
        feed_by_octets(reader, octets, sink)
    } else {
        reader.feed(octets, sink)
    }
}

/// Feeds a chunk to a reader whose sink accepts further datasets after its last one. Returns the
/// number of octets consumed.
fn feed_on(reader: &mut HeadReader, octets: &[u8], sink: &mut Recorder) -> Option<usize>
    requires { DatasetReaderAccepts reader.old }
    ensures { IfSome result (λ used. DatasetReaderAccepts reader.new) }
{
    sink.go_on();
    match reader.feed(octets, sink) {
        Ok(used) => Some(used),
        Err(_) => None,
    }
}

/// Feeds three datasets, then an empty chunk, and then the beginning of a fourth dataset. Returns
/// the numbers of octets consumed.
fn feed_four(reader: &mut HeadReader, sink: &mut Recorder) -> Option<(usize, usize, usize)>
    requires { DatasetReaderAccepts reader.old }
    ensures { IfSome result (λ used. DatasetReaderAccepts reader.new) }
{
    let three = feed_on(reader, STREAM, sink)?;
    let none = feed_on(reader, b"", sink)?;
    let fourth = feed_on(reader, b"\x1c\x01\x1e\x00\x03TS", sink)?;
    Some((three, none, fourth))
}

/// Checks that a reader continues after the last dataset if its sink does: the following octets are
/// the next dataset.
fn a_dataset_after_the_last(told: &mut TestLog) {
    let trial = "a_dataset_after_the_last";
    let mut reader = HeadReader::new();
    let mut sink = Recorder::new(16);
    let Some((three, none, fourth)) = feed_four(&mut reader, &mut sink) else {
        return told.line_of_words(trial, "refused");
    };
    log_used(told, trial, [three, none, fourth], reader.named());
    sink.go_on();
    let answer = reader.feed(b"Tx", &mut sink);
    told.line_and_octets(trial, &answer, sink.record.as_slice());
}

/// Logs the number of octets consumed of each of three chunks, and the last dataset that was named.
fn log_used(told: &mut TestLog, trial: &str, used: [usize; 3], named: (u8, u8)) {
    let [three, none, fourth] = used;
    told.begin(trial, " used ", &three);
    told.answer(", ", &none);
    told.answer(" and ", &fourth);
    log_named(told, named);
}

/// Ends a line of the log with the last dataset that was named.
fn log_named(told: &mut TestLog, named: (u8, u8)) {
    told.answer(", named ", &named.0);
    told.end(":", &named.1);
}

/// Appends to the log what a sink has received, and whether its reader has failed.
fn log_state(told: &mut TestLog, reader: &HeadReader, sink: &Recorder) {
    told.octets(" ", sink.record.as_slice());
    told.answer(", failed: ", &reader.is_failed());
}

/// Checks that an octet after the last dataset is rejected if it does not begin a tag.
fn octets_after_the_last_dataset(told: &mut TestLog) {
    let trial = "octets_after_the_last_dataset";
    let mut reader = HeadReader::new();
    let mut sink = Recorder::new(11);
    let Some(three) = feed_on(&mut reader, STREAM, &mut sink) else {
        return told.line_of_words(trial, "refused");
    };
    sink.go_on();
    let answer = reader.feed(b"x", &mut sink);
    told.begin(trial, " used ", &three);
    told.answer(", ", &answer);
    log_state(told, &reader, &sink);
    told.end_words("");
}

/// Logs the result of reading with a sink that stops at this event. The octets are read in one
/// chunk, or one by one.
fn log_stop(told: &mut TestLog, event: usize, one_by_one: bool) {
    let mut sink = Recorder::new(event);
    let mut reader = HeadReader::new();
    told.begin("sinks_of_datasets_that_stop", " event ", &event);
    told.answer(": ", &feed(&mut reader, STREAM, one_by_one, &mut sink));
    log_state(told, &reader, &sink);
    log_named(told, reader.named());
}

/// Makes a sink stop at each event: a head, octets of data, or an end.
fn sinks_of_datasets_that_stop(told: &mut TestLog) {
    for event in 0..11 {
        log_stop(told, event, false);
        log_stop(told, event, true);
    }
}
