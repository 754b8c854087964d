//! Tests the calls that a sink receives.

use super::refusal;
use crate::given::{LIMITS, joined};
use crate::outcome::{Trouble, right, right_at};
use crate::told::Told;
use iim_dataset::Stop;
use iim_unpack::{Cause, Layer, Progress, Refusal, Unpacker};
use std::alloc::{AllocError, Global};
use std::io;
use trials::TrialSink;
use wire_story::{Lines, StorySink};
use worked::{SMALLEST, STORY};

/// The number of calls of a sink, and the first four of them. A call is a number of octets of text,
/// or 0 for the end of a line.
#[derive(Clone, Copy)]
struct Calls {
    count: u64,
    first: [usize; 4],
}

impl Calls {
    fn note(&mut self, octets: usize) {
        if let Some(place) = self.first.get_mut(self.count as usize) {
            *place = octets;
        }
        self.count = self.count.saturating_add(1);
    }
}

impl StorySink for Calls {
    ghost goes = { λ old events new. Unit {0} };

    ghost failures = { λ sink. 0 };

    ghost nothing = { λ sink. tt };

    ghost joined = { λ a b c xs ys first then. tt };

    fn text(&mut self, run: &[u8]) -> Result<(), Stop> {
        self.note(run.len());
        Ok(())
    }

    fn line_end(&mut self) -> Result<(), Stop> {
        self.note(0);
        Ok(())
    }
}

const NONE: Calls = Calls {
    count: 0,
    first: [0; 4],
};

fn sink_receives_two_lines_in_three_calls(alloc: Global) -> Result<(), Trouble> {
    let mut calls = NONE;
    let answer = {
        let mut unpacker = Unpacker::new(alloc, LIMITS)?;
        unpacker.feed(STORY, &mut calls)
    };
    right(answer == Ok(Progress::Done { used: 246 }))?;
    right(calls.count == 3)?;
    right(calls.first == [11, 0, 10, 0])
}

/// Returns an envelope whose story is one line of 32,754 octets.
fn long_story(alloc: Global) -> Result<Vec<u8>, AllocError> {
    let line = vec![in alloc; b'a'; 32_754]?;
    let smallest = *SMALLEST;
    let pieces: [&[u8]; 6] = [
        &smallest[..73],
        b"\x00\x00\x80\x00\x1c\x07\x5a\x00\x04\x00\x00\x80\x00",
        b"\x1c\x08\x0a\x80\x04\x00\x00\x80\x00\x01X1 4 N 0\r\n\x02",
        &line,
        b"\x03\x04",
        b"\x1c\x09\x0a\x00\x04\x00\x00\x80\x00",
    ];
    joined(alloc, &pieces)
}

/// Feeds the envelope with the long story to a new unpacker.
fn fed_long(alloc: Global, calls: &mut Calls) -> Result<Result<Progress, Refusal>, AllocError> {
    let octets = long_story(alloc)?;
    let mut unpacker = Unpacker::new(alloc, LIMITS)?;
    Ok(unpacker.feed(&octets, calls))
}

fn sink_receives_one_long_line_in_one_call(alloc: Global) -> Result<(), Trouble> {
    let mut calls = NONE;
    let answer = fed_long(alloc, &mut calls)?;
    right(answer == Ok(Progress::Done { used: 32_872 }))?;
    right(calls.count == 1)?;
    right(calls.first == [32_754, 0, 0, 0])
}

/// Returns the lines, with an LF after each.
fn text_of(alloc: Global, lines: &Lines) -> Result<Vec<u8>, AllocError> {
    let mut text = Vec::new(alloc);
    for line in lines.iter() {
        text.extend_from_slice(line)?;
        text.push(b'\n')?;
    }
    Ok(text)
}

/// Checks that a new unpacker stops at this octet of the sample story, and rejects every later
/// call.
fn expect_stop(alloc: Global, sink: &mut TrialSink<Lines>, octet: usize) -> Result<(), Trouble> {
    let stopped = refusal(Layer::Outside, (8, 10), octet, Cause::SINK);
    let failed = refusal(Layer::Outside, (0, 0), octet, Cause::Failed);
    let answers = fed_twice(alloc, sink)?;
    right_at(octet, answers == [Err(stopped), Err(failed)])?;
    right(sink.failures() == 1)
}

/// Feeds the sample story to a new unpacker twice.
fn fed_twice(
    alloc: Global,
    sink: &mut TrialSink<Lines>,
) -> Result<[Result<Progress, Refusal>; 2], AllocError> {
    let mut unpacker = Unpacker::new(alloc, LIMITS)?;
    let first = unpacker.feed(STORY, sink);
    Ok([first, unpacker.feed(STORY, sink)])
}

/// Returns the text that a sink received before it stopped. It stops after `good` calls, and after
/// `front` octets of the next slice. The unpacker must stop at `octet`.
fn text_before(
    alloc: Global,
    (good, front): (u64, usize),
    octet: usize,
) -> Result<Vec<u8>, Trouble> {
    let mut sink = TrialSink::new(Lines::new(alloc), good, front);
    expect_stop(alloc, &mut sink, octet)?;
    Ok(text_of(alloc, &sink.into_sink())?)
}

/// The sinks stop at the first octet of the text, within a line, at the end of a line, at the first
/// octet of the next line, and within that line.
fn stops_where_the_sink_stops(alloc: Global) -> Result<(), Trouble> {
    let rows: [((u64, usize), usize, &[u8]); 5] = [
        ((0, 0), 212, b"\n"),
        ((0, 4), 216, b"Rate\n"),
        ((1, 0), 224, b"Rates stay.\n"),
        ((2, 0), 225, b"Rates stay.\n\n"),
        ((2, 4), 229, b"Rates stay.\nNo c\n"),
    ];
    for (stop, octet, lines) in rows {
        let text = text_before(alloc, stop, octet)?;
        right_at(octet, text.as_slice() == lines)?;
    }
    Ok(())
}

/// Runs the tests of the calls of sinks.
pub(crate) fn tell(rt: &impl Print, told: &mut Told, alloc: Global) -> io::Result<()> {
    told.trial(
        rt,
        "sink_receives_two_lines_in_three_calls",
        sink_receives_two_lines_in_three_calls(alloc),
    )?;
    told.trial(
        rt,
        "sink_receives_one_long_line_in_one_call",
        sink_receives_one_long_line_in_one_call(alloc),
    )?;
    told.trial(
        rt,
        "stops_where_the_sink_stops",
        stops_where_the_sink_stops(alloc),
    )
}
