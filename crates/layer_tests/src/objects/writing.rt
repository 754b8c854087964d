//! Tests objects that are written with computed sizes, and to a target that fails at each call.

use crate::told::TestLog;
use iim_dataset::Target;
use iim_object::{PackCause, Plan, Size, StartFault, SubfileBuffer, SubfileWriter};
use std::alloc::Global;
use trials::{TrialWriter, Trouble};

/// The expected encoding of an object of three octets in subfiles of two octets, with an unknown
/// size and a maximum.
const SMALL_OUT: &[u8] = b"\x1C\x07\x0A\x00\x01\x00\
\x1C\x07\x14\x00\x04\x00\x00\x00\x02\
\x1C\x07\x5F\x00\x04\x00\x00\x00\x05\
\x1C\x08\x0A\x00\x02ab\
\x1C\x08\x0A\x00\x01c\
\x1C\x09\x0A\x00\x04\x00\x00\x00\x03";

/// The target of these tests.
type Sink = TrialWriter<600>;

/// Returns the buffer of a plan.
fn buffer(alloc: Global, subfile: u64, size: Size) -> Option<SubfileBuffer> {
    SubfileBuffer::reserve(alloc, Plan::new(subfile, size)?).ok()
}

/// Plans: the size of a subfile, and the size of the object.
const PLANS: [(u64, Size); 7] = [
    (1, Size::Known(50)),
    (7, Size::Known(50)),
    (1024, Size::Known(50)),
    (1024, Size::Known(0)),
    (1024, Size::Unknown(Some(20))),
    (16, Size::Unknown(Some(20))),
    (1024, Size::Unknown(None)),
];

/// The name of a test that is logged by several functions.
const CAUSES: &str = "causes_and_their_order";

/// The name of another test that is logged by several functions.
const FAILING: &str = "writes_that_fail_at_each_call";

/// Returns the capacity of the buffer of a plan.
fn room(alloc: Global, subfile: u64, size: Size) -> Option<usize> {
    Some(buffer(alloc, subfile, size)?.room())
}

fn buffers_have_room_for_the_lesser_of_subfile_and_bound(told: &mut TestLog, alloc: Global) {
    for (subfile, size) in &PLANS {
        told.begin(
            "buffers_have_room_for_the_lesser_of_subfile_and_bound",
            " ",
            subfile,
        );
        told.answer(" ", size);
        told.end(": ", &room(alloc, *subfile, *size));
    }
}

/// Creates a writer of three octets in subfiles of two octets, to a target that does not fail.
fn writer_of_three(alloc: Global) -> Option<SubfileWriter<Sink>> {
    let buffer = buffer(alloc, 2, Size::Known(3))?;
    SubfileWriter::start(buffer, TrialWriter::new(1000, Trouble::Failure)).ok()
}

/// Logs the number of octets written, and the number of octets of the object so far.
fn log_counts<W: Target>(told: &mut TestLog, writer: &SubfileWriter<W>) {
    told.begin(CAUSES, " ", &writer.written());
    told.answer(" out, ", &writer.total());
    told.end(" taken, failed: ", &writer.is_failed());
}

/// Writes chunks, and logs each result.
fn log_writes<W: Target>(told: &mut TestLog, writer: &mut SubfileWriter<W>, pieces: &[&[u8]]) {
    for piece in pieces {
        told.begin_octets(CAUSES, " write '", piece);
        told.end("': ", &writer.write(piece));
    }
}

/// Writes more octets than were announced, and then fewer.
fn write_before<W: Target>(told: &mut TestLog, writer: &mut SubfileWriter<W>) {
    log_writes(told, writer, &[b"abcd"]);
    log_counts(told, writer);
    log_writes(told, writer, &[b"ab"]);
}

/// Continues to write, after fewer octets were written than were announced.
fn write_after<W: Target>(told: &mut TestLog, writer: &mut SubfileWriter<W>) {
    log_counts(told, writer);
    log_writes(told, writer, &[b"cd", b"c", b"d"]);
    log_counts(told, writer);
}

/// Logs an end that is rejected, and continues after it.
fn finish_after(told: &mut TestLog, mut writer: SubfileWriter<Sink>, cause: PackCause) {
    told.line(CAUSES, " finish: ", &cause);
    write_after(told, &mut writer);
    match writer.finish() {
        Ok(_target) => told.line_of_words(CAUSES, "finished: true"),
        Err((_writer, cause)) => told.line(CAUSES, " not finished: ", &cause),
    }
}

fn causes_and_their_order(told: &mut TestLog, alloc: Global) {
    let Some(mut writer) = writer_of_three(alloc) else {
        return told.line_of_words(CAUSES, "not started");
    };
    write_before(told, &mut writer);
    match writer.finish() {
        Ok(_) => told.line_of_words(CAUSES, "finished too early"),
        Err((writer, cause)) => finish_after(told, writer, cause),
    }
}

/// How writing ended: in which call, with which cause, and the number of octets that the writer or
/// the error reports.
#[derive(Clone, Copy)]
struct End {
    call: &'static str,
    cause: Option<PackCause>,
    written: u64,
    /// The results of three later calls, if there still is a writer: two chunks and the end.
    later: [Option<PackCause>; 3],
}

/// Logs how writing ended, and whether the octets written are a prefix of the expected ones.
fn log_end(told: &mut TestLog, end: &End, octets: &[u8]) {
    told.put(" good: in ");
    told.put(end.call);
    told.answer(" ", &end.cause);
    told.answer(", ", &end.written);
    told.answer(" counted, ", &octets.len());
    told.end(" out, as worked: ", &SMALL_OUT.starts_with(octets));
    told.line(FAILING, " then ", &end.later);
}

/// Logs how writing ended at a call that failed. The writer must not accept anything afterwards.
fn log_failed(
    told: &mut TestLog,
    call: &'static str,
    cause: PackCause,
    mut writer: SubfileWriter<Sink>,
) {
    let mut end = End {
        call,
        cause: Some(cause),
        written: writer.written(),
        later: [writer.write(b"abcdef").err(), writer.write(b"").err(), None],
    };
    match writer.finish() {
        Ok(target) => {
            end.call = "finish after a failure";
            log_end(told, &end, target.octets());
        }
        Err((writer, last)) => {
            end.written = writer.written();
            end.later[2] = Some(last);
            log_end(told, &end, writer.into_writer().octets());
        }
    }
}

/// Writes three octets, and logs how writing ended.
fn log_written(told: &mut TestLog, mut writer: SubfileWriter<Sink>) {
    if let Err(cause) = writer.write(b"abc") {
        return log_failed(told, "write", cause, writer);
    }
    match writer.finish() {
        Ok(target) => {
            let end = End {
                call: "none",
                cause: None,
                written: 46,
                later: [None; 3],
            };
            log_end(told, &end, target.octets());
        }
        Err((writer, cause)) => log_failed(told, "finish", cause, writer),
    }
}

/// Logs how writing ended if it could not be started.
fn log_not_started(told: &mut TestLog, fault: &StartFault<Sink>) {
    let end = End {
        call: "start",
        cause: Some(fault.cause),
        written: fault.written,
        later: [None; 3],
    };
    log_end(told, &end, fault.writer.octets());
}

/// Writes three octets to a target that accepts `good` octets, one in each call, and then fails.
fn write_three(told: &mut TestLog, alloc: Global, good: u64) {
    let Some(buffer) = buffer(alloc, 2, Size::Unknown(Some(5))) else {
        return told.line_of_words(FAILING, "no buffer");
    };
    told.begin(FAILING, " ", &good);
    match SubfileWriter::start(buffer, TrialWriter::new(good, Trouble::Failure)) {
        Ok(writer) => log_written(told, writer),
        Err(fault) => log_not_started(told, &fault),
    }
}

fn writes_that_fail_at_each_call(told: &mut TestLog, alloc: Global) {
    told.begin(FAILING, " ", &SMALL_OUT.len());
    told.end_words(" octets");
    for good in 0..48 {
        write_three(told, alloc, good);
    }
}

/// Writes three octets to a target that is interrupted `interruptions` times after 30 octets.
/// Returns whether they were accepted, and the number of octets written.
fn interrupted(alloc: Global, interruptions: u32) -> Option<(bool, u64)> {
    let buffer = buffer(alloc, 2, Size::Unknown(Some(5)))?;
    let target: Sink = TrialWriter::new(30, Trouble::Interruptions(interruptions));
    let mut writer = SubfileWriter::start(buffer, target).ok()?;
    let leads_on = writer.write(b"abc").is_ok();
    Some((leads_on, writer.written()))
}

fn a_million_interruptions_are_a_failure(told: &mut TestLog, alloc: Global) {
    for interruptions in [999_999, 1_000_000] {
        told.begin("a_million_interruptions_are_a_failure", " ", &interruptions);
        told.end(": ", &interrupted(alloc, interruptions));
    }
}

pub(crate) fn tell(told: &mut TestLog, alloc: Global) {
    buffers_have_room_for_the_lesser_of_subfile_and_bound(told, alloc);
    causes_and_their_order(told, alloc);
    writes_that_fail_at_each_call(told, alloc);
    a_million_interruptions_are_a_failure(told, alloc);
}
