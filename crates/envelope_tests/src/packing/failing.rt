//! Tests a packer whose writer fails.

use crate::given::{head, plan};
use crate::memory::records::built;
use crate::outcome::{Trouble, right_at};
use crate::told::Told;
use iim_object::{PackCause, Size, StartFault};
use iim_pack::Packer;
use std::alloc::Global;
use std::io;
use trials::{TrialWriter, Trouble as DeviceTrouble};
use worked::{FIRST_LINE, LAST_LINE, STORY_FRONT, STORY_REST};

/// Checks whether octets are a prefix of the sample envelope.
fn begins_the_story(octets: &[u8]) -> bool {
    if octets.len() <= STORY_FRONT.len() {
        STORY_FRONT.starts_with(octets)
    } else {
        octets.starts_with(STORY_FRONT) && STORY_REST.starts_with(&octets[STORY_FRONT.len()..])
    }
}

/// Checks whether a writer has accepted `written` octets, and these are a prefix of the sample
/// envelope.
fn holds_front<const N: usize>(writer: &TrialWriter<N>, written: u64) -> bool {
    writer.octets().len() as u64 == written && begins_the_story(writer.octets())
}

/// The outcome of packing the sample envelope, and the number of octets written.
#[derive(Clone, Copy, PartialEq, Eq)]
enum End {
    Whole,
    InStart(u64),
    InFinish(u64),
    /// Any other outcome.
    Wrong,
}

/// Returns the outcome if `start` failed.
fn end_in_start<const N: usize>(fault: &StartFault<TrialWriter<N>>) -> End {
    if fault.cause == PackCause::Write && holds_front(&fault.writer, fault.written) {
        End::InStart(fault.written)
    } else {
        End::Wrong
    }
}

/// Packs the sample envelope. After a failed write, the remaining calls are still made.
fn pack_story<const N: usize>(alloc: Global, writer: TrialWriter<N>) -> Result<End, Trouble> {
    let story = built(alloc)?;
    let plan = plan(1024, Size::Known(50))?;
    match Packer::start(alloc, &story, &head()?, plan, writer) {
        Ok(packer) => Ok(end_of(packer)),
        Err(fault) => Ok(end_in_start(&fault)),
    }
}

/// Checks whether a packer accepts the lines.
fn takes_lines<const N: usize>(packer: &mut Packer<TrialWriter<N>>) -> bool {
    let answers = [
        packer.text(FIRST_LINE),
        packer.line_end(),
        packer.text(LAST_LINE),
    ];
    answers == [Ok(()); 3]
}

/// Returns the outcome with a packer that was started.
fn end_of<const N: usize>(mut packer: Packer<TrialWriter<N>>) -> End {
    if takes_lines(&mut packer) {
        end_of_lines(packer)
    } else {
        End::Wrong
    }
}

/// Returns the outcome with a packer that has accepted the lines.
fn end_of_lines<const N: usize>(packer: Packer<TrialWriter<N>>) -> End {
    match packer.finish(b"") {
        Ok(writer) => end_of_writer(&writer),
        Err((packer, cause)) => end_in_finish(packer, cause),
    }
}

/// Returns the outcome if no call failed.
fn end_of_writer<const N: usize>(writer: &TrialWriter<N>) -> End {
    if holds_front(writer, 246) {
        End::Whole
    } else {
        End::Wrong
    }
}

/// Checks whether a write failed, and whether later calls fail too.
fn fails_on<const N: usize>(packer: &mut Packer<TrialWriter<N>>, cause: PackCause) -> bool {
    let answers = [packer.text(b""), packer.text(b"\n"), packer.line_end()];
    cause == PackCause::Write && answers == [Err(PackCause::Failed); 3]
}

/// Returns the outcome if `finish` failed. Later calls must fail too.
fn end_in_finish<const N: usize>(mut packer: Packer<TrialWriter<N>>, cause: PackCause) -> End {
    let written = packer.written();
    if fails_on(&mut packer, cause) {
        end_after(packer, written)
    } else {
        End::Wrong
    }
}

/// Returns the outcome if `written` octets were written before the later calls. The last of these
/// calls is another `finish`.
fn end_after<const N: usize>(packer: Packer<TrialWriter<N>>, written: u64) -> End {
    match packer.finish(&[b'x'; 65]) {
        Ok(_) => End::Wrong,
        Err((packer, cause)) => {
            let counts = [packer.written(), written];
            end_of_failed(cause, counts, &packer.into_writer())
        }
    }
}

/// Returns the outcome for the cause of the last call. The later calls must not write anything.
fn end_of_failed<const N: usize>(
    cause: PackCause,
    counts: [u64; 2],
    writer: &TrialWriter<N>,
) -> End {
    let [after, before] = counts;
    if cause == PackCause::Failed && after == before && holds_front(writer, before) {
        End::InFinish(before)
    } else {
        End::Wrong
    }
}

/// Returns the expected outcome if a write fails after `good` successful calls, each of which
/// accepts one octet.
fn end_after_calls(good: usize) -> End {
    if good < 182 {
        End::InStart(good as u64)
    } else if good < 246 {
        End::InFinish(good as u64)
    } else {
        End::Whole
    }
}

fn packer_reports_a_failure_of_each_write(alloc: Global) -> Result<(), Trouble> {
    for good in 0..247usize {
        let writer: TrialWriter<512> = TrialWriter::new(good as u64, DeviceTrouble::Failure);
        let end = pack_story(alloc, writer)?;
        right_at(good, end == end_after_calls(good))?;
    }
    Ok(())
}

fn packer_stops_at_a_full_writer(alloc: Global) -> Result<(), Trouble> {
    let none: TrialWriter<0> = TrialWriter::new(1000, DeviceTrouble::Failure);
    right_at(0, pack_story(alloc, none)? == End::InStart(0))?;
    let some: TrialWriter<100> = TrialWriter::new(1000, DeviceTrouble::Failure);
    right_at(100, pack_story(alloc, some)? == End::InStart(100))?;
    let most: TrialWriter<200> = TrialWriter::new(1000, DeviceTrouble::Failure);
    right_at(200, pack_story(alloc, most)? == End::InFinish(200))?;
    let all: TrialWriter<246> = TrialWriter::new(1000, DeviceTrouble::Failure);
    right_at(246, pack_story(alloc, all)? == End::Whole)
}

/// Runs the tests of a packer whose writer fails.
pub(crate) fn tell(rt: &impl Print, told: &mut Told, alloc: Global) -> io::Result<()> {
    let calls = packer_reports_a_failure_of_each_write(alloc);
    told.trial(rt, "packer_reports_a_failure_of_each_write", calls)?;
    let full = packer_stops_at_a_full_writer(alloc);
    told.trial(rt, "packer_stops_at_a_full_writer", full)
}
