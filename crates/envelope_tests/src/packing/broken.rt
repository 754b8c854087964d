//! Tests a packer, and `pack`, with a writer that fails within each call.

use super::expected;
use crate::given::{head, plan};
use crate::memory::records::built;
use crate::outcome::{Trouble, right, right_at};
use crate::told::Told;
use iim_dataset::Target;
use iim_fields::Envelope;
use iim_object::{PackCause, Plan, Size, StartFault};
use iim_pack::{Packer, pack};
use std::alloc::Global;
use std::io;
use trials::{TrialWriter, Trouble as DeviceTrouble};
use wire_message::MessageHead;
use wire_story::{Lines, StorySink};

/// The calls of a packer that pack the sample story.
#[derive(Clone, Copy, PartialEq, Eq)]
enum Call {
    Start,
    FirstLine,
    LineEnd,
    LastLine,
    Finish,
    /// All calls, made by `pack`.
    All,
}

/// The outcome of packing.
#[derive(Clone, Copy, PartialEq, Eq)]
enum End {
    Whole,
    /// A write failed within this call. This number of octets was written, and they are a prefix of
    /// the packed form.
    Within(Call, u64),
    /// Any other outcome.
    Wrong,
}

/// Converts a packer that has stopped to an error: the cause, the writer, and the number of octets
/// written.
fn stopped<W: Target>(packer: Packer<W>, cause: PackCause) -> StartFault<W> {
    let written = packer.written();
    StartFault {
        cause,
        writer: packer.into_writer(),
        written,
    }
}

/// Passes both lines of the sample story to a packer, up to the first call that fails.
fn take_lines<W: Target>(packer: &mut Packer<W>) -> Result<(), (Call, PackCause)> {
    if let Err(cause) = packer.text(b"Rates stay.") {
        return Err((Call::FirstLine, cause));
    }
    if let Err(cause) = packer.line_end() {
        return Err((Call::LineEnd, cause));
    }
    match packer.text(b"No change.") {
        Ok(()) => Ok(()),
        Err(cause) => Err((Call::LastLine, cause)),
    }
}

/// Returns the call within which a target fails that accepts `good` octets. The subfiles have up to
/// 9 octets.
///
/// Records 1, 2 and 7 have 182 octets, and a full subfile has 14. The header has 25 octets, and so
/// fills two subfiles. The third subfile becomes full within the first line, the fourth before its
/// line end, and the fifth within the last line.
fn call_after(good: usize) -> Call {
    if good < 182 + 2 * 14 {
        Call::Start
    } else if good < 182 + 3 * 14 {
        Call::FirstLine
    } else if good < 182 + 4 * 14 {
        Call::LineEnd
    } else if good < 182 + 5 * 14 {
        Call::LastLine
    } else {
        Call::Finish
    }
}

/// What is packed and how, and the expected packed form.
#[derive(Clone, Copy)]
struct Work<'w> {
    alloc: Global,
    story: &'w Envelope,
    head: &'w MessageHead,
    lines: &'w Lines,
    plan: Plan,
    whole: &'w [u8],
}

/// Creates a target that accepts `good` octets, one in each call, and then fails.
fn target(good: usize) -> TrialWriter<512> {
    TrialWriter::new(good as u64, DeviceTrouble::Failure)
}

impl Work<'_> {
    /// Returns the outcome if a call failed.
    fn end_within(self, call: Call, fault: &StartFault<TrialWriter<512>>) -> End {
        let front = self.whole.get(..fault.written as usize);
        if fault.cause == PackCause::Write && front == Some(fault.writer.octets()) {
            End::Within(call, fault.written)
        } else {
            End::Wrong
        }
    }

    /// Returns the outcome if no call failed.
    fn end_of(self, writer: &TrialWriter<512>) -> End {
        if writer.octets() == self.whole {
            End::Whole
        } else {
            End::Wrong
        }
    }

    /// Packs the sample story call by call, up to the first call that fails. The target accepts
    /// `good` octets.
    fn call_by_call(self, good: usize) -> End {
        match Packer::start(self.alloc, self.story, self.head, self.plan, target(good)) {
            Ok(packer) => self.lines_and_end(packer),
            Err(fault) => self.end_within(Call::Start, &fault),
        }
    }

    /// Passes both lines to a packer that was started, and finishes it, up to the first call that
    /// fails.
    fn lines_and_end(self, mut packer: Packer<TrialWriter<512>>) -> End {
        match take_lines(&mut packer) {
            Ok(()) => self.finish(packer),
            Err((call, cause)) => self.end_within(call, &stopped(packer, cause)),
        }
    }

    /// Finishes a packer, and returns the outcome.
    fn finish(self, packer: Packer<TrialWriter<512>>) -> End {
        match packer.finish(b"") {
            Ok(writer) => self.end_of(&writer),
            Err((packer, cause)) => self.end_within(Call::Finish, &stopped(packer, cause)),
        }
    }

    /// Packs the sample story in one call.
    fn at_once(self, good: usize) -> End {
        let target = target(good);
        let (story, head, lines) = (self.story, self.head, self.lines);
        match pack(self.alloc, story, head, lines, b"", self.plan, target) {
            Ok(writer) => self.end_of(&writer),
            Err(fault) => self.end_within(Call::All, &fault),
        }
    }

    /// Packs in one call, with a target that fails, once for each number of octets that it can
    /// accept.
    fn expect_each_failure(self) -> Result<(), Trouble> {
        let count = self.whole.len();
        for good in 0..count {
            let end = End::Within(Call::All, good as u64);
            right_at(good, self.at_once(good) == end)?;
        }
        right_at(count, self.at_once(count) == End::Whole)
    }

    /// Packs call by call, with a target that fails, once for each number of octets up to 271 that
    /// it can accept.
    fn expect_each_call(self) -> Result<(), Trouble> {
        right(self.whole.len() == 271)?;
        for good in 0..271usize {
            let end = End::Within(call_after(good), good as u64);
            right_at(good, self.call_by_call(good) == end)?;
        }
        right_at(271, self.call_by_call(271) == End::Whole)
    }

    /// Packs in this way with targets that fail.
    fn expect_failures(self, way: Way) -> Result<(), Trouble> {
        match way {
            Way::CallByCall => self.expect_each_call(),
            Way::AtOnce => self.expect_each_failure(),
        }
    }
}

/// How the sample story is packed.
#[derive(Clone, Copy)]
enum Way {
    CallByCall,
    AtOnce,
}

/// Returns the lines of the sample story.
fn lines_of_story(alloc: Global) -> Result<Lines, Trouble> {
    let mut lines = Lines::new(alloc);
    right(takes_story(&mut lines))?;
    Ok(lines)
}

/// Checks whether `Lines` accepts the lines of the sample story.
fn takes_story(lines: &mut Lines) -> bool {
    lines.text(b"Rates stay.").is_ok()
        && lines.line_end().is_ok()
        && lines.text(b"No change.").is_ok()
}

/// Packs under a plan in this way, with targets that fail.
fn expect_failures(alloc: Global, plan: Plan, way: Way) -> Result<(), Trouble> {
    let whole = expected(alloc, plan)?;
    let work = Work {
        alloc,
        story: &built(alloc)?,
        head: &head()?,
        lines: &lines_of_story(alloc)?,
        plan,
        whole: &whole,
    };
    work.expect_failures(way)
}

fn packer_fails_in_the_call_that_writes(alloc: Global) -> Result<(), Trouble> {
    let plan = plan(9, Size::Known(50))?;
    expect_failures(alloc, plan, Way::CallByCall)
}

fn pack_reports_a_failure_of_each_write(alloc: Global) -> Result<(), Trouble> {
    for subfile in [1, 9, 1024] {
        let plan = plan(subfile, Size::Unknown(Some(64)))?;
        expect_failures(alloc, plan, Way::AtOnce)?;
    }
    Ok(())
}

/// Runs the tests of writers that fail within each call.
pub(crate) fn tell(rt: &impl Print, told: &mut Told, alloc: Global) -> io::Result<()> {
    let calls = packer_fails_in_the_call_that_writes(alloc);
    told.trial(rt, "packer_fails_in_the_call_that_writes", calls)?;
    let whole = pack_reports_a_failure_of_each_write(alloc);
    told.trial(rt, "pack_reports_a_failure_of_each_write", whole)
}
