//! Calls that pack envelopes and allocate.

use super::objects::{plan, writer};
use crate::given::head;
use crate::outcome::{Trouble, right};
use iim_fields::Envelope;
use iim_object::{PackCause, StartFault};
use iim_pack::{Packer, pack};
use std::alloc::Global;
use trials::TrialWriter;
use wire_story::Lines;
use worked::{FIRST_LINE, LAST_LINE, STORY, STORY_CONFIRMED};

/// Converts an error to the trouble of a test. If an allocation failed, nothing may have been
/// written.
fn trouble_of(fault: &StartFault<TrialWriter<512>>) -> Trouble {
    let is_empty = fault.written == 0 && fault.writer.octets().is_empty();
    if fault.cause == PackCause::OutOfMemory && is_empty {
        Trouble::OutOfMemory
    } else {
        Trouble::Wrong
    }
}

/// Packs the sample envelope call by call. No call after `start` allocates.
pub(crate) fn call_by_call(alloc: Global, envelope: &Envelope) -> Result<(), Trouble> {
    let writer = packed(alloc, envelope, 1024)?;
    right(writer.octets() == STORY.as_slice())
}

/// Packs the sample envelope call by call in subfiles of up to `subfile` octets. The packed form
/// has `octets` octets.
pub(crate) fn in_subfiles(
    alloc: Global,
    envelope: &Envelope,
    subfile: u64,
    octets: usize,
) -> Result<(), Trouble> {
    let writer = packed(alloc, envelope, subfile)?;
    right(writer.octets().len() == octets && writer.octets().ends_with(STORY_CONFIRMED))
}

/// Returns the writer to which the sample envelope was packed, call by call.
fn packed(alloc: Global, envelope: &Envelope, subfile: u64) -> Result<TrialWriter<512>, Trouble> {
    match Packer::start(alloc, envelope, &head()?, plan(subfile)?, writer()) {
        Ok(packer) => finished(packer),
        Err(fault) => Err(trouble_of(&fault)),
    }
}

/// Checks whether a packer accepts both lines of the sample envelope.
fn takes_lines(packer: &mut Packer<TrialWriter<512>>) -> bool {
    packer.text(FIRST_LINE).is_ok() && packer.line_end().is_ok() && packer.text(LAST_LINE).is_ok()
}

/// Packs the lines, and returns the writer.
fn finished(mut packer: Packer<TrialWriter<512>>) -> Result<TrialWriter<512>, Trouble> {
    if !takes_lines(&mut packer) {
        return Err(Trouble::Wrong);
    }
    let Ok(writer) = packer.finish(b"") else {
        return Err(Trouble::Wrong);
    };
    Ok(writer)
}

/// Packs the sample envelope in one call.
pub(crate) fn at_once(alloc: Global, envelope: &Envelope, lines: &Lines) -> Result<(), Trouble> {
    match pack(alloc, envelope, &head()?, lines, b"", plan(1024)?, writer()) {
        Ok(writer) => right(writer.octets() == STORY.as_slice()),
        Err(fault) => Err(trouble_of(&fault)),
    }
}
