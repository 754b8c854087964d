//! Calls of the object layer that allocate: writing subfiles.

use crate::given;
use crate::outcome::{Trouble, right};
use iim_object::{Plan, Size, SubfileBuffer, SubfileWriter};
use std::alloc::Global;
use trials::{TrialWriter, Trouble as DeviceTrouble};
use worked::{STORY, STORY_CONFIRMED, STORY_OBJECT};

/// Returns a writer that allocates nothing and never fails.
pub(crate) fn writer() -> TrialWriter<512> {
    TrialWriter::new(u64::MAX, DeviceTrouble::Failure)
}

/// Returns a plan with a known size, and with subfiles of up to `subfile` octets.
pub(crate) fn plan(subfile: u64) -> Result<Plan, Trouble> {
    given::plan(subfile, Size::Known(50))
}

/// Writes the sample object in one subfile. No call after `reserve` allocates.
pub(crate) fn one_subfile(alloc: Global) -> Result<(), Trouble> {
    let writer = written(alloc, 1024)?;
    right(writer.octets().len() == 88 && STORY.ends_with(writer.octets()))
}

/// Writes the sample object in subfiles of up to `subfile` octets. All records together have
/// `octets` octets. All subfiles use the same buffer.
pub(crate) fn subfiles(alloc: Global, subfile: u64, octets: usize) -> Result<(), Trouble> {
    let writer = written(alloc, subfile)?;
    right(writer.octets().len() == octets && writer.octets().ends_with(STORY_CONFIRMED))
}

/// Returns the writer to which the sample object was written.
fn written(alloc: Global, subfile: u64) -> Result<TrialWriter<512>, Trouble> {
    let buffer = SubfileBuffer::reserve(alloc, plan(subfile)?)?;
    match SubfileWriter::start(buffer, writer()) {
        Ok(subfiles) => finished(subfiles),
        Err(_) => Err(Trouble::Wrong),
    }
}

/// Writes the sample object, and returns the writer.
fn finished(mut subfiles: SubfileWriter<TrialWriter<512>>) -> Result<TrialWriter<512>, Trouble> {
    if subfiles.write(STORY_OBJECT).is_err() {
        return Err(Trouble::Wrong);
    }
    let Ok(writer) = subfiles.finish() else {
        return Err(Trouble::Wrong);
    };
    Ok(writer)
}
