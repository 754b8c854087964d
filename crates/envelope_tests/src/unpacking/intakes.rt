//! Tests intakes with a reader that returns one octet in each call and then fails.

use super::refusal;
use crate::given::LIMITS;
use crate::outcome::{Trouble, right_at};
use crate::told::Told;
use iim_unpack::{Cause, Intake, IntakeFault, Layer, Unpacked, Unpacker};
use std::alloc::{AllocError, Global};
use std::io;
use trials::{TrialReader, Trouble as DeviceTrouble};
use wire_story::Discard;
use worked::{SMALLEST, STORY};

/// Reads the next envelope with a new unpacker. Returns the length of its object, and the number
/// of octets consumed.
fn next(
    alloc: Global,
    intake: &mut Intake<TrialReader<'_>>,
) -> Result<(Result<Option<u64>, IntakeFault>, u64), AllocError> {
    let unpacker = Unpacker::new(alloc, LIMITS)?;
    let answer = size_of(intake.next_envelope(unpacker, &mut Discard));
    Ok((answer, intake.octets()))
}

/// Returns the number of octets of the object.
fn size_of(answer: Result<Option<Unpacked>, IntakeFault>) -> Result<Option<u64>, IntakeFault> {
    match answer {
        Ok(Some(got)) => Ok(Some(got.sizes.total)),
        Ok(None) => Ok(None),
        Err(fault) => Err(fault),
    }
}

/// Checks that an intake returns this error for the first envelope, and returns the same octet in
/// every later error.
fn expect_faults(
    alloc: Global,
    intake: &mut Intake<TrialReader<'_>>,
    fault: IntakeFault,
    octet: usize,
) -> Result<(), Trouble> {
    let failed = IntakeFault::Refused(refusal(Layer::Outside, (0, 0), octet, Cause::Failed));
    for want in [fault, failed, failed] {
        let answer = next(alloc, intake)?;
        right_at(octet, answer == (Err(want), 0))?;
    }
    Ok(())
}

/// Checks the error of an intake whose reader returns these octets, and fails as `trouble` says
/// after `good` calls.
fn expect_fault(
    alloc: Global,
    octets: &[u8],
    good: usize,
    trouble: DeviceTrouble,
    fault: IntakeFault,
) -> Result<(), Trouble> {
    let mut intake = Intake::new(TrialReader::new(octets, good as u64, trouble));
    expect_faults(alloc, &mut intake, fault, good)
}

/// Reads the smallest envelope with fewer consecutive interruptions than make an error.
fn patient(
    alloc: Global,
    good: usize,
) -> Result<(Result<Option<u64>, IntakeFault>, u64), AllocError> {
    let trouble = DeviceTrouble::Interruptions(999_999);
    let mut intake = Intake::new(TrialReader::new(SMALLEST, good as u64, trouble));
    next(alloc, &mut intake)
}

fn intake_reports_a_failure_of_each_read(alloc: Global) -> Result<(), Trouble> {
    for good in 0..246usize {
        let fault = IntakeFault::Read;
        expect_fault(alloc, STORY, good, DeviceTrouble::Failure, fault)?;
    }
    Ok(())
}

/// Checks that a failure and a million consecutive interruptions after `good` successful calls are
/// errors, and that fewer interruptions are not.
fn expect_troubles(alloc: Global, good: usize) -> Result<(), Trouble> {
    let faults = [
        (DeviceTrouble::Failure, IntakeFault::Read),
        (
            DeviceTrouble::Interruptions(1_000_000),
            IntakeFault::Interrupted,
        ),
    ];
    for (trouble, fault) in faults {
        expect_fault(alloc, SMALLEST, good, trouble, fault)?;
    }
    let answer = patient(alloc, good)?;
    right_at(good, answer == (Ok(Some(14)), 114))
}

fn intake_reports_failure_and_interruption(alloc: Global) -> Result<(), Trouble> {
    for good in [0usize, 1, 60, 113] {
        expect_troubles(alloc, good)?;
    }
    Ok(())
}

/// Runs the tests of intakes.
pub(crate) fn tell(rt: &impl Print, told: &mut Told, alloc: Global) -> io::Result<()> {
    let each = intake_reports_a_failure_of_each_read(alloc);
    told.trial(rt, "intake_reports_a_failure_of_each_read", each)?;
    told.trial(
        rt,
        "intake_reports_failure_and_interruption",
        intake_reports_failure_and_interruption(alloc),
    )
}
