//! Calls of the record layer that allocate: checking and building records.

ghost use Rattle.std.specs.Prelude.{◌≢◌, length, OnOk};
ghost use Rattle.iim_fields.specs.States.Standing.{IsBetweenDatasets, IsInsideDataset};

use crate::given::LIMITS;
use crate::outcome::Trouble;
use iim_dataset::Head;
use iim_fields::{CopyFault, Envelope, EnvelopeBuilder, FieldFault, Fields};
use std::alloc::Global;
use worked::STORY_FIELDS;

/// Passes all octets of the dataset in progress.
fn give(fields: &mut Fields, head: Head, octets: &[u8])
    requires inside { IsInsideDataset fields.old head (length octets.now) }
    requires value { head.rec ≢ 8 }
    ensures { IsInsideDataset fields.new head 0 }
{
    fields.bytes(octets);
}

/// Passes a dataset of a record other than 8.
fn pass(fields: &mut Fields, rec: u8, set: u8, octets: &[u8]) -> Result<(), FieldFault>
    requires between { IsBetweenDatasets fields.old }
    requires value { rec ≢ 8 }
    ensures { OnOk result (IsBetweenDatasets fields.new) }
{
    let head = Head {
        rec,
        set,
        count: octets.len() as u64,
    };
    match fields.begin(head) {
        Ok(()) => {
            give(fields, head, octets);
            match fields.close() {
                Ok(_) => Ok(()),
                Err(fault) => Err(fault),
            }
        }
        Err(fault) => Err(fault),
    }
}

/// Checks the sample fields. No call after `new` allocates.
pub(crate) fn fields(alloc: Global) -> Result<(), Trouble> {
    let mut fields = Fields::new(alloc, LIMITS)?;
    for (rec, set, octets) in &STORY_FIELDS {
        if *rec == 8 || pass(&mut fields, *rec, *set, octets).is_err() {
            return Err(Trouble::Wrong);
        }
    }
    Ok(())
}

/// Adds the sample fields. Returns whether all were accepted.
fn add_all(builder: &mut EnvelopeBuilder) -> bool {
    for (rec, set, octets) in &STORY_FIELDS {
        if builder.add(*rec, *set, octets).is_err() {
            return false;
        }
    }
    true
}

/// Checks whether an envelope has the sample fields.
pub(crate) fn is_worked(envelope: &Envelope) -> bool {
    for ((rec, set, octets), want) in envelope.fields().zip(&STORY_FIELDS) {
        if (rec, set) != (want.0, want.1) || octets != want.2 {
            return false;
        }
    }
    envelope.fields().count() == STORY_FIELDS.len()
}

/// Builds the sample envelope. No call after `new` allocates.
pub(crate) fn built(alloc: Global) -> Result<Envelope, Trouble> {
    let mut builder = EnvelopeBuilder::new(alloc, LIMITS)?;
    if !add_all(&mut builder) {
        return Err(Trouble::Wrong);
    }
    worked_of(builder)
}

/// Returns the envelope of a builder if it is the sample envelope.
fn worked_of(builder: EnvelopeBuilder) -> Result<Envelope, Trouble> {
    let Ok(envelope) = builder.finish() else {
        return Err(Trouble::Wrong);
    };
    if !is_worked(&envelope) {
        return Err(Trouble::Wrong);
    }
    Ok(envelope)
}

/// Copies the sample envelope. No call after `from` allocates.
pub(crate) fn copied(alloc: Global, envelope: &Envelope) -> Result<(), Trouble> {
    match EnvelopeBuilder::from(alloc, LIMITS, envelope) {
        Ok(builder) => match worked_of(builder) {
            Ok(_) => Ok(()),
            Err(trouble) => Err(trouble),
        },
        Err(CopyFault::OutOfMemory) => Err(Trouble::OutOfMemory),
        Err(CopyFault::Passed(_)) => Err(Trouble::Wrong),
    }
}
