//! Tests readers of records that reuse the memory of an earlier envelope, readers that have no
//! complete envelope yet, and iterators over an envelope.

ghost use Rattle.std.specs.Prelude.{◌≢◌, length, OnOk, IfSome};
ghost use Rattle.iim_fields.specs.States.Standing.{IsBetweenDatasets, IsInsideDataset};

use crate::told::TestLog;
use arrayvec::ArrayVec;
use iim_dataset::Head;
use iim_fields::{CopyFault, Envelope, EnvelopeBuilder, FieldCause, FieldFault, Fields, Limits};
use std::alloc::Global;
use worked::STORY_FIELDS;

/// The limits of the command.
const LIMITS: Limits = Limits::WIRE;

/// The datasets of records 7, 8 and 9.
const SIZES: [(u8, u8, &[u8]); 5] = [
    (7, 10, b"\x01"),
    (7, 20, b"\0\0\x04\0"),
    (7, 90, b"\0\0\0\x32"),
    (8, 10, &[b'a'; 50]),
    (9, 10, b"\0\0\0\x32"),
];

/// The number that each dataset encodes.
type Numbers = ArrayVec<Option<u64>, 5>;

/// Datasets of record 2 that are added to a copy of an envelope.
const ADDED: [(u8, &[u8]); 3] = [(105, b"Rates held"), (122, b"RELAYS"), (122, b"RELAY")];

/// The limits of copies: their numbers of octets and of datasets.
const LIMITS_OF_COPIES: [(u32, u32); 4] = [(78, 16), (77, 16), (77, 15), (78, 15)];

/// The name of a test that is logged by several functions.
const MEMORY: &str = "the_memory_of_an_envelope_serves_the_next";

/// The name of another test that is logged by several functions.
const COPIED: &str = "copied_envelopes_take_a_dataset_more";

/// Feeds all octets of the dataset in progress, in one chunk or one by one.
fn give(fields: &mut Fields, head: Head, octets: &[u8], one_by_one: bool)
    requires inside { IsInsideDataset fields.old head (length octets.now) }
    requires value { head.rec ≢ 8 }
    ensures { IsInsideDataset fields.new head 0 }
{
    if !one_by_one {
        fields.bytes(octets);
        return;
    }
    for octet in octets {
        fields.bytes(&[*octet]);
    }
}

/// Feeds a dataset. Returns the number that it encodes.
fn pass(
    fields: &mut Fields,
    rec: u8,
    set: u8,
    octets: &[u8],
    one_by_one: bool,
) -> Result<Option<u64>, FieldFault>
    requires { IsBetweenDatasets fields.old }
    ensures { OnOk result (IsBetweenDatasets fields.new) }
{
    let head = Head {
        rec,
        set,
        count: octets.len() as u64,
    };
    match fields.begin(head) {
        Ok(()) => {
            if rec != 8 {
                give(fields, head, octets, one_by_one);
            }
            fields.close()
        }
        Err(fault) => Err(fault),
    }
}

/// Feeds the datasets of records 1 and 2.
///
/// **Errors:** the first fault.
fn pass_fields(fields: &mut Fields, one_by_one: bool) -> Result<(), FieldFault>
    requires { IsBetweenDatasets fields.old }
    ensures { OnOk result (IsBetweenDatasets fields.new) }
{
    for (rec, set, octets) in &STORY_FIELDS {
        if let Err(fault) = pass(fields, *rec, *set, octets, one_by_one) {
            return Err(fault);
        }
    }
    Ok(())
}

/// Feeds the datasets of records 7, 8 and 9, and stores the number that each of them encodes.
///
/// **Errors:** the first fault.
fn pass_sizes(
    fields: &mut Fields,
    one_by_one: bool,
    numbers: &mut Numbers,
) -> Result<(), FieldFault>
    requires { IsBetweenDatasets fields.old }
    ensures { OnOk result (IsBetweenDatasets fields.new) }
{
    for (rec, set, octets) in &SIZES {
        match pass(fields, *rec, *set, octets, one_by_one) {
            Ok(number) => {
                let _ = numbers.try_push(number);
            }
            Err(fault) => return Err(fault),
        }
    }
    Ok(())
}

/// Feeds records 7 to 9, and logs each decoded number, or the fault.
fn log_sizes(told: &mut TestLog, trial: &str, fields: &mut Fields, one_by_one: bool)
    requires { IsBetweenDatasets fields.old }
{
    let mut numbers = Numbers::new();
    let passed = pass_sizes(fields, one_by_one, &mut numbers);
    match passed {
        Ok(()) => told.line(trial, " told ", &numbers.as_slice()),
        Err(fault) => told.line_shown(trial, &fault),
    }
}

/// Feeds all datasets of the longer example envelope, and logs each decoded number, or the fault.
fn log_all(told: &mut TestLog, fields: &mut Fields, one_by_one: bool)
    requires { IsBetweenDatasets fields.old }
{
    match pass_fields(fields, one_by_one) {
        Ok(()) => log_sizes(told, MEMORY, fields, one_by_one),
        Err(fault) => told.line_shown(MEMORY, &fault),
    }
}

/// Logs each dataset of the envelope.
fn log_fields(told: &mut TestLog, trial: &str, envelope: &Envelope) {
    for (rec, set, octets) in envelope.fields() {
        told.begin(trial, " ", &rec);
        told.answer(":", &set);
        told.end_octets(" ", octets);
    }
}

/// Logs a title, or that there is no further title.
fn log_title(told: &mut TestLog, title: Option<&[u8]>) {
    match title {
        Some(title) => told.line_of_octets(MEMORY, " title ", title),
        None => told.line_of_words(MEMORY, "no further title"),
    }
}

/// Logs the first four results of the iterator over the envelope's titles.
fn log_titles(told: &mut TestLog, envelope: &Envelope) {
    let mut titles = envelope.byline_titles();
    for _ in 0..4 {
        log_title(told, titles.next());
    }
}

/// Reads an envelope into memory that was used for an earlier envelope, and returns it.
fn read_twice(told: &mut TestLog, alloc: Global) -> Option<Envelope> {
    let mut fields = Fields::new(alloc, LIMITS).ok()?;
    log_all(told, &mut fields, false);
    fields.again();
    log_all(told, &mut fields, true);
    fields.into_envelope().ok()
}

fn the_memory_of_an_envelope_serves_the_next(told: &mut TestLog, alloc: Global) {
    match read_twice(told, alloc) {
        Some(envelope) => {
            log_fields(told, MEMORY, &envelope);
            log_titles(told, &envelope);
        }
        None => told.line_of_words(MEMORY, "no envelope"),
    }
}

/// Adds the datasets of the longer example envelope. Returns whether all were accepted.
fn add_worked(builder: &mut EnvelopeBuilder) -> bool {
    for (rec, set, octets) in &STORY_FIELDS {
        if builder.add(*rec, *set, octets).is_err() {
            return false;
        }
    }
    true
}

/// Builds the longer example envelope.
fn built(alloc: Global) -> Option<Envelope> {
    let mut builder = EnvelopeBuilder::new(alloc, LIMITS).ok()?;
    if !add_worked(&mut builder) {
        return None;
    }
    builder.finish().ok()
}

/// Returns a reader after records 1 and 2, which has no complete envelope yet.
fn paused(alloc: Global) -> Option<Fields>
    ensures { IfSome result (λ fields. IsBetweenDatasets fields) }
{
    let mut fields = Fields::new(alloc, LIMITS).ok()?;
    match pass_fields(&mut fields, false) {
        Ok(()) => fields.into_envelope().err(),
        Err(_) => None,
    }
}

/// Checks whether the envelope is the longer example envelope.
fn is_worked(alloc: Global, read: &Envelope) -> bool {
    match built(alloc) {
        Some(built) => read.same(&built),
        None => false,
    }
}

/// Checks whether the reader returns the longer example envelope.
fn are_worked(alloc: Global, fields: Fields) -> bool {
    match fields.into_envelope() {
        Ok(read) => is_worked(alloc, &read),
        Err(_) => false,
    }
}

fn the_reader_continues_where_nothing_is_handed_over(told: &mut TestLog, alloc: Global) {
    let trial = "the_reader_continues_where_nothing_is_handed_over";
    let Some(mut fields) = paused(alloc) else {
        return told.line_of_words(trial, "refused, or an envelope after record 2");
    };
    log_sizes(told, trial, &mut fields, false);
    let same = are_worked(alloc, fields);
    told.line(trial, " the same as the one that was built: ", &same);
}

/// Returns why the envelope is not copied into a builder with these limits, or `None`.
fn fault_of_copy(alloc: Global, limits: Limits, envelope: &Envelope) -> Option<CopyFault> {
    EnvelopeBuilder::from(alloc, limits, envelope).err()
}

/// Copies the envelope, which has 78 octets in 16 datasets, under several limits.
fn envelopes_are_copied_within_other_limits(
    told: &mut TestLog,
    alloc: Global,
    envelope: &Envelope,
) {
    for (octets, fields) in &LIMITS_OF_COPIES {
        let limits = Limits {
            octets: *octets,
            fields: *fields,
        };
        told.begin("envelopes_are_copied_within_other_limits", " ", octets);
        told.answer(" octets, ", fields);
        told.end(" fields: ", &fault_of_copy(alloc, limits, envelope));
    }
}

/// Returns why a dataset was rejected, or `None`.
fn cause_of(added: Result<(), FieldFault>) -> Option<FieldCause> {
    match added {
        Ok(()) => None,
        Err(fault) => Some(fault.cause),
    }
}

/// Adds datasets, and logs why some of them are rejected.
fn log_added(told: &mut TestLog, builder: &mut EnvelopeBuilder) {
    for (set, octets) in &ADDED {
        told.begin(COPIED, " add 2:", set);
        told.end(": ", &cause_of(builder.add(2, *set, octets)));
    }
}

/// Returns a copy of the envelope, with capacity for five more octets and one more dataset, to
/// which that dataset was added.
fn copied(told: &mut TestLog, alloc: Global, envelope: &Envelope) -> Option<Envelope> {
    let limits = Limits {
        octets: 83,
        fields: 17,
    };
    let mut builder = EnvelopeBuilder::from(alloc, limits, envelope).ok()?;
    log_added(told, &mut builder);
    builder.finish().ok()
}

fn copied_envelopes_take_a_dataset_more(told: &mut TestLog, alloc: Global, envelope: &Envelope) {
    let Some(sent) = copied(told, alloc, envelope) else {
        return told.line_of_words(COPIED, "not copied, or not finished");
    };
    log_fields(told, COPIED, &sent);
    told.line_of_octets(
        COPIED,
        " the first 2:122 ",
        sent.first(2, 122).unwrap_or(b""),
    );
}

pub(crate) fn tell(told: &mut TestLog, alloc: Global) {
    the_memory_of_an_envelope_serves_the_next(told, alloc);
    the_reader_continues_where_nothing_is_handed_over(told, alloc);
    match built(alloc) {
        Some(envelope) => {
            envelopes_are_copied_within_other_limits(told, alloc, &envelope);
            copied_envelopes_take_a_dataset_more(told, alloc, &envelope);
        }
        None => told.line_of_words(COPIED, "no envelope is built"),
    }
}
