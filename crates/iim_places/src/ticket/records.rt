//! Restores the reader of the records at the position of a ticket.

ghost use Rattle.std.specs.Prelude.{◌≡◌, ◌+◌, List, length, IfOk};
ghost use Rattle.iim_dataset.specs.Format.Datasets.{Dataset};
ghost use Rattle.iim_fields.specs.Format.Causes.{joined};
ghost use Rattle.iim_fields.specs.Format.Records.{IsWithin};
ghost use Rattle.iim_fields.specs.States.Standing.{HasReadDatasets, limits_of, room_for, reader_capacity};
ghost use Rattle.iim_places.specs.TicketParts.{AreRecordNumbers};
ghost use Rattle.iim_places.specs.States.Possible.{TagsReachPhase, RecordsAreViable, phase_has_ended, partial_count, partial_fields};
ghost use Rattle.iim_places.specs.States.Readers.{RecordsReaderIsAt, LayersReachWithin, FieldsReaderIsAt};
ghost use Rattle.iim_places.specs.Restoring.{AreWithinLimitsWith, AreStored, state_datasets};
ghost use Rattle.iim_places.specs.Format.TicketForm.{HasForm};
ghost use Rattle.iim_places.specs.States.Restored.{phase_of_ticket, contents_from};

use crate::ticket::fields::TicketFields;
use crate::ticket::possible::has_complete_subfile;
use crate::ticket::readers::has_ended;
use crate::ticket::split::{TicketParts, TicketPhase};
use crate::ticket::taker::pass_state;
use iim_dataset::Head;
use iim_fields::{Fields, Limits};
use iim_tables::records::OBJECT;
use std::alloc::{AllocError, Global};

/// Passes the dataset in progress in record `section` to the reader: its head, and the data
/// received. The data of a subfile are not passed.
fn take_phase(records: &mut Fields, section: u8, phase: &TicketPhase<'_>)
    requires stands { (ds : List Dataset) × HasReadDatasets records.old ds × RecordsAreViable section
        (phase_of_ticket phase.now) ds
        × AreWithinLimitsWith (limits_of records.old) section (phase_of_ticket phase.now) ds }
    requires tags { TagsReachPhase section (phase_of_ticket phase.now) }
    ensures stands { (ds : List Dataset) → HasReadDatasets records.old ds → RecordsAreViable section
        (phase_of_ticket phase.now) ds
        → AreWithinLimitsWith (limits_of records.old) section (phase_of_ticket phase.now) ds
        → RecordsReaderIsAt records.new section (phase_of_ticket phase.now) ds }
    ensures limits { limits_of records.new ≡ limits_of records.old }
    ensures room { reader_capacity records.new ≡ reader_capacity records.old }
{
    if let TicketPhase::Data {
        set,
        count,
        taken,
        ..
    } = phase
    {
        let head = Head {
            rec: section,
            set: *set,
            count: *count,
        };
        match records.begin(head) {
            Ok(()) if section == OBJECT => {}
            Ok(()) => records.bytes(taken),
            Err(_) => unreachable!(),
        }
    }
}

/// Returns the reader of the records at a ticket's position. Allocates exactly the memory that the
/// limits require. Returns an error if the allocation fails.
fn records_at(
    alloc: Global,
    limits: Limits,
    section: u8,
    phase: &TicketPhase<'_>,
    fields: TicketFields<'_>,
    numbers: [Option<u64>; 4],
    some: bool,
) -> Result<Fields, AllocError>
    requires fits { AreRecordNumbers numbers }
    requires kept { AreStored fields }
    requires tags { TagsReachPhase section (phase_of_ticket phase.now) }
    requires lives { RecordsAreViable section (phase_of_ticket phase.now)
        (state_datasets fields numbers some (phase_has_ended (phase_of_ticket phase.now))) }
    requires within { IsWithin limits (length (joined fields) + partial_count section (phase_of_ticket phase.now))
        (length fields + partial_fields section (phase_of_ticket phase.now)) }
    ensures stands { IfOk result (λ records.
        RecordsReaderIsAt records section (phase_of_ticket phase.now)
        (state_datasets fields.entry numbers some (phase_has_ended (phase_of_ticket phase.now)))) }
    ensures limits { IfOk result (λ records. limits_of records ≡ limits) }
    ensures room { IfOk result (λ records. reader_capacity records ≡ room_for limits) }
{
    let mut records = Fields::new(alloc, limits)?;
    if !pass_state(&mut records, fields, numbers, some, has_ended(phase)) {
        unreachable!()
    }
    take_phase(&mut records, section, phase);
    Ok(records)
}

/// Returns the reader of the records at the position of a ticket's parts. Allocates exactly the
/// memory that the limits require. Returns an error if the allocation fails.
pub fn fields_at(
    alloc: Global,
    limits: Limits,
    parts: &TicketParts<'_>,
) -> Result<Fields, AllocError>
    requires form { HasForm (contents_from parts.now) }
    requires leads { LayersReachWithin limits (contents_from parts.now) }
    ensures stands { IfOk result (FieldsReaderIsAt (contents_from parts.now)) }
    ensures limits { IfOk result (λ records. limits_of records ≡ limits) }
    ensures room { IfOk result (λ records. reader_capacity records ≡ room_for limits) }
{
    records_at(
        alloc,
        limits,
        parts.section,
        &parts.phase,
        parts.fields.again(),
        parts.numbers,
        has_complete_subfile(parts.section, &parts.phase, parts.heads),
    )
}
