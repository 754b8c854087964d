//! Restores the readers at the position of a ticket, except the reader of the records.

ghost use Rattle.std.specs.Prelude.{◌≡◌, ◌↔◌, ◌<◌, ℕ, List, length, map, IsSome, IfSome, IfNone, IsTrue, false};
ghost use Rattle.iim_dataset.specs.Format.Datasets.{Dataset};
ghost use Rattle.iim_dataset.specs.Format.Octets.{Octets};
ghost use Rattle.iim_dataset.specs.States.Reading.{DatasetReaderAccepts};
ghost use Rattle.iim_fields.specs.States.Standing.{AcceptsHead, HasChecked};
ghost use Rattle.iim_fields.specs.Format.Causes.{kept_octets};
ghost use Rattle.iim_fields.specs.Format.Records.{IsWithin};
ghost use Rattle.wire_message.specs.States.Reading.{IsReachedByLength, IsPossibleLength, MessageReaderHasRead, ReachesSavedState};
ghost use Rattle.wire_message.specs.declared.saved.MessagePart.{MessagePart as MessagePartValue};
ghost use Rattle.wire_message.specs.declared.saved.MessagePlace.{MessagePlace as MessagePlaceValue};
ghost use Rattle.iim_places.specs.TicketParts.{AreRecordNumbers};
ghost use Rattle.iim_places.specs.States.Possible.{TagsReachPhase, RecordsAreViable, phase_has_ended, widest};
ghost use Rattle.iim_places.specs.Restoring.{AreStored, HasMessageParts, state_datasets};
ghost use Rattle.iim_places.specs.States.Readers.{has_received_octet, tag_place};
ghost use Rattle.iim_places.specs.Format.TicketForm.{IsTicketPhase};
ghost use Rattle.iim_places.specs.States.Restored.{phase_of_ticket};
ghost use Rattle.iim_places.specs.Format.Tickets.{part_number, present_version};

use crate::ticket::fields::TicketFields;
use crate::ticket::split::TicketPhase;
use crate::ticket::taker::pass_state;
use arrayvec::ArrayVec;
use iim_dataset::laws::dataset_states_are_reached;
use iim_dataset::{DatasetPlace, Head, HeadReader};
use iim_fields::RecordCheck;
use iim_tables::records::POST_OBJECT;
use wire_message::{MessagePart, MessagePlace, MessageReader};

/// Proves that each item of a slice of octets is less than 256.
fn are_octets(octets: &[u8])
    ensures { Octets octets.now }
{}

/// Copies the octets into an array. Returns `None` if they exceed the capacity of the array.
fn copy_if_fits<const ROOM: usize>(octets: &[u8]) -> Option<ArrayVec<u8, ROOM>>
    ensures some { IfSome result (λ array. array.items ≡ octets.now) }
    ensures none { IfNone result (ROOM < length octets.now) }
{
    ArrayVec::try_from(octets).ok()
}

/// Returns the reader of tags at the position that `phase` describes, after a head of record
/// `section`. Returns `None` if no input reaches that state.
pub(crate) fn tags_at(section: u8, phase: &TicketPhase<'_>) -> Option<HeadReader>
    requires { IsTicketPhase present_version section (phase_of_ticket phase.now) }
    ensures calls { IfSome result DatasetReaderAccepts }
    ensures place { IfSome result (λ r. r.place ≡ tag_place section (phase_of_ticket phase.now)) }
    ensures leads { IfSome result (λ r. TagsReachPhase section (phase_of_ticket phase.now)) }
    ensures none { IfNone result (TagsReachPhase section (phase_of_ticket phase.now) → ⊥) }
{
    dataset_states_are_reached();
    match phase {
        TicketPhase::Tag(held) => HeadReader::at(DatasetPlace::Tag(copy_if_fits(held)?)),
        TicketPhase::Data {
            set,
            count,
            left,
            taken,
        } => {
            are_octets(taken);
            let head = Head {
                rec: section,
                set: *set,
                count: *count,
            };
            HeadReader::at(DatasetPlace::Inside { head, left: *left })
        }
        TicketPhase::Ended => Some(HeadReader::new()),
    }
}

/// Checks whether the last dataset has ended.
pub(crate) fn has_ended(phase: &TicketPhase<'_>) -> bool
    ensures { result ≡ phase_has_ended (phase_of_ticket phase.now) }
{
    matches!(phase, TicketPhase::Ended)
}

/// Checks whether an octet was received.
pub(crate) fn has_received_octet(section: u8, phase: &TicketPhase<'_>) -> bool
    ensures { result ≡ has_received_octet section (phase_of_ticket phase.now) }
{
    match phase {
        TicketPhase::Tag(held) if section == 0 => !held.is_empty(),
        _ => true,
    }
}

/// Checks whether the record layer can continue with the dataset in progress, after the datasets
/// that `check` has consumed.
fn can_continue(check: &mut RecordCheck, section: u8, phase: &TicketPhase<'_>) -> bool
    requires { AcceptsHead check.old }
    ensures lives { IsTrue result → (ds : List Dataset) → HasChecked check.old ds
        → RecordsAreViable section (phase_of_ticket phase.now) ds }
    ensures dies { result ≡ false → (ds : List Dataset) → HasChecked check.old ds
        → RecordsAreViable section (phase_of_ticket phase.now) ds → ⊥ }
{
    match phase {
        TicketPhase::Tag(_) => check.section() == section,
        TicketPhase::Data { set, count, .. } => {
            let head = Head {
                rec: section,
                set: *set,
                count: *count,
            };
            check.head(head).is_ok()
        }
        TicketPhase::Ended => section == POST_OBJECT,
    }
}

/// Checks whether the record layer accepts these fields, these numbers of record 7, a subfile if
/// `some` subfiles are complete, 9:10 if the object has ended, and then the dataset in progress.
pub(crate) fn records_are_reached(
    section: u8,
    phase: &TicketPhase<'_>,
    fields: TicketFields<'_>,
    numbers: [Option<u64>; 4],
    some: bool,
) -> bool
    requires { AreRecordNumbers numbers }
    ensures kept { IsTrue result → AreStored fields.entry }
    ensures lives { IsTrue result → RecordsAreViable section (phase_of_ticket phase.now)
        (state_datasets fields.entry numbers some (phase_has_ended (phase_of_ticket phase.now))) }
    ensures dies { result ≡ false → AreStored fields.entry
        → IsWithin widest (kept_octets fields.entry) (length fields.entry)
        → RecordsAreViable section (phase_of_ticket phase.now)
        (state_datasets fields.entry numbers some (phase_has_ended (phase_of_ticket phase.now))) → ⊥ }
{
    let mut check = RecordCheck::new();
    pass_state(&mut check, fields, numbers, some, has_ended(phase))
        && can_continue(&mut check, section, phase)
}

/// Returns the number that encodes a part of a message.
pub fn part_number(part: MessagePart) -> u8
    ensures { result ≡ part_number part }
{
    match part {
        MessagePart::Filler => 0,
        MessagePart::Source => 1,
        MessagePart::Number => 2,
        MessagePart::Priority => 3,
        MessagePart::PriorityRead => 4,
        MessagePart::Category => 5,
        MessagePart::Words => 6,
        MessagePart::Info => 7,
        MessagePart::Gap => 8,
        MessagePart::Text => 9,
        MessagePart::Trailer => 10,
        MessagePart::AfterEnd => 11,
    }
}

/// Returns the part of a message with this number, or `None` if there is no such part.
fn message_part(number: u8) -> Option<MessagePart>
    ensures some { IfSome result (λ part. part_number part ≡ number) }
    ensures none { IfNone result ((part : MessagePartValue) → part_number part ≡ number → ⊥) }
{
    match number {
        0 => Some(MessagePart::Filler),
        1 => Some(MessagePart::Source),
        2 => Some(MessagePart::Number),
        3 => Some(MessagePart::Priority),
        4 => Some(MessagePart::PriorityRead),
        5 => Some(MessagePart::Category),
        6 => Some(MessagePart::Words),
        7 => Some(MessagePart::Info),
        8 => Some(MessagePart::Gap),
        9 => Some(MessagePart::Text),
        10 => Some(MessagePart::Trailer),
        11 => Some(MessagePart::AfterEnd),
        _ => None,
    }
}

/// Returns the position within a message with this part, counter, flag and texts. Returns `None` if
/// the part does not exist or a text is too long, since no input reaches such a position.
fn message_place(part: u8, counter: u8, flag: u8, texts: &[&[u8]; 7]) -> Option<MessagePlace>
    ensures some { IfSome result (HasMessageParts part counter flag (map (λ t. t.now) texts.now)) }
    ensures none { IfNone result ((m : MessagePlaceValue) (octets text : List ℕ)
        → HasMessageParts part counter flag (map (λ t. t.now) texts.now) m → ReachesSavedState octets text m → ⊥) }
{
    let [source, number, priority, category, words, info, trailer] = texts;
    Some(MessagePlace {
        part: message_part(part)?,
        counter,
        flag,
        source: copy_if_fits(source)?,
        number: copy_if_fits(number)?,
        priority: copy_if_fits(priority)?,
        category: copy_if_fits(category)?,
        words: copy_if_fits(words)?,
        info: copy_if_fits(info)?,
        trailer: copy_if_fits(trailer)?,
    })
}

/// Checks whether `count` is at least `least` and, if `greatest` is given, at most `greatest`.
fn is_between(least: u64, greatest: Option<u64>, count: u64) -> bool
    ensures { IsTrue result ↔ IsPossibleLength least greatest count }
{
    match greatest {
        Some(most) => (least..=most).contains(&count),
        None => least <= count,
    }
}

/// Checks whether some input of `taken` octets reaches the position of the reader.
fn is_reached(reader: &MessageReader, taken: u64) -> bool
    requires { IsSome reader.now }
    ensures { IsTrue result ↔ IsReachedByLength reader.now taken }
{
    let (least, greatest) = reader.lengths();
    is_between(least, greatest, taken)
}

/// Returns the message reader with this part, counter, flag and texts, or `None` if no input of
/// `taken` octets reaches that position.
pub(crate) fn message_at(
    part: u8,
    counter: u8,
    flag: u8,
    texts: &[&[u8]; 7],
    taken: u64,
) -> Option<MessageReader>
    ensures calls { IfSome result IsSome }
    ensures some { IfSome result (λ r. (m : MessagePlaceValue)
        × HasMessageParts part counter flag (map (λ t. t.now) texts.now) m
        × ((octets : List ℕ) × (text : List ℕ) × ReachesSavedState octets text m × (length octets ≡ taken))
        × ((octets text : List ℕ) → ReachesSavedState octets text m → MessageReaderHasRead r octets text)) }
    ensures none { IfNone result ((m : MessagePlaceValue) (octets text : List ℕ)
        → HasMessageParts part counter flag (map (λ t. t.now) texts.now) m
        → ReachesSavedState octets text m → length octets ≡ taken → ⊥) }
{
    let reader = MessageReader::at(message_place(part, counter, flag, texts)?)?;
    if !is_reached(&reader, taken) {
        return None;
    }
    Some(reader)
}
