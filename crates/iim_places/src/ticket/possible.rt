//! Checks whether the position of a ticket is reachable, and restores the readers at that position.

ghost use Rattle.iim_dataset.specs.Format.Datasets.{BeginsTag, count_octets};
ghost use Rattle.iim_fields.specs.Format.Records.{has_number_value, IsWithin};
ghost use Rattle.std.specs.Prelude.{◌≡◌, ◌↔◌, ◌≤◌, true, ◌+◌, ◌-◌, cond, length, false, IsTrue, IfSome, IfNone};
ghost use Rattle.iim_fields.specs.Format.Causes.{joined};
ghost use Rattle.iim_places.specs.States.Possible.{partial_subfiles, zero_or_one, TagsReachPhase, widest, partial_count, partial_fields, first_count_octets, first_greatest_size, IsSmallPhase};
ghost use Rattle.iim_places.specs.States.Readers.{ReadersAreAt, ReadersAreAtIn, IsUnreachableInVersion};
ghost use Rattle.iim_places.specs.States.Restored.{IsLimitFault, phase_of_ticket, contents_from};
ghost use Rattle.iim_places.specs.Restoring.{IsUnreachable};
ghost use Rattle.iim_places.specs.Format.TicketForm.{HasForm};

use crate::form::FIRST_VERSION;
use crate::ticket::fault::TicketFault;
use crate::ticket::fields::TicketFields;
use crate::ticket::object::object_at;
use crate::ticket::readers::{
    has_received_octet, message_at, part_number, records_are_reached, tags_at,
};
use crate::ticket::split::{TicketParts, TicketPhase};
use iim_dataset::HeadReader;
use iim_dataset::internals::EXTENDED;
use iim_fields::internals::is_kept;
use iim_fields::{FieldCause, Limits};
use iim_object::ObjectReader;
use iim_tables::records::{OBJECT, POST_OBJECT, PRE_OBJECT};
use wire_message::{MessagePart, MessageReader};

/// The readers at a position, except the reader of the records, which allocates memory.
#[derive(Drop)]
pub struct Readers {
    /// The reader of tags.
    pub tags: HeadReader,
    /// The reader of the object's sizes.
    pub object: ObjectReader,
    /// The reader of the message.
    pub message: MessageReader,
    /// The total count of the heads of records 1 and 2 so far, in octets.
    pub octets: u32,
    /// The number of these heads.
    pub fields: u32,
    /// Whether an octet was received.
    pub begun: bool,
}

impl Readers {
    /// Returns the limit that the heads of records 1 and 2 exceed, or `None`. The limit on octets
    /// is checked before the limit on the number of datasets.
    pub fn limit_fault(&self, limits: Limits) -> Option<TicketFault>
        ensures some { IfSome result (IsLimitFault limits self.now.octets self.now.fields) }
        ensures none { IfNone result (IsWithin limits self.now.octets self.now.fields) }
    {
        match limits.passed(u64::from(self.octets), u64::from(self.fields)) {
            Some(FieldCause::HeaderFull) => Some(TicketFault::HeaderFull),
            Some(FieldCause::TooManyFields) => Some(TicketFault::TooManyFields),
            Some(_) => unreachable!(),
            None => None,
        }
    }
}

/// Returns the total length of the data in octets and the number of datasets, or `None` if either
/// exceeds 32 bits.
fn count_fields(fields: TicketFields<'_>) -> Option<(u32, u32)>
    ensures some { IfSome result (λ r. (r.0 ≡ length (joined fields.entry)) × (r.1 ≡ length fields.entry)) }
    ensures none { IfNone result (IsWithin widest (length (joined fields.entry)) (length fields.entry) → ⊥) }
{
    let mut fields = fields;
    let mut octets: u32 = 0;
    let mut count: u32 = 0;
    while let Some((_, _, data)) = fields.next() {
        octets = octets.checked_add(u32::try_from(data.len()).ok()?)?;
        count = count.checked_add(1)?;
    }
    Some((octets, count))
}

/// Returns the total length and the number of the datasets of records 1 and 2. A dataset in
/// progress is included with the whole count of its head. Returns `None` if either number exceeds
/// 32 bits.
fn told(section: u8, phase: &TicketPhase<'_>, fields: TicketFields<'_>) -> Option<(u32, u32)>
    ensures some { IfSome result (λ r. (r.0 ≡ length (joined fields.entry) + partial_count section
        (phase_of_ticket phase.now))
        × (r.1 ≡ length fields.entry + partial_fields section (phase_of_ticket phase.now))) }
    ensures none { IfNone result (IsWithin widest
        (length (joined fields.entry) + partial_count section (phase_of_ticket phase.now))
        (length fields.entry + partial_fields section (phase_of_ticket phase.now)) → ⊥) }
{
    let (octets, count) = count_fields(fields)?;
    match phase {
        TicketPhase::Data { count: more, .. } if is_kept(section) => {
            let octets = octets.checked_add(u32::try_from(*more).ok()?)?;
            Some((octets, count.checked_add(1)?))
        }
        _ => Some((octets, count)),
    }
}

/// Checks whether at least one subfile is complete.
pub(crate) fn has_complete_subfile(section: u8, phase: &TicketPhase<'_>, heads: u64) -> bool
    ensures { cond result 1 0 ≡ zero_or_one (heads - partial_subfiles section (phase_of_ticket phase.now)) }
{
    match phase {
        TicketPhase::Data { .. } if section == OBJECT => heads > 1,
        _ => heads > 0,
    }
}

/// Checks that the message has ended if the object has ended.
fn message_has_ended_with_object(section: u8, part: u8) -> bool
    ensures ends { IsTrue result → section ≡ 9 → part ≡ 11 }
    ensures apart { result ≡ false → (section ≡ 9) × (part ≡ 11 → ⊥) }
{
    section != POST_OBJECT || part == part_number(MessagePart::AfterEnd)
}

/// Returns the readers at the position of a ticket's parts. Returns `None` if no incomplete or
/// complete envelope reaches that position under the size limits of the current version.
fn readers_by_layers(parts: &TicketParts<'_>) -> Option<Readers>
    requires { HasForm (contents_from parts.now) }
    ensures some { IfSome result (λ r. ReadersAreAt (contents_from parts.now) r) }
    ensures none { IfNone result (IsUnreachable (contents_from parts.now)) }
{
    let (octets, fields) = told(parts.section, &parts.phase, parts.fields.again())?;
    let tags = tags_at(parts.section, &parts.phase)?;
    let some = has_complete_subfile(parts.section, &parts.phase, parts.heads);
    let kept = parts.fields.again();
    if !records_are_reached(parts.section, &parts.phase, kept, parts.numbers, some) {
        return None;
    }
    let object = object_at(
        parts.section,
        &parts.phase,
        parts.numbers,
        parts.taken,
        parts.heads,
    )?;
    let message = message_at(
        parts.part,
        parts.counter,
        parts.flag,
        &parts.texts,
        parts.taken,
    )?;
    if !message_has_ended_with_object(parts.section, parts.part) {
        return None;
    }
    Some(Readers {
        tags,
        object,
        message,
        octets,
        fields,
        begun: has_received_octet(parts.section, &parts.phase),
    })
}

/// The maximum number of octets of a count or a size in version 1.
const FIRST_COUNT_OCTETS: u8 = 4;

/// The maximum size of an object in version 1, in octets.
const FIRST_GREATEST_SIZE: u64 = 4_294_967_295;

/// Checks whether the prefix of a tag is possible with the counts of version 1.
fn is_small_tag(held: &[u8]) -> bool
    requires { BeginsTag count_octets held.now }
    ensures { IsTrue result ↔ BeginsTag first_count_octets held.now }
{
    if held.len() < 5 {
        return true;
    }
    if held[3] != EXTENDED {
        return true;
    }
    held[4] <= FIRST_COUNT_OCTETS
}

/// Checks whether data in progress are possible with the sizes of version 1: `count` is their
/// length, `left` is the number of octets that remain, and `taken` is the number of octets of the
/// object before.
fn is_small_data(section: u8, taken: u64, count: u64, left: u64) -> bool
    ensures { IsTrue result ↔ ((has_number_value section ≡ true → count ≤ first_count_octets)
        × (section ≡ 8 → (count ≤ first_greatest_size) × (taken + left ≤ first_greatest_size))) }
{
    match section {
        PRE_OBJECT | POST_OBJECT => count <= u64::from(FIRST_COUNT_OCTETS),
        OBJECT => {
            count <= FIRST_GREATEST_SIZE
                && left <= FIRST_GREATEST_SIZE
                && taken <= FIRST_GREATEST_SIZE - left
        }
        _ => true,
    }
}

/// Checks whether the dataset in progress is possible with the sizes of version 1.
fn is_small(section: u8, taken: u64, phase: &TicketPhase<'_>) -> bool
    requires { TagsReachPhase section (phase_of_ticket phase.now) }
    ensures { IsTrue result ↔ IsSmallPhase section taken (phase_of_ticket phase.now) }
{
    match phase {
        TicketPhase::Tag(held) => is_small_tag(held),
        TicketPhase::Data { count, left, .. } => is_small_data(section, taken, *count, *left),
        TicketPhase::Ended => true,
    }
}

/// Returns the readers at the position of a ticket's parts. Returns `None` if no incomplete or
/// complete envelope reaches that position under the size limits of the ticket's version.
pub fn readers_at(parts: &TicketParts<'_>) -> Option<Readers>
    requires { HasForm (contents_from parts.now) }
    ensures some { IfSome result (λ r. ReadersAreAtIn (contents_from parts.now) r) }
    ensures none { IfNone result (IsUnreachableInVersion (contents_from parts.now)) }
{
    let readers = readers_by_layers(parts)?;
    if parts.version == FIRST_VERSION && !is_small(parts.section, parts.taken, &parts.phase) {
        return None;
    }
    Some(readers)
}
