//! Writes the ticket of an unpacker: the encoding of its position.

ghost use Rattle.std.specs.Prelude.{◌≡◌, ◌^◌, ◌-◌, ◌<◌, ℕ, List, length, sum, Some, IsSome, IfSome};
ghost use Rattle.std.specs.List.{flat_map};
ghost use Rattle.iim_dataset.specs.States.Reading.{DatasetReaderAccepts};
ghost use Rattle.iim_fields.specs.States.Standing.{RecordReaderFailed};
ghost use Rattle.iim_object.specs.Format.Objects as object_places;
ghost use Rattle.iim_object.specs.States.Reading as objects;
ghost use Rattle.iim_places.specs.Format.Tickets.{four, wide, present_version, field_octets, fields_octets, number_octets, text_octets, texts_octets, message_octets, phase_octets, PartialData, PartialTag};
ghost use Rattle.iim_unpack.specs.Steps.{phase_in, remaining_of_subfile, IsEncoded};
ghost use Rattle.iim_unpack.specs.TicketOuts.{HoldsPrefix};

use crate::parts::Parts;
use crate::ticket::out::{Front, Grown, TicketOut};
use iim_dataset::{DatasetPlace, Head, HeadReader};
use iim_fields::Fields;
use iim_object::ObjectReader;
use iim_places::internals::{ENDED, IN_DATA, IN_TAG, PRESENT_VERSION, part_number};
use iim_tables::records::OBJECT;
use std::alloc::Global;
use thiserror::Error;
use wire_message::MessagePlace;

/// Why an unpacker returned no ticket.
#[derive(Clone, Copy, Debug, PartialEq, Eq, Error)]
pub enum SaveFault {
    /// An earlier call returned an error (61).
    #[error("the unpacker has refused its octets")]
    Failed,
    /// Memory allocation failed (70).
    #[error("memory was refused")]
    OutOfMemory,
}

/// The start of each ticket: its name and the version.
const NAME: [u8; 5] = [b'I', b'I', b'M', b'T', PRESENT_VERSION];

/// Appends a number in four octets, high octet first. The number must fit into four octets.
fn push_number<T: TicketOut>(ticket: &mut T, number: u64)
    ensures { T.puts ticket.old (four number) ticket.new }
{
    let octets = number.to_be_bytes();
    ticket.put(&octets[4..]);
}

/// Appends a number in eight octets, high octet first.
fn push_wide<T: TicketOut>(ticket: &mut T, number: u64)
    ensures { T.puts ticket.old (wide present_version number) ticket.new }
{
    ticket.put(&number.to_be_bytes());
}

/// Appends the length of a text in one octet, and the text.
fn push_text<T: TicketOut>(ticket: &mut T, text: &[u8])
    requires { length text.now < 256 }
    ensures { T.puts ticket.old (text_octets text.now) ticket.new }
{
    ticket.put(&[text.len() as u8]);
    ticket.put(text);
}

/// Appends the octets of a tag in progress.
fn push_tag<T: TicketOut>(ticket: &mut T, held: &[u8])
    requires { length held.now < 256 }
    ensures { T.puts ticket.old (phase_octets present_version (PartialTag held.now)) ticket.new }
{
    ticket.put(&[IN_TAG]);
    push_text(ticket, held);
}

/// Appends data in progress: the number of the dataset, the count, the number of octets that
/// remain, and the octets received.
fn push_data<T: TicketOut>(ticket: &mut T, head: Head, left: u64, taken: &[u8])
    ensures { T.puts ticket.old (phase_octets present_version (PartialData head.set head.count left taken.now))
        ticket.new }
{
    ticket.put(&[IN_DATA, head.set]);
    push_wide(ticket, head.count);
    push_wide(ticket, left);
    ticket.put(taken);
}

/// Appends what is in progress.
fn push_phase<T: TicketOut>(ticket: &mut T, reader: &HeadReader, parts: &Parts)
    requires reader { DatasetReaderAccepts reader.now }
    requires fields { RecordReaderFailed parts.now.fields → ⊥ }
    ensures { T.puts ticket.old (phase_octets present_version (phase_in reader.now.place parts.now)) ticket.new }
{
    if parts.has_ended() {
        ticket.put(&[ENDED]);
        return;
    }
    match reader.place() {
        Some(DatasetPlace::Tag(held)) => push_tag(ticket, held.as_slice()),
        Some(DatasetPlace::Inside { head, left }) => {
            push_data(ticket, *head, *left, parts.fields.begun())
        }
        None => unreachable!(),
    }
}

/// Appends a dataset.
fn push_field<T: TicketOut>(ticket: &mut T, rec: u8, set: u8, octets: &[u8])
    ensures { T.puts ticket.old (field_octets (record { rec = rec; set = set; octets = octets.now })) ticket.new }
{
    ticket.put(&[rec, set]);
    push_number(ticket, octets.len() as u64);
    ticket.put(octets);
}

/// Returns the number of stored datasets.
fn stored_count(fields: &Fields) -> usize
    requires { length fields.now.kept < 2 ^ 32 }
    ensures { result ≡ length fields.now.kept }
{
    fields.kept().count()
}

/// Appends the number of stored datasets, and each of them.
fn push_fields<T: TicketOut>(ticket: &mut T, fields: &Fields)
    requires { length fields.now.kept < 2 ^ 32 }
    ensures { T.puts ticket.old (fields_octets fields.now.kept) ticket.new }
{
    push_number(ticket, stored_count(fields) as u64);
    let mut kept = fields.kept();
    while let Some((rec, set, octets)) = kept.next() {
        push_field(ticket, rec, set, octets);
    }
}

/// Appends an optional number.
fn push_option<T: TicketOut>(ticket: &mut T, number: Option<u64>)
    ensures { T.puts ticket.old (number_octets present_version number) ticket.new }
{
    match number {
        Some(number) => {
            ticket.put(&[1]);
            push_wide(ticket, number);
        }
        None => ticket.put(&[0]),
    }
}

/// Appends a list of optional numbers.
fn push_options<T: TicketOut>(ticket: &mut T, numbers: &[Option<u64>])
    ensures { T.puts ticket.old (flat_map (number_octets present_version) numbers.now) ticket.new }
{
    for number in numbers {
        push_option(ticket, *number);
    }
}

/// Returns the number of octets of the object that were received.
fn object_octets(reader: &HeadReader, object: &ObjectReader) -> u64
    requires reader { DatasetReaderAccepts reader.now }
    requires object { IsSome object.now }
    ensures { (p : object_places.Place) → objects.ObjectReaderStandsAt object.now p → result ≡ sum p.lengths
        - remaining_of_subfile reader.now.place }
{
    match reader.place() {
        Some(DatasetPlace::Inside { head, left }) if head.rec == OBJECT => {
            object.total().saturating_sub(*left)
        }
        _ => object.total(),
    }
}

/// Appends the texts of a message so far.
fn push_texts<T: TicketOut>(ticket: &mut T, place: &MessagePlace)
    ensures { T.puts ticket.old (texts_octets place.now) ticket.new }
{
    push_text(ticket, place.source.as_slice());
    push_text(ticket, place.number.as_slice());
    push_text(ticket, place.priority.as_slice());
    push_text(ticket, place.category.as_slice());
    push_text(ticket, place.words.as_slice());
    push_text(ticket, place.info.as_slice());
    push_text(ticket, place.trailer.as_slice());
}

/// Appends the position within a message.
fn push_message<T: TicketOut>(ticket: &mut T, place: &MessagePlace)
    ensures { T.puts ticket.old (message_octets place.now) ticket.new }
{
    ticket.put(&[part_number(place.part), place.counter, place.flag]);
    push_texts(ticket, place);
}

/// Writes the ticket for the state of these readers.
fn write_ticket<T: TicketOut>(ticket: &mut T, reader: &HeadReader, parts: &Parts)
    requires reader { DatasetReaderAccepts reader.now }
    requires fields { RecordReaderFailed parts.now.fields → ⊥ }
    requires few { length parts.now.fields.kept < 2 ^ 32 }
    requires object { IsSome parts.now.object }
    requires message { IsSome parts.now.message }
    ensures { (octets : List ℕ) × IsEncoded reader.now.place parts.now octets × T.puts ticket.old octets ticket.new }
{
    ticket.put(&NAME);
    ticket.put(&[parts.fields.section()]);
    push_phase(ticket, reader, parts);
    push_fields(ticket, &parts.fields);
    push_options(ticket, &parts.object.numbers());
    push_wide(ticket, object_octets(reader, &parts.object));
    push_number(ticket, parts.object.subfiles());
    push_message(ticket, &parts.message.place());
}

/// Writes the ticket to the start of an unused buffer. The reference in `front` afterwards points
/// to the same buffer as before.
fn write_front(front: &mut Front<'_>, reader: &HeadReader, parts: &Parts)
    requires unused { front.old.count ≡ 0 }
    requires reader { DatasetReaderAccepts reader.now }
    requires fields { RecordReaderFailed parts.now.fields → ⊥ }
    requires few { length parts.now.fields.kept < 2 ^ 32 }
    requires object { IsSome parts.now.object }
    requires message { IsSome parts.now.message }
    ensures same { front.new.out.ghost_name ≡ front.old.out.ghost_name }
    ensures holds { (octets : List ℕ) × IsEncoded reader.now.place parts.now octets
        × HoldsPrefix front.new.out.now front.new.count octets }
{
    write_ticket(front, reader, parts);
}

/// Returns the ticket for the state of these readers, or `None` if an allocation fails.
pub(crate) fn encode_ticket(alloc: Global, reader: &HeadReader, parts: &Parts) -> Option<Vec<u8>>
    requires reader { DatasetReaderAccepts reader.now }
    requires fields { RecordReaderFailed parts.now.fields → ⊥ }
    requires few { length parts.now.fields.kept < 2 ^ 32 }
    requires object { IsSome parts.now.object }
    requires message { IsSome parts.now.message }
    ensures { IfSome result (λ ticket. IsEncoded reader.now.place parts.now ticket.items) }
{
    let mut grown = Grown {
        ticket: Vec::new(alloc),
        is_refused: false,
    };
    write_ticket(&mut grown, reader, parts);
    let Grown { ticket, is_refused } = grown;
    if is_refused {
        return None;
    }
    Some(ticket)
}

/// Ends a mutable borrow, for the prover. The buffer is unchanged.
fn end_borrow(lent: &mut [u8])
    ensures { lent.new ≡ lent.old }
{}

/// Writes the ticket to the start of a buffer, if it fits. Returns the length of the ticket in
/// octets, whether it was written or not. Allocates nothing.
pub(crate) fn encode_ticket_at(out: &mut [u8], reader: &HeadReader, parts: &Parts) -> usize
    requires reader { DatasetReaderAccepts reader.now }
    requires fields { RecordReaderFailed parts.now.fields → ⊥ }
    requires few { length parts.now.fields.kept < 2 ^ 32 }
    requires object { IsSome parts.now.object }
    requires message { IsSome parts.now.message }
    ensures { (octets : List ℕ) × IsEncoded reader.now.place parts.now octets × HoldsPrefix out.new result octets }
{
    let mut front = Front { out, count: 0 };
    write_front(&mut front, reader, parts);
    let Front { out: same, count } = front;
    end_borrow(same);
    count
}
