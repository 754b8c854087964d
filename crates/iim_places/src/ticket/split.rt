//! Splits a ticket into its parts, without copying.

ghost use Rattle.std.specs.Prelude.{◌≡◌, ◌<◌, ◌+◌, ◌++◌, ◌∷◌, length, map, IfSome, IfNone, IfOk, IfErr};
ghost use Rattle.std.specs.List.{flat_map};
ghost use Rattle.iim_places.specs.Format.Tickets.{ticket_header, width, phase_octets, field_octets, fields_octets, number_octets, text_octets};
ghost use Rattle.iim_places.specs.Format.TicketForm.{FitsInField, AreTicketFields, AreTicketNumbers, AreTicketTexts, IsTicketVersion, IsTicketPhase, IsTicketFormFault, HasForm, HasContents};
ghost use Rattle.iim_places.specs.Restoring.{LacksItem, LacksItems, FieldsPrecede};
ghost use Rattle.iim_places.specs.TicketParts.{BeginsWithNoData, EncodesNoMessage, EncodesNoBody, message_parts, body_octets};
ghost use Rattle.iim_places.specs.States.Restored.{phase_of_ticket, contents_from};

use crate::form::{ENDED, FIRST_VERSION, IN_DATA, IN_TAG, PRESENT_VERSION};
use crate::ticket::fault::TicketFault;
use crate::ticket::fields::{TicketFields, iterate};
use crate::ticket::front::{
    take_field, take_front, take_number, take_octet, take_option, take_text, take_wide,
};
use iim_tables::records::OBJECT;

/// The magic number at the start of each ticket.
const NAME: &[u8] = b"IIMT";

/// What is in progress at the position that a ticket encodes.
#[derive(Drop)]
pub enum TicketPhase<'a> {
    /// A tag, with the octets received so far. There are none between datasets.
    Tag(&'a [u8]),
    /// The data of a dataset.
    Data {
        /// The number of the dataset.
        set: u8,
        /// The length of the data in octets, as in the head.
        count: u64,
        /// The number of these octets that remain.
        left: u64,
        /// The octets received so far. They are not stored for a subfile.
        taken: &'a [u8],
    },
    /// No dataset: the last one has ended.
    Ended,
}

/// The parts of a ticket. There may be no input that reaches the position that they describe.
#[derive(Drop)]
pub struct TicketParts<'a> {
    /// The version.
    pub version: u8,
    /// The record of the last head.
    pub section: u8,
    /// What is in progress.
    pub phase: TicketPhase<'a>,
    /// The datasets of records 1 and 2.
    pub fields: TicketFields<'a>,
    /// The numbers of 7:10, 7:20, 7:90 and 7:95.
    pub numbers: [Option<u64>; 4],
    /// The number of octets of the object that were received.
    pub taken: u64,
    /// The number of heads of 8:10 that were received.
    pub heads: u64,
    /// The number of the part of the message that the input has reached.
    pub part: u8,
    /// The counter of the position within the message.
    pub counter: u8,
    /// The flag of the position within the message.
    pub flag: u8,
    /// Source, number, priority, category, words, info and trailer, as far as they were received.
    pub texts: [&'a [u8]; 7],
}

/// The parts of a ticket that describe the message.
#[derive(Drop)]
struct MessageParts<'a> {
    part: u8,
    counter: u8,
    flag: u8,
    texts: [&'a [u8]; 7],
}

/// Parses the name and the version. Returns the version and the rest.
fn parse_name(ticket: &[u8]) -> Result<(u8, &[u8]), TicketFault>
    ensures named { IfOk result (λ r. ticket.now ≡ ticket_header r.0 ++ r.1.now) }
    ensures version { IfOk result (λ r. IsTicketVersion r.0) }
    ensures fault { IfErr result (λ fault. IsTicketFormFault ticket.now fault) }
{
    let Some(rest) = ticket.strip_prefix(NAME) else {
        return Err(TicketFault::TicketForm);
    };
    match rest.split_first() {
        Some((version, rest)) if [FIRST_VERSION, PRESENT_VERSION].contains(version) => Ok((
            *version, rest,
        )),
        Some(_) => Err(TicketFault::TicketVersion),
        None => Err(TicketFault::TicketForm),
    }
}

/// Returns the maximum number of octets of an incomplete tag.
fn max_partial_tag(version: u8) -> usize
    ensures { result + 1 ≡ 5 + width version }
{
    if version == FIRST_VERSION { 8 } else { 12 }
}

/// Parses the octets of an incomplete tag. Returns these octets and the rest.
fn take_partial_tag(version: u8, octets: &[u8]) -> Option<(&[u8], &[u8])>
    ensures parts { IfSome result (λ r. octets.now ≡ text_octets r.0.now ++ r.1.now) }
    ensures fits { IfSome result (λ r. length r.0.now < 5 + width version) }
    ensures none { IfNone result (LacksItem (λ held. length held < 5 + width version) text_octets octets.now) }
{
    let (held, rest) = take_text(octets)?;
    if held.len() > max_partial_tag(version) {
        return None;
    }
    Some((held, rest))
}

/// Parses data in progress. Returns them and the rest of the ticket.
fn take_data(version: u8, section: u8, octets: &[u8]) -> Option<(TicketPhase<'_>, &[u8])>
    ensures parts { IfSome result (λ r. 1 ∷ octets.now ≡ phase_octets version (phase_of_ticket r.0) ++ r.1.now) }
    ensures fits { IfSome result (λ r. IsTicketPhase version section (phase_of_ticket r.0)) }
    ensures none { IfNone result (BeginsWithNoData version section octets.now) }
{
    let (set, rest) = take_octet(octets)?;
    let (count, rest) = take_wide(version, rest)?;
    let (left, rest) = take_wide(version, rest)?;
    if left > count {
        return None;
    }
    let came = if section == OBJECT { 0 } else { count - left };
    let (taken, rest) = take_front(rest, came)?;
    let phase = TicketPhase::Data {
        set,
        count,
        left,
        taken,
    };
    Some((phase, rest))
}

/// Parses what is in progress. Returns it and the rest of the ticket.
fn take_phase(version: u8, section: u8, octets: &[u8]) -> Option<(TicketPhase<'_>, &[u8])>
    ensures parts { IfSome result (λ r. octets.now ≡ phase_octets version (phase_of_ticket r.0) ++ r.1.now) }
    ensures fits { IfSome result (λ r. IsTicketPhase version section (phase_of_ticket r.0)) }
    ensures none { IfNone result (LacksItem (IsTicketPhase version section) (phase_octets version) octets.now) }
{
    let (kind, rest) = take_octet(octets)?;
    match kind {
        IN_TAG => {
            let (held, rest) = take_partial_tag(version, rest)?;
            Some((TicketPhase::Tag(held), rest))
        }
        IN_DATA => take_data(version, section, rest),
        ENDED => Some((TicketPhase::Ended, rest)),
        _ => None,
    }
}

/// Skips the first `count` datasets and returns the rest, or `None` if there are fewer.
fn after_fields(octets: &[u8], count: u64) -> Option<&[u8]>
    ensures parts { IfSome result (λ rest. FieldsPrecede count octets.now rest.now) }
    ensures none { IfNone result (LacksItems FitsInField field_octets count octets.now) }
{
    let mut rest = octets;
    for _ in 0..count {
        (_, rest) = take_field(rest)?;
    }
    Some(rest)
}

/// Parses the number of datasets and the datasets. Returns an iterator over them, and the rest.
fn take_fields(octets: &[u8]) -> Option<(TicketFields<'_>, &[u8])>
    ensures parts { IfSome result (λ r. octets.now ≡ fields_octets r.0 ++ r.1.now) }
    ensures fits { IfSome result (λ r. AreTicketFields r.0) }
    ensures none { IfNone result (LacksItem AreTicketFields fields_octets octets.now) }
{
    let (count, start) = take_number(octets)?;
    let rest = after_fields(start, count)?;
    let (fields, rest) = start.split_at(start.len() - rest.len());
    Some((iterate(fields), rest))
}

/// Parses the four numbers of record 7. Returns them and the rest.
fn take_numbers(version: u8, octets: &[u8]) -> Option<([Option<u64>; 4], &[u8])>
    ensures parts { IfSome result (λ r. octets.now ≡ flat_map (number_octets version) r.0 ++ r.1.now) }
    ensures fits { IfSome result (λ r. AreTicketNumbers version r.0) }
    ensures none { IfNone result (LacksItem (AreTicketNumbers version) (flat_map (number_octets version)) octets.now) }
{
    let (mode, rest) = take_option(version, octets)?;
    let (limit, rest) = take_option(version, rest)?;
    let (announced, rest) = take_option(version, rest)?;
    let (maximum, rest) = take_option(version, rest)?;
    Some(([mode, limit, announced, maximum], rest))
}

/// Parses the seven texts of the message. Returns them and the rest.
#[tactic(auto, using(crate::proofs::Splitting::cut, crate::proofs::Splitting::seven, std::proofs::lemmas::List::append_assoc))]
fn take_texts(octets: &[u8]) -> Option<([&[u8]; 7], &[u8])>
    ensures parts { IfSome result (λ r. octets.now ≡ flat_map text_octets (map (λ t. t.now) r.0) ++ r.1.now) }
    ensures fits { IfSome result (λ r. AreTicketTexts (map (λ t. t.now) r.0)) }
    ensures none { IfNone result (LacksItem AreTicketTexts (flat_map text_octets) octets.now) }
{
    let (source, rest) = take_text(octets)?;
    let (number, rest) = take_text(rest)?;
    let (priority, rest) = take_text(rest)?;
    let (category, rest) = take_text(rest)?;
    let (words, rest) = take_text(rest)?;
    let (info, rest) = take_text(rest)?;
    let (trailer, rest) = take_text(rest)?;
    let texts = [source, number, priority, category, words, info, trailer];
    Some((texts, rest))
}

/// Parses the message's parts, with which a ticket ends. Returns `None` if octets are left over.
fn read_message(octets: &[u8]) -> Option<MessageParts<'_>>
    ensures parts { IfSome result (λ m. octets.now ≡ message_parts m.part m.counter m.flag (map (λ t. t.now) m.texts)) }
    ensures fits { IfSome result (λ m. AreTicketTexts (map (λ t. t.now) m.texts)) }
    ensures none { IfNone result (EncodesNoMessage octets.now) }
{
    let (part, rest) = take_octet(octets)?;
    let (counter, rest) = take_octet(rest)?;
    let (flag, rest) = take_octet(rest)?;
    let (texts, rest) = take_texts(rest)?;
    if !rest.is_empty() {
        return None;
    }
    Some(MessageParts {
        part,
        counter,
        flag,
        texts,
    })
}

/// Parses what follows the name and the version of a ticket.
fn read_body(version: u8, octets: &[u8]) -> Option<TicketParts<'_>>
    requires { IsTicketVersion version }
    ensures version { IfSome result (λ parts. (contents_from parts).version ≡ version) }
    ensures parts { IfSome result (λ parts. octets.now ≡ body_octets (contents_from parts)) }
    ensures fits { IfSome result (λ parts. HasForm (contents_from parts)) }
    ensures none { IfNone result (EncodesNoBody version octets.now) }
{
    let (section, rest) = take_octet(octets)?;
    let (phase, rest) = take_phase(version, section, rest)?;
    let (fields, rest) = take_fields(rest)?;
    let (numbers, rest) = take_numbers(version, rest)?;
    let (taken, rest) = take_wide(version, rest)?;
    let (heads, rest) = take_number(rest)?;
    let message = read_message(rest)?;
    Some(TicketParts {
        version,
        section,
        phase,
        fields,
        numbers,
        taken,
        heads,
        part: message.part,
        counter: message.counter,
        flag: message.flag,
        texts: message.texts,
    })
}

/// Splits a ticket into its parts without copying. Allocates nothing, and does not check whether
/// any input reaches the position.
///
/// **Errors:** [`TicketFault::TicketVersion`] if the octets begin with the name of a ticket and an
/// unknown version. [`TicketFault::TicketForm`] for all other octets that do not have the form of a
/// ticket:
///
/// - a part is incomplete, or octets are left over;
/// - the kind of what is in progress is not 0, 1 or 2;
/// - an incomplete tag is longer than the version allows;
/// - the number of octets of data that remain exceeds their count;
/// - the mark of a number of record 7 is not 0 or 1.
pub fn split_ticket(ticket: &[u8]) -> Result<TicketParts<'_>, TicketFault>
    ensures parts { IfOk result (λ parts. HasContents ticket.now (contents_from parts)) }
    ensures fault { IfErr result (λ fault. IsTicketFormFault ticket.now fault) }
{
    let (version, body) = parse_name(ticket)?;
    match read_body(version, body) {
        Some(parts) => Ok(parts),
        None => Err(TicketFault::TicketForm),
    }
}
