//! Decodes what is in progress in the state of a ticket.

ghost use Rattle.std.specs.Prelude.{◌≡◌, ℕ, ◌+◌, ◌*◌, List, [], length, get_or};
ghost use Rattle.iim_places.specs.Format.TicketForm.{HasContents};
ghost use Rattle.iim_places.specs.Format.Tickets.{PartialData, ReachesPlace, Place, PartialTag, width};
ghost use Rattle.iim_places.specs.States.Restored.{EncodesPlace, phase_of_ticket, contents_from};
ghost use Rattle.iim_c.specs.Format.Tickets.{IsProgressOf, ReturnsProgress, HasProgressOf, HasTokenOf, begun_by};
ghost use Rattle.iim_c.specs.Steps.{span_of};

use crate::answer::{IimAnswer, status_answer, ticket_answer};
use crate::span::IimSpan;
use crate::status::DONE;
use iim_dataset::laws::dataset_laws;
use iim_fields::laws::record_laws;
use iim_places::internals::FIRST_VERSION;
use iim_tables::records::OBJECT;
use iim_unpack::laws::place_laws;
use iim_unpack::{TicketParts, TicketPhase, split_ticket};

/// Nothing is in progress: the state is between two datasets.
pub const NOTHING: u8 = 0;

/// A tag is in progress.
pub const TAG: u8 = 1;

/// The data of a dataset are in progress.
pub const DATA: u8 = 2;

/// The envelope is complete.
pub const ENDED: u8 = 3;

/// What is in progress in a state, and the part of the message that the input has reached. Fields
/// that are not mentioned are zero.
#[repr(C)]
#[derive(Clone, Copy)]
pub struct IimBegun {
    /// The kind: 0 between two datasets, 1 in a tag, 2 in data, 3 after the end of the envelope.
    pub kind: u8,
    /// The record of the last complete tag, or 0 before the first tag.
    pub section: u8,
    /// The record of the dataset in progress, or 0 if it was not read yet.
    pub rec: u8,
    /// The number of that dataset within its record, or 0 if it was not read yet.
    pub set: u8,
    /// The number of the part of the message.
    pub part: u8,
    /// The counter of the message: the number of octets of filler, or of the gap, so far.
    pub counter: u8,
    /// The flag of the message: in the gap, 1 after an LF; in the text, the number of pending CR.
    pub flag: u8,
    /// The length of the data in progress, in octets.
    pub count: u64,
    /// The number of octets of the tag or data in progress that were received.
    pub came: u64,
    /// The number of octets of the data in progress that are still to be received.
    pub left: u64,
    /// The offset within the envelope of the first octet of the tag or data in progress.
    pub first: u64,
    /// The offset of the token that the next octet belongs to. A token is a tag or a value. In a
    /// subfile each octet is a token.
    pub token: u64,
    /// The received octets of the tag or value in progress, as a slice of the ticket. The octets of
    /// a subfile are not in the ticket.
    pub octets: IimSpan,
}

/// The value in which all fields are 0.
const NO_BEGUN: IimBegun = IimBegun {
    kind: 0,
    section: 0,
    rec: 0,
    set: 0,
    part: 0,
    counter: 0,
    flag: 0,
    count: 0,
    came: 0,
    left: 0,
    first: 0,
    token: 0,
    octets: IimSpan {
        offset: 0,
        count: 0,
    },
};

/// The number of octets of a ticket before the received octets of a tag: name and version, the
/// section, the kind of what is in progress, and the length of the received octets.
const BEFORE_HELD: usize = 8;

/// Returns the octet of a tag with this index, or 0 if it was not received.
fn octet_or_zero(held: &[u8], index: usize) -> u8
    ensures { result ≡ get_or held.now index 0 }
{
    held.get(index).copied().unwrap_or(0)
}

/// Returns the result for a tag in progress, of which these octets were received.
fn tag_begun(at: u64, held: &[u8]) -> IimBegun
    ensures { result ≡ begun_by at 0 (PartialTag held.now) (record { offset = 8; count = length held.now }) }
{
    let came = held.len();
    let first = at.saturating_sub(came as u64);
    IimBegun {
        kind: if held.is_empty() { NOTHING } else { TAG },
        rec: octet_or_zero(held, 1),
        set: octet_or_zero(held, 2),
        came: came as u64,
        first,
        token: first,
        octets: IimSpan {
            offset: BEFORE_HELD,
            count: came,
        },
        ..NO_BEGUN
    }
}

/// Returns the result for a dataset whose data are in progress. `octets` is the slice of the ticket
/// with the received data.
fn data_begun(at: u64, section: u8, set: u8, count: u64, left: u64, octets: IimSpan) -> IimBegun
    ensures { result ≡ begun_by at section (PartialData set count left []) octets }
{
    let came = count.saturating_sub(left);
    let first = at.saturating_sub(came);
    IimBegun {
        kind: DATA,
        rec: section,
        set,
        count,
        came,
        left,
        first,
        token: if section == OBJECT { at } else { first },
        octets,
        ..NO_BEGUN
    }
}

/// Returns the number of octets of a ticket before the received data. These are the [`BEFORE_HELD`]
/// octets, with the number of the dataset in place of the length, then the count of the dataset,
/// and the number of octets remaining.
fn data_offset(version: u8) -> usize
    ensures { result ≡ 8 + 2 * width version }
{
    BEFORE_HELD + if version == FIRST_VERSION { 8 } else { 16 }
}

/// Returns the result without the part, the counter and the flag of the message.
fn begun_by(at: u64, version: u8, section: u8, phase: &TicketPhase<'_>) -> IimBegun
    ensures { result ≡ begun_by at section (phase_of_ticket phase.now) (span_of version (phase_of_ticket phase.now)) }
{
    match phase {
        TicketPhase::Tag(held) => tag_begun(at, held),
        TicketPhase::Data {
            set,
            count,
            left,
            taken,
        } => {
            let octets = IimSpan {
                offset: data_offset(version),
                count: taken.len(),
            };
            data_begun(at, section, *set, *count, *left, octets)
        }
        TicketPhase::Ended => IimBegun {
            kind: ENDED,
            first: at,
            token: at,
            ..NO_BEGUN
        },
    }
}

/// Returns the result for a ticket that was split into these parts.
fn begun_in(ticket: &[u8], at: u64, parts: &TicketParts<'_>) -> IimBegun
    requires { HasContents ticket.now (contents_from parts.now) }
    ensures { IsProgressOf ticket.now at (contents_from parts.now) result }
{
    IimBegun {
        section: parts.section,
        part: parts.part,
        counter: parts.counter,
        flag: parts.flag,
        ..begun_by(at, parts.version, parts.section, &parts.phase)
    }
}

/// Returns what is in progress in the state of a ticket, and the answer of the call.
fn place_and_answer(ticket: &[u8], at: u64) -> (IimBegun, IimAnswer)
    ensures told { ReturnsProgress ticket.now at result.0 result.1 }
    ensures octets { (p : List ℕ) (place : Place) → EncodesPlace ticket.now place → ReachesPlace p place
        → HasProgressOf p at result.0 }
    ensures token { (p : List ℕ) (place : Place) → EncodesPlace ticket.now place → ReachesPlace p place
        → HasTokenOf p at result.0 }
{
    dataset_laws();
    record_laws();
    place_laws();
    match split_ticket(ticket) {
        Ok(parts) => (begun_in(ticket, at, &parts), status_answer(DONE)),
        Err(fault) => (NO_BEGUN, ticket_answer(fault)),
    }
}

/// Decodes what is in progress in the state of a ticket, and the part of the message that the input
/// has reached. `at` is the number of octets of the envelope that were consumed.
pub fn iim_place(ticket: &[u8], at: u64, begun: &mut IimBegun, answer: &mut IimAnswer)
    ensures told { ReturnsProgress ticket.now at begun.new answer.new }
    ensures octets { (p : List ℕ) (place : Place) → EncodesPlace ticket.now place → ReachesPlace p place
        → HasProgressOf p at begun.new }
    // If the next octet is rejected, the rejected token begins at `token` and ends with that octet.
    ensures token { (p : List ℕ) (place : Place) → EncodesPlace ticket.now place → ReachesPlace p place
        → HasTokenOf p at begun.new }
{
    let (found, told) = place_and_answer(ticket, at);
    *begun = found;
    *answer = told;
}
