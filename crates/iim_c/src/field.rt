//! Looks up one dataset in a ticket.

ghost use Rattle.std.specs.Prelude.{◌≡◌, ◌+◌, ◌^◌, ◌<◌, ◌≤◌, length, IfSome, IfNone};
ghost use Rattle.iim_places.specs.Format.TicketForm.{HasContents};
ghost use Rattle.iim_places.specs.Format.Tickets.{phase_octets};
ghost use Rattle.iim_places.specs.States.Restored.{phase_of_ticket, contents_from};
ghost use Rattle.iim_c.specs.Format.Tickets.{ReturnsField, IsFieldAt};

use crate::answer::{IimAnswer, status_answer, ticket_answer};
use crate::span::{IimSpan, NO_SPAN};
use crate::status::{DONE, NONE};
use iim_unpack::{TicketParts, TicketPhase, split_ticket};

/// A dataset of record 1 or 2.
#[repr(C)]
#[derive(Clone, Copy)]
pub struct IimDataset {
    /// The record of the dataset.
    pub rec: u8,
    /// The number of the dataset within its record.
    pub set: u8,
    /// The data, as a slice of the ticket.
    pub data: IimSpan,
}

/// The value in which all fields are 0.
const NO_DATASET: IimDataset = IimDataset {
    rec: 0,
    set: 0,
    data: NO_SPAN,
};

/// The number of octets of a dataset in a ticket before its data: record, number and count.
pub(crate) const HEAD_OCTETS: usize = 6;

/// Returns the number of octets of a ticket that encode the tag or value in progress.
fn begun_octets(version: u8, phase: &TicketPhase<'_>) -> usize
    ensures count { result ≡ length (phase_octets version (phase_of_ticket phase.now)) }
    ensures few { result < 2 ^ 63 + 32 }
{
    let wide = if version == 1 { 4 } else { 8 };
    match phase {
        TicketPhase::Tag(held) => 2 + held.len(),
        TicketPhase::Data { taken, .. } => 2 + 2 * wide + taken.len(),
        TicketPhase::Ended => 1,
    }
}

/// Returns the number of octets of a ticket before the first dataset: name and version, the
/// section, the tag or value in progress, and the number of datasets.
pub(crate) fn fields_start(parts: &TicketParts<'_>) -> usize
    ensures { result ≡ 10 + length (phase_octets parts.now.version (phase_of_ticket parts.now.phase)) }
{
    5 + 1 + begun_octets(parts.version, &parts.phase) + 4
}

/// Returns the dataset with the index `n`, or `None` if there are no more than `n` datasets.
fn field_in(ticket: &[u8], parts: TicketParts<'_>, n: usize) -> Option<IimDataset>
    requires { HasContents ticket.now (contents_from parts) }
    ensures some { IfSome result (IsFieldAt ticket.now (contents_from parts.entry) n) }
    ensures none { IfNone result (length (contents_from parts.entry).fields ≤ n) }
{
    let mut offset = fields_start(&parts);
    let mut left = n;
    let mut fields = parts.fields;
    'walking: while let Some((rec, set, data)) = fields.next() {
        offset += HEAD_OCTETS;
        let count = data.len();
        if left == 0 {
            return Some(IimDataset {
                rec,
                set,
                data: IimSpan { offset, count },
            });
        }
        left -= 1;
        offset += count;
    }
    None
}

/// Looks up the dataset with the index `n` among those of records 1 and 2 in a ticket.
pub fn iim_field(ticket: &[u8], n: usize, dataset: &mut IimDataset, answer: &mut IimAnswer)
    ensures { ReturnsField ticket.now n dataset.new answer.new }
{
    let (found, told) = match split_ticket(ticket) {
        Ok(parts) => match field_in(ticket, parts, n) {
            Some(found) => (found, status_answer(DONE)),
            None => (NO_DATASET, status_answer(NONE)),
        },
        Err(fault) => (NO_DATASET, ticket_answer(fault)),
    };
    *dataset = found;
    *answer = told;
}
