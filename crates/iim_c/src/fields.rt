//! Copies all datasets of a ticket in one pass.

ghost use Rattle.std.specs.Prelude.{◌≡◌, ◌-◌, ◌<◌, ◌≤◌, length, slice_set};
ghost use Rattle.iim_places.specs.Format.TicketForm.{HasContents};
ghost use Rattle.iim_places.specs.States.Restored.{contents_from};
ghost use Rattle.iim_c.specs.Format.Tickets.{ArrayHasFields, ReturnsFields, fields_answer};

use crate::answer::{IimAnswer, status_answer, ticket_answer};
use crate::field::{HEAD_OCTETS, IimDataset, fields_start};
use crate::span::IimSpan;
use crate::status::{DONE, SHORT};
use iim_unpack::{TicketParts, split_ticket};

/// Writes the dataset with the index `index` into an array whose first element is the dataset with
/// the index `from`. Does nothing if the dataset is outside the array.
fn put_from(datasets: &mut [IimDataset], from: usize, index: usize, found: IimDataset)
    ensures skipped { index < from → datasets.new ≡ datasets.old }
    ensures put { from ≤ index → datasets.new ≡ slice_set datasets.old (index - from) found }
{
    if index < from {
        return;
    }
    let at = index - from;
    if at < datasets.len() {
        datasets[at] = found;
    }
}

/// Writes the datasets with the index `from` and above into the array, as many as fit. Returns the
/// number of datasets in the ticket.
fn put_fields(
    ticket: &[u8],
    parts: TicketParts<'_>,
    from: usize,
    datasets: &mut [IimDataset],
) -> usize
    requires { HasContents ticket.now (contents_from parts) }
    ensures fields { ArrayHasFields ticket.now (contents_from parts.entry) from result datasets.old datasets.new }
    ensures count { result ≡ length (contents_from parts.entry).fields - from }
{
    let mut offset = fields_start(&parts);
    let mut index = 0;
    let mut fields = parts.fields;
    'walking: while let Some((rec, set, data)) = fields.next() {
        offset += HEAD_OCTETS;
        let count = data.len();
        let found = IimDataset {
            rec,
            set,
            data: IimSpan { offset, count },
        };
        put_from(datasets, from, index, found);
        index += 1;
        offset += count;
    }
    index.saturating_sub(from)
}

/// Returns the answer for `count` datasets and an array with the capacity `room`.
fn fields_answer(count: usize, room: usize) -> IimAnswer
    ensures { result ≡ fields_answer count room }
{
    let status = if count <= room { DONE } else { SHORT };
    IimAnswer {
        written: count,
        ..status_answer(status)
    }
}

/// Copies the complete datasets of records 1 and 2 with the index `from` and above into an array.
/// Reads the ticket once.
pub fn iim_fields(ticket: &[u8], from: usize, datasets: &mut [IimDataset], answer: &mut IimAnswer)
    ensures { ReturnsFields ticket.now from datasets.old datasets.new answer.new }
{
    *answer = match split_ticket(ticket) {
        Ok(parts) => fields_answer(put_fields(ticket, parts, from, datasets), datasets.len()),
        Err(fault) => ticket_answer(fault),
    };
}
