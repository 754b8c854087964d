//! Looks up the sizes of an object in a ticket.

ghost use Rattle.iim_places.specs.States.Restored.{contents_from};
ghost use Rattle.iim_c.specs.Format.Tickets.{IsObjectOf, ReturnsSizes};

use crate::answer::{IimAnswer, status_answer, ticket_answer};
use crate::status::DONE;
use iim_unpack::{TicketParts, split_ticket};

/// The sizes of an object, as far as they were received. Numbers that were not received are 0.
#[repr(C)]
#[derive(Clone, Copy)]
pub struct IimObject {
    /// Whether 7:10 was received.
    pub has_mode: bool,
    /// Whether 7:20 was received.
    pub has_subfile: bool,
    /// Whether 7:90 was received.
    pub has_announced: bool,
    /// Whether 7:95 was received.
    pub has_maximum: bool,
    /// The value of 7:10: 1 if the size is known at the start, otherwise 0.
    pub mode: u64,
    /// The value of 7:20: the largest size of a subfile.
    pub subfile: u64,
    /// The value of 7:90: the announced size.
    pub announced: u64,
    /// The value of 7:95: the largest size that is allowed.
    pub maximum: u64,
    /// The number of subfiles, a partial one included.
    pub subfiles: u64,
    /// The number of octets of the object that were received.
    pub octets: u64,
}

/// The value in which all fields are 0 or false.
const NO_OBJECT: IimObject = IimObject {
    has_mode: false,
    has_subfile: false,
    has_announced: false,
    has_maximum: false,
    mode: 0,
    subfile: 0,
    announced: 0,
    maximum: 0,
    subfiles: 0,
    octets: 0,
};

/// Returns the sizes in a ticket that was split into these parts.
fn object_in(parts: &TicketParts<'_>) -> IimObject
    ensures { IsObjectOf (contents_from parts.now) result }
{
    let [mode, subfile, announced, maximum] = parts.numbers;
    IimObject {
        has_mode: mode.is_some(),
        has_subfile: subfile.is_some(),
        has_announced: announced.is_some(),
        has_maximum: maximum.is_some(),
        mode: mode.unwrap_or(0),
        subfile: subfile.unwrap_or(0),
        announced: announced.unwrap_or(0),
        maximum: maximum.unwrap_or(0),
        subfiles: parts.heads,
        octets: parts.taken,
    }
}

/// Looks up the sizes of the object, as far as they were received.
pub fn iim_sizes(ticket: &[u8], object: &mut IimObject, answer: &mut IimAnswer)
    ensures { ReturnsSizes ticket.now object.new answer.new }
{
    let (found, told) = match split_ticket(ticket) {
        Ok(parts) => (object_in(&parts), status_answer(DONE)),
        Err(fault) => (NO_OBJECT, ticket_answer(fault)),
    };
    *object = found;
    *answer = told;
}
