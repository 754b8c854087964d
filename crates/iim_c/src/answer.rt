//! The result of a call.

ghost use Rattle.std.specs.Prelude.{◌≡◌};
ghost use Rattle.iim_c.specs.Format.Answers.{status_answer, refusal_answer, layer_number, ticket_answer};

use crate::status::{BAD_TICKET, NO_MEMORY};
use iim_unpack::{Layer, Refusal, TicketFault};

/// The result of a call. Fields that the description of a call does not mention are zero.
#[repr(C)]
#[derive(Clone, Copy)]
pub struct IimAnswer {
    /// The status of the call: one of the numbers in `status`.
    pub status: u8,
    /// The number of the layer that rejects the octet, or 0.
    pub layer: u8,
    /// The number of the cause, or 0.
    pub cause: u8,
    /// The record of the dataset concerned, or 0.
    pub rec: u8,
    /// The number of the dataset within its record, or 0.
    pub set: u8,
    /// The length of the envelope so far in octets. For a refusal, the offset of the rejected
    /// octet, or the number of the line in a script.
    pub octet: u64,
    /// The number of octets of the chunk that were consumed.
    pub used: usize,
    /// How much was written: octets of text or of a packed form, rows, or datasets. With the status
    /// `SHORT`, how much there is to write.
    pub written: usize,
    /// The length of the ticket that was written, in octets. With the status `SHORT`, the length
    /// that is needed.
    pub ticket: usize,
}

/// Returns an answer in which all fields except the status are 0.
pub fn status_answer(status: u8) -> IimAnswer
    ensures { result ≡ status_answer status }
{
    IimAnswer {
        status,
        layer: 0,
        cause: 0,
        rec: 0,
        set: 0,
        octet: 0,
        used: 0,
        written: 0,
        ticket: 0,
    }
}

/// Returns the number of a layer. The layers are numbered from 1 in the order in which they check
/// a token.
fn layer_number(layer: Layer) -> u8
    ensures { result ≡ layer_number layer }
{
    match layer {
        Layer::Dataset => 1,
        Layer::Record => 2,
        Layer::Limits => 3,
        Layer::Object => 4,
        Layer::Message => 5,
        Layer::Story => 6,
        Layer::Outside => 7,
    }
}

/// Returns the answer for a refusal.
pub fn refusal_answer(status: u8, refusal: Refusal) -> IimAnswer
    ensures { result ≡ refusal_answer status refusal }
{
    IimAnswer {
        status,
        layer: layer_number(refusal.layer),
        cause: refusal.cause.number(),
        rec: refusal.rec,
        set: refusal.set,
        octet: refusal.octet,
        used: 0,
        written: 0,
        ticket: 0,
    }
}

/// Returns the answer for an invalid ticket. A failed allocation has its own status.
pub fn ticket_answer(fault: TicketFault) -> IimAnswer
    ensures { result ≡ ticket_answer fault }
{
    if fault == TicketFault::OutOfMemory {
        return status_answer(NO_MEMORY);
    }
    IimAnswer {
        cause: fault.number(),
        ..status_answer(BAD_TICKET)
    }
}
