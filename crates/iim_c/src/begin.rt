//! Restores an unpacker from a ticket.

ghost use Rattle.std.specs.Prelude.{IfOk, IfErr};
ghost use Rattle.iim_c.specs.Format.Answers.{ticket_answer};
ghost use Rattle.iim_c.specs.Format.Feeding.{HasNoState};
ghost use Rattle.iim_c.specs.Steps.{IsBegun};

use iim_fields::Limits;
use iim_unpack::{TicketFault, Unpacker};
use std::alloc::Global;

/// Restores the unpacker that a ticket encodes, or creates one at the beginning of an envelope if
/// the ticket is empty. `at` is the number of octets of the envelope that were already consumed.
pub(crate) fn begin(
    alloc: Global,
    limits: Limits,
    ticket: &[u8],
    at: u64,
) -> Result<Unpacker, TicketFault>
    ensures begun { IfOk result (IsBegun limits ticket.now at) }
    ensures fault { IfErr result (λ fault. HasNoState limits ticket.now (ticket_answer fault)) }
{
    if !ticket.is_empty() {
        return Unpacker::restore(alloc, limits, ticket, at);
    }
    match Unpacker::new(alloc, limits) {
        Ok(unpacker) => Ok(unpacker),
        Err(_) => Err(TicketFault::OutOfMemory),
    }
}
