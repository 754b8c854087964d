//! Checks whether an input may end in the state of a ticket.

ghost use Rattle.iim_c.specs.Format.Checking.{limits_for};
ghost use Rattle.iim_c.specs.Format.Feeding.{ReturnsEnd};

use crate::answer::{IimAnswer, refusal_answer, status_answer, ticket_answer};
use crate::begin::begin;
use crate::limits::IimLimits;
use crate::status::{DONE, TRUNCATED};
use iim_fields::Limits;
use iim_unpack::laws::place_laws;
use std::alloc::Global;

/// Checks whether the input may end in the state of a ticket, and returns the answer.
fn check_end(alloc: Global, limits: Limits, ticket: &[u8], at: u64) -> IimAnswer
    ensures { ReturnsEnd limits ticket.now at result }
{
    place_laws();
    let unpacker = match begin(alloc, limits, ticket, at) {
        Ok(unpacker) => unpacker,
        Err(fault) => return ticket_answer(fault),
    };
    match unpacker.end_of_input() {
        Some(refusal) => refusal_answer(TRUNCATED, refusal),
        None => IimAnswer {
            octet: unpacker.octets(),
            ..status_answer(DONE)
        },
    }
}

/// Checks whether an input may end in the state of a ticket. The answer is that the envelope is
/// complete, or that it is truncated.
pub fn iim_end(alloc: Global, limits: IimLimits, ticket: &[u8], at: u64, answer: &mut IimAnswer)
    ensures { ReturnsEnd (limits_for limits) ticket.now at answer.new }
{
    *answer = check_end(alloc, limits.limits(), ticket, at);
}
