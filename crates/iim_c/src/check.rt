//! Checks envelopes in memory.

ghost use Rattle.std.specs.Prelude.{◌≡◌};
ghost use Rattle.iim_c.specs.Format.Answers.{status_answer};
ghost use Rattle.iim_c.specs.Format.Checking.{ReturnsChecked, IsOnlyAnswer, limits_for};
ghost use Rattle.iim_c.specs.Format.Statuses as status;

use crate::answer::{IimAnswer, refusal_answer, status_answer};
use crate::limits::IimLimits;
use crate::status::{DONE, NO_MEMORY, REFUSED, TRUNCATED};
use iim_fields::Limits;
use iim_unpack::laws::place_laws;
use iim_unpack::{Progress, Unpacker};
use std::alloc::Global;
use wire_story::Discard;

/// Returns the answer for a complete envelope that is `used` octets long.
fn complete_answer(used: usize) -> IimAnswer
    ensures { result ≡ record (status_answer status.done) { octet = used; used = used } }
{
    IimAnswer {
        octet: used as u64,
        used,
        ..status_answer(DONE)
    }
}

/// Checks the envelope at the beginning of `octets`, and returns the answer.
fn check_octets(alloc: Global, limits: Limits, octets: &[u8]) -> IimAnswer
    ensures answer { ReturnsChecked limits octets.now result }
    ensures only { IsOnlyAnswer limits octets.now result }
{
    place_laws();
    let Ok(mut unpacker) = Unpacker::new(alloc, limits) else {
        return status_answer(NO_MEMORY);
    };
    match unpacker.feed(octets, &mut Discard) {
        Ok(Progress::Done { used }) => complete_answer(used),
        Ok(Progress::More) => match unpacker.end_of_input() {
            Some(refusal) => refusal_answer(TRUNCATED, refusal),
            None => unreachable!(),
        },
        Err(refusal) => refusal_answer(REFUSED, refusal),
    }
}

/// Checks the envelope at the beginning of a buffer.
pub fn iim_check(alloc: Global, limits: IimLimits, octets: &[u8], answer: &mut IimAnswer)
    ensures answer { ReturnsChecked (limits_for limits) octets.now answer.new }
    ensures only { IsOnlyAnswer (limits_for limits) octets.now answer.new }
{
    *answer = check_octets(alloc, limits.limits(), octets);
}
