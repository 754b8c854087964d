//! Finds the octets that are accepted next.

ghost use Rattle.std.specs.Prelude.{◌≡◌, true, false, if◌then◌else◌, IfOk, IfErr, MatchOption};
ghost use Rattle.iim_c.specs.Format.Answers.{ticket_answer};
ghost use Rattle.iim_c.specs.Steps.{IsSet};
ghost use Rattle.iim_c.specs.Format.Checking.{limits_for};
ghost use Rattle.iim_c.specs.Format.Feeding.{HasNoState, HoldsForTicket};
ghost use Rattle.iim_c.specs.Format.Tickets.{BitsAreAccepted, TicketIsComplete, ReturnsNext, BitIsAcceptance};

use crate::answer::{IimAnswer, status_answer, ticket_answer};
use crate::begin::begin;
use crate::limits::IimLimits;
use crate::status::{DONE, MORE};
use iim_fields::Limits;
use iim_unpack::TicketFault;
use iim_unpack::laws::place_laws;
use std::alloc::Global;
use wire_story::Discard;

/// A set of octets.
#[repr(C)]
#[derive(Clone, Copy)]
pub struct IimOctetSet {
    /// One bit for each octet: the bit of octet `o` is bit `o % 8` of `bits[o / 8]`.
    pub bits: [u8; 32],
}

/// The empty set.
const NO_OCTETS: [u8; 32] = [0; 32];

/// Sets the bit of an octet.
fn set_bit(bits: &mut [u8; 32], octet: u8)
    ensures { IsSet bits.old bits.new octet 1 }
{
    bits[usize::from(octet / 8)] |= 1 << (octet % 8);
}

/// Sets the bit of an octet, if `taken` is true.
fn put_bit(bits: &mut [u8; 32], octet: u8, taken: bool)
    ensures set { taken ≡ true → IsSet bits.old bits.new octet 1 }
    ensures same { taken ≡ false → bits.new ≡ bits.old }
{
    if taken {
        set_bit(bits, octet);
    }
}

/// Checks whether every layer accepts `octet` next, in the state of a ticket. Returns `None` if the
/// envelope is complete in that state.
fn accepts_next(
    alloc: Global,
    limits: Limits,
    ticket: &[u8],
    octet: u8,
) -> Result<Option<bool>, TicketFault>
    ensures tried { IfOk result (λ tried. MatchOption tried (TicketIsComplete limits ticket.now)
        (λ taken. HoldsForTicket limits ticket.now 0 (λ p a. BitIsAcceptance limits p octet (if taken then 1 else 0))
        (λ p a. ⊥))) }
    ensures fault { IfErr result (λ fault. HasNoState limits ticket.now (ticket_answer fault)) }
{
    place_laws();
    let mut unpacker = begin(alloc, limits, ticket, 0)?;
    if unpacker.is_done() {
        return Ok(None);
    }
    match unpacker.feed(&[octet], &mut Discard) {
        Ok(_) => Ok(Some(true)),
        Err(_) => Ok(Some(false)),
    }
}

/// Tries each octet in the state of a ticket. Returns the bits of those that every layer accepts,
/// or `None` if the envelope is complete in that state.
fn try_all(alloc: Global, limits: Limits, ticket: &[u8]) -> Result<Option<[u8; 32]>, TicketFault>
    ensures tried { IfOk result (λ tried. MatchOption tried (TicketIsComplete limits ticket.now)
        (BitsAreAccepted limits ticket.now)) }
    ensures fault { IfErr result (λ fault. HasNoState limits ticket.now (ticket_answer fault)) }
{
    let mut bits = NO_OCTETS;
    for next in 0..256u16 {
        let octet = next as u8;
        let Some(taken) = accepts_next(alloc, limits, ticket, octet)? else {
            return Ok(None);
        };
        put_bit(&mut bits, octet, taken);
    }
    Ok(Some(bits))
}

/// Returns the octets that are accepted next, and the answer.
fn next_of(alloc: Global, limits: Limits, ticket: &[u8]) -> ([u8; 32], IimAnswer)
    ensures { ReturnsNext limits ticket.now result.0 result.1 }
{
    match try_all(alloc, limits, ticket) {
        Ok(Some(bits)) => (bits, status_answer(MORE)),
        Ok(None) => (NO_OCTETS, status_answer(DONE)),
        Err(fault) => (NO_OCTETS, ticket_answer(fault)),
    }
}

/// Finds the octets that every layer accepts next in the state of a ticket, or at the beginning of
/// an envelope if the ticket is empty. An octet is in the set if and only if some valid envelope
/// continues or ends with it there.
pub fn iim_next(
    alloc: Global,
    limits: IimLimits,
    ticket: &[u8],
    next: &mut IimOctetSet,
    answer: &mut IimAnswer,
)
    ensures { ReturnsNext (limits_for limits) ticket.now next.new.bits answer.new }
{
    let (bits, told) = next_of(alloc, limits.limits(), ticket);
    next.bits = bits;
    *answer = told;
}
