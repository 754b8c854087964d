//! Saving the state of a handle, and opening a handle in a saved state.

ghost use Rattle.iim_c.specs.Format.Checking.{limits_for};
ghost use Rattle.iim_handle.specs.Format.{HandleIsRestored, HandleIsSaved, UnpackerIsSaved};

use crate::handle::{IimUnpacker, put_back, put_new, take_out};
use crate::status::{BAD_HANDLE, FAILED};
use iim_c::internals::{status_answer, ticket_answer};
use iim_c::status::{DONE, SHORT};
use iim_c::{IimAnswer, IimLimits};
use iim_unpack::Unpacker;
use std::alloc::Global;

/// Writes the ticket of an unpacker into a buffer, if the buffer is long enough.
pub(crate) fn save_unpacker(unpacker: &Unpacker, ticket_out: &mut [u8]) -> IimAnswer
    ensures { UnpackerIsSaved unpacker.now ticket_out.new result }
{
    let Ok(ticket) = unpacker.save_at(ticket_out) else {
        return status_answer(FAILED);
    };
    if ticket > ticket_out.len() {
        return IimAnswer {
            ticket,
            ..status_answer(SHORT)
        };
    }
    IimAnswer {
        octet: unpacker.octets(),
        ticket,
        ..status_answer(DONE)
    }
}

/// Writes the ticket of the current state, from which [`iim_unpacker_restore`] or
/// [`iim_feed`](iim_c::iim_feed) continues.
///
/// `answer.status` is `DONE`; `SHORT` with the length of the ticket if the buffer is too short;
/// `FAILED` if an octet was rejected earlier; or `BAD_HANDLE` if the handle is closed. The handle
/// is unchanged. Allocates nothing.
pub fn iim_unpacker_save(
    alloc: Global,
    handle: &mut IimUnpacker,
    ticket_out: &mut [u8],
    answer: &mut IimAnswer,
)
    ensures { HandleIsSaved handle.old.owner.home handle.new.owner.home ticket_out.old ticket_out.new answer.new }
{
    if !handle.is_open {
        *answer = status_answer(BAD_HANDLE);
        return;
    }
    let unpacker = take_out(alloc, handle);
    *answer = save_unpacker(&unpacker, ticket_out);
    put_back(handle, unpacker);
}

/// Opens a closed handle in the state of a ticket. `at` is the number of octets of the envelope
/// that were consumed before.
///
/// `answer.status` is `DONE`; `BAD_TICKET` with a cause, or `NO_MEMORY`, in which case the handle
/// is still closed; or `BAD_HANDLE` if the handle is already open, in which case it is unchanged.
pub fn iim_unpacker_restore(
    alloc: Global,
    limits: IimLimits,
    handle: &mut IimUnpacker,
    ticket: &[u8],
    at: u64,
    answer: &mut IimAnswer,
)
    ensures { HandleIsRestored (limits_for limits) ticket.now at handle.old.owner.home handle.new.owner.home
        answer.new }
{
    if handle.is_open {
        *answer = status_answer(BAD_HANDLE);
        return;
    }
    *answer = match Unpacker::restore(alloc, limits.limits(), ticket, at) {
        Ok(unpacker) => status_answer(put_new(alloc, handle, unpacker)),
        Err(fault) => ticket_answer(fault),
    };
}
