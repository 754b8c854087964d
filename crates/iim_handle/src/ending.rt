//! The end of the input, and closing a handle.

ghost use Rattle.std.specs.Prelude.{◌≡◌, None};
ghost use Rattle.iim_handle.specs.Format.{UnpackerHasEnd, HandleHasEnd};

use crate::handle::{IimUnpacker, put_back, take_out};
use crate::status::BAD_HANDLE;
use iim_c::IimAnswer;
use iim_c::internals::{refusal_answer, status_answer};
use iim_c::status::{DONE, REFUSED, TRUNCATED};
use iim_unpack::Unpacker;
use std::alloc::Global;

/// Returns the answer for an input that ends in the state of an unpacker.
fn end_unpacker(unpacker: &Unpacker) -> IimAnswer
    ensures { UnpackerHasEnd unpacker.now result }
{
    match unpacker.end_of_input() {
        Some(refusal) if unpacker.is_failed() => refusal_answer(REFUSED, refusal),
        Some(refusal) => refusal_answer(TRUNCATED, refusal),
        None => IimAnswer {
            octet: unpacker.octets(),
            ..status_answer(DONE)
        },
    }
}

/// Checks whether the input may end here.
///
/// `answer.status` is `DONE` after the end of an envelope, `TRUNCATED` inside an envelope,
/// `REFUSED` with `cause` 61 if an octet was rejected earlier, and `BAD_HANDLE` if the handle is
/// closed. The handle is unchanged.
pub fn iim_unpacker_end(alloc: Global, handle: &mut IimUnpacker, answer: &mut IimAnswer)
    ensures { HandleHasEnd handle.old.owner.home handle.new.owner.home answer.new }
{
    if !handle.is_open {
        *answer = status_answer(BAD_HANDLE);
        return;
    }
    let unpacker = take_out(alloc, handle);
    *answer = end_unpacker(&unpacker);
    put_back(handle, unpacker);
}

/// Closes a handle, and frees its memory. Closing a closed handle has no effect.
pub fn iim_unpacker_close(alloc: Global, handle: &mut IimUnpacker)
    ensures { handle.new.owner.home ≡ None }
{
    if handle.is_open {
        drop(take_out(alloc, handle));
    }
}
