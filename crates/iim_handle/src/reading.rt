//! Reading what an open handle has received, in any state, through its ticket.

ghost use Rattle.iim_handle.specs.States.Reading.{HandleHasFields, HandleHasHeader, HandleHasSizes, UnpackerHasFields, UnpackerHasHeader, UnpackerHasSizes};

use crate::handle::{IimUnpacker, put_back, take_out};
use crate::saving::save_unpacker;
use crate::status::BAD_HANDLE;
use iim_c::internals::status_answer;
use iim_c::status::DONE;
use iim_c::{IimAnswer, IimDataset, IimMessage, IimObject, iim_fields, iim_header, iim_sizes};
use iim_unpack::Unpacker;
use std::alloc::Global;

/// Writes the ticket of an unpacker into a buffer, and its datasets into an array.
fn read_fields(unpacker: &Unpacker, ticket_out: &mut [u8], datasets: &mut [IimDataset]) -> IimAnswer
    ensures { UnpackerHasFields unpacker.now ticket_out.new datasets.old datasets.new result }
{
    let saved = save_unpacker(unpacker, ticket_out);
    if saved.status != DONE {
        return saved;
    }
    let mut told = status_answer(DONE);
    iim_fields(&ticket_out[..saved.ticket], 0, datasets, &mut told);
    IimAnswer {
        octet: saved.octet,
        ticket: saved.ticket,
        ..told
    }
}

/// Writes the ticket of the present state into a buffer, and all datasets of records 1 and 2 so far
/// into an array, whose slices are those of that buffer.
///
/// `answer.status` is `DONE`; `SHORT`, with the length that the ticket has or the number of the
/// datasets; `FAILED` if an octet was rejected before; or `BAD_HANDLE` if the handle is closed. It
/// allocates nothing, and the handle stays as it is.
pub fn iim_unpacker_fields(
    alloc: Global,
    handle: &mut IimUnpacker,
    ticket_out: &mut [u8],
    datasets: &mut [IimDataset],
    answer: &mut IimAnswer,
)
    ensures { HandleHasFields handle.old.owner.home handle.new.owner.home ticket_out.old ticket_out.new datasets.old
        datasets.new answer.new }
{
    if !handle.is_open {
        *answer = status_answer(BAD_HANDLE);
        return;
    }
    let unpacker = take_out(alloc, handle);
    *answer = read_fields(&unpacker, ticket_out, datasets);
    put_back(handle, unpacker);
}

/// Writes the ticket of an unpacker into a buffer, and returns its header and trailer.
fn read_header(unpacker: &Unpacker, ticket_out: &mut [u8], message: &mut IimMessage) -> IimAnswer
    ensures { UnpackerHasHeader unpacker.now ticket_out.new message.old message.new result }
{
    let saved = save_unpacker(unpacker, ticket_out);
    if saved.status != DONE {
        return saved;
    }
    let mut told = status_answer(DONE);
    iim_header(&ticket_out[..saved.ticket], message, &mut told);
    IimAnswer {
        octet: saved.octet,
        ticket: saved.ticket,
        ..told
    }
}

/// Writes the ticket of the present state into a buffer, and returns the header and the trailer of
/// the message so far, whose slices are those of that buffer.
///
/// The statuses are those of [`iim_unpacker_fields`].
pub fn iim_unpacker_header(
    alloc: Global,
    handle: &mut IimUnpacker,
    ticket_out: &mut [u8],
    message: &mut IimMessage,
    answer: &mut IimAnswer,
)
    ensures { HandleHasHeader handle.old.owner.home handle.new.owner.home ticket_out.old ticket_out.new message.old
        message.new answer.new }
{
    if !handle.is_open {
        *answer = status_answer(BAD_HANDLE);
        return;
    }
    let unpacker = take_out(alloc, handle);
    *answer = read_header(&unpacker, ticket_out, message);
    put_back(handle, unpacker);
}

/// Writes the ticket of an unpacker into a buffer, and returns the sizes of its object.
fn read_sizes(unpacker: &Unpacker, ticket_out: &mut [u8], object: &mut IimObject) -> IimAnswer
    ensures { UnpackerHasSizes unpacker.now ticket_out.new object.old object.new result }
{
    let saved = save_unpacker(unpacker, ticket_out);
    if saved.status != DONE {
        return saved;
    }
    let mut told = status_answer(DONE);
    iim_sizes(&ticket_out[..saved.ticket], object, &mut told);
    IimAnswer {
        octet: saved.octet,
        ticket: saved.ticket,
        ..told
    }
}

/// Writes the ticket of the present state into a buffer, and returns the sizes of the object so far.
///
/// The statuses are those of [`iim_unpacker_fields`].
pub fn iim_unpacker_sizes(
    alloc: Global,
    handle: &mut IimUnpacker,
    ticket_out: &mut [u8],
    object: &mut IimObject,
    answer: &mut IimAnswer,
)
    ensures { HandleHasSizes handle.old.owner.home handle.new.owner.home ticket_out.old ticket_out.new object.old
        object.new answer.new }
{
    if !handle.is_open {
        *answer = status_answer(BAD_HANDLE);
        return;
    }
    let unpacker = take_out(alloc, handle);
    *answer = read_sizes(&unpacker, ticket_out, object);
    put_back(handle, unpacker);
}
