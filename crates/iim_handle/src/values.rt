//! Reading the datasets of a complete envelope in an open handle, by record and number.

ghost use Rattle.std.specs.Prelude.{◌≡◌};
ghost use Rattle.std.specs.Option.{option_map};
ghost use Rattle.iim_handle.specs.States.Reading.{HandleHasCount, HandleHasField, ReturnsData, UnpackerHasCount, UnpackerHasField, incomplete_answer};

use crate::data_of::{count_data, find_data};
use crate::handle::{IimUnpacker, put_back, take_out};
use crate::status::{BAD_HANDLE, FAILED};
use iim_c::IimAnswer;
use iim_c::internals::status_answer;
use iim_c::status::{DONE, MORE, NONE, SHORT};
use iim_unpack::Unpacker;
use std::alloc::Global;

/// Returns the answer if the envelope is not complete.
fn incomplete_answer(unpacker: &Unpacker) -> IimAnswer
    ensures { result ≡ incomplete_answer unpacker.now }
{
    if unpacker.is_failed() {
        return status_answer(FAILED);
    }
    status_answer(MORE)
}

/// Writes the data of a dataset at the front of a buffer, if there are any, and they fit.
fn put_data(data: Option<&[u8]>, out: &mut [u8]) -> IimAnswer
    ensures { ReturnsData (option_map (λ x. x.now) «data».entry) out.old out.new result }
{
    let Some(octets) = data else {
        return status_answer(NONE);
    };
    let fits = octets.len() <= out.len();
    if fits {
        out[..octets.len()].copy_from_slice(octets);
    }
    IimAnswer {
        written: octets.len(),
        ..status_answer(if fits { DONE } else { SHORT })
    }
}

/// Writes the data of a dataset of a complete envelope into a buffer.
fn read_field(unpacker: &Unpacker, rec: u8, set: u8, n: usize, out: &mut [u8]) -> IimAnswer
    ensures { UnpackerHasField unpacker.now rec set n out.old out.new result }
{
    match unpacker.unpacked() {
        Some(unpacked) => put_data(find_data(&unpacked.envelope, rec, set, n), out),
        None => incomplete_answer(unpacker),
    }
}

/// Writes the data of the dataset with the index `n` of those with this record and number into a
/// buffer, once the envelope is complete.
///
/// `answer.status` is `DONE`, with the length of the data in `written`; `NONE` if there are no more
/// than `n`; `SHORT`, with their length; `MORE` if the envelope is not complete, `FAILED` if an octet
/// was rejected, or `BAD_HANDLE` if the handle is closed. Except for `DONE` the buffer is unchanged.
/// It allocates nothing, and the handle stays as it is.
pub fn iim_unpacker_field(
    alloc: Global,
    handle: &mut IimUnpacker,
    rec: u8,
    set: u8,
    n: usize,
    out: &mut [u8],
    answer: &mut IimAnswer,
)
    ensures { HandleHasField handle.old.owner.home handle.new.owner.home rec set n out.old out.new answer.new }
{
    if !handle.is_open {
        *answer = status_answer(BAD_HANDLE);
        return;
    }
    let unpacker = take_out(alloc, handle);
    *answer = read_field(&unpacker, rec, set, n, out);
    put_back(handle, unpacker);
}

/// Counts the datasets of a complete envelope with one record and number.
fn read_count(unpacker: &Unpacker, rec: u8, set: u8) -> IimAnswer
    ensures { UnpackerHasCount unpacker.now rec set result }
{
    match unpacker.unpacked() {
        Some(unpacked) => IimAnswer {
            written: count_data(&unpacked.envelope, rec, set),
            ..status_answer(DONE)
        },
        None => incomplete_answer(unpacker),
    }
}

/// Returns the number of datasets with this record and number, once the envelope is complete.
///
/// `answer.status` is `DONE`, with the number in `written`, or else as for [`iim_unpacker_field`].
pub fn iim_unpacker_count(
    alloc: Global,
    handle: &mut IimUnpacker,
    rec: u8,
    set: u8,
    answer: &mut IimAnswer,
)
    ensures { HandleHasCount handle.old.owner.home handle.new.owner.home rec set answer.new }
{
    if !handle.is_open {
        *answer = status_answer(BAD_HANDLE);
        return;
    }
    let unpacker = take_out(alloc, handle);
    *answer = read_count(&unpacker, rec, set);
    put_back(handle, unpacker);
}
