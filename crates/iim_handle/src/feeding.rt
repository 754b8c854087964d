//! Feeding a handle.

ghost use Rattle.iim_handle.specs.Format.{HandleIsFed, UnpackerIsFed};

use crate::handle::{IimUnpacker, put_back, take_out};
use crate::status::BAD_HANDLE;
use iim_c::IimAnswer;
use iim_c::internals::{feed_text, refusal_answer, status_and_used, status_answer};
use iim_c::status::{REFUSED, SHORT};
use iim_dataset::laws::dataset_laws;
use iim_unpack::Unpacker;
use std::alloc::Global;

/// Feeds a chunk to an unpacker, and writes the text that the unpacker delivers into the buffer.
fn feed_unpacker(unpacker: &mut Unpacker, piece: &[u8], text_out: &mut [u8]) -> IimAnswer
    ensures { UnpackerIsFed unpacker.old piece.now text_out.new unpacker.new result }
{
    dataset_laws();
    let (fed, written) = feed_text(unpacker, piece, text_out);
    match fed {
        Ok(progress) => {
            let (status, used) = status_and_used(progress, piece.len());
            IimAnswer {
                octet: unpacker.octets(),
                used,
                written,
                ..status_answer(status)
            }
        }
        Err(refusal) => IimAnswer {
            written,
            ..refusal_answer(REFUSED, refusal)
        },
    }
}

/// Feeds the next octets of the envelope, up to its end, and writes the text of the story in them:
/// its lines, joined by LF. The buffer must be at least as long as the chunk.
///
/// `answer.status` is `MORE`; `DONE` at the end of the envelope, after which no octet is consumed;
/// `REFUSED`, with `cause` 61 if an octet was rejected earlier; `SHORT` if the buffer is too short;
/// or `BAD_HANDLE` if the handle is closed. After `SHORT` and `BAD_HANDLE` nothing has changed.
/// Allocates nothing.
pub fn iim_unpacker_feed(
    alloc: Global,
    handle: &mut IimUnpacker,
    piece: &[u8],
    text_out: &mut [u8],
    answer: &mut IimAnswer,
)
    ensures { HandleIsFed handle.old.owner.home piece.now text_out.old text_out.new handle.new.owner.home answer.new }
{
    if !handle.is_open {
        *answer = status_answer(BAD_HANDLE);
        return;
    }
    if text_out.len() < piece.len() {
        *answer = IimAnswer {
            written: piece.len(),
            ..status_answer(SHORT)
        };
        return;
    }
    let mut unpacker = take_out(alloc, handle);
    *answer = feed_unpacker(&mut unpacker, piece, text_out);
    put_back(handle, unpacker);
}
