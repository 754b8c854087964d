//! Reads an envelope in chunks. A ticket carries the state from each call to the next.

ghost use Rattle.std.specs.Prelude.{◌≡◌, ℕ, None, Some, Ok, Err, IfOk, IfErr, OnOk};
ghost use Rattle.iim_c.specs.Format.Answers.{refusal_answer, short_answer};
ghost use Rattle.iim_unpack.specs.States.Unpacking.{IsDone, failed_at, limits_in, capacity_in};
ghost use Rattle.iim_c.specs.Format.Checking.{limits_for};
ghost use Rattle.iim_c.specs.Format.Feeding.{ReturnsFed};
ghost use Rattle.iim_c.specs.Format.Statuses as status;
ghost use Rattle.iim_c.specs.Format.Chunks.{HasFedText, HasRefusedText, progress_status};
ghost use Rattle.iim_c.specs.Steps.{IsSaved, FitsOrIsShort};

use crate::answer::{IimAnswer, refusal_answer, status_answer, ticket_answer};
use crate::begin::begin;
use crate::limits::IimLimits;
use crate::status::{DONE, MORE, REFUSED, SHORT};
use crate::text_out::TextOut;
use iim_dataset::laws::dataset_laws;
use iim_fields::Limits;
use iim_unpack::laws::place_laws;
use iim_unpack::{Progress, Refusal, Unpacker};
use std::alloc::Global;

/// Ends a mutable borrow, and leaves the slice unchanged.
pub(crate) fn end_borrow(lent: &mut [u8])
    ensures { lent.new ≡ lent.old }
{}

/// Feeds a chunk to the unpacker with an empty sink. The sink refers to the same buffer afterwards.
fn feed_sink(
    unpacker: &mut Unpacker,
    piece: &[u8],
    sink: &mut TextOut<'_>,
) -> Result<Progress, Refusal>
    requires { sink.old.count ≡ 0 }
    ensures same { sink.new.out.ghost_name ≡ sink.old.out.ghost_name }
    ensures goes { IfOk result (HasFedText unpacker.old unpacker.new piece.now sink.new.out.now sink.new.count) }
    ensures refused { IfErr result (HasRefusedText unpacker.old piece.now sink.new.out.now sink.new.count) }
    ensures done { IsDone unpacker.old → (result ≡ Ok (Progress.Done 0)) × (unpacker.new ≡ unpacker.old)
        × (sink.new.count ≡ 0) }
    ensures limits { unpacker.old.refused ≡ None → OnOk result (limits_in unpacker.new ≡ limits_in unpacker.old) }
    ensures fails { IfErr result (λ e. unpacker.new.refused ≡ Some e.octet) }
    ensures again { (octet : ℕ) → unpacker.old.refused ≡ Some octet → (result ≡ Err (failed_at octet))
        × (unpacker.new ≡ unpacker.old) × (sink.new.count ≡ 0) }
    ensures memory { capacity_in unpacker.new ≡ capacity_in unpacker.old }
{
    unpacker.feed(piece, sink)
}

/// Feeds a chunk, and writes the text of the story in it into `out`. Also returns the number of
/// octets of that text.
pub fn feed_text(
    unpacker: &mut Unpacker,
    piece: &[u8],
    out: &mut [u8],
) -> (Result<Progress, Refusal>, usize)
    ensures goes { IfOk result.0 (HasFedText unpacker.old unpacker.new piece.now out.new result.1) }
    ensures refused { IfErr result.0 (HasRefusedText unpacker.old piece.now out.new result.1) }
    ensures done { IsDone unpacker.old → (result.0 ≡ Ok (Progress.Done 0)) × (unpacker.new ≡ unpacker.old)
        × (result.1 ≡ 0) }
    ensures limits { unpacker.old.refused ≡ None → OnOk result.0 (limits_in unpacker.new ≡ limits_in unpacker.old) }
    ensures fails { IfErr result.0 (λ e. unpacker.new.refused ≡ Some e.octet) }
    ensures again { (octet : ℕ) → unpacker.old.refused ≡ Some octet → (result.0 ≡ Err (failed_at octet))
        × (unpacker.new ≡ unpacker.old) × (result.1 ≡ 0) }
    ensures memory { capacity_in unpacker.new ≡ capacity_in unpacker.old }
{
    let mut sink = TextOut { out, count: 0 };
    let answer = feed_sink(unpacker, piece, &mut sink);
    let TextOut { out: same, count } = sink;
    end_borrow(same);
    (answer, count)
}

/// Returns the answer for a buffer that is too short: the lengths that are needed.
fn short_answer(written: usize, ticket: usize) -> IimAnswer
    ensures { result ≡ short_answer written ticket }
{
    IimAnswer {
        written,
        ticket,
        ..status_answer(SHORT)
    }
}

/// Returns the answer for a refusal after `written` octets of text. `room` is the capacity for
/// text.
fn refusal_after_text(refusal: Refusal, written: usize, room: usize) -> IimAnswer
    ensures { FitsOrIsShort written room 0 0 (record (refusal_answer status.refused refusal) { written = written })
        result }
{
    if written > room {
        return short_answer(written, 0);
    }
    IimAnswer {
        written,
        ..refusal_answer(REFUSED, refusal)
    }
}

/// Converts the progress of an unpacker to the status, and the number of octets of the chunk that
/// were consumed.
pub fn status_and_used(progress: Progress, piece: usize) -> (u8, usize)
    ensures { result ≡ progress_status progress piece }
{
    match progress {
        Progress::More => (MORE, piece),
        Progress::Done { used } => (DONE, used),
    }
}

/// Writes the ticket of the unpacker's state, and returns the answer. `told` has the status and the
/// number of octets consumed. `written` is the length of the text or rows, and `room` is the
/// capacity for them. If the ticket or these do not fit, the answer has the lengths that are
/// needed. Allocates nothing.
pub(crate) fn save_and_answer(
    unpacker: &Unpacker,
    told: (u8, usize),
    written: usize,
    room: usize,
    out: &mut [u8],
) -> IimAnswer
    requires { unpacker.now.refused ≡ None }
    ensures { IsSaved unpacker.now told written room out.new result }
{
    let Ok(ticket) = unpacker.save_at(out) else {
        unreachable!()
    };
    if ticket > out.len() || written > room {
        return short_answer(written, ticket);
    }
    let (status, used) = told;
    IimAnswer {
        octet: unpacker.octets(),
        used,
        written,
        ticket,
        ..status_answer(status)
    }
}

/// Feeds a chunk, starting in the state of a ticket, and returns the answer.
fn fed(
    alloc: Global,
    limits: Limits,
    ticket: &[u8],
    at: u64,
    piece: &[u8],
    text_out: &mut [u8],
    ticket_out: &mut [u8],
) -> IimAnswer
    ensures { ReturnsFed limits ticket.now at piece.now text_out.new ticket_out.new result }
{
    place_laws();
    dataset_laws();
    let mut unpacker = match begin(alloc, limits, ticket, at) {
        Ok(unpacker) => unpacker,
        Err(fault) => return ticket_answer(fault),
    };
    let room = text_out.len();
    let (answer, written) = feed_text(&mut unpacker, piece, text_out);
    match answer {
        Ok(progress) => {
            let told = status_and_used(progress, piece.len());
            save_and_answer(&unpacker, told, written, room, ticket_out)
        }
        Err(refusal) => refusal_after_text(refusal, written, room),
    }
}

/// Reads the next chunk of an envelope, starting in the state of a ticket, or at the beginning of
/// an envelope if the ticket is empty.
///
/// Writes the text of the story in the chunk and the next ticket, and returns the number of octets
/// consumed. The ticket of a complete envelope still has its fields. If a buffer is too short, the
/// answer has the lengths that are needed, and the same call can be repeated with longer buffers.
pub fn iim_feed(
    alloc: Global,
    limits: IimLimits,
    ticket: &[u8],
    at: u64,
    piece: &[u8],
    text_out: &mut [u8],
    ticket_out: &mut [u8],
    answer: &mut IimAnswer,
)
    ensures { ReturnsFed (limits_for limits) ticket.now at piece.now text_out.new ticket_out.new answer.new }
{
    *answer = fed(
        alloc,
        limits.limits(),
        ticket,
        at,
        piece,
        text_out,
        ticket_out,
    );
}
