//! Audits a chunk of an input.

ghost use Rattle.std.specs.Prelude.{◌≡◌, None};
ghost use Rattle.iim_c.specs.Format.Checking.{limits_for};
ghost use Rattle.iim_c.specs.Format.Auditing.{IsAudited, ReturnsAuditedAt};
ghost use Rattle.iim_c.specs.Format.Answers.{refusal_answer};
ghost use Rattle.iim_c.specs.Format.Statuses as status;
ghost use Rattle.iim_c.specs.Steps.{SavesAudit};

use crate::answer::{IimAnswer, refusal_answer, status_answer, ticket_answer};
use crate::begin::begin;
use crate::feed::save_and_answer;
use crate::finding::{Ending, Found, find_rows};
use crate::instant::IimInstant;
use crate::limits::IimLimits;
use crate::row::IimAuditRow;
use crate::so_far::IimSoFar;
use crate::status::{BAD_INSTANT, BAD_TICKET, DONE, MORE, REFUSED};
use iim_audit::PieceAudit;
use iim_fields::Limits;
use iim_unpack::Refusal;
use iim_unpack::laws::place_laws;
use jiff::Timestamp;
use std::alloc::Global;

/// Writes the ticket of the audit's state, and returns the answer for the rows that were found.
/// `told` has the status and the number of octets consumed. Writes `so_far` only if both the ticket
/// and the rows fit. Allocates nothing.
fn save_audit(
    audit: &PieceAudit,
    found: Found,
    told: (u8, usize),
    room: usize,
    so_far: &mut IimSoFar,
    ticket_out: &mut [u8],
) -> IimAnswer
    requires { audit.now.unpacker.refused ≡ None }
    ensures { SavesAudit audit.now found told room so_far.old so_far.new ticket_out.new result }
{
    let unpacker = audit.unpacker();
    let answer = save_and_answer(unpacker, told, found.rows, room, ticket_out);
    if answer.status == told.0 {
        let (words, inside) = audit.words();
        *so_far = IimSoFar {
            at: found.at,
            octets: unpacker.octets(),
            words,
            inside,
        };
    }
    answer
}

/// Returns the answer for a refusal that occurred after some rows were found.
fn refusal_after_rows(found: Found, refusal: Refusal) -> IimAnswer
    ensures { result ≡ record (refusal_answer status.refused refusal) { used = found.used; written = found.rows } }
{
    IimAnswer {
        used: found.used,
        written: found.rows,
        ..refusal_answer(REFUSED, refusal)
    }
}

/// Audits a chunk, starting in the state of a ticket, and returns the answer.
fn audit_chunk(
    alloc: Global,
    limits: Limits,
    ticket: &[u8],
    so_far: &mut IimSoFar,
    piece: &[u8],
    now: Timestamp,
    rows: &mut [IimAuditRow],
    ticket_out: &mut [u8],
) -> IimAnswer
    ensures { ReturnsAuditedAt limits ticket.now so_far.old piece.now now.nanosecond rows.old rows.new ticket_out.new
        so_far.new result }
{
    place_laws();
    let unpacker = match begin(alloc, limits, ticket, so_far.octets) {
        Ok(unpacker) => unpacker,
        Err(fault) => return ticket_answer(fault),
    };
    if unpacker.is_done() {
        return status_answer(BAD_TICKET);
    }
    let (words, inside) = so_far.words(ticket);
    let mut audit = PieceAudit::resume(unpacker, words, inside);
    let room = rows.len();
    let (found, ending) = find_rows(&mut audit, so_far.at, piece, now, rows);
    match ending {
        Ending::Used => save_audit(&audit, found, (MORE, piece.len()), room, so_far, ticket_out),
        Ending::Full => save_audit(&audit, found, (DONE, found.used), room, so_far, ticket_out),
        Ending::Refused(refusal) => {
            *so_far = IimSoFar::begins(found.at);
            refusal_after_rows(found, refusal)
        }
    }
}

/// Writes a row for each envelope that ends in a chunk of an input, at the instant `now`. The audit
/// starts in the state of `ticket`, or at the beginning of an envelope if `ticket` is empty.
///
/// Also writes the next ticket, and the values of `so_far` that belong to it. Stops when `rows` is
/// full, and returns the number of octets consumed. If an octet is rejected, the rows of the
/// earlier envelopes are still written. If `ticket_out` is too short, `so_far` is unchanged, and
/// the same call can be repeated with a longer buffer.
pub fn iim_audit(
    alloc: Global,
    limits: IimLimits,
    ticket: &[u8],
    so_far: &mut IimSoFar,
    piece: &[u8],
    now: IimInstant,
    rows: &mut [IimAuditRow],
    ticket_out: &mut [u8],
    answer: &mut IimAnswer,
)
    ensures { IsAudited (limits_for limits) ticket.now so_far.old piece.now now rows.old rows.new ticket_out.new
        so_far.new answer.new }
{
    *answer = match now.to_library() {
        Some(now) => audit_chunk(
            alloc,
            limits.limits(),
            ticket,
            so_far,
            piece,
            now,
            rows,
            ticket_out,
        ),
        None => status_answer(BAD_INSTANT),
    };
}
