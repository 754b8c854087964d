//! Calls that unpack envelopes and allocate.

use super::lines::size_of;
use super::records::is_worked;
use crate::given::{IMPOSSIBLE, LIMITS};
use crate::outcome::{Trouble, right, right_after};
use iim_dataset::FromRead;
use iim_fields::Limits;
use iim_unpack::{
    Cause, Intake, IntakeFault, Progress, Refusal, SaveFault, TicketFault, Unpacked, Unpacker,
};
use std::alloc::Global;
use wire_story::{Discard, Lines};
use worked::STORY;

/// Checks whether an unpacker has completed the sample envelope.
fn gives_worked(unpacker: Unpacker) -> bool {
    match unpacker.into_unpacked() {
        Ok(got) => is_worked(&got.envelope),
        Err(_) => false,
    }
}

/// Feeds the sample envelope to an unpacker. No call after `new` allocates.
pub(crate) fn fed(alloc: Global) -> Result<(), Trouble> {
    let mut unpacker = Unpacker::new(alloc, LIMITS)?;
    if unpacker.feed(STORY, &mut Discard) != Ok(Progress::Done { used: 246 }) {
        return Err(Trouble::Wrong);
    }
    right(gives_worked(unpacker))
}

/// Returns the first 200 octets of the sample envelope, and the last 46.
fn halves() -> (&'static [u8], &'static [u8]) {
    STORY.split_at(200.min(STORY.len()))
}

/// Checks whether an unpacker accepts the first 200 octets of the sample envelope.
fn begins(unpacker: &mut Unpacker) -> bool {
    unpacker.feed(halves().0, &mut Discard) == Ok(Progress::More)
}

/// Checks whether an unpacker completes the sample envelope with its last 46 octets.
fn ends(unpacker: &mut Unpacker) -> bool {
    let answer = unpacker.feed(halves().1, &mut Discard);
    answer == Ok(Progress::Done { used: 46 }) && unpacker.octets() == 246
}

/// Saves an unpacker in the middle of the sample envelope, and then feeds the rest to it. `save`
/// must leave the unpacker unchanged, even if it fails.
fn saved_of(alloc: Global, unpacker: &mut Unpacker) -> Result<(), Trouble> {
    let has_begun = begins(unpacker);
    let size = size_of_ticket(unpacker.save(alloc));
    if has_begun && ends(unpacker) {
        return right(size? == 262);
    }
    Err(Trouble::Wrong)
}

/// Saves an unpacker in the middle of the sample envelope. After `new`, only `save` allocates.
pub(crate) fn saved(alloc: Global) -> Result<(), Trouble> {
    let mut unpacker = Unpacker::new(alloc, LIMITS)?;
    saved_of(alloc, &mut unpacker)
}

/// Returns the length of a ticket.
fn size_of_ticket(saved: Result<Vec<u8>, SaveFault>) -> Result<usize, Trouble> {
    match saved {
        Ok(ticket) => Ok(ticket.len()),
        Err(SaveFault::OutOfMemory) => Err(Trouble::OutOfMemory),
        Err(SaveFault::Failed) => Err(Trouble::Wrong),
    }
}

/// Returns the ticket of an unpacker, and whether the first attempt failed.
fn ticket_of(alloc: Global, unpacker: &Unpacker) -> Result<(Vec<u8>, bool), Trouble> {
    match unpacker.save(alloc) {
        Ok(ticket) => Ok((ticket, false)),
        Err(SaveFault::OutOfMemory) => match unpacker.save(alloc) {
            Ok(ticket) => Ok((ticket, true)),
            Err(_) => Err(Trouble::OutOfMemory),
        },
        Err(SaveFault::Failed) => Err(Trouble::Wrong),
    }
}

/// Restores an unpacker from a ticket. Returns it, and whether the first attempt failed.
fn unpacker_of(alloc: Global, ticket: &[u8]) -> Result<(Unpacker, bool), Trouble> {
    match Unpacker::restore(alloc, LIMITS, ticket, 200) {
        Ok(unpacker) => Ok((unpacker, false)),
        Err(TicketFault::OutOfMemory) => match Unpacker::restore(alloc, LIMITS, ticket, 200) {
            Ok(unpacker) => Ok((unpacker, true)),
            Err(_) => Err(Trouble::OutOfMemory),
        },
        Err(_) => Err(Trouble::Wrong),
    }
}

/// Checks whether invalid tickets are rejected, which happens before anything is allocated.
fn refuses_tickets(alloc: Global, ticket: &[u8]) -> bool {
    let few = |octets, fields| Limits { octets, fields };
    let rows: [(&[u8], Limits, TicketFault); 5] = [
        (b"IIM", LIMITS, TicketFault::TicketForm),
        (b"IIMT\x09", LIMITS, TicketFault::TicketVersion),
        (&IMPOSSIBLE, LIMITS, TicketFault::Impossible),
        (ticket, few(77, 16), TicketFault::HeaderFull),
        (ticket, few(78, 15), TicketFault::TooManyFields),
    ];
    for (ticket, limits, want) in rows {
        if Unpacker::restore(alloc, limits, ticket, 200).err() != Some(want) {
            return false;
        }
    }
    true
}

/// Restores an unpacker from the ticket of another, and feeds the rest of the envelope to both.
/// `restore` must leave the other unpacker unchanged, even if it fails.
fn restored_from(alloc: Global, saved: &mut Unpacker, ticket: &[u8]) -> Result<bool, Trouble> {
    let (mut unpacker, was_refused) = unpacker_of(alloc, ticket)?;
    if ends(saved) && ends(&mut unpacker) && gives_worked(unpacker) {
        return Ok(was_refused);
    }
    Err(Trouble::Wrong)
}

/// Saves an unpacker in the middle of the sample envelope, and restores another one from its
/// ticket.
fn restored_of(alloc: Global, saved: &mut Unpacker) -> Result<(), Trouble> {
    right(begins(saved))?;
    let (ticket, was_refused) = ticket_of(alloc, saved)?;
    if !refuses_tickets(alloc, &ticket) {
        return Err(Trouble::Wrong);
    }
    let again = restored_from(alloc, saved, &ticket)?;
    right_after(true, was_refused || again)
}

/// Saves an unpacker, and restores another one. After `new`, only these two calls allocate.
pub(crate) fn restored(alloc: Global) -> Result<(), Trouble> {
    let mut saved = Unpacker::new(alloc, LIMITS)?;
    restored_of(alloc, &mut saved)
}

/// Checks whether an intake returned the sample envelope.
fn is_given(answer: Result<Option<Unpacked>, IntakeFault>) -> bool {
    match answer {
        Ok(Some(got)) => is_worked(&got.envelope),
        _ => false,
    }
}

/// Reads the sample envelope from a reader. No call after `new` allocates.
pub(crate) fn taken_in(alloc: Global) -> Result<(), Trouble> {
    let unpacker = Unpacker::new(alloc, LIMITS)?;
    let mut intake = Intake::new(FromRead::new(STORY.as_slice()));
    let answer = intake.next_envelope(unpacker, &mut Discard);
    right(is_given(answer) && intake.octets() == 246)
}

/// Checks a result against the expected numbers of lines and of their octets. If an allocation of
/// the lines failed, returns that trouble.
fn told_to_lines(answer: Result<Progress, Refusal>, size: (usize, usize)) -> Result<(), Trouble> {
    match answer {
        Ok(progress) => right(progress == Progress::Done { used: 246 } && size == (2, 21)),
        Err(refusal) if refusal.cause == Cause::SINK && (refusal.rec, refusal.set) == (8, 10) => {
            Err(Trouble::StoppedAt(refusal.octet, size.0, size.1))
        }
        Err(_) => Err(Trouble::Wrong),
    }
}

/// Feeds the sample envelope to an unpacker whose sink is `Lines`. Only the lines allocate.
pub(crate) fn fed_into_lines(alloc: Global) -> Result<(), Trouble> {
    let mut unpacker = Unpacker::new(alloc, LIMITS)?;
    let mut lines = Lines::new(alloc);
    let answer = unpacker.feed(STORY, &mut lines);
    told_to_lines(answer, size_of(&lines))
}
