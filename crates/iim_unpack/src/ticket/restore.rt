//! Restores an unpacker from a ticket.

ghost use Rattle.std.specs.Prelude.{IfSome, IfNone, IfOk, IfErr, ◌≡◌, ℕ, List};
ghost use Rattle.iim_fields.specs.Format.Records.{IsWithin};
ghost use Rattle.iim_fields.specs.States.Standing.{room_for};
ghost use Rattle.iim_places.specs.States.Readers.{ReadersAreAtIn};
ghost use Rattle.iim_unpack.specs.States.Restored.{IsRestored};
ghost use Rattle.iim_places.specs.States.Restored.{IsRestoreFault, contents_from};
ghost use Rattle.iim_places.specs.Format.TicketForm.{HasForm, HasContents};
ghost use Rattle.iim_unpack.specs.States.Unpacking.{capacity_in};

use crate::parts::Parts;
use crate::unpacker::Unpacker;
use iim_fields::Limits;
use iim_object::laws::readers_return_sizes;
use iim_places::internals::{Readers, fields_at, readers_at};
use iim_places::laws::{layer_lemmas, place_laws};
use iim_places::{TicketFault, TicketParts, split_ticket};
use std::alloc::{AllocError, Global};

/// Returns the unpacker with these readers and the datasets stored in the ticket. Allocates exactly
/// the memory that the limits require. Returns an error if the allocation fails.
fn unpacker_at(
    alloc: Global,
    limits: Limits,
    parts: &TicketParts<'_>,
    readers: Readers,
    at: u64,
) -> Result<Unpacker, AllocError>
    requires form { HasForm (contents_from parts.now) }
    requires readers { ReadersAreAtIn (contents_from parts.now) readers }
    requires within { IsWithin limits readers.octets readers.fields }
    ensures restored { IfOk result (λ u. (ticket : List ℕ) → HasContents ticket (contents_from parts.now)
        → IsRestored limits ticket at u) }
    ensures room { IfOk result (λ u. capacity_in u ≡ room_for limits) }
{
    layer_lemmas();
    place_laws();
    readers_return_sizes();
    let fields = fields_at(alloc, limits, parts)?;
    let Readers {
        tags,
        object,
        message,
        begun,
        ..
    } = readers;
    let parts = Parts {
        fields,
        object,
        message,
    };
    Ok(Unpacker::at_place(tags, parts, at, begun))
}

impl Unpacker {
    /// Restores an unpacker at the position of a ticket. `at` becomes its count of consumed octets.
    ///
    /// If the limits are the same, and `at` is `octets()` of the saved unpacker, it continues as
    /// that unpacker would: it returns the same results for all chunks, and passes the same lines
    /// to its sink. It allocates exactly the memory that the limits require, and no later call
    /// allocates.
    ///
    /// A ticket has version 1 or 2. The position of a ticket of version 1 must be possible with the
    /// size limits of that version; the unpacker then continues with the limits of version 2.
    ///
    /// **Errors**, in this order: `TicketForm` if the octets do not begin with the name of a
    /// ticket; `TicketVersion` if the version is unknown; `TicketForm` if the rest does not have
    /// the form of a ticket; `Impossible` if no envelope reaches the position; `HeaderFull`, then
    /// `TooManyFields`, if the datasets exceed a limit; `OutOfMemory` if the allocation fails.
    /// Nothing is allocated before that last check.
    pub fn restore(
        alloc: Global,
        limits: Limits,
        ticket: &[u8],
        at: u64,
    ) -> Result<Unpacker, TicketFault>
        ensures restored { IfOk result (IsRestored limits ticket.now at) }
        ensures room { IfOk result (λ u. capacity_in u ≡ room_for limits) }
        ensures fault { IfErr result (IsRestoreFault limits ticket.now) }
    {
        place_laws();
        let parts = split_ticket(ticket)?;
        let Some(readers) = readers_at(&parts) else {
            return Err(TicketFault::Impossible);
        };
        if let Some(fault) = readers.limit_fault(limits) {
            return Err(fault);
        }
        match unpacker_at(alloc, limits, &parts, readers, at) {
            Ok(unpacker) => Ok(unpacker),
            Err(_) => Err(TicketFault::OutOfMemory),
        }
    }
}
