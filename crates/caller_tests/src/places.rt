//! An example caller of `iim_places`.

ghost use Rattle.std.specs.Prelude.{◌≡◌, IfSome};
ghost use Rattle.iim_places.specs.Format.Tickets.{Place};
ghost use Rattle.iim_places.specs.States.Restored.{EncodesPlace};

use iim_places::laws::place_laws;
use iim_places::split_ticket;

/// Returns the number of octets of the object that were received when the ticket was saved, or
/// `None` if the octets are not a ticket.
pub fn octets_of_object(ticket: &[u8]) -> Option<u64>
    ensures { IfSome result (λ taken. (place : Place) → EncodesPlace ticket.now place → taken ≡ place.taken) }
{
    place_laws();
    match split_ticket(ticket) {
        Ok(parts) => Some(parts.taken),
        Err(_) => None,
    }
}
