//! An iterator over the datasets of a ticket.

ghost use Rattle.std.specs.Prelude.{◌≡◌};
ghost use Rattle.std.specs.List.{AllByRecursion, flat_map};
ghost use Rattle.iim_places.specs.Format.Tickets.{field_octets};
ghost use Rattle.iim_places.specs.Format.TicketForm.{FitsInField};
ghost use Rattle.iim_places.specs.TicketParts.{EncodesFields, encoded_fields_unique};

use crate::ticket::front::take_field;
use std::marker::Model;

/// An iterator over the datasets of records 1 and 2 that are stored in a ticket, in order. Each
/// item is the record, the number and the data of a dataset. Its model in contracts is the list of
/// the remaining datasets.
#[derive(Drop)]
pub struct TicketFields<'a> {
    /// The encoding of the remaining datasets.
    pub(crate) octets: &'a [u8],
    ghost holds: { EncodesFields octets.now } by { encoded_fields_unique octets.now },
}

impl<'a> Model for TicketFields<'a> {
    ghost use Rattle.std.specs.Prelude.{List};
    ghost use Rattle.iim_dataset.specs.Format.Datasets.{Dataset};

    ghost Value = { List Dataset };

    ghost view = { λ fields. fields.holds.0 };
}

/// Returns an iterator over all datasets that are encoded in `octets`.
pub(crate) fn iterate(octets: &[u8]) -> TicketFields<'_>
    requires { EncodesFields octets.now }
    ensures each { AllByRecursion FitsInField result }
    ensures spelled { octets.now ≡ flat_map field_octets result }
{
    TicketFields { octets }
}

impl<'a> TicketFields<'a> {
    /// Returns a copy of the iterator.
    pub fn again(&self) -> TicketFields<'a>
        ensures { result ≡ self.now }
    {
        iterate(self.octets)
    }
}

impl<'a> Iterator for TicketFields<'a> {
    ghost use Rattle.std.specs.Iterator.{YieldsFirstBy, item_count};
    ghost use Rattle.iim_places.specs.Format.TicketForm.{remaining_datasets};

    type Item = (u8, u8, &'a [u8]);

    ghost next_gives = { YieldsFirstBy (λ t. record { rec = t.0; set = t.1; octets = t.2.now }) remaining_datasets };

    ghost remaining = { item_count remaining_datasets };

    fn next(&mut self) -> Option<(u8, u8, &'a [u8])> {
        let (field, octets) = take_field(self.octets)?;
        *self = iterate(octets);
        Some(field)
    }
}
