//! The data of the datasets of an envelope with one record and number.

ghost use Rattle.std.specs.Prelude.{◌≡◌, length, slice_get};
ghost use Rattle.std.specs.Option.{option_map};
ghost use Rattle.iim_fields.specs.Format.Records.{all_data};

use iim_fields::{EnvelopeRef, FieldIter};

/// An iterator over the data of the datasets of an envelope with one record and number, in order.
#[derive(Drop)]
pub struct DataOf<'a> {
    fields: FieldIter<'a>,
    rec: u8,
    set: u8,
}

impl<'a> Iterator for DataOf<'a> {
    ghost use Rattle.std.specs.Iterator.{YieldsFirstRef, item_count};
    ghost use Rattle.iim_handle.specs.Walks.{remaining_data};

    type Item = &'a [u8];

    ghost next_gives = { YieldsFirstRef remaining_data };

    ghost remaining = { item_count remaining_data };

    fn next(&mut self) -> Option<&'a [u8]> {
        while let Some((rec, set, octets)) = self.fields.next() {
            if rec == self.rec && set == self.set {
                return Some(octets);
            }
        }
        None
    }
}

/// Returns how many datasets have this record and number.
pub(crate) fn count_data(envelope: &EnvelopeRef<'_>, rec: u8, set: u8) -> usize
    ensures { result ≡ length (all_data rec set envelope.now) }
{
    let data = DataOf {
        fields: envelope.fields(),
        rec,
        set,
    };
    data.count()
}

/// Returns the data of the dataset with the index `n` of those with this record and number.
pub(crate) fn find_data<'a>(
    envelope: &EnvelopeRef<'a>,
    rec: u8,
    set: u8,
    n: usize,
) -> Option<&'a [u8]>
    ensures { option_map (λ x. x.now) result ≡ slice_get (all_data rec set envelope.now) n }
{
    let mut data = DataOf {
        fields: envelope.fields(),
        rec,
        set,
    };
    data.nth(n)
}
