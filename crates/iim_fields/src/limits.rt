//! Limits on the data of records 1 and 2 that a reader stores.

ghost use Rattle.std.specs.Prelude.{◌≡◌};
ghost use Rattle.iim_fields.specs.Format.Causes.{limit_exceeded};

use crate::fault::FieldCause;

/// The limits on the data of records 1 and 2 of an envelope, both records together.
#[derive(Clone, Copy, Debug, PartialEq, Eq)]
pub struct Limits {
    /// The greatest number of octets of data.
    pub octets: u32,
    /// The greatest number of datasets.
    pub fields: u32,
}

impl Limits {
    /// The limits for wire copy: 65,536 octets in 512 datasets.
    pub const WIRE: Limits = Limits {
        octets: 65_536,
        fields: 512,
    };

    /// Returns the first limit that a total of `octets` octets in `fields` datasets exceeds:
    /// `HeaderFull`, otherwise `TooManyFields`, otherwise `None`.
    pub fn passed(self, octets: u64, fields: u64) -> Option<FieldCause>
        ensures { result ≡ limit_exceeded self octets fields }
    {
        if octets > u64::from(self.octets) {
            return Some(FieldCause::HeaderFull);
        }
        if fields > u64::from(self.fields) {
            return Some(FieldCause::TooManyFields);
        }
        None
    }
}
