//! The limits under which an envelope is read.

ghost use Rattle.std.specs.Prelude.{◌≡◌};
ghost use Rattle.iim_c.specs.Format.Checking.{given_or, limits_for};

use iim_fields::Limits;

/// The limits on the data of records 1 and 2 of an envelope, both records together. A field that is
/// 0 selects the default limit, which is the limit of wire copy.
#[repr(C)]
#[derive(Clone, Copy)]
pub struct IimLimits {
    /// The greatest number of octets of data.
    pub octets: u32,
    /// The greatest number of datasets.
    pub fields: u32,
}

/// Returns `given`, or `other` if that is 0.
fn given_or(given: u32, other: u32) -> u32
    ensures { result ≡ given_or given other }
{
    if given == 0 { other } else { given }
}

impl IimLimits {
    /// Returns the limits, with the default for each field that is 0.
    pub fn limits(self) -> Limits
        ensures { result ≡ limits_for self }
    {
        Limits {
            octets: given_or(self.octets, Limits::WIRE.octets),
            fields: given_or(self.fields, Limits::WIRE.fields),
        }
    }
}
