//! Decodes numbers.

ghost use Rattle.std.specs.Prelude.{◌≡◌, ◌↔◌, length, IsSome, IfSome};
ghost use Rattle.std.specs.Int.{IsInRange};
ghost use Rattle.iim_tables.specs.Format.Kinds.{size_octets};
ghost use Rattle.iim_dataset.specs.Format.Octets.{number};

use byteorder::{BigEndian, ByteOrder};
use iim_dataset::COUNT_OCTETS;

/// The greatest number of octets of a size.
pub const SIZE_OCTETS: usize = COUNT_OCTETS as usize;

/// Decodes an unsigned binary number of 1 to `SIZE_OCTETS` octets, high octet first. Returns `None`
/// for any other number of octets.
///
/// The sizes in records 7 and 9, the pre-ObjectData and post-ObjectData descriptor records of IIM
/// version 4, are encoded like this.
pub fn number_of(octets: &[u8]) -> Option<u64>
    ensures exactly { IsSome result ↔ IsInRange 1 size_octets (length octets.now) }
    ensures value { IfSome result (λ n. n ≡ number octets.now) }
{
    // Most numbers have one, two or four octets and are read in place. Others are read from a
    // padded copy.
    match octets.len() {
        1 => Some(u64::from(octets[0])),
        2 => Some(u64::from(BigEndian::read_u16(octets))),
        4 => Some(u64::from(BigEndian::read_u32(octets))),
        count if count == 0 || count > SIZE_OCTETS => None,
        count => Some(BigEndian::read_uint(octets, count)),
    }
}
