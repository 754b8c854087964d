//! Encodes numbers whose length is encoded beside them.

ghost use Rattle.std.specs.Prelude.{◌≡◌};
ghost use Rattle.iim_dataset.specs.Format.Datasets.{written_number};

use crate::place::lengthen;
use crate::size::COUNT_OCTETS;
use arrayvec::ArrayVec;
use byteorder::{BigEndian, ByteOrder};

/// The greatest number of octets of such a number.
pub const NUMBER_OCTETS: usize = COUNT_OCTETS as usize;

/// The greatest number that is encoded in four octets.
const MAX_FOUR: u64 = 4_294_967_295;

/// Encodes a number whose length is encoded beside it: in four octets up to 4,294,967,295, and in
/// eight octets above that, high octet first. This is the encoding of extended counts and of the
/// sizes in records 7 and 9.
pub fn number_bytes(number: u64) -> ArrayVec<u8, NUMBER_OCTETS>
    ensures { result.items ≡ written_number number }
{
    let mut octets = ArrayVec::new();
    if number <= MAX_FOUR {
        let mut four = [0; 4];
        BigEndian::write_u32(&mut four, number as u32);
        lengthen(&mut octets, &four);
        return octets;
    }
    let mut eight = [0; 8];
    BigEndian::write_u64(&mut eight, number);
    lengthen(&mut octets, &eight);
    octets
}
