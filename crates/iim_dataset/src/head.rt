//! The tag of a dataset: a marker, two numbers and a count.

ghost use Rattle.std.specs.Prelude.{◌≡◌, IfOk, IfErr, MatchOption};
ghost use Rattle.iim_dataset.specs.Format.Datasets.{EncodesTag, canonical_tag, count_octets, BeginsTag, HasTag, HasNoTag};

use crate::number::number_bytes;
use crate::place::lengthen;
use crate::size::COUNT_OCTETS;
use arrayvec::ArrayVec;
use byteorder::{BigEndian, ByteOrder};
use std::error::Error;
use std::fmt;
use std::fmt::{Display, Formatter};

/// A decoded tag (the chapter on DataSets of IIM version 4): the number of the record, the number
/// of the dataset in that record, and the number of octets of data that follow.
#[derive(Clone, Copy, Debug, PartialEq, Eq)]
pub struct Head {
    /// The number of the record.
    pub rec: u8,
    /// The number of the dataset within its record.
    pub set: u8,
    /// The number of octets of data.
    pub count: u64,
}

/// Why octets are not a tag. Definitions of the crates above cite this type.
#[derive(Clone, Copy, Debug, PartialEq, Eq)]
pub enum HeadCause {
    /// The first octet is not the tag marker.
    Marker,
    /// The octets encode a count in neither the standard nor the extended form.
    CountForm,
}

/// Writes the number and the name, as `1 Marker`.
impl Display for HeadCause {
    fn fmt<W: fmt::Write>(&self, f: &mut Formatter<W>) -> fmt::Result {
        f.write_str(match self {
            HeadCause::Marker => "1 Marker",
            HeadCause::CountForm => "2 CountForm",
        })
    }
}

impl Error for HeadCause {}

/// An error for octets that are not the start of a tag.
#[derive(Clone, Copy)]
pub(crate) struct HeadFault {
    /// Why the octet was rejected.
    pub cause: HeadCause,
    /// The number of octets before the first one that cannot be part of a tag.
    pub taken: usize,
}

/// The first octet of each tag.
pub const TAG_MARKER: u8 = 0x1c;

/// The first octet of an extended count. Its top bit is set. The other bits are the high bits of
/// the length of the count, and are 0 because that length is at most 255.
pub const EXTENDED: u8 = 0x80;

/// The number of octets of a tag with a standard count.
pub(crate) const TAG_LENGTH: usize = 5;

/// The greatest number of octets of a tag.
pub const TAG_OCTETS: usize = TAG_LENGTH + COUNT_OCTETS as usize;

/// The greatest count that has the standard form.
const MAX_STANDARD: u64 = 32_767;

/// Parses the tag at the start of the octets. Returns its head and its length in octets, or `None`
/// if the octets end inside the tag.
///
/// A standard count is two octets, with the top bit clear. An extended count is 80 hex, the number
/// of octets that follow (1 to 8), and the count in these, high octet first. Leading zeros are
/// accepted, and so is an extended count that the standard form could hold.
///
/// **Errors:** the first octet that cannot be part of a tag.
pub(crate) fn read_head(octets: &[u8]) -> Result<Option<(Head, usize)>, HeadFault>
    ensures found { IfOk result (λ found.
        MatchOption found (BeginsTag count_octets octets.now) (λ f. HasTag octets.now f.0 f.1)) }
    ensures fault { IfErr result (HasNoTag octets.now) }
{
    match octets {
        [marker, ..] if *marker != TAG_MARKER => Err(fault(HeadCause::Marker, 0)),
        [_, _, _, high, ..] if *high > EXTENDED => Err(fault(HeadCause::CountForm, 3)),
        [_, rec, set, high, low, ..] if *high < EXTENDED => {
            let count = u64::from(BigEndian::read_u16(&[*high, *low]));
            let (rec, set) = (*rec, *set);
            Ok(Some((Head { rec, set, count }, TAG_LENGTH)))
        }
        [_, _, _, _, 0, ..] => Err(fault(HeadCause::CountForm, 4)),
        [_, _, _, _, length, ..] if *length > COUNT_OCTETS => Err(fault(HeadCause::CountForm, 4)),
        [_, rec, set, _, length, count @ ..] if count.len() >= usize::from(*length) => {
            let length = usize::from(*length);
            let count = BigEndian::read_uint(count, length);
            let (rec, set) = (*rec, *set);
            Ok(Some((Head { rec, set, count }, TAG_LENGTH + length)))
        }
        _ => Ok(None),
    }
}

fn fault(cause: HeadCause, taken: usize) -> HeadFault
    ensures { result ≡ record { cause = cause; taken = taken } }
{
    HeadFault { cause, taken }
}

/// Encodes a head as its canonical tag: a standard count up to 32,767, an extended count of four
/// octets up to 4,294,967,295, and one of eight octets above that.
pub fn head_bytes(head: Head) -> ArrayVec<u8, TAG_OCTETS>
    ensures canonical { result.items ≡ canonical_tag head }
    ensures spells { EncodesTag count_octets head result.items }
{
    let mut tag = ArrayVec::new();
    tag.push(TAG_MARKER);
    tag.push(head.rec);
    tag.push(head.set);
    if head.count <= MAX_STANDARD {
        let mut count = [0; 2];
        BigEndian::write_u16(&mut count, head.count as u16);
        let [high, low] = count;
        tag.push(high);
        tag.push(low);
        return tag;
    }
    tag.push(EXTENDED);
    let count = number_bytes(head.count);
    tag.push(count.len() as u8);
    lengthen(&mut tag, count.as_slice());
    tag
}
