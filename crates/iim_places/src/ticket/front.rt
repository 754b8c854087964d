//! Parses one item at the start of a slice: a number, a text or a dataset.

ghost use Rattle.std.specs.Prelude.{◌≡◌, ◌^◌, ◌<◌, ◌++◌, ◌∷◌, [], length, IfSome, IfNone};
ghost use Rattle.iim_places.specs.Format.Tickets.{four, wide, field_octets, number_octets, text_octets};
ghost use Rattle.iim_places.specs.Format.TicketForm.{FitsInField, IsOptionalIn, IsShortText, FitsWidth};
ghost use Rattle.iim_places.specs.TicketParts.{dataset};
ghost use Rattle.std.specs.Int.{w64, to_be_bytes};
ghost use Rattle.iim_places.specs.Restoring.{LacksItem, FitsInFourOctets};

use crate::form::FIRST_VERSION;

/// Splits off the first `count` octets. Returns `None` if there are fewer.
pub(crate) fn take_front(octets: &[u8], count: u64) -> Option<(&[u8], &[u8])>
    ensures parts { IfSome result (λ r. octets.now ≡ r.0.now ++ r.1.now) }
    ensures len { IfSome result (λ r. length r.0.now ≡ count) }
    ensures none { IfNone result (length octets.now < count) }
{
    if (octets.len() as u64) < count {
        return None;
    }
    Some(octets.split_at(count as usize))
}

/// Splits off the first octet. Returns `None` if the slice is empty.
pub(crate) fn take_octet(octets: &[u8]) -> Option<(u8, &[u8])>
    ensures parts { IfSome result (λ r. octets.now ≡ r.0 ∷ r.1.now) }
    ensures none { IfNone result (octets.now ≡ []) }
{
    let (octet, rest) = octets.split_first()?;
    Some((*octet, rest))
}

/// Decodes a number of four octets, high octet first.
fn number_of(octets: &[u8]) -> u64
    requires { length octets.now ≡ 4 }
    ensures is { four result ≡ octets.now }
    ensures fits { result < 2 ^ 32 }
{
    let number = u32::from_be_bytes([octets[0], octets[1], octets[2], octets[3]]);
    u64::from(number)
}

/// Parses a number of four octets, high octet first. Returns the number and the rest.
pub(crate) fn take_number(octets: &[u8]) -> Option<(u64, &[u8])>
    ensures parts { IfSome result (λ r. octets.now ≡ four r.0 ++ r.1.now) }
    ensures fits { IfSome result (λ r. r.0 < 2 ^ 32) }
    ensures none { IfNone result (LacksItem FitsInFourOctets four octets.now) }
{
    let (number, rest) = take_front(octets, 4)?;
    Some((number_of(number), rest))
}

/// Decodes a number of eight octets, high octet first.
fn eight_octet_number(octets: &[u8]) -> u64
    requires { length octets.now ≡ 8 }
    ensures is { to_be_bytes w64 result ≡ octets.now }
{
    u64::from_be_bytes([
        octets[0], octets[1], octets[2], octets[3], octets[4], octets[5], octets[6], octets[7],
    ])
}

/// Parses a number of eight octets, high octet first. Returns the number and the rest.
fn take_eight(octets: &[u8]) -> Option<(u64, &[u8])>
    ensures parts { IfSome result (λ r. octets.now ≡ to_be_bytes w64 r.0 ++ r.1.now) }
    ensures none { IfNone result (length octets.now < 8) }
{
    let (number, rest) = take_front(octets, 8)?;
    Some((eight_octet_number(number), rest))
}

/// Parses a number of four octets in version 1, and of eight in version 2, high octet first.
/// Returns the number and the rest.
pub(crate) fn take_wide(version: u8, octets: &[u8]) -> Option<(u64, &[u8])>
    ensures parts { IfSome result (λ r. octets.now ≡ wide version r.0 ++ r.1.now) }
    ensures fits { IfSome result (λ r. FitsWidth version r.0) }
    ensures none { IfNone result (LacksItem (FitsWidth version) (wide version) octets.now) }
{
    if version == FIRST_VERSION {
        return take_number(octets);
    }
    take_eight(octets)
}

/// Parses a text, which follows its length in one octet. Returns the text and the rest.
pub(crate) fn take_text(octets: &[u8]) -> Option<(&[u8], &[u8])>
    ensures parts { IfSome result (λ r. octets.now ≡ text_octets r.0.now ++ r.1.now) }
    ensures fits { IfSome result (λ r. IsShortText r.0.now) }
    ensures none { IfNone result (LacksItem IsShortText text_octets octets.now) }
{
    let (length, rest) = take_octet(octets)?;
    take_front(rest, u64::from(length))
}

/// Parses an optional number: an octet 0 for a missing number, or an octet 1 and the number.
/// Returns the number and the rest.
pub(crate) fn take_option(version: u8, octets: &[u8]) -> Option<(Option<u64>, &[u8])>
    ensures parts { IfSome result (λ r. octets.now ≡ number_octets version r.0 ++ r.1.now) }
    ensures fits { IfSome result (λ r. IsOptionalIn version r.0) }
    ensures none { IfNone result (LacksItem (IsOptionalIn version) (number_octets version) octets.now) }
{
    let (mark, rest) = take_octet(octets)?;
    match mark {
        0 => Some((None, rest)),
        1 => {
            let (number, rest) = take_wide(version, rest)?;
            Some((Some(number), rest))
        }
        _ => None,
    }
}

/// Parses a dataset: its record, its number, its length in four octets, and its data. Returns the
/// dataset and the rest.
pub(crate) fn take_field(octets: &[u8]) -> Option<((u8, u8, &[u8]), &[u8])>
    ensures parts { IfSome result (λ r. octets.now ≡ field_octets (dataset r.0.0 r.0.1 r.0.2.now) ++ r.1.now) }
    ensures fits { IfSome result (λ r. length r.0.2.now < 2 ^ 32) }
    ensures none { IfNone result (LacksItem FitsInField field_octets octets.now) }
{
    let (rec, rest) = take_octet(octets)?;
    let (set, rest) = take_octet(rest)?;
    let (count, rest) = take_number(rest)?;
    let (data, rest) = take_front(rest, count)?;
    Some(((rec, set, data), rest))
}
