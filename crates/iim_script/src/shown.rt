//! Parses texts with escapes.

ghost use Rattle.std.specs.Prelude.{◌+◌, ◌≤◌, ◌∷◌, ℕ, List, IfOk, IfSome, IfNone};
ghost use Rattle.iim_dataset.specs.Format.Octets.{sp, backslash};
ghost use Rattle.iim_script.specs.Format.Scripts.{IsHexDigit, IsOfDigits, BeginsWith, EncodesOctets, EndsWith};

use std::alloc::{AllocError, Global};

/// The first octet of an escape.
const BACKSLASH: u8 = b'\\';

/// Returns the value of a hexadecimal digit in either case, or `None` for another octet.
fn hex_value(digit: u8) -> Option<u8>
    ensures some { IfSome result (λ value. IsHexDigit digit value × (value ≤ 15)) }
    ensures none { IfNone result ((value : ℕ) → IsHexDigit digit value → ⊥) }
{
    match digit {
        b'0'..=b'9' => Some(digit - b'0'),
        b'A'..=b'F' => Some(digit - b'A' + 10),
        b'a'..=b'f' => Some(digit - b'a' + 10),
        _ => None,
    }
}

/// Returns the octet of an escape with these two digits, or `None` if one of them is not a
/// hexadecimal digit.
fn escaped(high: u8, low: u8) -> Option<u8>
    ensures some { IfSome result (IsOfDigits high low) }
    ensures none { IfNone result ((octet : ℕ) → IsOfDigits high low octet → ⊥) }
{
    let Some(high) = hex_value(high) else {
        return None;
    };
    let Some(low) = hex_value(low) else {
        return None;
    };
    Some(high * 16 + low)
}

/// Parses an escape after its backslash: `x` and two hexadecimal digits. Returns the octet and the
/// rest, or `None` if the escape is invalid.
fn escape(after: &[u8]) -> Option<(u8, &[u8])>
    ensures some { IfSome result (λ first. BeginsWith (backslash ∷ after.now) first.0 first.1.now) }
    ensures none { IfNone result ((octet : ℕ) (rest : List ℕ) → BeginsWith (backslash ∷ after.now) octet rest → ⊥) }
{
    if after.len() < 3 {
        return None;
    }
    if after[0] != b'x' {
        return None;
    }
    match escaped(after[1], after[2]) {
        Some(octet) => Some((octet, &after[3..])),
        None => None,
    }
}

/// Parses an octet or an escape at the start of a text. Returns the octet and the rest, or `None`
/// if the text is empty or the escape is invalid.
fn first_octet(shown: &[u8]) -> Option<(u8, &[u8])>
    ensures some { IfSome result (λ first. BeginsWith shown.now first.0 first.1.now) }
    ensures none { IfNone result ((octet : ℕ) (rest : List ℕ) → BeginsWith shown.now octet rest → ⊥) }
{
    if shown.is_empty() {
        return None;
    }
    if shown[0] == BACKSLASH {
        return escape(&shown[1..]);
    }
    Some((shown[0], &shown[1..]))
}

/// Parses a text with escapes. Returns its octets, or `None` if an escape is invalid.
pub(crate) fn unescape(alloc: Global, shown: &[u8]) -> Result<Option<Vec<u8>>, AllocError>
    ensures some { IfOk result (λ told. IfSome told (λ octets. EncodesOctets shown.now octets.items)) }
    ensures none { IfOk result (λ told. IfNone told ((octets : List ℕ) → EncodesOctets shown.now octets → ⊥)) }
{
    let mut octets = Vec::new(alloc);
    let mut rest = shown;
    while !rest.is_empty() {
        let Some((octet, after)) = first_octet(rest) else {
            return Ok(None);
        };
        octets.push(octet)?;
        rest = after;
    }
    Ok(Some(octets))
}

/// Parses a non-empty text with escapes. Returns its octets, or `None` if an escape is invalid or
/// the text is empty.
fn read_some(alloc: Global, shown: &[u8]) -> Result<Option<Vec<u8>>, AllocError>
    ensures some { IfOk result (λ told. IfSome told (λ octets. EndsWith (sp ∷ shown.now) octets.items)) }
    ensures none { IfOk result (λ told. IfNone told ((octets : List ℕ) → EndsWith (sp ∷ shown.now) octets → ⊥)) }
{
    if shown.is_empty() {
        return Ok(None);
    }
    match unescape(alloc, shown) {
        Ok(Some(octets)) => Ok(Some(octets)),
        Ok(None) => Ok(None),
        Err(error) => Err(error),
    }
}

/// Parses the end of a line, which is empty, or SP and a non-empty text with escapes. Returns the
/// octets of that text, or `None` if the line has another form.
pub(crate) fn read_last(alloc: Global, end: &[u8]) -> Result<Option<Vec<u8>>, AllocError>
    ensures some { IfOk result (λ told. IfSome told (λ octets. EndsWith end.now octets.items)) }
    ensures none { IfOk result (λ told. IfNone told ((octets : List ℕ) → EndsWith end.now octets → ⊥)) }
{
    if end.is_empty() {
        return Ok(Some(Vec::new(alloc)));
    }
    if end[0] != b' ' {
        return Ok(None);
    }
    read_some(alloc, &end[1..])
}
