//! Parses the numbers of records and datasets.

ghost use Rattle.std.specs.Prelude.{◌≡◌, ◌+◌, ◌≤◌, ℕ, [], ◌∷◌, false, IsTrue, IfSome, IfNone};
ghost use Rattle.iim_dataset.specs.Format.Octets.{digit_zero, is_digit};
ghost use Rattle.iim_script.specs.Format.Scripts.{EncodesNumber};

/// Checks whether the octet is a decimal digit.
pub(crate) fn is_decimal(octet: u8) -> bool
    ensures { result ≡ is_digit octet }
{
    b'0' <= octet && octet <= b'9'
}

/// Returns the value of a decimal digit, or `None` for another octet.
fn digit_value(octet: u8) -> Option<u16>
    ensures some { IfSome result (λ value. IsTrue (is_digit octet) × (octet ≡ value + digit_zero) × (value ≤ 9)) }
    ensures none { IfNone result (is_digit octet ≡ false) }
{
    if octet < b'0' || octet > b'9' {
        return None;
    }
    Some((octet - b'0') as u16)
}

/// Returns the number with these three decimal digits, or `None` if it exceeds 255 or an octet is
/// not a digit.
fn of_digits(hundreds: u8, tens: u8, ones: u8) -> Option<u8>
    ensures some { IfSome result (λ n. EncodesNumber (hundreds ∷ tens ∷ ones ∷ []) n) }
    ensures none { IfNone result ((n : ℕ) → EncodesNumber (hundreds ∷ tens ∷ ones ∷ []) n → ⊥) }
{
    let value = digit_value(hundreds)? * 100 + digit_value(tens)? * 10 + digit_value(ones)?;
    if value > 255 {
        return None;
    }
    Some(value as u8)
}

/// Parses a number of 1 to 3 decimal digits, at most 255. Returns `None` for other octets.
pub(crate) fn number(digits: &[u8]) -> Option<u8>
    ensures some { IfSome result (λ n. EncodesNumber digits.now n) }
    ensures none { IfNone result ((n : ℕ) → EncodesNumber digits.now n → ⊥) }
{
    match digits {
        [ones] => of_digits(b'0', b'0', *ones),
        [tens, ones] => of_digits(b'0', *tens, *ones),
        [hundreds, tens, ones] => of_digits(*hundreds, *tens, *ones),
        _ => None,
    }
}
