//! Escapes octets for printing.

ghost use Rattle.std.specs.Prelude.{◌≡◌, ◌++◌, [], ◌∷◌, if◌then◌else◌, slice_index, OnOk};
ghost use Rattle.iim_dataset.specs.Format.Datasets.{escape};
ghost use Rattle.iim_request.specs.Format.{is_hidden, escaped_name, encodes_control};

use iim_dataset::internals::push_escape;
use std::alloc::AllocError;

/// Checks whether two octets encode a control character from U+0080 to U+009F.
fn encodes_control(first: u8, second: u8) -> bool
    ensures { result ≡ encodes_control first second }
{
    first == 0xC2 && (0x80 <= second && second <= 0x9F)
}

/// Checks whether `octet` must be escaped: it is a backslash or a control character of one octet,
/// or it is one of two octets, together with `before` or `next`, that encode a control character.
fn is_hidden(before: u8, octet: u8, next: u8) -> bool
    ensures { result ≡ is_hidden before octet next }
{
    octet.is_ascii_control()
        || (octet == b'\\' || (encodes_control(before, octet) || encodes_control(octet, next)))
}

/// Returns the first octet of a slice, or 0 if it is empty.
fn next_of(octets: &[u8]) -> u8
    ensures { result ≡ slice_index octets.now 0 }
{
    match octets {
        [octet, ..] => *octet,
        [] => 0,
    }
}

/// Appends an octet as it is or, if `hidden`, as `\x` and two digits.
fn push_octet(text: &mut Vec<u8>, hidden: bool, octet: u8) -> Result<(), AllocError>
    ensures { OnOk result (text.new.items ≡ text.old.items ++ (if hidden then escape octet else octet ∷ [])) }
{
    if hidden {
        push_escape(text, octet)
    } else {
        text.push(octet)?;
        Ok(())
    }
}

/// Appends a name. Each octet of a control character (U+0000 to U+001F and U+007F to U+009F) and
/// each backslash is written as `\x` and two digits, and every other octet as it is.
pub fn push_name(text: &mut Vec<u8>, name: &str) -> Result<(), AllocError>
    ensures { OnOk result (text.new.items ≡ text.old.items ++ escaped_name name.now) }
{
    let mut before = 0;
    let mut rest = name.as_bytes();
    while let Some((octet, after)) = rest.split_first() {
        push_octet(text, is_hidden(before, *octet, next_of(after)), *octet)?;
        before = *octet;
        rest = after;
    }
    Ok(())
}
