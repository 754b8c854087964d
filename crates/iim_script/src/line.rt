//! Splits a script into lines.

ghost use Rattle.std.specs.Prelude.{◌≡◌, ◌==◌, ◌+◌, ◌≤◌, ◌<◌, ◌++◌, ◌∷◌, ℕ, List, length, IfSome, IfNone};
ghost use Rattle.std.specs.List.{position_or_len};
ghost use Rattle.iim_dataset.specs.Format.Octets.{lf};
ghost use Rattle.iim_script.specs.Format.Scripts.{Lacks, NextLine};

use iim_dataset::octets::{CR, LF};
use memchr::memchr;

/// Returns the index of the first occurrence of `octet`, or the length if there is no such octet.
pub(crate) fn index_of_first(octets: &[u8], octet: u8) -> usize
    ensures place { result ≡ position_or_len (λ b. b == octet) octets.now }
    ensures within { result ≤ length octets.now }
{
    memchr(octet, octets).unwrap_or(octets.len())
}

/// Splits the octets around the first occurrence of `octet`. Returns `None` if there is no
/// occurrence.
pub(crate) fn split_on(octets: &[u8], octet: u8) -> Option<(&[u8], &[u8])>
    ensures found { IfSome result (λ parts. Lacks octet parts.0.now
        × (octets.now ≡ parts.0.now ++ octet ∷ parts.1.now)) }
    ensures none { IfNone result (Lacks octet octets.now) }
{
    let end = index_of_first(octets, octet);
    if end < octets.len() {
        Some((&octets[..end], &octets[end + 1..]))
    } else {
        None
    }
}

/// Splits off the first line. Returns the line without its LF, and the octets after it. Returns
/// `None` if there is no LF.
pub(crate) fn next_line(octets: &[u8]) -> Option<(&[u8], &[u8])>
    ensures found { IfSome result (λ parts. NextLine octets.now parts.0.now parts.1.now) }
    ensures shorter { IfSome result (λ parts. length parts.0.now + length parts.1.now < length octets.now) }
    ensures none { IfNone result (Lacks lf octets.now) }
{
    let (ended, after) = split_on(octets, LF)?;
    let len = ended.len();
    if len > 0 && ended[len - 1] == CR {
        return Some((&ended[..len - 1], after));
    }
    Some((ended, after))
}

/// Removes the prefix `front`. Returns the rest, or `None` if the octets do not begin with this
/// prefix.
pub(crate) fn after<'a>(octets: &'a [u8], front: &[u8]) -> Option<&'a [u8]>
    ensures found { IfSome result (λ rest. octets.now ≡ front.now ++ rest.now) }
    ensures none { IfNone result ((rest : List ℕ) → octets.now ≡ front.now ++ rest → ⊥) }
{
    octets.strip_prefix(front)
}
