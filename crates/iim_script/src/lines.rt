//! Splits a text into lines, without copying.

ghost use Rattle.std.specs.Prelude.{◌≡◌, ◌<◌, ◌≤◌, ◌++◌, ◌∷◌, [], ℕ, List, length, replicate, IfSome, IfNone};
ghost use Rattle.iim_dataset.specs.Format.Octets.{cr};
ghost use Rattle.wire_story.specs.Format.Texts.{IsLine, IsText, max_returns};
ghost use Rattle.iim_script.specs.Format.Scripts.{WithoutLast};

use crate::line::split_on;
use iim_dataset::octets::LF;

/// Removes one CR from the end of the octets, if there is one.
fn without_return(octets: &[u8]) -> &[u8]
    ensures { WithoutLast cr octets.now result.now }
{
    match octets.strip_suffix(b"\r") {
        Some(front) => front,
        None => octets,
    }
}

/// Removes up to two CR from the end of a line whose LF was removed.
fn without_returns(ended: &[u8]) -> &[u8]
    ensures { (line : List ℕ) (returns : ℕ) → IsLine line → returns ≤ max_returns
        → ended.now ≡ line ++ replicate returns cr → result.now ≡ line }
{
    without_return(without_return(ended))
}

/// Splits a text after its first line. Returns that line and the rest of the text, or `None` if the
/// text has only one line.
pub fn split_text(text: &[u8]) -> Option<(&[u8], &[u8])>
    ensures more { IfSome result (λ parts. (lines : List (List ℕ)) → IsText text.now lines
        → (rest : List (List ℕ)) × (lines ≡ parts.0.now ∷ rest) × IsText parts.1.now rest) }
    ensures shorter { IfSome result (λ parts. length parts.1.now < length text.now) }
    ensures one { IfNone result ((lines : List (List ℕ)) → IsText text.now lines → lines ≡ text.now ∷ []) }
{
    match split_on(text, LF) {
        Some((ended, rest)) => Some((without_returns(ended), rest)),
        None => None,
    }
}
