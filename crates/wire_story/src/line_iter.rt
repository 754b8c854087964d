//! An iterator over the lines of a text that is stored with its lines joined by LF.

ghost use Rattle.std.specs.Prelude.{◌≡◌, ◌==◌, ℕ, List, []};
ghost use Rattle.std.specs.Iterator.{YieldsFirstRef, item_count};
ghost use Rattle.std.specs.List.{position_or_len};
ghost use Rattle.std.specs.Option.{option_copied, option_map, unwrap_or};
ghost use Rattle.iim_dataset.specs.Format.Octets.{lf};
ghost use Rattle.wire_story.specs.Steps.{lines_in};

use crate::marks::Marks;
use iim_dataset::octets::LF;
use std::marker::Model;

/// An iterator over the lines of a text, in order. Its model in contracts is the list of the
/// remaining lines.
#[derive(Debug, Drop)]
pub struct LineIter<'a> {
    // The remaining octets, or `None` after the last line.
    rest: Option<&'a [u8]>,
}

impl<'a> Model for LineIter<'a> {
    ghost Value = { List (List ℕ) };

    ghost view = { λ lines. unwrap_or (option_map lines_in (option_copied lines.rest)) [] };
}

impl<'a> LineIter<'a> {
    /// Creates an iterator over the lines in these octets, which are joined by LF.
    pub(crate) fn new(octets: &'a [u8]) -> LineIter<'a>
        ensures { result ≡ lines_in octets.entry.now }
    {
        LineIter { rest: Some(octets) }
    }
}

/// Returns the length of the first line.
fn first_len(octets: &[u8]) -> usize
    ensures { result ≡ position_or_len (λ b. b == lf) octets.now }
{
    let mut at = Marks::new().run_len(octets).0;
    while at < octets.len() {
        if octets[at] == LF {
            return at;
        }
        at += 1;
    }
    at
}

impl<'a> Iterator for LineIter<'a> {
    type Item = &'a [u8];

    ghost next_gives = { YieldsFirstRef (λ lines. lines) };

    ghost remaining = { item_count (λ lines. lines) };

    fn next(&mut self) -> Option<&'a [u8]> {
        let rest = self.rest?;
        let end = first_len(rest);
        if end < rest.len() {
            self.rest = Some(&rest[end + 1..]);
            Some(&rest[..end])
        } else {
            self.rest = None;
            Some(rest)
        }
    }
}
