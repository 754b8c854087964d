//! Parses the story of a script: everything after the line `text`.

ghost use Rattle.std.specs.Prelude.{◌≡◌, ◌+◌, ◌<◌, ◌⊎◌, [], length, IfOk, IfErr, IfSome, IfNone};
ghost use Rattle.iim_dataset.specs.Format.Octets.{lf};
ghost use Rattle.iim_script.specs.Format.Scripts.{Lacks, NextLine};
ghost use Rattle.iim_script.specs.Steps.{IsPackedTextOf};
ghost use Rattle.iim_script.specs.Format.Causes.{IsBadStory};

use crate::fault::{ScriptCause, ScriptFault, fault_after};
use crate::line::next_line;
use crate::rest::Rest;
use crate::text::{StoryText, plain_text};
use wire_story::is_text;

/// Splits a story after its first line. Returns that line and the rest, or `None` as the rest if
/// the story has only one line.
fn first_line(story: &[u8]) -> (&[u8], Option<&[u8]>)
    ensures more { IfSome result.1 (λ rest. NextLine story.now result.0.now rest.now) }
    ensures shorter { IfSome result.1 (λ rest. length result.0.now + length rest.now < length story.now) }
    ensures nonempty { IfSome result.1 (λ rest. 0 < length rest.now) }
    ensures last { IfNone result.1
        (NextLine story.now result.0.now [] ⊎ (Lacks lf story.now × (result.0.now ≡ story.now))) }
{
    match next_line(story) {
        Some((line, after)) => {
            if after.is_empty() {
                (line, None)
            } else {
                (line, Some(after))
            }
        }
        None => (story, None),
    }
}

/// Returns the text of a story, or its first error with the number of the line. Checks one line
/// after another.
fn text_by_lines<'a>(story: Rest<'a>) -> Result<StoryText<'a>, ScriptFault>
    ensures text { IfOk result (λ text. IsPackedTextOf story.entry.octets.now text.octets.now text.packed_len) }
    ensures fault { IfErr result (λ fault. IsBadStory story.entry.octets.now story.entry.lines fault.line) }
    ensures cause { IfErr result (λ fault. fault.cause ≡ ScriptCause.BadTextOctet) }
{
    let mut rest = story;
    let mut packed_len = 0;
    loop {
        let (line, after) = first_line(rest.octets);
        if !is_text(line) {
            return Err(fault_after(rest.lines, ScriptCause::BadTextOctet));
        }
        let Some(octets) = after else {
            let end = story.octets.len() - rest.octets.len() + line.len();
            return Ok(StoryText {
                octets: &story.octets[..end],
                packed_len: packed_len + line.len() as u64,
            });
        };
        packed_len += line.len() as u64 + 2;
        rest = Rest {
            octets,
            lines: rest.lines + 1,
        };
    }
}

/// Returns the text of a story, or its first error. The line of the error is counted from the start
/// of the script.
pub(crate) fn read_story<'a>(story: Rest<'a>) -> Result<StoryText<'a>, ScriptFault>
    ensures text { IfOk result (λ text. IsPackedTextOf story.entry.octets.now text.octets.now text.packed_len) }
    ensures fault { IfErr result (λ fault. IsBadStory story.entry.octets.now story.entry.lines fault.line) }
    ensures cause { IfErr result (λ fault. fault.cause ≡ ScriptCause.BadTextOctet) }
{
    match plain_text(story.octets) {
        Some(text) => Ok(text),
        None => text_by_lines(story),
    }
}
