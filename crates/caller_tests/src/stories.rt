//! An example caller of `wire_story`.

ghost use Rattle.std.specs.Prelude.{◌≡◌, ℕ, List, IfSome};
ghost use Rattle.wire_story.specs.Format.Texts.{IsText, words, capped};

use wire_story::laws::story_laws;
use wire_story::{TextReader, WordCount};

/// Returns the number of words in the lines of a text, or `None` if the octets are not a text.
pub fn count_words(text: &[u8]) -> Option<u64>
    ensures { IfSome result (λ count. (lines : List (List ℕ)) × IsText text.now lines
        × (count ≡ capped (words lines))) }
{
    story_laws();
    let mut count = WordCount::new();
    let mut reader = TextReader::new();
    let Ok(()) = reader.run(text, &mut count) else {
        return None;
    };
    let Ok(()) = reader.close() else {
        return None;
    };
    Some(count.words())
}
