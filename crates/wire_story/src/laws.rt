//! Lemmas about texts. The functions do nothing: their contracts are the lemmas.

ghost use Rattle.std.specs.Prelude.{◌≡◌};
ghost use Rattle.wire_story.specs.Format.Texts.{line_end};
ghost use Rattle.wire_story.specs.Laws.{LinesArePackedAsTheirEvents, TextsAreDeliveredAsLines, DeliveryOfChunksJoins, TextStatesAreReached, StoryLaws};

use crate::line::LINE_END;

/// Proves the lemmas about texts and their lines. The record has a field for each lemma.
pub fn story_laws()
    ensures { StoryLaws }
{}

/// Proves that the events delivered for a text are those of its lines.
#[tactic(auto, using(crate::proofs::Told::delivered_lines))]
pub fn texts_are_delivered_as_lines()
    ensures { TextsAreDeliveredAsLines }
{}

/// Proves that the events delivered for two chunks are the same as for their concatenation.
pub fn delivery_of_chunks_joins()
    ensures { DeliveryOfChunksJoins }
{}

/// Proves that a packer ends lines with CR LF.
pub fn line_ends_are_packed_as_return_and_feed()
    ensures { LINE_END ≡ line_end 1 }
{}

/// Proves that packing lines gives the same octets as packing their events.
#[tactic(auto, using(crate::proofs::PackedEvents::lines_packed))]
pub fn lines_are_packed_as_their_events()
    ensures { LinesArePackedAsTheirEvents }
{}

/// Proves that the states that satisfy the invariant of the reader are exactly the states that some
/// octets reach.
pub fn text_states_are_reached()
    ensures { TextStatesAreReached }
{}
