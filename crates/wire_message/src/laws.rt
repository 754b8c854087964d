//! Lemmas about messages, and about the states of a reader of messages. The functions do nothing:
//! their contracts are the lemmas.

ghost use Rattle.wire_message.specs.Laws.{MessageLaws, ReadersConsumeViableOctets, MessageStatesAreReached, SavedStatesAreDistinct};

use wire_story::laws::story_laws;

/// Proves the lemmas about messages, about what a reader returns for them, and about the states
/// that octets reach. The record has a field for each lemma.
pub fn message_laws()
    ensures { MessageLaws }
{
    story_laws();
    readers_consume_viable_octets();
}

/// Proves that the octets that a reader has consumed are a viable prefix of a message, and that the
/// text in them is a viable prefix of a story.
#[tactic(auto, using(crate::proofs::Alike::stand_alive))]
pub fn readers_consume_viable_octets()
    ensures { ReadersConsumeViableOctets }
{
    story_laws();
}

/// Proves that the states that satisfy the invariant of the reader are exactly the states that some
/// octets reach.
#[tactic(auto, using(crate::proofs::Reached::reached))]
pub fn message_states_are_reached()
    ensures { MessageStatesAreReached }
{}

/// Proves that two states with the same saved form are equal.
#[tactic(auto, using(crate::proofs::Saving::saved_apart))]
pub fn saved_states_are_distinct()
    ensures { SavedStatesAreDistinct }
{}
