//! Lemmas about envelopes, streams, positions and tickets.

ghost use Rattle.iim_places.specs.Laws.{LayerLemmas, PlaceLaws};

use iim_dataset::laws::dataset_laws;
use iim_fields::laws::record_laws;
use iim_object::laws::object_laws;
use wire_message::MessageReader;
use wire_message::laws::{message_laws, readers_consume_viable_octets, saved_states_are_distinct};
use wire_story::laws::story_laws;

/// Collects the lemmas of the lower crates in one record, which the functions here and the proofs
/// of the crates above use.
pub fn layer_lemmas()
    ensures { LayerLemmas }
{
    dataset_laws();
    record_laws();
    object_laws();
    story_laws();
    message_laws();
    readers_consume_viable_octets();
    saved_states_are_distinct();
}

/// Proves the lemmas about envelopes, streams, positions and tickets. The record has a field for
/// each.
pub fn place_laws()
    ensures { PlaceLaws }
{
    layer_lemmas();
    object_laws();
    story_laws();
    message_laws();
    let _start = MessageReader::new();
}
