//! Lemmas about the text that is delivered.

ghost use Rattle.iim_listing.specs.Laws.{EnvelopesAreDeliveredAsLines};

use iim_dataset::laws::dataset_laws;
use wire_message::laws::message_laws;
use wire_story::laws::texts_are_delivered_as_lines;

/// Proves that the text delivered for an envelope consists of the lines of its story, joined by LF.
pub fn envelopes_are_delivered_as_lines()
    ensures { EnvelopesAreDeliveredAsLines }
{
    dataset_laws();
    message_laws();
    texts_are_delivered_as_lines();
}
