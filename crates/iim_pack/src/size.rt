//! The size of a packed object.

ghost use Rattle.std.specs.Prelude.{◌≡◌, ◌≤◌, ◌↔◌, length, IsSome, IfSome};
ghost use Rattle.iim_dataset.specs.Format.Octets.{greatest_size};
ghost use Rattle.wire_message.specs.Format.Messages.{IsTrailer, canonical};

use crate::cause::LEAST_ENDING;
use iim_dataset::GREATEST_SIZE;
use wire_message::{MessageHead, head_text, is_trailer};
use wire_story::{Lines, text_len};

/// Returns the size in octets of the object that a header, lines and a trailer are packed into.
/// Returns `None` if the trailer is invalid, or if the size would exceed the greatest size of an
/// object.
pub fn packed_size(head: &MessageHead, lines: &Lines, trailer: &[u8]) -> Option<u64>
    ensures size { IfSome result (λ size. size ≡ length (canonical head.now lines.now.lines trailer.now)) }
    ensures exactly { IsSome result ↔ (IsTrailer trailer.now
        × (length (canonical head.now lines.now.lines trailer.now) ≤ greatest_size)) }
{
    if !is_trailer(trailer) {
        return None;
    }
    let text = text_len(lines)?;
    let front = head_text(head);
    let size = front.len() as u64 + text + trailer.len() as u64 + LEAST_ENDING;
    if size <= GREATEST_SIZE {
        Some(size)
    } else {
        None
    }
}
