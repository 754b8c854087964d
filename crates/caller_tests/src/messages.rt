//! An example caller of `wire_message`.

ghost use Rattle.std.specs.Prelude.{◌≡◌, ◌↔◌, IsSome, IfSome};
ghost use Rattle.wire_message.specs.Format.Messages.{packed_head, Header, IsHeader};

use arrayvec::ArrayVec;
use wire_message::{MessageHead, head_text};

/// Returns the octets from SOH to STX of an urgent message, or `None` if the source or the number
/// is invalid.
pub fn urgent_head(source: &[u8], number: &[u8]) -> Option<ArrayVec<u8, 128>>
    ensures { IfSome result (λ octets. (head : Header) × IsHeader head × (head.source ≡ source.now)
        × (head.number ≡ number.now) × (octets.items ≡ packed_head head)) }
{
    // The arguments are source, number, priority, category, announced words and info.
    let head = MessageHead::new(source, number, b"1", b"ECO", b"0", b"")?;
    Some(head_text(&head))
}
