//! The octets of a message before and after its text, in the form that a packer writes.

ghost use Rattle.std.specs.Prelude.{◌≡◌, ◌↔◌, ◌+◌, ◌≤◌, ◌∷◌, ◌++◌, length, IsTrue, IsSome, IfSome};
ghost use Rattle.arrayvec.specs.ArrayVec.{array_vec_len};
ghost use Rattle.wire_message.specs.Format.Messages.{IsHeader, IsTrailer, packed_head, packed_info, packed_tail};

use crate::class::Class;
use crate::field::{append, append_part, is_field};
use crate::head::MessageHead;
use crate::lengths::MAX_TRAILER;
use arrayvec::ArrayVec;
use iim_dataset::octets::{CR, EOT, ETX, LF, SOH, STX};

/// Appends SP and the info, or nothing if the info is empty.
fn append_info(out: &mut ArrayVec<u8, 128>, info: &[u8])
    requires { array_vec_len out.old + 1 + length info.now ≤ 128 }
    ensures items { out.new.items ≡ out.old.items ++ packed_info info.now }
    ensures len { array_vec_len out.new ≤ array_vec_len out.old + 1 + length info.now }
{
    if !info.is_empty() {
        append_part(out, info);
    }
}

/// Returns the octets of a message from SOH to STX, with the gap CR LF and no filler.
pub fn head_text(head: &MessageHead) -> ArrayVec<u8, 128>
    ensures octets { result.items ≡ packed_head head.now }
    ensures header { IsHeader head.now }
{
    let mut out = ArrayVec::new();
    append(&mut out, &[SOH]);
    append(&mut out, head.source());
    append(&mut out, head.number());
    append_part(&mut out, head.priority());
    append_part(&mut out, head.category());
    append_part(&mut out, head.words());
    append_info(&mut out, head.info());
    append(&mut out, &[CR, LF, STX]);
    out
}

/// Checks whether the octets are a valid trailer.
pub fn is_trailer(octets: &[u8]) -> bool
    ensures { IsTrue result ↔ IsTrailer octets.now }
{
    is_field(Class::Trailer, 0, MAX_TRAILER, octets)
}

/// Returns the octets of a message from ETX to EOT, or `None` if the trailer is invalid.
pub fn tail_text(trailer: &[u8]) -> Option<ArrayVec<u8, 66>>
    ensures admitted { IsSome result ↔ IsTrailer trailer.now }
    ensures octets { IfSome result (λ tail. tail.items ≡ packed_tail trailer.now) }
{
    if !is_trailer(trailer) {
        return None;
    }
    let mut out = ArrayVec::new();
    append(&mut out, &[ETX]);
    append(&mut out, trailer);
    append(&mut out, &[EOT]);
    Some(out)
}
