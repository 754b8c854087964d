//! Parses the lines that specify the header and the trailer of the message.

ghost use Rattle.std.specs.Prelude.{ℕ, List, [], IfOk, IfSome, IfNone};
ghost use Rattle.wire_message.specs.Format.Messages.{Header, header_of};
ghost use Rattle.iim_script.specs.Format.Scripts.{AreFieldsOf, DescribesHead, DescribesTrailer};

use crate::line::{after, index_of_first, split_on};
use crate::shown::read_last;
use std::alloc::{AllocError, Global};
use wire_message::MessageHead;

/// The beginning of the header's line.
const MESSAGE: &[u8] = b"message ";

/// The beginning of the trailer's line.
const TRAILER: &[u8] = b"trailer";

/// The fields of a header's line after `message`, and the rest of the line.
#[derive(Clone, Copy)]
struct Words<'a> {
    source: &'a [u8],
    number: &'a [u8],
    priority: &'a [u8],
    category: &'a [u8],
    words: &'a [u8],
    end: &'a [u8],
}

/// Splits the line at each SP into five fields and the rest. Returns `None` if there are fewer than
/// five.
fn split_fields(octets: &[u8]) -> Option<Words<'_>>
    ensures some { IfSome result (λ w.
        AreFieldsOf octets.now (header_of w.source.now w.number.now w.priority.now w.category.now w.words.now [])
        w.end.now) }
    ensures none { IfNone result ((head : Header) (end : List ℕ) → AreFieldsOf octets.now head end → ⊥) }
{
    let Some((source, after_source)) = split_on(octets, b' ') else {
        return None;
    };
    let Some((number, after_number)) = split_on(after_source, b' ') else {
        return None;
    };
    let Some((priority, after_priority)) = split_on(after_number, b' ') else {
        return None;
    };
    let Some((category, rest)) = split_on(after_priority, b' ') else {
        return None;
    };
    let end = index_of_first(rest, b' ');
    Some(Words {
        source,
        number,
        priority,
        category,
        words: &rest[..end],
        end: &rest[end..],
    })
}

/// Parses the header that a line specifies. Returns `None` if the line does not specify a valid
/// header.
pub(crate) fn read_head_line(alloc: Global, line: &[u8]) -> Result<Option<MessageHead>, AllocError>
    ensures some { IfOk result (λ told. IfSome told (λ head. DescribesHead line.now head)) }
    ensures none { IfOk result (λ told. IfNone told ((head : Header) → DescribesHead line.now head → ⊥)) }
{
    let Some(rest) = after(line, MESSAGE) else {
        return Ok(None);
    };
    let Some(words) = split_fields(rest) else {
        return Ok(None);
    };
    match read_last(alloc, words.end) {
        Ok(Some(info)) => Ok(MessageHead::new(
            words.source,
            words.number,
            words.priority,
            words.category,
            words.words,
            info.as_slice(),
        )),
        Ok(None) => Ok(None),
        Err(error) => Err(error),
    }
}

/// Parses the trailer that a line specifies. Returns `None` if the line has another form.
pub(crate) fn read_trailer_line(alloc: Global, line: &[u8]) -> Result<Option<Vec<u8>>, AllocError>
    ensures some { IfOk result (λ told. IfSome told (λ octets. DescribesTrailer line.now octets.items)) }
    ensures none { IfOk result (λ told. IfNone told ((octets : List ℕ) → DescribesTrailer line.now octets → ⊥)) }
{
    match after(line, TRAILER) {
        Some(end) => read_last(alloc, end),
        None => Ok(None),
    }
}
