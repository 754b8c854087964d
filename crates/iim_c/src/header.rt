//! Looks up the header and the trailer of a message in a ticket.

ghost use Rattle.std.specs.Prelude.{◌≡◌, ◌-◌, length};
ghost use Rattle.iim_places.specs.Format.TicketForm.{HasContents};
ghost use Rattle.iim_places.specs.States.Restored.{contents_from};
ghost use Rattle.iim_c.specs.Format.Tickets.{ReturnsHeader, IsMessageOf};

use crate::answer::{IimAnswer, status_answer, ticket_answer};
use crate::span::{IimSpan, NO_SPAN};
use crate::status::DONE;
use iim_unpack::{TicketParts, split_ticket};

/// The header and the trailer of a message, as far as they were received.
#[repr(C)]
#[derive(Clone, Copy)]
pub struct IimMessage {
    /// The number of the part that the input has reached.
    pub part: u8,
    /// The source.
    pub source: IimSpan,
    /// The number.
    pub number: IimSpan,
    /// The priority.
    pub priority: IimSpan,
    /// The category.
    pub category: IimSpan,
    /// The announced number of words.
    pub words: IimSpan,
    /// The info.
    pub info: IimSpan,
    /// The trailer.
    pub trailer: IimSpan,
}

/// The value in which all fields are 0.
const NO_MESSAGE: IimMessage = IimMessage {
    part: 0,
    source: NO_SPAN,
    number: NO_SPAN,
    priority: NO_SPAN,
    category: NO_SPAN,
    words: NO_SPAN,
    info: NO_SPAN,
    trailer: NO_SPAN,
};

/// Returns the slice of a ticket that holds `text` and ends just before the offset `end`. The
/// offset of the slice is 0 if the ticket is too short.
fn span_before(end: usize, text: &[u8]) -> IimSpan
    ensures { result ≡ record { offset = end - length text.now; count = length text.now } }
{
    IimSpan {
        offset: end.saturating_sub(text.len()),
        count: text.len(),
    }
}

/// Returns the slice of a ticket that holds `text`. The text is followed by the length of the next
/// text, in one octet.
fn text_before(next: IimSpan, text: &[u8]) -> IimSpan
    ensures { result ≡ record { offset = next.offset - 1 - length text.now; count = length text.now } }
{
    span_before(next.offset.saturating_sub(1), text)
}

/// Returns the header and the trailer in a ticket that was split into these parts. They are at the
/// end of the ticket, each text after its length in one octet.
fn message_in(ticket: &[u8], parts: &TicketParts<'_>) -> IimMessage
    requires { HasContents ticket.now (contents_from parts.now) }
    ensures { IsMessageOf ticket.now (contents_from parts.now) result }
{
    let [source, number, priority, category, words, info, trailer] = parts.texts;
    let trailer = span_before(ticket.len(), trailer);
    let info = text_before(trailer, info);
    let words = text_before(info, words);
    let category = text_before(words, category);
    let priority = text_before(category, priority);
    let number = text_before(priority, number);
    let source = text_before(number, source);
    IimMessage {
        part: parts.part,
        source,
        number,
        priority,
        category,
        words,
        info,
        trailer,
    }
}

/// Looks up the header and the trailer of the message, as far as they were received.
pub fn iim_header(ticket: &[u8], message: &mut IimMessage, answer: &mut IimAnswer)
    ensures { ReturnsHeader ticket.now message.new answer.new }
{
    let (found, told) = match split_ticket(ticket) {
        Ok(parts) => (message_in(ticket, &parts), status_answer(DONE)),
        Err(fault) => (NO_MESSAGE, ticket_answer(fault)),
    };
    *message = found;
    *answer = told;
}
