//! Tickets: the encoding of a position, the parts of a ticket, and the readers at its position.

pub(crate) mod fault;
pub(crate) mod fields;
pub(crate) mod front;
pub(crate) mod object;
pub(crate) mod possible;
pub(crate) mod readers;
pub(crate) mod records;
pub(crate) mod split;
pub(crate) mod taker;
