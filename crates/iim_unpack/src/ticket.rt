//! Tickets: saves the position of an unpacker, and restores an unpacker from it.

pub(crate) mod fault;
pub(crate) mod out;
pub(crate) mod restore;
pub(crate) mod spelling;
