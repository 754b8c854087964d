//! The reader of an object: its state, its transitions, and its errors.

pub(crate) mod fault;
pub(crate) mod place;
pub(crate) mod reader;
pub(crate) mod state;
pub(crate) mod step;
