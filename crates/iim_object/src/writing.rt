//! The writer of an object, which divides the object into subfiles as octets are received, and its
//! errors.

pub(crate) mod buffer;
pub(crate) mod cause;
pub(crate) mod cutter;
pub(crate) mod output;
pub(crate) mod writer;
