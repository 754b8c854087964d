//! Calls each function of the libraries that allocates, followed by calls that do not allocate, and
//! prints each result.
//!
//! A function whose allocation fails must report the failure, and leave its arguments unchanged.
//! The test then repeats the call, which must return the same result as without the failure.
//! `tests/command` runs this program once for each allocation, and makes that allocation fail.

mod auditing;
mod calls;
mod lines;
mod objects;
mod packing;
pub(crate) mod records;
pub(crate) mod scripts;
mod unpacking;

pub(crate) use calls::tell_all;
