//! Example callers of the libraries that no program in `examples` uses. Each library has one module
//! here, which the library's page `CALLING.md` shows.
//!
//! The caller with a type of `jiff` is in a private module, because a crate with such a type in its
//! public items must load all of `jiff` when it is proved.
#![tactic(auto)]

mod audits;
pub mod devices;
pub mod messages;
pub mod objects;
pub mod packing;
pub mod places;
pub mod round_trips;
pub mod stories;
pub mod tables;
