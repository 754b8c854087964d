//! The round trip: unpacking returns what was packed.
//!
//! Depends on `iim_pack` and `iim_unpack`, and on `iim_tables`, `iim_dataset`, `iim_fields`,
//! `iim_object`, `wire_story` and `wire_message` for their types, sinks and definitions. No library
//! depends on this crate.
#![tactic(auto)]

pub mod laws;
mod unpacking;

pub use unpacking::{Story, UnpackFault, unpack_packed, unpack_story};
