//! Packs envelopes of the Information Interchange Model.
//!
//! Depends on the crates of the layers, which do all the writing: `iim_dataset` writes fields and
//! tags, `wire_message` writes header and trailer, `wire_story` writes line ends, and `iim_object`
//! writes subfiles. The crates above use [`packed_size`], [`pack`] and [`Packer`]. Their output is
//! the packed form (`specs/Format/Packed.antt`).
//!
//! A call that is rejected changes nothing and writes nothing. The exception is
//! [`PackCause::Write`](iim_object::PackCause::Write): then a prefix of the packed form was
//! written, whose length `written` returns, and each later call is rejected.
#![tactic(auto)]

mod cause;
mod ending;
mod fields;
pub mod laws;
mod lines;
mod opening;
mod packer;
mod packing;
mod size;

pub use packer::Packer;
pub use packing::pack;
pub use size::packed_size;
