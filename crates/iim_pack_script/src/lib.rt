//! The command `pack`, which packs the envelope that a script specifies.
//!
//! [`script::read_script`] parses a script within the limits of the commands,
//! [`packing::pack_octets`] packs a script in memory, and [`packing::pack_script`] packs a script
//! from a source.
//!
//! Depends on `iim_pack` and `iim_script`, on `iim_output` for what it prints, on `iim_request` for
//! the requests, and on the crates below these, but on no unpacker. `iim_commands` and `iim_c`
//! depend on this crate.
#![tactic(auto)]

mod blocks;
pub mod packing;
pub mod script;
mod text;
