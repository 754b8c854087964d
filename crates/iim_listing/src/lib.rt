//! The commands `check`, `show` and `story`.
//!
//! [`list::list`] writes a text for each envelope of an input, up to the first refusal, and
//! [`story::write_stories`] writes the story of each envelope. Both call [`coming::next_item`] to
//! read an [`input::Input`], which can be read only after all earlier output is written.
//!
//! Depends on `iim_unpack`, on `iim_output` for writers, on `iim_script` for escaped values, and on
//! the crates below these. `iim_commands` depends on this crate.
#![tactic(auto)]

pub mod check;
pub mod coming;
pub mod input;
pub mod laws;
pub mod list;
pub mod show;
pub mod story;
mod story_writer;
