//! Runs commands on more than one file.
//!
//! [`file::run_next`] runs a job on one of several files, and [`names::Names`] reads a list of file
//! names. [`prefixed::Prefixed`] is a target that begins each line with a prefix.
//!
//! Depends on `iim_commands`, whose `run` it calls for each file, and on the crates below. The
//! program `iimwire` depends on this crate, and opens the files.
#![tactic(auto)]

pub mod file;
pub mod names;
pub mod prefixed;
