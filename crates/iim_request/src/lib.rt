//! Parses the arguments of a command line.
//!
//! [`request::parse`] returns a request: a file, and the job to run on it. [`commands::command`]
//! declares the command line to `clap`, and [`shown::push_name`] escapes an argument for printing.
//! This crate does no input or output.
//!
//! Depends on `iim_dataset` and `iim_object` for the sizes that an option may have, and on `clap`
//! and `jiff`. `iim_commands` executes the requests.
#![tactic(auto)]

pub mod commands;
pub mod instant;
pub mod pack_request;
pub mod request;
pub mod shown;
