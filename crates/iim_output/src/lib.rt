//! Output of the commands: lines, buffered output, errors and exit statuses.
//!
//! [`block_writer::BlockWriter`] buffers octets up to a block, and [`flush_sink::FlushSink`] is a
//! sink that can be flushed. [`lines`] has the lines that all commands print,
//! [`fault::CommandFault`] has the errors of a command, and [`limits::LIMITS`] are the limits on an
//! envelope.
//!
//! Depends on `iim_places` for refusals, on `iim_script` for escaped text, and on the crates below
//! these, but on no unpacker. The crates `iim_listing`, `iim_pack_script` and `iim_commands` depend
//! on this crate.
#![tactic(auto)]

pub mod block_writer;
pub mod fault;
pub mod flush_sink;
pub mod limits;
pub mod lines;
pub mod null_sink;
mod pending;
pub mod status;
