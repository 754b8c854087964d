//! The commands of `iimwire`. [`parse`] parses the arguments of a command line, [`run`] executes
//! the request, and [`read_script`] parses a script.
//!
//! Depends on the crates of the single commands, and re-exports their modules: `iim_request` parses
//! the arguments, `iim_listing` writes listings and stories, `iim_pack_script` packs, and
//! `iim_output` has the writers. The command `audit` is in this crate, on top of `iim_audit`. The
//! program `iimwire` depends on this crate, and provides arguments, files and streams.
#![tactic(auto)]

pub mod audit;
pub mod laws;
pub mod running;

pub use iim_listing::{check, coming, input, list, show, story};
pub use iim_output::{block_writer, fault, flush_sink, limits, lines, null_sink, status};
pub use iim_pack_script::script::read_script;
pub use iim_pack_script::{packing, script as scripts};
pub use iim_request::request::{Files, FilesRequest, Job, Request, UsageFault, parse, parse_files};
pub use iim_request::{commands, instant, pack_request, request as words, shown};
pub use iim_script::{Script, ScriptFault};
pub use running::run;
