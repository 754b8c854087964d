//! The implementation behind the C API: structs, results and functions over the caller's octets
//! and buffers.
//!
//! Depends on the unpacker, the packer, scripts, audits and tables. The contract of each function
//! restates the contract of the library function that it calls. The state between two calls is a
//! ticket, in a buffer of the caller: no function has state of its own. `iim_exports` exports the
//! functions to C.
//!
//! [`IimAnswer`] is the result of a call. [`iim_check`] checks an envelope in memory, [`iim_feed`]
//! reads a chunk of an envelope, and [`iim_end`] checks whether the input may end. [`iim_fields`],
//! [`iim_field`], [`iim_header`] and [`iim_sizes`] look up the values in a ticket, and
//! [`iim_place`] decodes what is in progress. [`iim_next`] returns the octets that are accepted
//! next. [`iim_audit`] writes the same rows as [`iim_audit::PieceAudit`], for every split into
//! chunks. [`iim_pack`] packs a script, [`iim_row`] looks up a dataset in the tables, and
//! [`iim_cause_text`] writes the meaning of a cause.
#![tactic(auto)]

mod answer;
mod audit;
mod begin;
mod begun;
mod bytes;
mod causes;
mod check;
mod dataset_names;
mod end;
mod error_text;
mod feed;
mod field;
mod fields;
mod finding;
mod header;
mod instant;
pub mod internals;
mod limits;
mod names;
mod next;
mod pack;
mod packing;
mod row;
mod rule;
mod sizes;
mod so_far;
mod span;
pub mod status;
mod text_out;
mod version;

pub use answer::IimAnswer;
pub use audit::iim_audit;
pub use begun::{IimBegun, iim_place};
pub use causes::{iim_cause_name, iim_cause_text};
pub use check::iim_check;
pub use dataset_names::iim_dataset_name;
pub use end::iim_end;
pub use error_text::iim_error_text;
pub use feed::iim_feed;
pub use field::{IimDataset, iim_field};
pub use fields::iim_fields;
pub use header::{IimMessage, iim_header};
pub use instant::IimInstant;
pub use limits::IimLimits;
pub use names::iim_layer_name;
pub use next::{IimOctetSet, iim_next};
pub use pack::{iim_pack, iim_pack_size};
pub use packing::IimPacking;
pub use row::IimAuditRow;
pub use rule::{IimRule, iim_admits, iim_row};
pub use sizes::{IimObject, iim_sizes};
pub use so_far::IimSoFar;
pub use span::IimSpan;
pub use version::{VERSION, iim_version};
