//! The records of an envelope (IIM version 4). Each dataset is checked against its row in the
//! tables, and the datasets of records 1 and 2 are stored.
//!
//! Depends on `iim_tables`, `iim_dataset` and `arrayvec`, and on `jiff` for the day and the
//! instants of an envelope ([`instants`]). The crate above uses [`Fields`]. Its methods `begin`,
//! `bytes` and `close` accept one more dataset, or return the first fault of its head or value. Its
//! method `into_envelope` returns the stored datasets. [`RecordCheck`] is the record layer alone.
#![tactic(auto)]

mod builder;
mod check;
mod envelope;
mod envelope_ref;
mod fault;
mod fields;
mod id;
pub mod instants;
pub mod internals;
pub mod laws;
mod limits;
mod number_set;
mod order;
mod records;
mod store;
mod value;
mod walk;

pub use builder::EnvelopeBuilder;
pub use check::RecordCheck;
pub use envelope::Envelope;
pub use envelope_ref::EnvelopeRef;
pub use fault::{CopyFault, FieldCause, FieldFault};
pub use fields::Fields;
pub use id::EnvelopeId;
pub use limits::Limits;
pub use walk::{DataIter, FieldIter};
