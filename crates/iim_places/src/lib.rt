//! Definitions of the format: valid, incomplete and rejected input, and positions in an envelope
//! with their encodings, the tickets.
//!
//! Depends on the layers `iim_dataset`, `iim_fields`, `iim_object`, `wire_message` and
//! `wire_story`, and contains no unpacker. It defines:
//!
//! - the result of a stream, which is unique (`streams_have_one_result`), and how the error of each
//!   layer is reported ([`Refusal`]);
//! - the position that octets reach, which is unique (`octets_have_one_place`) and determines all
//!   continuations (`places_determine_continuations`);
//! - the parts of a ticket ([`split_ticket`]);
//! - for the unpacker only, the readers of the layers at a position ([`internals`]).
//!
//! The proofs of the crates above may cite the lemmas of this crate.
#![tactic(auto)]

mod fault;
mod form;
pub mod internals;
pub mod laws;
mod listing;
mod refusal;
mod ticket;

pub use listing::MAX_ENVELOPES;
pub use refusal::{Cause, Layer, Refusal};
pub use ticket::fault::TicketFault;
pub use ticket::fields::TicketFields;
pub use ticket::split::{TicketParts, TicketPhase, split_ticket};
