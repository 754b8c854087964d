//! Parses envelopes of the Information Interchange Model.
//!
//! Depends on the readers of the layers, `iim_dataset`, `iim_fields`, `iim_object`, `wire_message`
//! and `wire_story`, and on `iim_places`, which defines the format, and whose types and lemmas are
//! re-exported here. The crates above use:
//!
//! - [`Unpacker::feed`], which parses a stream in chunks of any size. It finishes exactly at the
//!   end of the envelope at the start of the stream, or reports the octet, layer, dataset and cause
//!   of a refusal;
//! - [`Unpacker::save`] and [`Unpacker::restore`], to stop and continue later;
//! - [`Intake`], which reads one envelope after another from a source;
//! - the lemmas that a stream has one result (`streams_have_one_result`), and that inputs that
//!   reach the same position have the same continuations (`places_determine_continuations`).
#![tactic(auto)]

mod intake;
pub mod laws;
mod parts;
mod pieces;
mod ticket;
mod unpacker;

pub use iim_places::{
    Cause, Layer, MAX_ENVELOPES, Refusal, TicketFault, TicketFields, TicketParts, TicketPhase,
    split_ticket,
};
pub use intake::{Fed, Intake, IntakeFault};
pub use pieces::unpack_pieces;
pub use ticket::spelling::SaveFault;
pub use unpacker::{Progress, Unpacked, UnpackedRef, Unpacker};
