//! The sizes of an object and its subfiles (records 7 to 9 of the Information Interchange Model,
//! version 4).
//!
//! Depends on `iim_tables` and `iim_dataset`. The crate above uses [`ObjectReader`], which accepts
//! a token, or returns the first cause for which the tokens are no longer a viable prefix.
#![tactic(auto)]

pub mod laws;
mod plan;
mod reading;
mod sink;
mod size;
mod writing;

pub use plan::{MAX_SUBFILES, Plan};
pub use reading::fault::{ObjectFault, SizeCause};
pub use reading::reader::ObjectReader;
pub use sink::ObjectSink;
pub use size::{Size, Sizes};
pub use writing::buffer::SubfileBuffer;
pub use writing::cause::{PackCause, StartFault};
pub use writing::writer::SubfileWriter;
