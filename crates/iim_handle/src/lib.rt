//! An unpacker behind a handle for C: the `iim_unpacker` of `bindings/c/iim.h`.
//!
//! The handle is a variable of the caller with two fields, similar to the `z_stream` of zlib. It
//! owns an [`Unpacker`](iim_unpack::Unpacker) on the heap, or nothing. Each call takes the unpacker
//! out of the handle, uses it, and puts it back, so that the handle is closed while a call runs.
//! Only [`iim_unpacker_open`] and [`iim_unpacker_restore`] allocate memory.
//!
//! Depends on `iim_unpack`, and on `iim_c` for the answers and for the text buffer.
#![tactic(auto)]

mod data_of;
mod ending;
mod feeding;
mod handle;
mod opening;
mod owner;
mod parts;
mod reading;
mod saving;
mod status;
mod values;

pub use ending::{iim_unpacker_close, iim_unpacker_end};
pub use feeding::iim_unpacker_feed;
pub use handle::IimUnpacker;
pub use opening::{iim_unpacker_open, iim_unpacker_reset};
pub use owner::Owner;
pub use reading::{iim_unpacker_fields, iim_unpacker_header, iim_unpacker_sizes};
pub use saving::{iim_unpacker_restore, iim_unpacker_save};
pub use values::{iim_unpacker_count, iim_unpacker_field};
