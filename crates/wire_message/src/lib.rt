//! Messages of IPTC 7901, in the profile of this project: reads and writes their header, text and
//! trailer.
//!
//! Depends on `wire_story` for the text, on `arrayvec` for parts of fixed capacity, and on
//! `iim_dataset`, whose definitions it uses. The crates above read an object with
//! [`MessageReader`], which accepts any split into chunks. The octets consumed are a prefix of a
//! message with this header and trailer, and the sink receives exactly the text that is delivered
//! for them. A fault is reported at the first octet with which they are no longer a viable prefix
//! of a message, or their text is no longer a viable prefix of a story, or at which the sink
//! stopped.
#![tactic(auto)]

mod class;
mod ends;
mod fault;
mod field;
mod head;
pub mod laws;
mod lengthen;
mod lengths;
mod next;
mod part;
mod piece;
mod place;
mod reader;
mod restore;
mod save;
mod saved;
mod span;
mod step;
mod tail;
mod text;
mod whole;
mod writing;

pub use fault::{MessageCause, MessageFault};
pub use head::MessageHead;
pub use reader::MessageReader;
pub use saved::{MessagePart, MessagePlace};
pub use writing::{head_text, is_trailer, tail_text};
