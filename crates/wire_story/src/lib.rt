//! The text of a story, in the profile of this project: its lines, its line ends, and the sinks
//! that receive them.
//!
//! Depends on `iim_dataset`. The crates above read a text with [`TextReader`], which accepts any
//! split into slices. The sink receives exactly the text that is delivered for the octets so far. A
//! fault is reported at the first octet with which they are no longer a viable prefix of a text, or
//! at which the sink stopped.
#![tactic(auto)]

mod discard;
mod fault;
pub mod laws;
mod line;
mod line_iter;
mod lines;
mod marks;
mod piece;
mod reader;
mod sink;
mod size;
mod word_count;
mod writer;

pub use discard::Discard;
pub use fault::{TextCause, TextFault};
pub use line::{LINE_END, is_text};
pub use line_iter::LineIter;
pub use lines::Lines;
pub use reader::TextReader;
pub use sink::StorySink;
pub use size::text_len;
pub use word_count::WordCount;
pub use writer::LineWriter;
