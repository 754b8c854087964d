//! The example envelopes of the format, octet by octet, and their parts, for tests and for new
//! users of the libraries.
//!
//! `docs/reference/format.md` describes the smallest envelope octet by octet. The files
//! `samples/smallest.iim` and `samples/story.iim` contain the two envelopes.
#![tactic(auto)]

mod least;
mod rates;
mod stream;

pub use least::{SMALLEST, SMALLEST_FRONT, SMALLEST_OBJECT};
pub use rates::{
    FIRST_LINE, LAST_LINE, STORY, STORY_CONFIRMED, STORY_FIELDS, STORY_FRONT, STORY_OBJECT,
    STORY_REST,
};
pub use stream::STREAM;
