//! Parses and prints scripts. A script is a text from which an envelope is packed. Its lines
//! specify the datasets, the header of the message, its trailer and the story.
//!
//! Depends on `iim_fields`, `wire_message` and `wire_story`, which check the values in the lines.
//! The crates above use [`read_script`], which returns the contents of a script, or its first error
//! with the number of the line. They print the lines of a script with [`push_fields`],
//! [`push_message`] and [`push_trailer`], which use [`push_decimal`], [`push_display`] and
//! [`write_word`].
#![tactic(auto)]

mod fault;
mod field;
pub mod laws;
mod line;
mod lines;
mod message;
mod number;
mod places;
mod plain;
mod printer;
mod reading;
mod rest;
mod script;
mod shown;
mod story;
mod text;

pub use fault::{ScriptCause, ScriptFault};
pub use lines::split_text;
pub use printer::{
    push_decimal, push_display, push_fields, push_message, push_trailer, write_word,
};
pub use reading::{MAX_SCRIPT, read_script};
pub use script::Script;
