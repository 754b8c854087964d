//! Replies to questions about the layers below the unpacker: tables, datasets, objects, stories and
//! messages.
//!
//! Depends on `wire_message`, `wire_story`, `iim_object`, `iim_tables`, `iim_dataset` and
//! `arrayvec`. `docs/VECTORS.md` defines the form of questions and replies. The program `vectors`
//! uses this crate to parse its own questions and to write its own replies.
#![tactic(auto)]

mod answers;
mod datasets;
mod messages;
mod objects;
mod octets;
mod readings;
mod stories;
mod tables;

pub use answers::Answers;
pub use messages::tell_header;
pub use objects::print_sizes;
pub use octets::{MOST_ARGUMENTS, Names, Words, number_of};
use std::alloc::Global;
pub use stories::tell_lines;

/// Replies to a question about the layers below the unpacker. Returns `false` if `word` is not the
/// name of such a question.
pub fn answer(
    answers: &mut Answers,
    alloc: Global,
    names: &Names,
    word: &str,
    words: &mut Words,
) -> bool {
    tables::answer(answers, alloc, names, word, words)
        || datasets::answer(answers, alloc, names, word, words)
        || objects::answer(answers, alloc, names, word, words)
        || stories::answer(answers, alloc, names, word, words)
        || messages::answer(answers, alloc, names, word, words)
}
