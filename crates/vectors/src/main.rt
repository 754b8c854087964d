//! Replies to questions about octets, one in each line. A test case is a line of text here, and
//! needs no proof.
//!
//! An empty line, and a line that begins with `#`, is printed unchanged. Any other line is a
//! question: a word and its arguments. The question is printed, followed by the reply, whose lines
//! are indented by two spaces. `docs/VECTORS.md` lists the words. The questions are in the file
//! `stdin`; the file `stdout` has the questions and the expected replies, which follow from the
//! format.
#![tactic(auto)]

mod auditing;
mod calls;
mod causes;
mod cuts;
mod intakes;
mod lines;
mod packing;
mod pieces;
mod plans;
mod records;
mod scripts;
mod streams;
mod tickets;
mod unpacking;
mod values;
mod views;
mod writers;

use intakes::print_envelopes;
use packing::Packing;
use pieces::print_pieces;
use records::Envelopes;
use std::alloc::Global;
use std::io::{self, BufRead, BufReader, Write};
use streams::print_stream;
use unpacking::Bench;
use vectors_layers::{Answers, Names, Words};

/// The results of earlier questions.
#[derive(Drop)]
struct Vectors {
    alloc: Global,
    names: Names,
    bench: Bench,
    packing: Packing,
    records: Envelopes,
}

impl Vectors {
    /// Creates the value without results. Returns `None` if an allocation failed.
    fn new(alloc: Global) -> Option<Vectors> {
        Some(Vectors {
            alloc,
            names: Names::new(alloc),
            bench: Bench::new(alloc)?,
            packing: Packing::new(alloc),
            records: Envelopes::new(alloc),
        })
    }

    /// Replies to a question with this word. Returns `false` if there is no such word.
    fn answer_word(&mut self, answers: &mut Answers, word: &str, words: &mut Words) -> bool {
        if matches!(word, "let") {
            self.names.name(words);
            return true;
        }
        let names = &self.names;
        answer_alone(answers, self.alloc, names, word, words)
            || self.records.answer(answers, names, word, words)
            || self.bench.answer(answers, names, word, words)
            || self.packing.answer(answers, names, word, words)
    }

    /// Replies to a question.
    fn answer(&mut self, answers: &mut Answers, question: &[u8]) {
        let mut words = Words::new(question);
        let word = words.text();
        if !self.answer_word(answers, word, &mut words) {
            answers.fail("no such word");
        }
        if !words.are_right() {
            answers.fail("an argument is missing, has not its form, or is one too many");
        }
    }
}

/// Replies to a question about streams. Returns `false` if `word` is not the name of such a
/// question.
fn answer_streams(
    out: &mut Answers,
    alloc: Global,
    names: &Names,
    word: &str,
    words: &mut Words,
) -> bool {
    match word {
        "stream" => print_stream(out, alloc, names, words),
        "pieces" => print_pieces(out, alloc, names, words),
        "intake" => print_envelopes(out, alloc, names, words),
        _ => return false,
    }
    true
}

/// Replies to a question that needs only named octets. Returns `false` if `word` is not the name of
/// such a question.
fn answer_alone(
    answers: &mut Answers,
    alloc: Global,
    names: &Names,
    word: &str,
    words: &mut Words,
) -> bool {
    vectors_layers::answer(answers, alloc, names, word, words)
        || answer_streams(answers, alloc, names, word, words)
        || auditing::answer(answers, alloc, names, word, words)
}

/// Prints the reply to a question. Returns an error if the reply has an error.
fn print_answers(rt: &impl Print, vectors: &mut Vectors, question: &[u8]) -> io::Result<()> {
    let mut answers = Answers::new(vectors.alloc);
    vectors.answer(&mut answers, question);
    io::writer(rt).write_all(answers.text())?;
    match answers.fault() {
        Some(fault) => Err(io::Error::other(fault)),
        None => Ok(()),
    }
}

/// Prints a line. If the line is a question, prints the reply.
fn pass(rt: &impl Print, vectors: &mut Vectors, line: &str) -> io::Result<()> {
    rt.println(line)?;
    let question = line.as_bytes();
    if question.is_empty() || question.starts_with(b"#") {
        return Ok(());
    }
    print_answers(rt, vectors, question)
}

/// Prints each line of the input, with the replies to questions.
fn pass_lines(rt: &(impl Input + Print), alloc: Global, vectors: &mut Vectors) -> io::Result<()> {
    for line in BufReader::new(alloc, rt.reader())?.lines(alloc) {
        pass(rt, vectors, line?.as_str())?;
    }
    Ok(())
}

fn main(rt: HostRuntime) -> io::Result<()> {
    let alloc = rt.alloc();
    match Vectors::new(alloc) {
        Some(mut vectors) => pass_lines(&rt, alloc, &mut vectors),
        None => Err(io::Error::other("memory was refused")),
    }
}
