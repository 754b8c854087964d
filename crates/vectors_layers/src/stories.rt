//! Questions about stories: texts that are read in all splits into chunks, with their lines and
//! words.

use crate::answers::Answers;
use crate::octets::{Names, Words};
use crate::readings::{Class, Cut, Digits, Reading, tell_class, tell_reading};
use iim_dataset::FromWrite;
use std::alloc::Global;
use wire_story::{
    Discard, LINE_END, LineWriter, Lines, StorySink, TextFault, TextReader, WordCount, is_text,
    text_len,
};

/// Reads a text in these chunks. Returns the octet that is rejected and the cause, or `None`. If
/// one is rejected, the reader must have failed.
fn read_text<S: StorySink>(
    reader: &mut TextReader,
    octets: &[u8],
    cut: Cut,
    sink: &mut S,
) -> Option<TextFault> {
    for number in 0..Cut::most_pieces(octets) {
        let Some((before, piece)) = cut.piece(octets, number) else {
            break;
        };
        if reader.is_failed() {
            break;
        }
        if let Err(fault) = reader.run(piece, sink) {
            let taken = before.saturating_add(fault.taken);
            return Some(TextFault { taken, ..fault });
        }
    }
    if reader.is_failed() {
        return None;
    }
    match reader.close() {
        Ok(()) => None,
        Err(fault) => {
            let taken = octets.len().saturating_add(fault.taken);
            Some(TextFault { taken, ..fault })
        }
    }
}

/// Prints which octet is rejected, and the cause.
fn tell_fault(answers: &mut Answers, fault: TextFault, reader: &TextReader) {
    answers.number("  refused at ", fault.taken as u64);
    answers.put(" ");
    answers.name(&fault.cause);
    answers.end();
    if !reader.is_failed() {
        answers.line("not failed");
    }
}

/// Prints the lines.
pub fn tell_lines(answers: &mut Answers, lines: &Lines) {
    for line in lines.iter() {
        answers.octets_line("  line ", line);
    }
}

/// A reading of a text into lines, which also prints the length of their packed form.
#[derive(Drop)]
struct InLines {
    alloc: Global,
}

impl Reading for InLines {
    fn read(&self, octets: &[u8], cut: Cut) -> Answers {
        let mut answers = Answers::new(self.alloc);
        let mut lines = Lines::new(self.alloc);
        let mut reader = TextReader::new();
        let fault = read_text(&mut reader, octets, cut, &mut lines);
        tell_lines(&mut answers, &lines);
        if let Some(fault) = fault {
            tell_fault(&mut answers, fault, &reader);
        }
        if let Some(len) = text_len(&lines) {
            answers.number_line("  packed ", len);
        }
        answers
    }
}

/// A reading of a text that is written to a target, with its lines joined by LF.
#[derive(Drop)]
struct Written {
    alloc: Global,
}

impl Reading for Written {
    fn read(&self, octets: &[u8], cut: Cut) -> Answers {
        let mut sink = LineWriter::new(FromWrite::new(Vec::new(self.alloc)));
        let mut reader = TextReader::new();
        let fault = read_text(&mut reader, octets, cut, &mut sink);
        let written = sink.into_writer().into_inner();
        let mut answers = Answers::new(self.alloc);
        answers.octets_line("  ", written.as_slice());
        if let Some(fault) = fault {
            tell_fault(&mut answers, fault, &reader);
        }
        answers
    }
}

/// A reading of a text whose words are counted.
#[derive(Drop)]
struct Counted {
    alloc: Global,
}

impl Reading for Counted {
    fn read(&self, octets: &[u8], cut: Cut) -> Answers {
        let mut count = WordCount::new();
        let mut answers = Answers::new(self.alloc);
        let mut reader = TextReader::new();
        if let Some(fault) = read_text(&mut reader, octets, cut, &mut count) {
            tell_fault(&mut answers, fault, &reader);
        }
        answers.number_line("  ", count.words());
        answers
    }
}

/// The octets that are allowed in a line.
#[derive(Drop)]
struct InLine;

impl Class for InLine {
    fn has(&self, number: u64) -> bool {
        match u8::try_from(number) {
            Ok(octet) => is_text(&[octet]),
            Err(_) => false,
        }
    }
}

/// The octets that form a text alone.
#[derive(Drop)]
struct AloneText;

impl Class for AloneText {
    fn has(&self, number: u64) -> bool {
        let Ok(octet) = u8::try_from(number) else {
            return false;
        };
        let mut reader = TextReader::new();
        read_text(&mut reader, &[octet], Cut::Whole, &mut Discard).is_none()
    }
}

/// The octets that form a text between two words.
#[derive(Drop)]
struct Between;

impl Class for Between {
    fn has(&self, number: u64) -> bool {
        let Ok(octet) = u8::try_from(number) else {
            return false;
        };
        let mut reader = TextReader::new();
        let mut count = WordCount::new();
        let text = [b'a', octet, b'b'];
        read_text(&mut reader, &text, Cut::Whole, &mut count).is_none() && count.words() == 2
    }
}

/// Prints the number of pending CR of a reader.
fn tell_reader(answers: &mut Answers, reader: &TextReader) {
    if reader.is_failed() {
        answers.line("no");
        return;
    }
    answers.number_line("  ", u64::from(reader.held()));
}

/// Prints the number of pending CR of a reader that is created with `held` of them, or `none` if
/// that is impossible.
fn tell_held(answers: &mut Answers, held: u8) {
    match TextReader::at(held) {
        None => answers.line("none"),
        Some(reader) => tell_reader(answers, &reader),
    }
}

/// Prints the octets of a line end.
fn tell_line_end(answers: &mut Answers) {
    answers.octets_line("  ", &LINE_END);
}

/// Replies to a question about texts. Returns `false` if `word` is not the name of such a question.
pub(crate) fn answer(
    answers: &mut Answers,
    alloc: Global,
    names: &Names,
    word: &str,
    words: &mut Words,
) -> bool {
    match word {
        "text" => tell_reading(answers, &InLines { alloc }, words.octets(names).as_slice()),
        "write_text" => tell_reading(answers, &Written { alloc }, words.octets(names).as_slice()),
        "words" => tell_reading(answers, &Counted { alloc }, words.octets(names).as_slice()),
        "is_text" => answers.truth(is_text(words.octets(names).as_slice())),
        "line_octets" => tell_class(answers, &InLine, 255, Digits::Octets),
        "text_octets" => tell_class(answers, &AloneText, 255, Digits::Octets),
        "spaces" => tell_class(answers, &Between, 255, Digits::Octets),
        "held" => tell_held(answers, words.octet()),
        "line_end" => tell_line_end(answers),
        _ => return false,
    }
    true
}
