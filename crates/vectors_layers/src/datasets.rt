//! Questions about datasets: tags that are encoded, and datasets that are read in all splits into
//! chunks.

ghost use Rattle.std.specs.Prelude.{◌≡◌, ◌≢◌, ⊤, Some};

use crate::answers::Answers;
use crate::octets::{Names, Words};
use crate::readings::{Class, Cut, Digits, Reading, tell_class, tell_reading};
use arrayvec::ArrayVec;
use iim_dataset::{
    DatasetPlace, DatasetSink, FaultCause, Head, HeadReader, Step, Stop, head_bytes,
};
use std::alloc::Global;

/// A sink that logs what it receives, and counts the slices of data.
#[derive(Drop)]
struct Record {
    answers: Answers,
    runs: u64,
    /// The number of datasets that are still expected, including the last one, or `None` if no
    /// dataset is the last one.
    left: Option<u64>,
    refused: bool,
}

/// Logs octets of data.
fn tell_data(answers: &mut Answers, data: &[u8]) {
    for octet in data {
        answers.put(" ");
        answers.digits(*octet);
    }
}

impl DatasetSink for Record {
    ghost goes = { λ a events b. ⊤ };

    ghost stops = { λ a events refused b. ⊤ };

    ghost stands = { λ a left. a.left ≢ Some 0 };

    ghost ends = { λ a. a.left ≡ Some 0 };

    ghost nothing = { λ a. tt };

    ghost joined = { λ a b c xs ys h k. tt };

    ghost ended = { λ a left ended stands. stands ended };

    ghost joined_stop = { λ a b c xs ys refused h k. tt };

    fn head(&mut self, head: Head) -> Result<(), Stop> {
        self.answers.dataset("  ", head.rec, head.set);
        self.answers.number(" of ", head.count);
        Ok(())
    }

    fn run(&mut self, run: &[u8]) -> Result<(), Stop> {
        self.runs = self.runs.saturating_add(1);
        tell_data(&mut self.answers, run);
        Ok(())
    }

    fn close(&mut self) -> Result<Step, Stop> {
        self.answers.put(" end\n");
        if let Some(left) = self.left {
            self.left = Some(left.saturating_sub(1));
        }
        match self.left {
            Some(0) => Ok(Step::Last),
            _ => Ok(Step::More),
        }
    }
}

impl Record {
    /// Ends the line, unless it has been ended.
    fn end_line(&mut self) {
        if self.answers.is_begun() {
            self.answers.end();
        }
    }

    /// Logs which octet is rejected, and the cause.
    fn refuse(&mut self, at: usize, cause: FaultCause) {
        self.refused = true;
        self.end_line();
        self.answers.number("  refused at ", at as u64);
        self.answers.put(" ");
        self.answers.name(&cause);
        self.answers.end();
    }

    /// Logs the number of octets consumed.
    fn use_up(&mut self, used: usize) {
        self.end_line();
        self.answers.number_line("  used ", used as u64);
    }
}

/// A reading of datasets. `last` is the number of datasets after which it ends, or `None`.
#[derive(Drop)]
struct Datasets {
    alloc: Global,
    last: Option<u64>,
}

/// Feeds the chunks, up to the end of the last dataset or to a rejected octet, and logs the number
/// of octets consumed.
fn feed_pieces(reader: &mut HeadReader, record: &mut Record, octets: &[u8], cut: Cut) {
    let mut used = 0;
    for number in 0..Cut::most_pieces(octets) {
        let Some((before, piece)) = cut.piece(octets, number) else {
            break;
        };
        if reader.place().is_none() || matches!(record.left, Some(0)) {
            break;
        }
        match reader.feed(piece, record) {
            Ok(taken) => used = before.saturating_add(taken),
            Err(fault) => record.refuse(before.saturating_add(fault.used), fault.cause),
        }
    }
    if !reader.is_failed() {
        record.use_up(used);
    }
}

/// Prints the number of the dataset in progress.
fn tell_named(answers: &mut Answers, reader: &HeadReader) {
    let (rec, set) = reader.named();
    answers.dataset("  named ", rec, set);
    answers.end();
}

impl Datasets {
    /// Reads the octets in these chunks.
    fn record(&self, octets: &[u8], cut: Cut) -> Record {
        let mut reader = HeadReader::new();
        let mut record = Record {
            answers: Answers::new(self.alloc),
            runs: 0,
            left: self.last,
            refused: false,
        };
        feed_pieces(&mut reader, &mut record, octets, cut);
        tell_named(&mut record.answers, &reader);
        record
    }

    /// Prints the datasets that the octets encode, and the number of slices of data when they are
    /// read in one chunk.
    fn tell(&self, answers: &mut Answers, octets: &[u8]) {
        tell_reading(answers, self, octets);
        answers.number_line("  runs ", self.record(octets, Cut::Whole).runs);
    }
}

impl Reading for Datasets {
    fn read(&self, octets: &[u8], cut: Cut) -> Answers {
        self.record(octets, cut).answers
    }
}

/// The octets that can follow these octets in a stream of datasets.
#[derive(Drop)]
struct Next<'o> {
    alloc: Global,
    front: &'o [u8],
}

impl Class for Next<'_> {
    fn has(&self, number: u64) -> bool {
        let Ok(octet) = u8::try_from(number) else {
            return false;
        };
        let mut octets = Vec::new(self.alloc);
        if octets.extend_from_slice(self.front).is_err() || octets.push(octet).is_err() {
            return false;
        }
        let datasets = Datasets {
            alloc: self.alloc,
            last: None,
        };
        !datasets.record(octets.as_slice(), Cut::Whole).refused
    }
}

/// Prints the state of a reader.
fn tell_place(answers: &mut Answers, reader: &HeadReader) {
    match reader.place() {
        None => answers.put("  failed"),
        Some(DatasetPlace::Tag(held)) => {
            answers.put("  tag ");
            answers.octets(held.as_slice());
        }
        Some(DatasetPlace::Inside { head, left }) => {
            answers.number("  inside ", *left);
            answers.number(" of ", head.count);
        }
    }
    answers.end();
    tell_named(answers, reader);
}

/// Prints the state of a reader that is created in this state, or `none` if that is impossible.
fn tell_put(answers: &mut Answers, place: DatasetPlace) {
    match HeadReader::at(place) {
        Some(reader) => tell_place(answers, &reader),
        None => answers.line("none"),
    }
}

/// Parses a head from the next three words.
fn head_of(words: &mut Words) -> Head {
    let rec = words.octet();
    let set = words.octet();
    let count = words.number();
    Head { rec, set, count }
}

/// Prints the canonical tag of a head.
fn tell_tag(answers: &mut Answers, head: Head) {
    answers.octets_line("  ", head_bytes(head).as_slice());
}

/// Prints the state of a reader with these pending octets of a tag, or `none` if that is
/// impossible.
fn tell_held(answers: &mut Answers, words: &mut Words, octets: &[u8]) {
    let mut held = ArrayVec::new();
    if held.try_extend_from_slice(octets).is_err() {
        words.refuse();
    }
    tell_put(answers, DatasetPlace::Tag(held));
}

/// Replies to a question about datasets. Returns `false` if `word` is not the name of such a
/// question.
pub(crate) fn answer(
    answers: &mut Answers,
    alloc: Global,
    names: &Names,
    word: &str,
    words: &mut Words,
) -> bool {
    match word {
        "head" => tell_tag(answers, head_of(words)),
        "datasets" => {
            let last = words.number_or_none();
            Datasets { alloc, last }.tell(answers, words.octets(names).as_slice());
        }
        "follow" => {
            let octets = words.octets(names);
            let front = octets.as_slice();
            tell_class(answers, &Next { alloc, front }, 255, Digits::Octets);
        }
        "held_at" => {
            let octets = words.octets(names);
            tell_held(answers, words, octets.as_slice());
        }
        "inside_at" => {
            let head = head_of(words);
            let left = words.number();
            tell_put(answers, DatasetPlace::Inside { head, left });
        }
        _ => return false,
    }
    true
}
