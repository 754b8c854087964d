//! Questions about the tables: rows, kinds, numbers, dates and instants.

use crate::answers::Answers;
use crate::octets::{Names, Words};
use crate::readings::{Class, Digits, tell_class};
use iim_tables::{Duty, Kind, Row, admits, date_of, instant_of, number_of, row};
use std::alloc::Global;

/// The greatest number of octets that `lengths` tries.
const MOST_OCTETS: usize = 10_000;

/// Returns the kind with this name.
fn kind_of(word: &str) -> Option<Kind> {
    Some(match word {
        "Graphic" => Kind::Graphic,
        "Spaced" => Kind::Spaced,
        "SpacedLines" => Kind::SpacedLines,
        "Letters" => Kind::Letters,
        "Digits" => Kind::Digits,
        "Date" => Kind::Date,
        "PartDate" => Kind::PartDate,
        "Time" => Kind::Time,
        "Binary" => Kind::Binary,
        "Octets" => Kind::Octets,
        "Mode" => Kind::Mode,
        "Size" => Kind::Size,
        "SizeFromOne" => Kind::SizeFromOne,
        _ => return None,
    })
}

/// The single octets that are values of a kind.
#[derive(Drop)]
struct Alone {
    row: Row,
}

impl Class for Alone {
    fn has(&self, number: u64) -> bool {
        match u8::try_from(number) {
            Ok(octet) => admits(&self.row, &[octet]),
            Err(_) => false,
        }
    }
}

/// Prints which single octets are values of the kind that the next word names.
fn print_kind(out: &mut Answers, words: &mut Words) {
    let Some(kind) = kind_of(words.text()) else {
        words.refuse();
        return;
    };
    let row = Row {
        min: 1,
        max: 1,
        kind,
        duty: Duty::Optional,
        repeats: false,
    };
    tell_class(out, &Alone { row }, 255, Digits::Octets)
}

/// The lengths at which repeated octets are a value for a row.
#[derive(Drop)]
struct Lengths<'o> {
    row: Row,
    octets: &'o [u8],
}

impl Class for Lengths<'_> {
    fn has(&self, number: u64) -> bool {
        match self.octets.get(..number as usize) {
            Some(octets) => admits(&self.row, octets),
            None => false,
        }
    }
}

/// Repeats octets up to the greatest length. Returns `None` if an allocation failed.
fn repeated(alloc: Global, sample: &[u8]) -> Option<Vec<u8>> {
    let mut octets = Vec::new(alloc);
    for at in 0..MOST_OCTETS {
        let Some(octet) = sample.get(at % sample.len().max(1)) else {
            break;
        };
        octets.push(*octet).ok()?;
    }
    Some(octets)
}

/// Prints the lengths at which a repeated sample is a value for the row.
fn print_lengths(out: &mut Answers, alloc: Global, row: Row, sample: &[u8]) {
    let Some(octets) = repeated(alloc, sample) else {
        out.lack_memory();
        return;
    };
    let class = Lengths {
        row,
        octets: octets.as_slice(),
    };
    tell_class(out, &class, MOST_OCTETS as u64, Digits::Decimal)
}

/// Prints the rows of a record. Consecutive equal rows are printed as one.
fn print_rows(out: &mut Answers, rec: u8) {
    let mut first = 0;
    let mut is_none = true;
    for set in 0..=255u8 {
        let found = row(rec, set);
        if set < 255 && row(rec, set.saturating_add(1)) == found {
            continue;
        }
        if let Some(row) = found {
            print_row(out, rec, first, set, row);
            is_none = false;
        }
        first = set.saturating_add(1);
    }
    if is_none {
        out.line("none");
    }
}

/// Prints the row of the datasets with the numbers `first` to `last`.
fn print_row(out: &mut Answers, rec: u8, first: u8, last: u8, row: Row) {
    out.dataset("  ", rec, first);
    if first != last {
        out.dataset("..", rec, last);
    }
    print_admitted(out, row)
}

/// Ends a line with the properties of a row: the number of octets, the kind, and how often the
/// dataset may occur.
fn print_admitted(out: &mut Answers, row: Row) {
    out.put(" ");
    out.show(&row.min);
    out.put("..");
    out.show(&row.max);
    out.put(" ");
    out.name(&row.kind);
    out.put(" ");
    out.name(&row.duty);
    out.put(if row.repeats { " repeats\n" } else { " once\n" });
}

/// Prints octets as the libraries escape them.
fn print_shown(out: &mut Answers, octets: &[u8]) {
    out.put("  ");
    out.shown(octets);
    out.end();
}

/// Prints the row that the next two words name.
fn print_named(out: &mut Answers, words: &mut Words) {
    let rec = words.octet();
    let set = words.octet();
    match row(rec, set) {
        Some(row) => print_row(out, rec, set, set, row),
        None => out.line("none"),
    }
}

/// A question about the values of a row.
#[derive(Clone, Copy)]
enum Asked {
    /// Whether these octets are a value.
    Octets,
    /// At which lengths a repeated sample is a value.
    Lengths,
}

/// Prints the reply to a question about the row that the next two words name.
fn print_of_row(out: &mut Answers, alloc: Global, names: &Names, words: &mut Words, asked: Asked) {
    let rec = words.octet();
    let set = words.octet();
    let octets = words.octets(names);
    let Some(row) = row(rec, set) else {
        words.refuse();
        return;
    };
    match asked {
        Asked::Octets => out.truth(admits(&row, octets.as_slice())),
        Asked::Lengths => print_lengths(out, alloc, row, octets.as_slice()),
    }
}

/// Replies to a question about numbers, dates and instants. Returns `false` if `word` is not the
/// name of such a question.
fn answer_values(out: &mut Answers, names: &Names, word: &str, words: &mut Words) -> bool {
    match word {
        "number" => out.found(number_of(words.octets(names).as_slice())),
        "date" => out.found(date_of(words.octets(names).as_slice())),
        "instant" => {
            let date = words.octets(names);
            let time = words.octets(names);
            out.found(instant_of(date.as_slice(), time.as_slice()));
        }
        "shown" => print_shown(out, words.octets(names).as_slice()),
        _ => return false,
    }
    true
}

/// Replies to a question about the tables. Returns `false` if `word` is not the name of such a
/// question.
pub(crate) fn answer(
    out: &mut Answers,
    alloc: Global,
    names: &Names,
    word: &str,
    words: &mut Words,
) -> bool {
    match word {
        "row" => print_named(out, words),
        "rows" => print_rows(out, words.octet()),
        "kind" => print_kind(out, words),
        "admits" => print_of_row(out, alloc, names, words, Asked::Octets),
        "lengths" => print_of_row(out, alloc, names, words, Asked::Lengths),
        _ => return answer_values(out, names, word, words),
    }
    true
}
