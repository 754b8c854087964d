//! Questions about messages that are read in all splits into chunks, and about messages that are
//! written.

use crate::answers::Answers;
use crate::octets::{Names, Words};
use crate::readings::{Class, Cut, Digits, Reading, tell_class, tell_reading};
use crate::stories::tell_lines;
use arrayvec::ArrayVec;
use std::alloc::Global;
use wire_message::{
    MessageFault, MessageHead, MessagePart, MessagePlace, MessageReader, head_text, is_trailer,
    tail_text,
};
use wire_story::{Discard, Lines, StorySink};

/// Feeds a chunk. Returns the octet that is rejected and the cause, or `None`.
fn feed<S: StorySink>(
    reader: &mut MessageReader,
    piece: &[u8],
    sink: &mut S,
) -> Option<MessageFault> {
    if reader.is_failed() {
        return None;
    }
    reader.feed(piece, sink).err()
}

/// Replaces a reader with one that is created in its state. Returns whether such a reader could be
/// created.
fn put_back(reader: &mut MessageReader) -> bool {
    if reader.is_failed() {
        return true;
    }
    match MessageReader::at(reader.place()) {
        Some(again) => {
            *reader = again;
            true
        }
        None => false,
    }
}

/// Feeds the chunks, up to a rejected octet. Returns that octet and the cause, or `None`. Before
/// each chunk the reader is replaced with one that is created in its state.
fn feed_pieces<S: StorySink>(
    reader: &mut MessageReader,
    octets: &[u8],
    cut: Cut,
    sink: &mut S,
    answers: &mut Answers,
) -> Option<MessageFault> {
    for number in 0..Cut::most_pieces(octets) {
        let Some((before, piece)) = cut.piece(octets, number) else {
            break;
        };
        if !put_back(reader) {
            answers.line("no octets lead to the place of the reader");
        }
        if let Some(fault) = feed(reader, piece, sink) {
            let taken = before.saturating_add(fault.taken);
            return Some(MessageFault { taken, ..fault });
        }
    }
    None
}

/// Closes an object of `len` octets. Returns why it is rejected, or `None`.
fn close(reader: &mut MessageReader, len: usize) -> Option<MessageFault> {
    if reader.is_failed() {
        return None;
    }
    match reader.close() {
        Ok(()) => None,
        Err(fault) => {
            let taken = len.saturating_add(fault.taken);
            Some(MessageFault { taken, ..fault })
        }
    }
}

/// Returns the parts of a header, in their order in a message.
fn header_parts(head: &MessageHead) -> [&[u8]; 6] {
    [
        head.source(),
        head.number(),
        head.priority(),
        head.category(),
        head.words(),
        head.info(),
    ]
}

/// Prints a word and the parts of a header.
pub fn tell_header(text: &mut Answers, word: &str, head: &MessageHead) {
    text.put("  ");
    text.put(word);
    text.each(&header_parts(head));
    text.end();
}

/// Prints the header and the trailer of a reader, as far as they were received.
fn tell_reader(text: &mut Answers, reader: &MessageReader) {
    match reader.head() {
        Some(head) => tell_header(text, "header", head),
        None => text.line("header none"),
    }
    text.octets_line("  trailer ", reader.trailer());
}

/// Ends a line with the rejected octet and the cause.
fn tell_refused(text: &mut Answers, fault: MessageFault) {
    text.number(" refused at ", fault.taken as u64);
    text.put(" ");
    text.name(&fault.cause);
    text.end();
}

/// Prints the rejected octet and the cause.
fn tell_fault(text: &mut Answers, fault: MessageFault, reader: &MessageReader) {
    text.put(" ");
    tell_refused(text, fault);
    if !reader.is_failed() {
        text.line("not failed");
    }
}

/// A reading of an object.
#[derive(Drop)]
struct Objects {
    alloc: Global,
}

impl Reading for Objects {
    fn read(&self, octets: &[u8], cut: Cut) -> Answers {
        let mut text = Answers::new(self.alloc);
        let mut lines = Lines::new(self.alloc);
        let mut reader = MessageReader::new();
        let refused = feed_pieces(&mut reader, octets, cut, &mut lines, &mut text);
        tell_lines(&mut text, &lines);
        match refused.or(close(&mut reader, octets.len())) {
            Some(fault) => tell_fault(&mut text, fault, &reader),
            None => tell_reader(&mut text, &reader),
        }
        text
    }
}

/// Prints a state: its part, its counter and its flag, and the texts of its header and trailer so
/// far.
fn tell_place(text: &mut Answers, place: &MessagePlace) {
    text.put("  ");
    text.name(&place.part);
    text.number(" ", u64::from(place.counter));
    text.number(" ", u64::from(place.flag));
    let texts = [
        place.source.as_slice(),
        place.number.as_slice(),
        place.priority.as_slice(),
        place.category.as_slice(),
        place.words.as_slice(),
        place.info.as_slice(),
        place.trailer.as_slice(),
    ];
    text.each(&texts);
    text.end();
}

/// Prints the state of a reader, and the numbers of octets that reach this state.
fn tell_stand(text: &mut Answers, reader: &MessageReader) {
    if reader.is_failed() {
        text.line("failed");
        return;
    }
    tell_place(text, &reader.place());
    let (least, greatest) = reader.lengths();
    tell_lengths(text, least, greatest);
}

/// Prints the minimum and the maximum number of octets that reach a state.
fn tell_lengths(text: &mut Answers, least: u64, greatest: Option<u64>) {
    text.number("  after ", least);
    if let Some(greatest) = greatest {
        text.number("..", greatest);
        text.put(" octets\n");
    } else {
        text.put(" octets or more\n");
    }
}

/// A reading of octets that begin an object.
#[derive(Drop)]
struct Begun {
    alloc: Global,
}

impl Reading for Begun {
    fn read(&self, octets: &[u8], cut: Cut) -> Answers {
        let mut text = Answers::new(self.alloc);
        let mut reader = MessageReader::new();
        if let Some(fault) = feed_pieces(&mut reader, octets, cut, &mut Discard, &mut text) {
            tell_fault(&mut text, fault, &reader);
        }
        tell_stand(&mut text, &reader);
        tell_reader(&mut text, &reader);
        text
    }
}

/// Returns the part of a header with this name.
fn place_in_header(word: &str) -> Option<MessagePart> {
    Some(match word {
        "Number" => MessagePart::Number,
        "Priority" => MessagePart::Priority,
        "PriorityRead" => MessagePart::PriorityRead,
        "Category" => MessagePart::Category,
        "Words" => MessagePart::Words,
        "Info" => MessagePart::Info,
        _ => return None,
    })
}

/// Returns the part with this name.
fn part_of(word: &str) -> Option<MessagePart> {
    Some(match word {
        "Filler" => MessagePart::Filler,
        "Source" => MessagePart::Source,
        "Gap" => MessagePart::Gap,
        "Text" => MessagePart::Text,
        "Trailer" => MessagePart::Trailer,
        "AfterEnd" => MessagePart::AfterEnd,
        _ => return place_in_header(word),
    })
}

/// Parses the octets of a part from the next word.
fn saved(names: &Names, words: &mut Words) -> ArrayVec<u8, 64> {
    let octets = words.octets(names);
    let mut kept = ArrayVec::new();
    if kept.try_extend_from_slice(octets.as_slice()).is_err() {
        words.refuse();
    }
    kept
}

/// Parses a state from the next words.
fn place_of(names: &Names, words: &mut Words) -> MessagePlace {
    let part = part_of(words.text());
    if part.is_none() {
        words.refuse();
    }
    MessagePlace {
        part: part.unwrap_or(MessagePart::Filler),
        counter: words.octet(),
        flag: words.octet(),
        source: saved(names, words),
        number: saved(names, words),
        priority: saved(names, words),
        category: saved(names, words),
        words: saved(names, words),
        info: saved(names, words),
        trailer: saved(names, words),
    }
}

/// Prints the state of a reader that is created in this state, or `none` if that is impossible.
fn print_put(out: &mut Answers, place: MessagePlace) {
    let Some(reader) = MessageReader::at(place) else {
        out.line("none");
        return;
    };
    tell_stand(out, &reader);
}

/// Reads an object in one chunk. Returns the octet that is rejected and the cause, or `None`.
fn read_whole(octets: &[u8]) -> Option<MessageFault> {
    let mut reader = MessageReader::new();
    let refused = feed(&mut reader, octets, &mut Discard);
    refused.or(close(&mut reader, octets.len()))
}

/// Reads an object octet by octet. Returns the octet that is rejected and the cause, or `None`.
fn read_each(octets: &[u8]) -> Option<MessageFault> {
    let mut reader = MessageReader::new();
    let mut at = 0usize;
    for octet in octets {
        if let Some(fault) = feed(&mut reader, &[*octet], &mut Discard) {
            let taken = at.saturating_add(fault.taken);
            return Some(MessageFault { taken, ..fault });
        }
        at = at.saturating_add(1);
    }
    close(&mut reader, octets.len())
}

/// Returns `octet` between `front` and `back`, or `None` if an allocation failed.
fn joined(alloc: Global, front: &[u8], octet: u8, back: &[u8]) -> Option<Vec<u8>> {
    let mut octets = Vec::new(alloc);
    octets.extend_from_slice(front).ok()?;
    octets.push(octet).ok()?;
    octets.extend_from_slice(back).ok()?;
    Some(octets)
}

/// Prints a range of octets with the result that they all have between the octets around them.
fn print_run(out: &mut Answers, first: u8, last: u8, fault: Option<MessageFault>) {
    out.put("  ");
    out.digits(first);
    if first != last {
        out.put("..");
        out.digits(last);
    }
    match fault {
        None => out.put(" message\n"),
        Some(fault) => tell_refused(out, fault),
    }
}

/// Reads an octet between others in one chunk, and returns the result. If the result differs octet
/// by octet, prints that.
fn read_between(
    out: &mut Answers,
    alloc: Global,
    front: &[u8],
    octet: u8,
    back: &[u8],
) -> Option<MessageFault> {
    let Some(object) = joined(alloc, front, octet, back) else {
        out.lack_memory();
        return None;
    };
    let here = read_whole(object.as_slice());
    if read_each(object.as_slice()) != here {
        out.put("  ");
        out.digits(octet);
        out.put(" differs octet by octet\n");
    }
    here
}

/// Prints the result of reading each octet between `front` and `back`, in one chunk and octet by
/// octet.
fn print_between(out: &mut Answers, alloc: Global, front: &[u8], back: &[u8]) {
    let mut first = 0;
    let mut before = read_between(out, alloc, front, 0, back);
    for octet in 1..=255u8 {
        let here = read_between(out, alloc, front, octet, back);
        if here != before {
            print_run(out, first, octet.saturating_sub(1), before);
            first = octet;
            before = here;
        }
    }
    print_run(out, first, 255, before)
}

/// Prints the result of reading each octet between those of the next two words.
fn print_next_between(out: &mut Answers, alloc: Global, names: &Names, words: &mut Words) {
    let front = words.octets(names);
    let back = words.octets(names);
    print_between(out, alloc, front.as_slice(), back.as_slice())
}

/// The parts of a message that can consist of a single octet.
#[derive(Clone, Copy)]
enum Part {
    Source,
    Number,
    Priority,
    Category,
    Words,
    Info,
    Trailer,
}

impl Class for Part {
    fn has(&self, number: u64) -> bool {
        let Ok(octet) = u8::try_from(number) else {
            return false;
        };
        let it = [octet];
        let head = match self {
            Part::Source => MessageHead::new(&it, b"1", b"4", b"N", b"0", b""),
            Part::Number => MessageHead::new(b"X", &it, b"4", b"N", b"0", b""),
            Part::Priority => MessageHead::new(b"X", b"1", &it, b"N", b"0", b""),
            Part::Category => MessageHead::new(b"X", b"1", b"4", &it, b"0", b""),
            Part::Words => MessageHead::new(b"X", b"1", b"4", b"N", &it, b""),
            Part::Info => MessageHead::new(b"X", b"1", b"4", b"N", b"0", &it),
            Part::Trailer => return is_trailer(&it),
        };
        head.is_some()
    }
}

/// Returns the part of a header with this name, or the trailer.
fn header_part_of(word: &str) -> Option<Part> {
    Some(match word {
        "source" => Part::Source,
        "number" => Part::Number,
        "priority" => Part::Priority,
        "category" => Part::Category,
        "words" => Part::Words,
        "info" => Part::Info,
        "trailer" => Part::Trailer,
        _ => return None,
    })
}

/// Prints the octets of a header with the parts in the next words, or `none`.
fn print_header(out: &mut Answers, names: &Names, words: &mut Words) {
    let source = words.octets(names);
    let number = words.octets(names);
    let priority = words.octets(names);
    let category = words.octets(names);
    let count = words.octets(names);
    let info = words.octets(names);
    match MessageHead::new(&source, &number, &priority, &category, &count, &info) {
        Some(head) => out.octets_line("  ", head_text(&head).as_slice()),
        None => out.line("none"),
    }
}

/// Prints the octets of a message from ETX to EOT, or `none`.
fn print_tail(out: &mut Answers, trailer: &[u8]) {
    let tail = tail_text(trailer);
    if tail.is_some() != is_trailer(trailer) {
        out.line("differs");
    }
    match tail {
        Some(tail) => out.octets_line("  ", tail.as_slice()),
        None => out.line("none"),
    }
}

/// Prints which single octets are valid for the part that the next word names.
fn print_part(out: &mut Answers, words: &mut Words) {
    match header_part_of(words.text()) {
        Some(part) => tell_class(out, &part, 255, Digits::Octets),
        None => words.refuse(),
    }
}

/// Replies to a question about messages. Returns `false` if `word` is not the name of such a
/// question.
pub(crate) fn answer(
    out: &mut Answers,
    alloc: Global,
    names: &Names,
    word: &str,
    words: &mut Words,
) -> bool {
    match word {
        "message" => tell_reading(out, &Objects { alloc }, words.octets(names).as_slice()),
        "begun" => tell_reading(out, &Begun { alloc }, words.octets(names).as_slice()),
        "message_at" => print_put(out, place_of(names, words)),
        "between" => print_next_between(out, alloc, names, words),
        "part" => print_part(out, words),
        "header" => print_header(out, names, words),
        "tail" => print_tail(out, words.octets(names).as_slice()),
        _ => return false,
    }
    true
}
