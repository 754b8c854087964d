//! Questions about streams: a stream has the same result in one chunk, in several chunks, and when
//! it is continued from a saved state.

use crate::cuts::{Cuts, LONGEST, feed_cut};
use crate::lines::print_line;
use crate::values::{are_same, limits_of, print_done};
use iim_dataset::FromRead;
use iim_fields::Limits;
use iim_unpack::{
    Cause, Intake, IntakeFault, Layer, Progress, Refusal, SaveFault, Unpacked, Unpacker,
};
use std::alloc::Global;
use vectors_layers::{Answers, Names, Words};
use wire_story::{Discard, Lines};

/// The approximate number of states that are saved in a stream.
const PLACES: usize = 400;

/// A stream, and the limits under which it is read.
#[derive(Clone, Copy)]
struct Stream<'o> {
    /// The allocator.
    alloc: Global,
    /// The limits on records 1 and 2.
    limits: Limits,
    /// The octets.
    octets: &'o [u8],
}

/// The result for a stream.
#[derive(Drop)]
struct Told {
    /// The length of the envelope, or the refusal. A truncated stream has a refusal too.
    answer: Result<u64, Refusal>,
    /// The lines of the text, with an LF after each.
    text: Vec<u8>,
    /// The contents of the envelope, if it is complete.
    value: Option<Unpacked>,
}

impl Told {
    /// Checks whether the result has these contents.
    fn has(&self, got: &Unpacked) -> bool {
        match &self.value {
            Some(value) => are_same(got, value),
            None => false,
        }
    }

    /// Checks whether two results have the same contents, or neither has any.
    fn has_value_of(&self, other: &Told) -> bool {
        match &other.value {
            Some(value) => self.has(value),
            None => self.value.is_none(),
        }
    }

    /// Checks whether two results are equal.
    fn is(&self, other: &Told) -> bool {
        self.has_value_of(other)
            && self.answer == other.answer
            && self.text.as_slice() == other.text.as_slice()
    }

    /// Checks whether the first octet was rejected.
    fn is_unbegun(&self) -> bool {
        match self.answer {
            Ok(_) => false,
            Err(refusal) => refusal.octet == 0,
        }
    }

    /// Checks whether an intake has the same result: the envelope or the error, the number of
    /// octets, and whether any octet was received.
    fn is_given(
        &self,
        answer: Result<Option<Unpacked>, IntakeFault>,
        octets: u64,
        is_empty: bool,
    ) -> bool {
        match answer {
            Ok(Some(got)) => self.answer == Ok(octets) && self.has(&got),
            Ok(None) => is_empty && self.is_unbegun(),
            Err(IntakeFault::Refused(refusal)) => self.answer == Err(refusal),
            Err(_) => false,
        }
    }
}

/// Returns the number of octets before the first LF.
fn line_len(text: &[u8]) -> usize {
    let mut len = 0usize;
    for octet in text {
        if *octet == b'\n' {
            break;
        }
        len = len.saturating_add(1);
    }
    len
}

/// Prints the lines of a text, each of which ends in LF.
fn print_text(out: &mut Answers, text: &[u8]) {
    let mut rest = text;
    for _ in 0..text.len() {
        if rest.is_empty() {
            break;
        }
        let (line, more) = rest.split_at(line_len(rest).min(rest.len()));
        print_line(out, line);
        rest = more.get(1..).unwrap_or(&[]);
    }
}

/// Appends lines to a text, with an LF after each. The text is empty or ends inside a line. Returns
/// `None` if an allocation failed.
fn push_lines(text: &mut Vec<u8>, lines: &Lines) -> Option<()> {
    if matches!(text.last(), Some(b'\n')) {
        text.truncate(text.len().saturating_sub(1));
    }
    for line in lines.iter() {
        text.extend_from_slice(line).ok()?;
        text.push(b'\n').ok()?;
    }
    Some(())
}

/// Joins the lines before a ticket and those after it, with an LF after each line. Returns `None`
/// if an allocation failed.
fn text_of(alloc: Global, before: &Lines, lines: &Lines) -> Option<Vec<u8>> {
    let mut text = Vec::new(alloc);
    push_lines(&mut text, before)?;
    push_lines(&mut text, lines)?;
    Some(text)
}

/// Reports `fault`, with this number of octets, unless `holds` is true.
fn hold(out: &mut Answers, octets: u64, holds: bool, fault: &'static str) {
    if !holds {
        out.number_line("  not at ", octets);
        out.fail(fault);
    }
}

/// Checks that an unpacker that has rejected an octet rejects every later call with the same octet,
/// and has no ticket.
fn check_failed(out: &mut Answers, alloc: Global, unpacker: &mut Unpacker, refusal: Refusal) {
    let at = refusal.octet;
    let failed = Refusal {
        layer: Layer::Outside,
        rec: 0,
        set: 0,
        octet: at,
        cause: Cause::Failed,
    };
    let again = unpacker.feed(b"\x1c", &mut Discard).err();
    hold(
        out,
        at,
        again == Some(failed),
        "another answer after a refusal",
    );
    let end = unpacker.end_of_input();
    hold(
        out,
        at,
        end == Some(failed),
        "the end of input after a refusal",
    );
    hold(out, at, !unpacker.is_done(), "done after a refusal");
    let has_failed = matches!(unpacker.save(alloc), Err(SaveFault::Failed));
    hold(out, at, has_failed, "a ticket after a refusal")
}

/// Checks whether two unpackers have consumed the same number of octets, are both complete, both
/// failed or neither, and have the same result at the end of the input.
fn answer_alike(one: &Unpacker, other: &Unpacker) -> bool {
    one.octets() == other.octets()
        && one.is_done() == other.is_done()
        && one.is_failed() == other.is_failed()
        && one.end_of_input() == other.end_of_input()
}

/// Checks whether the ticket of an unpacker is this one.
fn has_ticket(alloc: Global, unpacker: &Unpacker, ticket: &[u8]) -> bool {
    match unpacker.save(alloc) {
        Ok(saved) => saved.as_slice() == ticket,
        Err(_) => false,
    }
}

/// Returns the result of an unpacker at the end of the input: the length of the envelope, or the
/// refusal. `at` is the number of octets before the last call.
fn settled(
    out: &mut Answers,
    alloc: Global,
    unpacker: &mut Unpacker,
    at: u64,
    answer: Result<Progress, Refusal>,
) -> Result<u64, Refusal> {
    let used = match answer {
        Ok(Progress::Done { used }) => at.saturating_add(used as u64),
        Ok(Progress::More) => 0,
        Err(refusal) => {
            check_failed(out, alloc, unpacker, refusal);
            return Err(refusal);
        }
    };
    if let Some(refusal) = unpacker.end_of_input() {
        return Err(refusal);
    }
    hold(
        out,
        used,
        used == unpacker.octets(),
        "so many octets were used",
    );
    Ok(used)
}

/// Returns the result of an unpacker, with the lines before a ticket and those after it. Returns
/// `None` if an allocation failed.
fn told_by(
    alloc: Global,
    unpacker: Unpacker,
    before: &Lines,
    lines: &Lines,
    answer: Result<u64, Refusal>,
) -> Option<Told> {
    Some(Told {
        answer,
        text: text_of(alloc, before, lines)?,
        value: unpacker.into_unpacked().ok(),
    })
}

/// Prints the length of the envelope or the refusal, and the lines of the text.
fn print_told(out: &mut Answers, whole: &Told) {
    match whole.answer {
        Ok(used) => print_done(out, used),
        Err(refusal) => out.tell(&refusal),
    }
    print_text(out, whole.text.as_slice());
}

/// Prints the number of tickets from which the result was the same.
fn print_places(out: &mut Answers, places: u64) {
    out.number("  the same in pieces of 1 to ", LONGEST as u64);
    out.number(", and from ", places);
    out.put(" tickets\n");
}

impl Stream<'_> {
    /// Feeds all octets at once, or in chunks of a given size with an empty chunk before each.
    fn feed(
        self,
        out: &mut Answers,
        size: Option<usize>,
        unpacker: &mut Unpacker,
        lines: &mut Lines,
    ) -> Result<u64, Refusal> {
        let answer = match size {
            Some(size) => feed_cut(unpacker, self.octets, Cuts::of(size), lines),
            None => unpacker.feed(self.octets, lines),
        };
        settled(out, self.alloc, unpacker, 0, answer)
    }

    /// Returns the result for the octets, at once or in chunks of a given size. Returns `None` if
    /// an allocation failed.
    fn told(self, out: &mut Answers, size: Option<usize>) -> Option<Told> {
        let mut unpacker = Unpacker::new(self.alloc, self.limits).ok()?;
        let mut lines = Lines::new(self.alloc);
        let answer = self.feed(out, size, &mut unpacker, &mut lines);
        let before = Lines::new(self.alloc);
        told_by(self.alloc, unpacker, &before, &lines, answer)
    }

    /// Checks that the result is the same for chunks of each size.
    fn check_pieces(self, out: &mut Answers, whole: &Told) {
        for size in 1..=LONGEST {
            let is_same = match self.told(out, Some(size)) {
                Some(told) => told.is(whole),
                None => false,
            };
            hold(out, size as u64, is_same, "another answer in pieces");
        }
    }

    /// Restores an unpacker from the ticket of another. It must have the same result at the end of
    /// the input and the same ticket. Returns `None` if there is no ticket, or if it cannot be
    /// restored.
    fn restored(self, out: &mut Answers, saved: &Unpacker) -> Option<Unpacker> {
        let at = saved.octets();
        let ticket = saved.save(self.alloc).ok()?;
        let ticket = ticket.as_slice();
        let unpacker = Unpacker::restore(self.alloc, self.limits, ticket, at).ok()?;
        let has_ticket = has_ticket(self.alloc, &unpacker, ticket);
        hold(out, at, has_ticket, "another ticket");
        hold(out, at, answer_alike(&unpacker, saved), "other answers");
        Some(unpacker)
    }

    /// Restores an unpacker from the ticket of another, and feeds the remaining octets to it.
    /// Returns the result, or `None` if there is no ticket.
    fn continued(
        self,
        out: &mut Answers,
        saved: &Unpacker,
        before: &Lines,
        rest: &[u8],
    ) -> Option<Told> {
        let mut unpacker = self.restored(out, saved)?;
        let mut lines = Lines::new(self.alloc);
        let fed = unpacker.feed(rest, &mut lines);
        let answer = settled(out, self.alloc, &mut unpacker, saved.octets(), fed);
        told_by(self.alloc, unpacker, before, &lines, answer)
    }

    /// Restores an unpacker that is not complete from its ticket, and feeds the remaining octets to
    /// it by an intake. Checks that the result is that of the whole stream.
    fn check_intake(self, out: &mut Answers, saved: &Unpacker, rest: &[u8], whole: &Told) {
        let Some(unpacker) = self.restored(out, saved) else {
            out.fail("no ticket");
            return;
        };
        if unpacker.is_done() || unpacker.is_failed() {
            return;
        }
        let at = saved.octets();
        let mut intake = Intake::new(FromRead::new(rest));
        let answer = intake.next_envelope(unpacker, &mut Discard);
        let octets = at.saturating_add(intake.octets());
        let is_same = whole.is_given(answer, octets, rest.is_empty());
        hold(out, at, is_same, "another answer by an intake")
    }

    /// Restores an unpacker from its ticket, and feeds the remaining octets to it. Checks that the
    /// result is that of the whole stream.
    fn check_rest(
        self,
        out: &mut Answers,
        saved: &Unpacker,
        before: &Lines,
        rest: &[u8],
        whole: &Told,
    ) {
        let is_same = match self.continued(out, saved, before, rest) {
            Some(told) => told.is(whole),
            None => false,
        };
        hold(
            out,
            saved.octets(),
            is_same,
            "another answer from the ticket",
        );
        self.check_intake(out, saved, rest, whole)
    }

    /// Saves the state after every `size` octets, and checks the result of continuing from each.
    /// Returns the number of states.
    fn check_places(
        self,
        out: &mut Answers,
        size: usize,
        saved: &mut Unpacker,
        before: &mut Lines,
        whole: &Told,
    ) -> u64 {
        let mut rest = self.octets;
        let mut places = 0u64;
        for _ in 0..=self.octets.len() {
            self.check_rest(out, saved, before, rest, whole);
            places = places.saturating_add(1);
            let (piece, more) = rest.split_at(rest.len().min(size));
            if piece.is_empty() || saved.feed(piece, before).is_err() {
                break;
            }
            rest = more;
        }
        places
    }

    /// Saves up to 400 states, or all states if there are fewer, and checks the result of
    /// continuing from each. Returns the number of states.
    fn check_tickets(self, out: &mut Answers, whole: &Told) -> u64 {
        let size = (self.octets.len() / PLACES).saturating_add(1);
        let Ok(mut saved) = Unpacker::new(self.alloc, self.limits) else {
            out.lack_memory();
            return 0;
        };
        let mut before = Lines::new(self.alloc);
        self.check_places(out, size, &mut saved, &mut before, whole)
    }

    /// Prints the result for the octets in one chunk. Reports an error if the result differs in
    /// several chunks or from a ticket.
    fn print(self, out: &mut Answers) {
        let Some(whole) = self.told(out, None) else {
            out.lack_memory();
            return;
        };
        print_told(out, &whole);
        self.check_pieces(out, &whole);
        let places = self.check_tickets(out, &whole);
        print_places(out, places)
    }
}

/// Prints the result for a stream.
pub(crate) fn print_stream(out: &mut Answers, alloc: Global, names: &Names, words: &mut Words) {
    let limits = limits_of(words);
    let octets = words.octets(names);
    let stream = Stream {
        alloc,
        limits,
        octets: octets.as_slice(),
    };
    stream.print(out)
}
