//! Questions about an envelope that is unpacked in chunks.

use crate::causes::{print_causes, print_layers};
use crate::cuts::{Cuts, feed_cut};
use crate::intakes::print_next;
use crate::lines::print_lines;
use crate::tickets::{self, print_ticket};
use crate::values::{limits_of, print_done, print_value};
use iim_fields::Limits;
use iim_unpack::{Progress, Refusal, Unpacker};
use std::alloc::Global;
use std::mem;
use vectors_layers::{Answers, Names, Words};
use wire_story::Lines;

/// An envelope that is being unpacked.
#[derive(Drop)]
pub(crate) struct Bench {
    alloc: Global,
    limits: Limits,
    unpacker: Unpacker,
    lines: Lines,
}

/// Prints the result for octets.
fn print_progress(out: &mut Answers, answer: Result<Progress, Refusal>) {
    match answer {
        Ok(Progress::More) => out.line("more"),
        Ok(Progress::Done { used }) => print_done(out, used as u64),
        Err(refusal) => out.tell(&refusal),
    }
}

impl Bench {
    /// Creates an unpacker for a new envelope, with the limits of the command. Returns `None` if an
    /// allocation failed.
    pub(crate) fn new(alloc: Global) -> Option<Bench> {
        Some(Bench {
            alloc,
            limits: Limits::WIRE,
            unpacker: Unpacker::new(alloc, Limits::WIRE).ok()?,
            lines: Lines::new(alloc),
        })
    }

    /// Takes the unpacker out, and puts a new one in its place. Returns `None` if an allocation
    /// failed.
    fn take_unpacker(&mut self, out: &mut Answers) -> Option<Unpacker> {
        match Unpacker::new(self.alloc, self.limits) {
            Ok(next) => Some(mem::replace(&mut self.unpacker, next)),
            Err(_) => {
                out.lack_memory();
                None
            }
        }
    }

    /// Begins a new envelope with these limits.
    fn renew(&mut self, out: &mut Answers, limits: Limits) {
        match Unpacker::new(self.alloc, limits) {
            Ok(unpacker) => self.unpacker = unpacker,
            Err(_) => out.lack_memory(),
        }
        self.limits = limits;
        self.lines = Lines::new(self.alloc);
    }

    /// Begins the next envelope with the same unpacker.
    fn again(&mut self) {
        self.unpacker.again();
        self.lines = Lines::new(self.alloc);
    }

    /// Feeds the octets of the next word.
    fn feed(&mut self, out: &mut Answers, names: &Names, words: &mut Words) {
        let octets = words.octets(names);
        let answer = self.unpacker.feed(octets.as_slice(), &mut self.lines);
        print_progress(out, answer);
    }

    /// Feeds the octets of the next word, split into chunks.
    fn cut(&mut self, out: &mut Answers, names: &Names, words: &mut Words, cuts: Cuts) {
        let octets = words.octets(names);
        let answer = feed_cut(&mut self.unpacker, octets.as_slice(), cuts, &mut self.lines);
        print_progress(out, answer);
    }

    /// Replaces the unpacker with one that is restored from its ticket. Returns `None` if that
    /// fails.
    fn carry_over(&mut self) -> Option<()> {
        let at = self.unpacker.octets();
        let ticket = self.unpacker.save(self.alloc).ok()?;
        let ticket = ticket.as_slice();
        self.unpacker = Unpacker::restore(self.alloc, self.limits, ticket, at).ok()?;
        Some(())
    }

    /// Feeds octets one by one, each to an unpacker that is restored from the ticket of the
    /// previous one.
    fn carry_octets(&mut self, out: &mut Answers, octets: &[u8]) -> Result<Progress, Refusal> {
        let mut sum = 0usize;
        for octet in octets {
            if self.carry_over().is_none() {
                out.fail("there is no ticket, or it is not restored");
                break;
            }
            sum = sum.saturating_add(1);
            let fed = self.unpacker.feed(&[*octet], &mut self.lines)?;
            if matches!(fed, Progress::Done { used: _ }) {
                return Ok(Progress::Done { used: sum });
            }
        }
        Ok(Progress::More)
    }

    /// Feeds the octets of the next word one by one, with a save and a restore before each.
    fn carry(&mut self, out: &mut Answers, names: &Names, words: &mut Words) {
        let octets = words.octets(names);
        let answer = self.carry_octets(out, octets.as_slice());
        print_progress(out, answer);
    }

    /// Prints the contents of the envelope.
    fn value(&mut self, out: &mut Answers) {
        let Some(unpacker) = self.take_unpacker(out) else {
            return;
        };
        match unpacker.into_unpacked() {
            Ok(got) => print_value(out, &got),
            Err(unpacker) => {
                self.unpacker = unpacker;
                out.line("none");
            }
        }
    }

    /// Replaces the unpacker with one that is restored from a ticket.
    fn restore(&mut self, out: &mut Answers, limits: Limits, at: u64, ticket: &[u8]) {
        match Unpacker::restore(self.alloc, limits, ticket, at) {
            Ok(unpacker) => {
                self.unpacker = unpacker;
                self.limits = limits;
                out.line("restored");
            }
            Err(fault) => tickets::print_fault(out, fault),
        }
    }

    /// Restores an unpacker from the ticket in the next words.
    fn restore_next(&mut self, out: &mut Answers, names: &Names, words: &mut Words) {
        let limits = limits_of(words);
        let at = words.number();
        let ticket = words.octets(names);
        self.restore(out, limits, at, ticket.as_slice());
    }

    /// Prints whether the ticket of the unpacker is the one in the next word.
    fn print_wanted(&self, out: &mut Answers, names: &Names, words: &mut Words) {
        let wanted = words.octets(names);
        print_ticket(out, self.alloc, &self.unpacker, Some(wanted.as_slice()));
    }

    /// Prints the result of the unpacker at the end of the input.
    fn print_end(&self, out: &mut Answers) {
        match self.unpacker.end_of_input() {
            Some(refusal) => out.tell(&refusal),
            None => out.line("none"),
        }
    }

    /// Prints the number of octets that the unpacker has consumed, and whether it is complete or
    /// has failed.
    fn print_state(&self, out: &mut Answers) {
        out.number("  octets ", self.unpacker.octets());
        out.holds(" done ", self.unpacker.is_done());
        out.holds(" failed ", self.unpacker.is_failed());
        out.end();
    }

    /// Prints the next envelope of an input.
    fn print_next(&mut self, out: &mut Answers, names: &Names, words: &mut Words) {
        let octets = words.octets(names);
        if let Some(unpacker) = self.take_unpacker(out) {
            print_next(out, self.alloc, self.limits, unpacker, octets.as_slice());
        }
    }

    /// Replies to a question about unpacking. Returns `false` if `word` is not the name of such a
    /// question.
    pub(crate) fn answer(
        &mut self,
        out: &mut Answers,
        names: &Names,
        word: &str,
        words: &mut Words,
    ) -> bool {
        match word {
            "new" => self.renew(out, limits_of(words)),
            "again" => self.again(),
            "feed" => self.feed(out, names, words),
            "each" => self.cut(out, names, words, Cuts::of(1)),
            "cut" => {
                let cuts = Cuts::random(words.number());
                self.cut(out, names, words, cuts);
            }
            "carry" => self.carry(out, names, words),
            "restore" => self.restore_next(out, names, words),
            "next" => self.print_next(out, names, words),
            _ => return self.answer_told(out, names, word, words),
        }
        true
    }

    /// Replies to a question about the octets that were fed, or about all layers and causes.
    /// Returns `false` if `word` is not the name of such a question.
    fn answer_told(
        &mut self,
        out: &mut Answers,
        names: &Names,
        word: &str,
        words: &mut Words,
    ) -> bool {
        match word {
            "end" => self.print_end(out),
            "lines" => print_lines(out, &self.lines),
            "state" => self.print_state(out),
            "value" => self.value(out),
            "save" => print_ticket(out, self.alloc, &self.unpacker, None),
            "saves" => self.print_wanted(out, names, words),
            "layers" => print_layers(out),
            "causes" => print_causes(out),
            _ => return tickets::answer(out, self.alloc, names, word, words),
        }
        true
    }
}
