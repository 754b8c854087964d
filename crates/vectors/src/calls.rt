//! Questions about the calls of a packer.

use crate::scripts::Value;
use crate::writers::{Keeps, Memory, Trial, memory, tell_kept, trial_of};
use iim_object::{PackCause, Plan, StartFault};
use iim_pack::Packer;
use std::alloc::Global;
use vectors_layers::{Answers, Names, Words};

/// A packer, or its output after the packer has ended.
#[derive(Drop)]
pub(crate) enum Begun {
    Whole(Packer<Memory>),
    Trial(Packer<Trial>),
    Ended(Vec<u8>),
}

/// The packer that questions refer to.
#[derive(Drop)]
pub(crate) struct Calls {
    alloc: Global,
    begun: Option<Begun>,
}

/// The error if there is no packer.
const NO_PACKER: &str = "there is no packer";

/// Begins a line with a cause and the number of octets written.
fn tell_cause(out: &mut Answers, cause: PackCause, written: u64) {
    out.put("  ");
    out.show(&cause);
    out.number(" written ", written);
}

/// Prints why nothing was packed, and the octets written.
pub(crate) fn tell_fault<K: Keeps>(alloc: Global, out: &mut Answers, fault: StartFault<K>) {
    let StartFault {
        cause,
        writer,
        written,
    } = fault;
    tell_cause(out, cause, written);
    out.put(" out ");
    tell_kept(alloc, out, writer);
    out.end();
}

/// Prints the result of a call of a packer. If the call failed, also prints the number of octets
/// written.
fn tell_call(out: &mut Answers, answer: Result<(), PackCause>, written: u64) {
    match answer {
        Ok(()) => out.line("ok"),
        Err(cause) => {
            tell_cause(out, cause, written);
            out.end();
        }
    }
}

/// Returns the state after the end of a packer with this writer, or `None` if an allocation failed.
fn ended<K: Keeps>(alloc: Global, out: &mut Answers, writer: K) -> Option<Begun> {
    match writer.kept(alloc) {
        Some(octets) => Some(Begun::Ended(octets)),
        None => {
            out.lack_memory();
            None
        }
    }
}

/// Ends a packer, prints the result, and returns the state afterwards.
fn end<K: Keeps>(
    alloc: Global,
    out: &mut Answers,
    packer: Packer<K>,
    trailer: &[u8],
) -> Option<Begun> {
    match packer.finish(trailer) {
        Ok(writer) => {
            out.line("ok");
            ended(alloc, out, writer)
        }
        Err((packer, cause)) => {
            tell_call(out, Err(cause), packer.written());
            Some(K::begun(packer))
        }
    }
}

/// Starts a packer, and prints the result. Returns `None` if the packer could not be started.
fn started<K: Keeps>(
    alloc: Global,
    out: &mut Answers,
    script: &Value,
    plan: Plan,
    writer: K,
) -> Option<Begun> {
    match Packer::start(alloc, &script.envelope, &script.head, plan, writer) {
        Ok(packer) => {
            out.line("ok");
            Some(K::begun(packer))
        }
        Err(fault) => {
            tell_fault(alloc, out, fault);
            None
        }
    }
}

impl Begun {
    /// Passes text to the packer, and prints the result.
    fn text(&mut self, out: &mut Answers, octets: &[u8]) {
        match self {
            Begun::Whole(packer) => tell_call(out, packer.text(octets), packer.written()),
            Begun::Trial(packer) => tell_call(out, packer.text(octets), packer.written()),
            Begun::Ended(_) => out.fail(NO_PACKER),
        }
    }

    /// Passes the end of a line to the packer, and prints the result.
    fn line_end(&mut self, out: &mut Answers) {
        match self {
            Begun::Whole(packer) => tell_call(out, packer.line_end(), packer.written()),
            Begun::Trial(packer) => tell_call(out, packer.line_end(), packer.written()),
            Begun::Ended(_) => out.fail(NO_PACKER),
        }
    }

    /// Returns the number of octets written.
    fn written(&self) -> u64 {
        match self {
            Begun::Whole(packer) => packer.written(),
            Begun::Trial(packer) => packer.written(),
            Begun::Ended(octets) => octets.len() as u64,
        }
    }

    /// Prints the octets written. The packer is consumed.
    fn tell_out(self, alloc: Global, out: &mut Answers) {
        match self {
            Begun::Whole(packer) => tell_kept(alloc, out, packer.into_writer()),
            Begun::Trial(packer) => tell_kept(alloc, out, packer.into_writer()),
            Begun::Ended(octets) => out.octets(octets.as_slice()),
        }
    }

    /// Ends the packer, prints the result, and returns the state afterwards.
    fn finish(self, alloc: Global, out: &mut Answers, trailer: &[u8]) -> Option<Begun> {
        match self {
            Begun::Whole(packer) => end(alloc, out, packer, trailer),
            Begun::Trial(packer) => end(alloc, out, packer, trailer),
            Begun::Ended(_) => {
                out.fail("the packer has ended");
                None
            }
        }
    }
}

impl Calls {
    /// Creates the value without a packer.
    pub(crate) fn new(alloc: Global) -> Calls {
        Calls { alloc, begun: None }
    }

    /// Starts a packer. It writes into memory, unless the words of the question name another
    /// writer.
    pub(crate) fn start(
        &mut self,
        out: &mut Answers,
        script: &Value,
        plan: Plan,
        words: &mut Words,
    ) {
        self.begun = match trial_of(words) {
            Some(trial) => started(self.alloc, out, script, plan, trial),
            None => started(self.alloc, out, script, plan, memory(self.alloc)),
        };
    }

    /// Replies to a question about the calls of a packer. Returns false if the word is not one of
    /// them.
    pub(crate) fn answer(
        &mut self,
        out: &mut Answers,
        names: &Names,
        word: &str,
        words: &mut Words,
    ) -> bool {
        match word {
            "pack_text" => self.text(out, words.octets(names).as_slice()),
            "pack_line_end" => self.line_end(out),
            "pack_finish" => self.finish(out, words.octets(names).as_slice()),
            "pack_written" => self.tell_written(out),
            "pack_out" => self.tell_out(out),
            _ => return false,
        }
        true
    }

    /// Passes text to the packer.
    fn text(&mut self, out: &mut Answers, octets: &[u8]) {
        match &mut self.begun {
            Some(begun) => begun.text(out, octets),
            None => out.fail(NO_PACKER),
        }
    }

    /// Passes the end of a line to the packer.
    fn line_end(&mut self, out: &mut Answers) {
        match &mut self.begun {
            Some(begun) => begun.line_end(out),
            None => out.fail(NO_PACKER),
        }
    }

    /// Ends the packer, if there is one.
    fn finish(&mut self, out: &mut Answers, trailer: &[u8]) {
        match self.begun.take() {
            Some(begun) => self.begun = begun.finish(self.alloc, out, trailer),
            None => out.fail(NO_PACKER),
        }
    }

    /// Prints the number of octets written.
    fn tell_written(&self, out: &mut Answers) {
        match &self.begun {
            Some(begun) => out.number_line("  ", begun.written()),
            None => out.fail(NO_PACKER),
        }
    }

    /// Prints the octets written. The packer is consumed.
    fn tell_out(&mut self, out: &mut Answers) {
        out.put("  ");
        match self.begun.take() {
            Some(begun) => begun.tell_out(self.alloc, out),
            None => out.fail(NO_PACKER),
        }
        out.end();
    }
}
