//! Questions about packing: the value of a script is packed at once and in chunks.

use crate::calls::{Calls, tell_fault};
use crate::plans::{tell_bound, told_plan};
use crate::scripts::{Value, told};
use crate::writers::{Keeps, memory, tell_kept, trial_of};
use iim_dataset::Target;
use iim_object::{PackCause, Plan};
use iim_pack::{Packer, pack, packed_size};
use std::alloc::Global;
use vectors_layers::{Answers, Names, Words};
use wire_story::Lines;

/// The value to pack, and a packer whose calls are made one by one.
#[derive(Drop)]
pub(crate) struct Packing {
    alloc: Global,
    told: Option<Value>,
    calls: Calls,
}

impl Packing {
    /// Creates the state without a value or a packer.
    pub(crate) fn new(alloc: Global) -> Packing {
        Packing {
            alloc,
            told: None,
            calls: Calls::new(alloc),
        }
    }

    /// Replies to a question about scripts and packing. Returns false if the word is not one of
    /// them.
    pub(crate) fn answer(
        &mut self,
        out: &mut Answers,
        names: &Names,
        word: &str,
        words: &mut Words,
    ) -> bool {
        match word {
            "script" => self.read(out, words.octets(names).as_slice()),
            "pack_trailer" => self.set_trailer(out, words.octets(names)),
            "pack_size" => self.tell_size(out),
            "pack_bound" => tell_bound(out, words),
            "pack" => self.pack(out, words),
            "pack_cut" => self.pack_in_pieces(out, words),
            "packer" => self.start(out, words),
            _ => return self.calls.answer(out, names, word, words),
        }
        true
    }

    /// Parses a script, and prints its contents.
    fn read(&mut self, out: &mut Answers, octets: &[u8]) {
        self.told = told(self.alloc, out, octets);
    }

    /// Returns the value of the last script. Returns `None` and reports an error if there is none.
    fn script(&self, out: &mut Answers) -> Option<&Value> {
        if self.told.is_none() {
            out.fail(NO_VALUE);
        }
        self.told.as_ref()
    }

    /// Replaces the trailer of the value with these octets, which may be invalid.
    fn set_trailer(&mut self, out: &mut Answers, octets: Vec<u8>) {
        match &mut self.told {
            Some(script) => script.trailer = octets,
            None => out.fail(NO_VALUE),
        }
    }

    /// Prints the length of the object.
    fn tell_size(&self, out: &mut Answers) {
        if let Some(script) = self.script(out) {
            let trailer = script.trailer.as_slice();
            out.found(packed_size(&script.head, &script.lines, trailer));
        }
    }

    /// Packs the value in one call.
    fn pack(&self, out: &mut Answers, words: &mut Words) {
        let Some(script) = self.script(out) else {
            return;
        };
        let Some(plan) = told_plan(out, words) else {
            return;
        };
        match trial_of(words) {
            Some(trial) => pack_over(self.alloc, out, script, plan, trial),
            None => pack_over(self.alloc, out, script, plan, memory(self.alloc)),
        }
    }

    /// Packs the value with its text in chunks, for each length of chunks up to the given one.
    /// Prints each result that differs from the previous one.
    fn pack_in_pieces(&self, out: &mut Answers, words: &mut Words) {
        let most = words.number();
        let Some(script) = self.script(out) else {
            return;
        };
        if let Some(plan) = told_plan(out, words) {
            tell_lengths(self.alloc, out, script, plan, most);
        }
    }

    /// Starts a packer for the value.
    fn start(&mut self, out: &mut Answers, words: &mut Words) {
        let Some(script) = &self.told else {
            out.fail(NO_VALUE);
            return;
        };
        if let Some(plan) = told_plan(out, words) {
            self.calls.start(out, script, plan, words);
        }
    }
}

/// The error if there is nothing to pack.
const NO_VALUE: &str = "no script has told a value";

/// Packs the value of a script in one call, and prints the packed form or the error.
fn pack_over<K: Keeps>(alloc: Global, out: &mut Answers, script: &Value, plan: Plan, writer: K) {
    let trailer = script.trailer.as_slice();
    let packed = pack(
        alloc,
        &script.envelope,
        &script.head,
        &script.lines,
        trailer,
        plan,
        writer,
    );
    match packed {
        Ok(writer) => {
            out.put("  packed ");
            tell_kept(alloc, out, writer);
            out.end();
        }
        Err(fault) => tell_fault(alloc, out, fault),
    }
}

/// Prints the result for chunks of a length.
fn tell_pieces(out: &mut Answers, length: u64, octets: &[u8]) {
    out.number("  pieces of ", length);
    out.octets_line(" packed ", octets);
}

/// Prints that chunks of a length are rejected.
fn tell_refused(out: &mut Answers, length: u64) {
    out.number("  pieces of ", length);
    out.put(" refused\n");
}

/// Packs the value of a script in chunks, for each length of chunks up to `most`, until a chunk is
/// rejected.
fn tell_lengths(alloc: Global, out: &mut Answers, script: &Value, plan: Plan, most: u64) {
    let mut before = Vec::new(alloc);
    for length in 1..most.saturating_add(1) {
        let Some(octets) = in_pieces(alloc, script, plan, length) else {
            tell_refused(out, length);
            break;
        };
        if octets.as_slice() != before.as_slice() {
            tell_pieces(out, length, octets.as_slice());
        }
        before = octets;
    }
}

/// Passes a line in chunks of up to `most` octets, with an empty chunk before each.
fn take_line<W: Target>(packer: &mut Packer<W>, line: &[u8], most: u64) -> Result<(), PackCause> {
    for piece in line.chunks((most as usize).max(1)) {
        packer.text(b"")?;
        packer.text(piece)?;
    }
    Ok(())
}

/// Passes lines in chunks of up to `most` octets, with an empty chunk before each.
fn take_lines<W: Target>(
    packer: &mut Packer<W>,
    lines: &Lines,
    most: u64,
) -> Result<(), PackCause> {
    let mut is_first = true;
    for line in lines.iter() {
        if !is_first {
            packer.line_end()?;
        }
        is_first = false;
        take_line(packer, line, most)?;
    }
    Ok(())
}

/// Packs the value of a script in chunks of up to `most` octets. Returns `None` if a chunk is
/// rejected.
fn in_pieces(alloc: Global, script: &Value, plan: Plan, most: u64) -> Option<Vec<u8>> {
    let writer = memory(alloc);
    let mut packer = Packer::start(alloc, &script.envelope, &script.head, plan, writer).ok()?;
    take_lines(&mut packer, &script.lines, most).ok()?;
    let writer = packer.finish(script.trailer.as_slice()).ok()?;
    Some(writer.into_inner())
}
