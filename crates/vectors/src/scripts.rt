//! Questions about scripts.

use iim_fields::{Envelope, Limits};
use iim_script::{Script, ScriptFault, read_script};
use std::alloc::Global;
use vectors_layers::{Answers, tell_header, tell_lines};
use wire_message::MessageHead;
use wire_story::{Lines, TextReader};

/// The contents of a script, with the lines of its story.
#[derive(Drop)]
pub(crate) struct Value {
    pub(crate) envelope: Envelope,
    pub(crate) head: MessageHead,
    pub(crate) lines: Lines,
    pub(crate) trailer: Vec<u8>,
    text_line: u64,
}

/// Returns the lines of a text, or `None` if an allocation failed.
fn lines_of(alloc: Global, text: &[u8]) -> Option<Lines> {
    let mut lines = Lines::new(alloc);
    TextReader::new().run(text, &mut lines).ok()?;
    Some(lines)
}

/// Returns the contents of a script, with the lines of its story. Returns `None` if an allocation
/// failed.
fn collected(alloc: Global, script: Script<'_>) -> Option<Value> {
    Some(Value {
        lines: lines_of(alloc, script.text)?,
        envelope: script.envelope,
        head: script.head,
        trailer: script.trailer,
        text_line: script.text_line,
    })
}

/// Prints the contents of a script. Returns them with the lines of the story.
fn told_script(alloc: Global, out: &mut Answers, script: Script<'_>) -> Option<Value> {
    let told = collected(alloc, script);
    match &told {
        Some(value) => tell(out, value),
        None => out.fail("the text of a script is no text, or memory was refused"),
    }
    told
}

/// Parses a script, and prints its contents or its error. Returns the contents.
pub(crate) fn told(alloc: Global, out: &mut Answers, octets: &[u8]) -> Option<Value> {
    match read_script(alloc, Limits::WIRE, octets) {
        Ok(script) => told_script(alloc, out, script),
        Err(fault) => {
            tell_fault(out, fault);
            None
        }
    }
}

/// Prints the error of a script.
fn tell_fault(out: &mut Answers, fault: ScriptFault) {
    out.number("  line ", fault.line);
    out.put(" cause ");
    out.show(&fault.cause.number());
    out.put(" ");
    out.put(fault.cause.name());
    out.end();
}

/// Prints the contents of a script.
fn tell(out: &mut Answers, script: &Value) {
    for (rec, set, octets) in script.envelope.fields() {
        out.field_line("  field ", rec, set, octets);
    }
    tell_header(out, "message", &script.head);
    out.octets_line("  trailer ", script.trailer.as_slice());
    tell_lines(out, &script.lines);
    out.number_line("  text at line ", script.text_line);
}
