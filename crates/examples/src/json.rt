//! Prints copy as JSON: each envelope of standard input as a line of standard output.

ghost use Rattle.std.specs.Prelude.{◌≡◌, None, IfOk, string_bytes};
ghost use Rattle.std.specs.Io.KnownBytes.{IsAtEnd};
ghost use Rattle.iim_dataset.specs.Format.Datasets.{shown};
ghost use Rattle.iim_unpack.specs.States.Intakes.{input_of};

use anyhow::{Result, bail};
use iim_dataset::{DatasetName, FromRead, Source, push_with_escapes};
use iim_fields::{Envelope, Limits};
use iim_unpack::{Intake, Unpacked, Unpacker};
use serde_json::{Map, Value, json, put};
use std::alloc::Global;
use std::io::Write;
use wire_story::Lines;

/// Prints the envelopes of standard input.
pub fn run(rt: &HostRuntime) -> Result<()> {
    let mut intake = Intake::new(FromRead::new(rt.stdin()));
    print_all(rt.alloc(), &mut intake, &mut rt.stdout())
}

/// Prints each envelope. Succeeds only if the whole input was accepted.
fn print_all<R: Source, W: Write>(
    alloc: Global,
    intake: &mut Intake<R>,
    output: &mut W,
) -> Result<()>
    requires { intake.old.failed ≡ None }
    ensures { IfOk result (λ _. IsAtEnd (input_of R.state intake.new).octets × (intake.new.failed ≡ None)) }
{
    'receiving: for number in 1..u64::MAX {
        let unpacker = Unpacker::new(alloc, Limits::WIRE)?;
        let mut lines = Lines::new(alloc);
        match intake.next_envelope(unpacker, &mut lines) {
            Ok(Some(unpacked)) => print(alloc, output, number, &unpacked, &lines)?,
            Ok(None) => return Ok(()),
            Err(fault) => bail!("envelope {number}: {fault}"),
        }
    }
    bail!("too many envelopes")
}

/// Prints an envelope: its number in the input, its datasets, the parts of its message, and the
/// lines of its story.
fn print<W: Write>(
    alloc: Global,
    output: &mut W,
    number: u64,
    unpacked: &Unpacked,
    lines: &Lines,
) -> Result<()> {
    let mut members = Map::new(alloc);
    put(&mut members, alloc, "envelope", Value::from(number))?;
    put_lists(alloc, &mut members, &unpacked.envelope, lines)?;
    put_texts(alloc, &mut members, unpacked)?;
    write_line(alloc, output, &Value::Object(members))
}

/// Writes a value as a line.
fn write_line<W: Write>(alloc: Global, output: &mut W, value: &Value) -> Result<()> {
    let text = value.to_string(alloc)?;
    Ok(writeln!(output, "{text}")?)
}

/// Adds the datasets and the lines of the story.
fn put_lists(
    alloc: Global,
    members: &mut Map<String, Value>,
    envelope: &Envelope,
    lines: &Lines,
) -> Result<()> {
    put(members, alloc, "fields", fields_of(alloc, envelope)?)?;
    Ok(put(members, alloc, "story", story_of(alloc, lines)?)?)
}

/// Adds the parts of the header, and the trailer.
fn put_texts(alloc: Global, members: &mut Map<String, Value>, unpacked: &Unpacked) -> Result<()> {
    let head = &unpacked.head;
    let parts = [
        ("source", head.source()),
        ("number", head.number()),
        ("priority", head.priority()),
        ("category", head.category()),
        ("words", head.words()),
        ("info", head.info()),
        ("trailer", unpacked.trailer.as_slice()),
    ];
    for (name, octets) in parts {
        put(members, alloc, name, Value::String(text_of(alloc, octets)?))?;
    }
    Ok(())
}

/// Converts the datasets to a list, in order.
fn fields_of(alloc: Global, envelope: &Envelope) -> Result<Value> {
    let mut fields = Vec::new(alloc);
    for (rec, set, octets) in envelope.fields() {
        fields.push(field_of(alloc, DatasetName { rec, set }, octets)?)?;
    }
    Ok(Value::Array(fields))
}

/// Converts a dataset to a list of two texts: its name and its data.
fn field_of(alloc: Global, name: DatasetName, octets: &[u8]) -> Result<Value> {
    let name = format!(in alloc; "{name}")?;
    let data = text_of(alloc, octets)?;
    Ok(json!(in alloc; [name, data])?)
}

/// Converts a story to a list of its lines.
fn story_of(alloc: Global, lines: &Lines) -> Result<Value> {
    let mut story = Vec::new(alloc);
    for line in lines.iter() {
        story.push(Value::String(text_of(alloc, line)?))?;
    }
    Ok(Value::Array(story))
}

/// Escapes octets as `show` prints them. The character set is unknown, so every octet outside 20 to
/// 7E hexadecimal, and the backslash, is written as `\x` and two hexadecimal digits.
fn text_of(alloc: Global, octets: &[u8]) -> Result<String>
    ensures { IfOk result (λ text. string_bytes text ≡ shown octets.now) }
{
    let mut text = Vec::new(alloc);
    push_with_escapes(&mut text, octets)?;
    Ok(String::from_utf8(text)?)
}
