//! Parses a script.

ghost use Rattle.std.specs.Prelude.{◌≡◌, ◌≤◌, ◌+◌, ◌⊎◌, ◌++◌, [], ℕ, List, length, slice_index, IfOk, IfErr, OnOk, None};
ghost use Rattle.iim_fields.specs.States.Standing.{missing_field_fault};
ghost use Rattle.iim_script.specs.Format.Scripts.{DescribesField, DescribesHead, DescribesTrailer, text_word, NextLine, IsFront, IsScript, max_script, text_lines};
ghost use Rattle.wire_message.specs.Format.Messages.{Header, IsTrailer};
ghost use Rattle.wire_story.specs.Format.Texts.{IsText, packed_text};
ghost use Rattle.iim_dataset.specs.Format.Datasets.{Dataset};
ghost use Rattle.iim_fields.specs.declared.limits.Limits.{Limits};
ghost use Rattle.iim_fields.specs.declared.fault.FieldCause.{FieldCause};
ghost use Rattle.iim_dataset.specs.Format.Octets.{is_digit};
ghost use Rattle.iim_script.specs.Format.Causes.{Stage, ReachesStage, InFields, AfterMessage, HasNoForm, IsIncompleteEnvelope, IsBadLine, IsScriptFault};
ghost use Rattle.iim_script.specs.Steps.{NextLineIs, RejectsNextLine};

use crate::fault::{ScriptCause, ScriptFault, fault_after};
use crate::field::add_line;
use crate::line::next_line;
use crate::message::{read_head_line, read_trailer_line};
use crate::number::is_decimal;
use crate::rest::Rest;
use crate::script::Script;
use crate::story::read_story;
use iim_fields::{Envelope, EnvelopeBuilder, Limits};
use std::alloc::Global;
use wire_message::{MessageHead, is_trailer};

/// The maximum size of a script, in octets.
pub const MAX_SCRIPT: usize = 16_777_216;

/// The line that precedes the story.
const TEXT: &[u8] = b"text";

/// The parsed lines before the story, and the story.
#[derive(Drop)]
struct Front<'a> {
    envelope: Envelope,
    head: MessageHead,
    trailer: Vec<u8>,
    story: Rest<'a>,
}

/// Checks whether a line begins with a digit, as the line of a dataset does.
fn begins_field(line: &[u8]) -> bool
    ensures { result ≡ is_digit (slice_index line.now 0) }
{
    if line.is_empty() {
        return false;
    }
    is_decimal(line[0])
}

/// Parses the lines of datasets at the start of a script, and adds the datasets to the builder.
/// Returns the rest.
fn read_fields<'a>(
    alloc: Global,
    script: &'a [u8],
    builder: &mut EnvelopeBuilder,
) -> Result<Rest<'a>, ScriptFault>
    requires none { builder.old.fields ≡ [] }
    requires short { length script.now ≤ max_script }
    ensures stands { IfOk result (λ rest.
        ReachesStage builder.old.limits script.now (InFields builder.new.fields) rest.octets.now rest.lines) }
    ensures all { IfOk result (λ rest. NextLineIs (HasNoForm DescribesField) rest.octets.now) }
    ensures fault { IfErr result (λ fault. IsScriptFault builder.old.limits script.now fault.line fault.cause) }
{
    let mut rest = Rest {
        octets: script,
        lines: 0,
    };
    while let Some((line, after)) = next_line(rest.octets) {
        if !begins_field(line) {
            return Ok(rest);
        }
        match add_line(alloc, line, builder) {
            Ok(()) => {
                rest = Rest {
                    octets: after,
                    lines: rest.lines + 1,
                }
            }
            Err(cause) => return Err(fault_after(rest.lines, cause)),
        }
    }
    Ok(rest)
}

/// Parses the next line as the header. Returns the header and the rest.
fn read_head<'a>(alloc: Global, rest: Rest<'a>) -> Result<(MessageHead, Rest<'a>), ScriptFault>
    ensures told { IfOk result (λ read.
        (line : List ℕ) × NextLine rest.entry.octets.now line read.1.octets.now × DescribesHead line read.0) }
    ensures counted { IfOk result (λ read. read.1.lines ≡ rest.entry.lines + 1) }
    ensures fault { IfErr result (λ fault.
        (limits : Limits) (ds : List Dataset) → NextLineIs (HasNoForm DescribesField) rest.entry.octets.now →
        RejectsNextLine limits (InFields ds) rest.entry.octets.now rest.entry.lines fault) }
{
    let Some((line, after)) = next_line(rest.octets) else {
        return Err(fault_after(rest.lines, ScriptCause::ScriptLine));
    };
    match read_head_line(alloc, line) {
        Ok(Some(head)) => Ok((
            head,
            Rest {
                octets: after,
                lines: rest.lines + 1,
            },
        )),
        Ok(None) => Err(fault_after(rest.lines, ScriptCause::ScriptLine)),
        Err(_) => Err(fault_after(rest.lines, ScriptCause::OutOfMemory)),
    }
}

/// Parses the next line as the trailer. Returns the trailer and the rest. If the next line has
/// another form, it is not consumed, and the trailer is empty.
fn read_trailer<'a>(alloc: Global, rest: Rest<'a>) -> Result<(Vec<u8>, Rest<'a>), ScriptFault>
    ensures taken { IfOk result (λ read.
        ((line : List ℕ) × NextLine rest.entry.octets.now line read.1.octets.now
        × DescribesTrailer line read.0.items × IsTrailer read.0.items × (read.1.lines ≡ rest.entry.lines + 1))
        ⊎ (NextLineIs (HasNoForm DescribesTrailer) rest.entry.octets.now × (read.0.items ≡ [])
        × (read.1.octets.now ≡ rest.entry.octets.now) × (read.1.lines ≡ rest.entry.lines))) }
    ensures fault { IfErr result (λ fault. (limits : Limits) (ds : List Dataset) (head : Header) →
        RejectsNextLine limits (AfterMessage ds head) rest.entry.octets.now rest.entry.lines fault) }
{
    let Some((line, after)) = next_line(rest.octets) else {
        return Ok((Vec::new(alloc), rest));
    };
    let octets = match read_trailer_line(alloc, line) {
        Ok(Some(octets)) => octets,
        Ok(None) => return Ok((Vec::new(alloc), rest)),
        Err(_) => return Err(fault_after(rest.lines, ScriptCause::OutOfMemory)),
    };
    if !is_trailer(octets.as_slice()) {
        return Err(fault_after(rest.lines, ScriptCause::BadTrailer));
    }
    Ok((
        octets,
        Rest {
            octets: after,
            lines: rest.lines + 1,
        },
    ))
}

/// Parses the line `text`. Returns the story after it.
fn read_text<'a>(rest: Rest<'a>) -> Result<Rest<'a>, ScriptFault>
    ensures text { IfOk result (λ story. NextLine rest.entry.octets.now text_word story.octets.now) }
    ensures counted { IfOk result (λ story. story.lines ≡ rest.entry.lines + 1) }
    ensures fault { IfErr result (λ fault. (limits : Limits) (stage : Stage)
        → NextLineIs (λ line. (line ≡ text_word → ⊥) → IsBadLine limits stage line ScriptCause.ScriptLine)
        rest.entry.octets.now → RejectsNextLine limits stage rest.entry.octets.now rest.entry.lines fault) }
{
    let Some((line, after)) = next_line(rest.octets) else {
        return Err(fault_after(rest.lines, ScriptCause::ScriptLine));
    };
    if line != TEXT {
        return Err(fault_after(rest.lines, ScriptCause::ScriptLine));
    }
    Ok(Rest {
        octets: after,
        lines: rest.lines + 1,
    })
}

/// Returns the envelope of the builder. `lines` is the number of lines before the line `text`,
/// which an error is reported at.
fn finish(builder: EnvelopeBuilder, lines: u64) -> Result<Envelope, ScriptFault>
    requires { lines ≤ max_script }
    ensures whole { OnOk result (missing_field_fault builder.fields ≡ None) }
    ensures envelope { IfOk result (λ envelope. envelope ≡ builder.fields) }
    ensures line { IfErr result (λ fault. fault.line ≡ lines + 1) }
    ensures fault { IfErr result (λ fault. (cause : FieldCause) × (fault.cause ≡ ScriptCause.Field cause)
        × IsIncompleteEnvelope builder.fields text_word cause) }
{
    match builder.finish() {
        Ok(envelope) => Ok(envelope),
        Err((_, fault)) => Err(fault_after(lines, ScriptCause::Field(fault.cause))),
    }
}

/// Parses the lines before the story. Returns their contents and the story.
fn read_front<'a>(alloc: Global, limits: Limits, script: &'a [u8]) -> Result<Front<'a>, ScriptFault>
    requires { length script.now ≤ max_script }
    ensures front { IfOk result (λ front. IsFront limits script.now front.envelope front.head front.trailer.items
        front.story.lines front.story.octets.now) }
    ensures fault { IfErr result (λ fault. IsScriptFault limits script.now fault.line fault.cause) }
{
    let Ok(mut builder) = EnvelopeBuilder::new(alloc, limits) else {
        return Err(fault_after(0, ScriptCause::OutOfMemory));
    };
    let after_fields = read_fields(alloc, script, &mut builder)?;
    let (head, after_head) = read_head(alloc, after_fields)?;
    let (trailer, after_trailer) = read_trailer(alloc, after_head)?;
    let story = read_text(after_trailer)?;
    let envelope = finish(builder, after_trailer.lines)?;
    Ok(Front {
        envelope,
        head,
        trailer,
        story,
    })
}

/// Parses a script whose datasets are within the limits. Returns its contents, or its first error
/// with the number of the line.
pub fn read_script<'a>(
    alloc: Global,
    limits: Limits,
    script: &'a [u8],
) -> Result<Script<'a>, ScriptFault>
    ensures script { IfOk result (λ told. IsScript limits script.now told.envelope told.head told.trailer.items
        (text_lines told.text.now) told.text_line) }
    ensures text { IfOk result (λ told. IsText told.text.now (text_lines told.text.now)) }
    ensures len { IfOk result (λ told. told.text_len ≡ length (packed_text (text_lines told.text.now))) }
    ensures fault { IfErr result (λ fault. IsScriptFault limits script.now fault.line fault.cause) }
{
    if script.len() > MAX_SCRIPT {
        return Err(ScriptFault {
            line: 0,
            cause: ScriptCause::ScriptTooLong,
        });
    }
    let front = read_front(alloc, limits, script)?;
    let text = read_story(front.story)?;
    Ok(Script {
        envelope: front.envelope,
        head: front.head,
        text: text.octets,
        text_len: text.packed_len,
        trailer: front.trailer,
        text_line: front.story.lines,
    })
}
