//! Packs the envelope that a script specifies.

ghost use Rattle.std.specs.Prelude.{◌≡◌, ℕ, ◌<◌, ◌≤◌, ◌⊎◌, List, None, length, IfOk, IfErr, IfSome, IfNone, OnErr};
ghost use Rattle.wire_message.specs.Format.Messages.{IsTrailer};
ghost use Rattle.wire_story.specs.Format.Texts.{IsText, packed_text};
ghost use Rattle.iim_object.specs.declared.writing.cause.PackCause.TheVariants as causes;
ghost use Rattle.iim_pack.specs.States.Packing.{pack_cause};
ghost use Rattle.iim_script.specs.Format.Scripts.{text_lines};
ghost use Rattle.iim_output.specs.States.Devices.{devices};
ghost use Rattle.iim_pack_script.specs.Format.{CompletesPack, FailsToPack, WritesForm, IsPast, IsRequestedPlan, IsReadInput, IsScriptOf, FailsToComplete, FailsToRead, asked, object_of, refusal_line};
ghost use Rattle.iim_pack_script.specs.Steps.{IsFaultFor, ReadsSome, IsFailedRead, IsFaultOfScript, content_of};
ghost use Rattle.iim_output.specs.Format.{IsPrinted, status_refused};
ghost use Rattle.iim_output.specs.declared.fault.CommandFault.TheVariants.{OutOfMemory};

use crate::blocks::BlockTarget;
use crate::script::read_script;
use crate::text::{object_len, pack_text};
use iim_dataset::device_laws::reads_join;
use iim_dataset::{BLOCK, Source, Target, take};
use iim_object::{PackCause, Plan, Size};
use iim_output::fault::CommandFault;
use iim_output::lines::write_with_status;
use iim_output::status::{ACCEPTED, REFUSED};
use iim_pack::laws::packed_form_is_unique;
pub use iim_request::pack_request::PackRequest;
use iim_script::{MAX_SCRIPT, Script, ScriptCause, ScriptFault};
use std::alloc::Global;
use std::error::Error;
use std::fmt;
use std::fmt::{Display, Formatter};

/// Why no envelope was packed.
#[derive(Debug, Drop)]
pub enum PackFault {
    /// The script is rejected.
    Refused {
        /// The line that is reported, from 1, or 0 if the script is too long.
        line: u64,
        /// The number of the cause.
        number: u8,
        /// The name of the cause.
        name: &'static str,
    },
    /// Reading, writing or an allocation failed.
    Around(CommandFault),
}

/// Writes the line that the command prints, without its line end.
impl Display for PackFault {
    fn fmt<W: fmt::Write>(&self, f: &mut Formatter<W>) -> fmt::Result {
        match self {
            PackFault::Refused { line, number, name } => {
                write!(f, "script line {line} cause {number} {name}")
            }
            PackFault::Around(fault) => write!(f, "{fault}"),
        }
    }
}

impl Error for PackFault {}

/// Reads once, with retries after interruptions, and appends what was read to the script. Returns
/// the number of octets read, which is 0 only at the end.
fn read_some<R: Source>(
    reader: &mut R,
    block: &mut [u8],
    script: &mut Vec<u8>,
) -> Result<usize, CommandFault>
    requires { 0 < length block.old }
    ensures got { IfOk result (ReadsSome (R.state reader.old) (R.state reader.new) script.old.items script.new.items) }
    ensures within { IfOk result (λ count. count ≤ length block.old) }
    ensures failed { IfErr result (IsFailedRead (R.state reader.old) (R.state reader.new) (length block.old)) }
    ensures leads { R.leads reader.old reader.new }
{
    match take(reader, block) {
        Ok(0) => Ok(0),
        Ok(count) => match script.extend_from_slice(&block[..count]) {
            Ok(()) => Ok(count),
            Err(_) => Err(CommandFault::OutOfMemory),
        },
        Err(_) => Err(CommandFault::CannotRead),
    }
}

/// Reads a complete input, up to one octet more than a script may have.
fn read_input<R: Source>(alloc: Global, reader: &mut R) -> Result<Vec<u8>, CommandFault>
    ensures read { IfOk result (λ script. IsReadInput (R.state reader.old) (R.state reader.new) script.items) }
    ensures unread { IfErr result (FailsToRead (R.state reader.old) (R.state reader.new)) }
    ensures leads { R.leads reader.old reader.new }
{
    reads_join();
    let mut script = Vec::new(alloc);
    let mut block = [0u8; BLOCK];
    while script.len() <= MAX_SCRIPT {
        let room = BLOCK.min(MAX_SCRIPT + 1 - script.len());
        match read_some(reader, &mut block[..room], &mut script) {
            Ok(0) => return Ok(script),
            Ok(_) => {}
            Err(fault) => return Err(fault),
        }
    }
    Ok(script)
}

/// Returns the plan that is requested, or `None` if the object exceeds the requested size.
fn plan_of(request: PackRequest, told: &Script<'_>) -> Option<Plan>
    requires trailer { IsTrailer told.now.trailer.items }
    requires len { told.now.text_len ≡ length (packed_text (text_lines told.now.text.now)) }
    ensures plan { IfSome result (IsRequestedPlan (asked request.subfile request.unknown request.max)
        (object_of (content_of told.now))) }
    ensures fits { IfSome result (λ plan. pack_cause told.now.head (text_lines told.now.text.now)
        told.now.trailer.items plan ≡ None) }
    ensures past { IfNone result (IsPast (asked request.subfile request.unknown request.max) (content_of told.now)) }
{
    let len = object_len(
        &told.head,
        told.text,
        told.text_len,
        told.trailer.as_slice(),
    )?;
    let size = if request.unknown {
        Size::Unknown(request.max)
    } else {
        Size::Known(len)
    };
    let plan = Plan::new(request.subfile, size)?;
    if len > plan.bound() {
        return None;
    }
    Some(plan)
}

/// Converts the cause of a packer to an error. `text_line` is the number of the line `text` of the
/// script. Only one cause is possible if the trailer is valid and a known size equals that of the
/// object.
fn fault_for(cause: PackCause, text_line: u64) -> PackFault
    requires { (cause ≡ causes.PastAnnounced) ⊎ (cause ≡ causes.OutOfMemory) ⊎ (cause ≡ causes.Write) }
    ensures { IsFaultFor cause text_line result }
{
    match cause {
        PackCause::PastAnnounced => PackFault::Refused {
            line: text_line,
            number: cause.number(),
            name: cause.name(),
        },
        PackCause::OutOfMemory => PackFault::Around(CommandFault::OutOfMemory),
        PackCause::Write => PackFault::Around(CommandFault::CannotWrite),
        _ => unreachable!(),
    }
}

/// Packs the contents of a script through a block, and returns the output.
fn pack_contents<W: Target>(
    alloc: Global,
    request: PackRequest,
    told: &Script<'_>,
    output: W,
) -> Result<W, (PackFault, W)>
    requires trailer { IsTrailer told.now.trailer.items }
    requires text { IsText told.now.text.now (text_lines told.now.text.now) }
    requires len { told.now.text_len ≡ length (packed_text (text_lines told.now.text.now)) }
    ensures packed { IfOk result (λ last. (octets : List ℕ) → IsScriptOf octets (content_of told.now)
        → WritesForm (asked request.subfile request.unknown request.max) octets (W.state output) (W.state last)) }
    ensures unpacked { IfErr result (λ left. (octets : List ℕ) → IsScriptOf octets (content_of told.now)
        → FailsToPack (asked request.subfile request.unknown request.max) octets (W.state output) (W.state left.1)
        left.0) }
{
    let Some(plan) = plan_of(request, told) else {
        return Err((fault_for(PackCause::PastAnnounced, told.text_line), output));
    };
    packed_form_is_unique();
    let mut block = [0u8; BLOCK];
    match pack_text(
        alloc,
        &told.envelope,
        &told.head,
        told.text,
        told.trailer.as_slice(),
        plan,
        BlockTarget::new(&mut block, output),
    ) {
        Ok(packed) => match packed.finish() {
            Ok(output) => Ok(output),
            Err(output) => Err((PackFault::Around(CommandFault::CannotWrite), output)),
        },
        Err(fault) => Err((
            fault_for(fault.cause, told.text_line),
            fault.writer.into_writer(),
        )),
    }
}

/// Converts an error of a script.
fn fault_of(fault: ScriptFault) -> PackFault
    ensures { IsFaultOfScript fault result }
{
    match fault.cause {
        ScriptCause::OutOfMemory => PackFault::Around(CommandFault::OutOfMemory),
        cause => PackFault::Refused {
            line: fault.line,
            number: cause.number(),
            name: cause.name(),
        },
    }
}

/// Packs the envelope that a script in memory specifies. Returns the output, to which the packed
/// form was written.
///
/// **Errors:** the first error of the script; `80 PastAnnounced` for the line `text` if the object
/// exceeds the requested size; `CannotWrite` if a write fails, after which a prefix of the packed
/// form was written; `OutOfMemory`. Each error has the output. All but `CannotWrite` write nothing.
pub fn pack_octets<W: Target>(
    alloc: Global,
    request: PackRequest,
    octets: &[u8],
    output: W,
) -> Result<W, (PackFault, W)>
    ensures packed { IfOk result (λ last.
        WritesForm (asked request.subfile request.unknown request.max) octets.now (W.state output) (W.state last)) }
    ensures unpacked { IfErr result (λ left.
        FailsToPack (asked request.subfile request.unknown request.max) octets.now (W.state output) (W.state left.1)
        left.0) }
{
    match read_script(alloc, octets) {
        Ok(told) => pack_contents(alloc, request, &told, output),
        Err(fault) => Err((fault_of(fault), output)),
    }
}

/// Prints the refusal of a line, and returns the exit status.
fn print_refusal<E: Target>(
    alloc: Global,
    errors: &mut E,
    line: u64,
    number: u8,
    name: &str,
) -> Result<u8, CommandFault>
    ensures told { IfOk result (IsPrinted (E.state errors.old) (E.state errors.new) (refusal_line line number name.now)
        status_refused) }
    ensures memory { IfErr result (λ fault. fault ≡ OutOfMemory) }
    ensures nothing { OnErr result (errors.new ≡ errors.old) }
{
    match format!(in alloc; "refused: script line {line} cause {number} {name}\n") {
        Ok(text) => Ok(write_with_status(errors, text.as_bytes(), REFUSED)),
        Err(_) => Err(CommandFault::OutOfMemory),
    }
}

/// Packs the envelope that a script specifies: reads the script from `reader`, up to one octet more
/// than a script may have, and writes the packed form to `output`. Returns the exit status and the
/// output.
///
/// The status is 0 if the packed form was written. It is 1 if the script is rejected, which a line
/// on `errors` reports, such as `refused: script line 4 cause 13 CountRange`: the first error of
/// the script, or `80 PastAnnounced` for the line `text` if the object exceeds the requested size.
/// It is 3 if that line cannot be written.
///
/// **Errors**, which are not printed here: `CannotRead` if a read fails; `CannotWrite` if a write
/// to the output fails, after which a prefix of the packed form was written; `OutOfMemory` if an
/// allocation fails. Nothing is written to the output unless the status is 0 or the error is
/// `CannotWrite`.
pub fn pack_script<R: Source, W: Target, E: Target>(
    alloc: Global,
    request: PackRequest,
    reader: &mut R,
    output: W,
    errors: &mut E,
) -> (Result<u8, CommandFault>, W)
    ensures completed { IfOk result.0 (CompletesPack (asked request.subfile request.unknown request.max)
        (devices (R.state reader.old) (W.state output) (E.state errors.old))
        (devices (R.state reader.new) (W.state result.1) (E.state errors.new))) }
    ensures fails { IfErr result.0 (FailsToComplete (asked request.subfile request.unknown request.max)
        (devices (R.state reader.old) (W.state output) (E.state errors.old))
        (devices (R.state reader.new) (W.state result.1) (E.state errors.new))) }
    ensures prints_nothing { OnErr result.0 (errors.new ≡ errors.old) }
    ensures leads { R.leads reader.old reader.new }
{
    let octets = match read_input(alloc, reader) {
        Ok(octets) => octets,
        Err(fault) => return (Err(fault), output),
    };
    match pack_octets(alloc, request, octets.as_slice(), output) {
        Ok(output) => (Ok(ACCEPTED), output),
        Err((PackFault::Refused { line, number, name }, output)) => {
            (print_refusal(alloc, errors, line, number, name), output)
        }
        Err((PackFault::Around(fault), output)) => (Err(fault), output),
    }
}
