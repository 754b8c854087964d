//! Runs a command on one file after another.

ghost use Rattle.std.specs.Prelude.{◌≡◌, ◌<◌, ◌⊎◌, ◌||◌, ℕ, IfOk, length, if◌then◌else◌, max};
ghost use Rattle.iim_output.specs.Format.{fault_line, status_failed};
ghost use Rattle.iim_files.specs.States.Runs.{RunsPrefixed, RunsFile, AllocationFails, LineIsPrinted, line_prefix, cannot_open_line, non_utf8_line, non_utf8_prefix};
ghost use Rattle.iim_files.specs.States.Seen.{empty_prefixed_device, seen};

use crate::prefixed::Prefixed;
use iim_commands::fault::CommandFault;
use iim_commands::lines::write_with_status;
use iim_commands::shown::push_name;
use iim_commands::status::{ACCEPTED, FAILED};
use iim_commands::{Job, Request, run};
use iim_dataset::internals::ReservedOctets;
use iim_dataset::{BLOCK, Source, Target, push_with_escapes, put};
use std::alloc::{AllocError, Global};

/// The result of a command on the files so far.
pub struct SoFar<W, E> {
    /// The greatest exit status so far.
    pub status: u8,
    /// Whether a write failed. If so, nothing more may be written.
    pub broken: bool,
    /// The output.
    pub output: W,
    /// The error output.
    pub errors: E,
}

/// Returns the result of a command on no files.
pub fn no_files<W, E>(output: W, errors: E) -> SoFar<W, E>
    ensures status { (result.status ≡ 0) }
    ensures targets { (result.output ≡ output) × (result.errors ≡ errors) }
{
    SoFar {
        status: ACCEPTED,
        broken: false,
        output,
        errors,
    }
}

/// Formats the prefix of each line of a file's output: the escaped name of the file, a colon and a
/// space.
fn prefix_of(alloc: Global, name: &str) -> Result<Vec<u8>, AllocError>
    ensures { IfOk result (λ prefix. prefix.items ≡ line_prefix name.now) }
{
    let mut prefix = Vec::new(alloc);
    push_name(&mut prefix, name)?;
    prefix.extend_from_slice(b": ")?;
    Ok(prefix)
}

/// Allocates a buffer for lines with a prefix.
fn allocate_block(alloc: Global, prefix: &[u8]) -> Result<ReservedOctets, AllocError>
    ensures { IfOk result (λ block. length prefix.now < block.room) }
{
    match prefix.len().checked_add(BLOCK) {
        Some(room) => ReservedOctets::new(alloc, room),
        None => Err(AllocError),
    }
}

/// Prints that the allocation for the lines of a file failed.
fn print_out_of_memory<W: Target, E: Target>(output: W, errors: E) -> SoFar<W, E>
    ensures { AllocationFails (W.state output, E.state errors)
        (W.state result.output, E.state result.errors) result.status }
{
    let mut errors = errors;
    let status = write_with_status(
        &mut errors,
        CommandFault::OutOfMemory.line().as_bytes(),
        FAILED,
    );
    SoFar {
        status,
        broken: false,
        output,
        errors,
    }
}

/// Returns whether at least one of the arguments is true.
fn either(first: bool, second: bool) -> bool
    ensures { result ≡ (first || second) }
{
    first || second
}

/// Returns the exit status, or the status of a failure if a write failed.
fn status_after(status: u8, broken: bool) -> u8
    ensures { result ≡ (if broken then status_failed else status) }
{
    if broken { FAILED } else { status }
}

/// Runs a job on a file, with a prefix before each line of its output and of its error output.
fn run_prefixed<R: Source + Drop, W: Target, E: Target>(
    alloc: Global,
    job: Job,
    reader: R,
    output: Prefixed<'_, W>,
    errors: Prefixed<'_, E>,
) -> SoFar<W, E>
    ensures { RunsPrefixed R.state R.leads job reader (seen W.state output.entry, seen E.state errors.entry)
        ((W.state result.output).octets, (E.state result.errors).octets) result.broken result.status }
{
    let request = Request { file: None, job };
    let (status, output, errors) = run(alloc, request, reader, output, errors);
    let (output, output_broken) = output.finish();
    let (errors, errors_broken) = errors.finish();
    let broken = either(output_broken, errors_broken);
    let status = status_after(status, broken);
    SoFar {
        status,
        broken,
        output,
        errors,
    }
}

/// The buffers for the lines of a file: the prefix, a block for the output and a block for the
/// error output.
type Parts = (Vec<u8>, ReservedOctets, ReservedOctets);

/// Allocates the buffers for the lines of a file.
fn allocate_parts(alloc: Global, name: &str) -> Result<Parts, AllocError>
    ensures { IfOk result (λ parts. (parts.0.items ≡ line_prefix name.now) × (length parts.0.items < parts.1.room)
        × (length parts.0.items < parts.2.room)) }
{
    let prefix = prefix_of(alloc, name)?;
    let output = allocate_block(alloc, prefix.as_slice())?;
    let errors = allocate_block(alloc, prefix.as_slice())?;
    Ok((prefix, output, errors))
}

/// Runs a job on the file with this name.
fn run_file<R: Source + Drop, W: Target, E: Target>(
    alloc: Global,
    name: &str,
    job: Job,
    reader: R,
    output: W,
    errors: E,
) -> SoFar<W, E>
    ensures { RunsFile R.state R.leads name.now job reader (W.state output, E.state errors)
        (W.state result.output, E.state result.errors) result.broken result.status }
{
    match allocate_parts(alloc, name) {
        Ok((prefix, output_room, errors_room)) => {
            let output = Prefixed::new(output, prefix.as_slice(), output_room);
            let errors = Prefixed::new(errors, prefix.as_slice(), errors_room);
            run_prefixed(alloc, job, reader, output, errors)
        }
        Err(_) => print_out_of_memory(output, errors),
    }
}

/// Runs a job on the next file, which has this name. Returns the result for all files so far.
pub fn run_next<R: Source + Drop, W: Target, E: Target>(
    alloc: Global,
    name: &str,
    job: Job,
    reader: R,
    so_far: SoFar<W, E>,
) -> SoFar<W, E>
    ensures { (status : ℕ)
        × RunsFile R.state R.leads name.now job reader (W.state so_far.output, E.state so_far.errors)
        (W.state result.output, E.state result.errors) result.broken status
        × (result.status ≡ max so_far.status status) }
{
    let SoFar {
        status,
        broken: _,
        output,
        errors,
    } = so_far;
    let ran = run_file(alloc, name, job, reader, output, errors);
    with_greater_status(ran, status)
}

/// Returns the result with the greater of its status and `status`.
fn with_greater_status<W, E>(so_far: SoFar<W, E>, status: u8) -> SoFar<W, E>
    ensures { result ≡ record so_far { status = max status so_far.status } }
{
    let SoFar {
        status: last,
        broken,
        output,
        errors,
    } = so_far;
    SoFar {
        status: status.max(last),
        broken,
        output,
        errors,
    }
}

/// Prints a line to the error output, and sets the status of a failure.
fn print_line<W, E: Target>(text: &[u8], so_far: SoFar<W, E>) -> SoFar<W, E>
    ensures told { LineIsPrinted text.now (E.state so_far.errors) (E.state result.errors) }
    ensures status { result.status ≡ status_failed }
    ensures output { result.output ≡ so_far.output }
{
    let SoFar {
        status: _,
        broken,
        output,
        errors,
    } = so_far;
    let mut errors = errors;
    let lost = put(&mut errors, text).is_err();
    SoFar {
        status: FAILED,
        broken: broken || lost,
        output,
        errors,
    }
}

/// Prints an error that does not concern one file.
pub fn print_fault<W, E: Target>(fault: CommandFault, so_far: SoFar<W, E>) -> SoFar<W, E>
    ensures told { LineIsPrinted (fault_line fault) (E.state so_far.errors) (E.state result.errors) }
    ensures status { result.status ≡ status_failed }
    ensures output { result.output ≡ so_far.output }
{
    print_line(fault.line().as_bytes(), so_far)
}

/// Formats the line for a file that cannot be opened or, if `starved`, for which an allocation
/// failed.
fn cannot_open_line(alloc: Global, name: &str, starved: bool) -> Result<Vec<u8>, AllocError>
    ensures { IfOk result (λ line. line.items ≡ cannot_open_line name.now starved) }
{
    let mut line = prefix_of(alloc, name)?;
    if starved {
        line.extend_from_slice(CommandFault::OutOfMemory.line().as_bytes())?;
        return Ok(line);
    }
    line.extend_from_slice(b"cannot open ")?;
    push_name(&mut line, name)?;
    line.push(b'\n')?;
    Ok(line)
}

/// Prints that the file with this name cannot be opened or, if `starved`, that an allocation for it
/// failed.
pub fn print_cannot_open<W, E: Target>(
    alloc: Global,
    name: &str,
    starved: bool,
    so_far: SoFar<W, E>,
) -> SoFar<W, E>
    ensures told { LineIsPrinted (cannot_open_line name.now starved) (E.state so_far.errors) (E.state result.errors)
        ⊎ LineIsPrinted (fault_line CommandFault.OutOfMemory) (E.state so_far.errors) (E.state result.errors) }
    ensures status { result.status ≡ status_failed }
    ensures output { result.output ≡ so_far.output }
{
    match cannot_open_line(alloc, name, starved) {
        Ok(line) => print_line(line.as_slice(), so_far),
        Err(_) => print_fault(CommandFault::OutOfMemory, so_far),
    }
}

/// Formats the prefix of the line for a file whose name is not UTF-8.
fn non_utf8_prefix(alloc: Global, name: &[u8]) -> Result<Vec<u8>, AllocError>
    ensures { IfOk result (λ prefix. prefix.items ≡ non_utf8_prefix name.now) }
{
    let mut prefix = Vec::new(alloc);
    push_with_escapes(&mut prefix, name)?;
    prefix.extend_from_slice(b": ")?;
    Ok(prefix)
}

/// Formats the line for a file that cannot be opened and whose name is not UTF-8.
fn non_utf8_line(alloc: Global, name: &[u8]) -> Result<Vec<u8>, AllocError>
    ensures { IfOk result (λ line. line.items ≡ non_utf8_line name.now) }
{
    let mut line = non_utf8_prefix(alloc, name)?;
    line.extend_from_slice(b"cannot open ")?;
    push_with_escapes(&mut line, name)?;
    line.push(b'\n')?;
    Ok(line)
}

/// Prints that a file whose name is not UTF-8 cannot be opened.
pub fn print_cannot_open_octets<W, E: Target>(
    alloc: Global,
    name: &[u8],
    so_far: SoFar<W, E>,
) -> SoFar<W, E>
    ensures told { LineIsPrinted (non_utf8_line name.now) (E.state so_far.errors) (E.state result.errors)
        ⊎ LineIsPrinted (fault_line CommandFault.OutOfMemory) (E.state so_far.errors) (E.state result.errors) }
    ensures status { result.status ≡ status_failed }
    ensures output { result.output ≡ so_far.output }
{
    match non_utf8_line(alloc, name) {
        Ok(line) => print_line(line.as_slice(), so_far),
        Err(_) => print_fault(CommandFault::OutOfMemory, so_far),
    }
}
