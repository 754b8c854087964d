//! Errors before a run.

ghost use Rattle.std.specs.Prelude.{◌≡◌, ◌++◌, IfOk, codes};

use clap::Error;
use clap::error::ErrorKind;
use iim_commands::UsageFault;
use iim_commands::fault::CommandFault;
use iim_commands::lines::write_with_status;
use iim_commands::shown::push_name;
use iim_commands::status::{ACCEPTED, FAILED, USAGE};
use iim_dataset::{Target, put};
use std::alloc::{AllocError, Global};

/// The reason why a run cannot start.
#[derive(Drop)]
pub enum RunFault<'a> {
    /// The arguments are invalid, or they request help or the version.
    Usage(UsageFault),
    /// The arguments are not UTF-8.
    NoText,
    /// The file with this name cannot be opened.
    CannotOpen(&'a str),
    /// An allocation failed.
    OutOfMemory,
}

ghost use Rattle.iim_request.specs.Format.{escaped_name};
ghost use Rattle.iimwire.specs.Format.{requests_text, is_text_requested, run_fault_status, PrintsTextOrReason, PrintsReason, WritesText, PrintsText, IsRunFaultText};

/// Checks whether an error of `clap` is the text of `--help` or `--version`.
pub fn requests_text(error: &Error) -> bool
    ensures { result ≡ requests_text error.now }
{
    match error.kind() {
        ErrorKind::DisplayHelp | ErrorKind::DisplayVersion => true,
        _ => false,
    }
}

/// Checks whether the arguments only request the text of `--help` or `--version`.
fn is_text_requested(fault: &RunFault<'_>) -> bool
    ensures { result ≡ is_text_requested fault.now }
{
    match fault {
        RunFault::Usage(UsageFault::Words(error)) => requests_text(error),
        _ => false,
    }
}

/// Returns the exit status for an error of `clap`.
fn clap_status(error: &Error) -> u8
    ensures { result ≡ run_fault_status (RunFault.Usage (UsageFault.Words error.now)) }
{
    match error.kind() {
        ErrorKind::DisplayHelp | ErrorKind::DisplayVersion => ACCEPTED,
        _ => USAGE,
    }
}

/// Returns the exit status for a usage error.
fn usage_status(fault: &UsageFault) -> u8
    ensures { result ≡ run_fault_status (RunFault.Usage fault.now) }
{
    match fault {
        UsageFault::Words(error) => clap_status(error),
        UsageFault::MaxNeedsUnknown | UsageFault::BadNow => USAGE,
        UsageFault::OutOfMemory => FAILED,
    }
}

/// Returns the exit status for an error.
fn status(fault: &RunFault<'_>) -> u8
    ensures { result ≡ run_fault_status fault.now }
{
    match fault {
        RunFault::Usage(fault) => usage_status(fault),
        RunFault::NoText => USAGE,
        RunFault::CannotOpen(_) | RunFault::OutOfMemory => FAILED,
    }
}

/// Returns the text of a usage error.
fn usage_error_text(alloc: Global, fault: &UsageFault) -> Result<Vec<u8>, AllocError>
    ensures { IfOk result (λ text. IsRunFaultText (RunFault.Usage fault.now) text.items) }
{
    match fault {
        UsageFault::Words(error) => {
            let words = format!(in alloc; "{error}")?;
            Vec::from_slice(alloc, words.as_bytes())
        }
        UsageFault::MaxNeedsUnknown => Vec::from_slice(alloc, b"--max needs --unknown\n"),
        UsageFault::BadNow => Vec::from_slice(alloc, b"bad --now\n"),
        UsageFault::OutOfMemory => {
            Vec::from_slice(alloc, CommandFault::OutOfMemory.line().as_bytes())
        }
    }
}

/// Returns the text that reports that the file with this name cannot be opened.
fn cannot_open_text(alloc: Global, name: &str) -> Result<Vec<u8>, AllocError>
    ensures { IfOk result (λ text. text.items ≡ codes "cannot open " ++ (escaped_name name.now ++ codes "\n")) }
{
    let mut text = Vec::from_slice(alloc, b"cannot open ")?;
    push_name(&mut text, name)?;
    text.push(b'\n')?;
    Ok(text)
}

/// Returns the text of an error.
fn text(alloc: Global, fault: &RunFault<'_>) -> Result<Vec<u8>, AllocError>
    ensures { IfOk result (λ text. IsRunFaultText fault.now text.items) }
{
    match fault {
        RunFault::Usage(fault) => usage_error_text(alloc, fault),
        RunFault::NoText => Vec::from_slice(alloc, b"arguments are no text\n"),
        RunFault::CannotOpen(name) => cannot_open_text(alloc, name),
        RunFault::OutOfMemory => {
            Vec::from_slice(alloc, CommandFault::OutOfMemory.line().as_bytes())
        }
    }
}

/// Prints why a run cannot start. Returns the exit status.
fn print_reason<E: Target>(alloc: Global, fault: RunFault<'_>, errors: &mut E) -> u8
    ensures { PrintsReason fault.entry (E.state errors.old) (E.state errors.new) result }
{
    match text(alloc, &fault) {
        Ok(text) => write_with_status(errors, text.as_slice(), status(&fault)),
        Err(_) => write_with_status(errors, CommandFault::OutOfMemory.line().as_bytes(), FAILED),
    }
}

/// Writes a text to the output. Returns `status`; if the write fails, prints an error and returns
/// the status of a failure.
fn show<W: Target, E: Target>(text: &[u8], status: u8, output: &mut W, errors: &mut E) -> u8
    ensures { WritesText text.now status (W.state output.old, E.state errors.old)
        (W.state output.new, E.state errors.new)
        result }
{
    match put(output, text) {
        Ok(()) => status,
        Err(_) => write_with_status(errors, CommandFault::CannotWrite.line().as_bytes(), FAILED),
    }
}

/// Writes the text of `--help` or `--version` to the output. Returns the exit status.
fn show_text<W: Target, E: Target>(
    alloc: Global,
    fault: &RunFault<'_>,
    output: &mut W,
    errors: &mut E,
) -> u8
    ensures { PrintsText fault.now (W.state output.old, E.state errors.old) (W.state output.new, E.state errors.new)
        result }
{
    match text(alloc, fault) {
        Ok(text) => show(text.as_slice(), status(fault), output, errors),
        Err(_) => write_with_status(errors, CommandFault::OutOfMemory.line().as_bytes(), FAILED),
    }
}

/// Writes the text that the arguments request, or prints why a run cannot start. Returns the exit
/// status.
pub fn print_text_or_reason<W: Target, E: Target>(
    alloc: Global,
    fault: RunFault<'_>,
    output: &mut W,
    errors: &mut E,
) -> u8
    ensures { PrintsTextOrReason (is_text_requested fault.entry) fault.entry (W.state output.old, E.state errors.old)
        (W.state output.new, E.state errors.new) result }
{
    if is_text_requested(&fault) {
        return show_text(alloc, &fault, output, errors);
    }
    print_reason(alloc, fault, errors)
}
