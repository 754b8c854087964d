//! Formats usage errors for printing.

ghost use Rattle.std.specs.Prelude.{◌≡◌, IfOk, IsUtf8, string_bytes};
ghost use Rattle.iim_request.specs.Format.{escaped_name};
ghost use Rattle.iimwire.specs.Format.{IsUsageErrorFor, IsPrintedAs};

use crate::start::requests_text;
use clap::Error;
use iim_commands::shown::push_name;
use iim_commands::{UsageFault, parse_files};
use std::alloc::{AllocError, Global};

/// Escapes the control characters and backslashes of an argument. The result is always UTF-8; the
/// type requires a check, whose failure would leave the argument unchanged.
fn escaped_argument(alloc: Global, word: &str) -> Result<String, AllocError>
    ensures { IfOk result (λ shown. IsUtf8 (escaped_name word.now) → string_bytes shown ≡ escaped_name word.now) }
{
    let mut shown = Vec::new(alloc);
    push_name(&mut shown, word)?;
    match String::from_utf8(shown) {
        Ok(shown) => Ok(shown),
        Err(_) => String::from_str(alloc, word),
    }
}

/// Escapes the control characters and backslashes of all arguments.
fn escaped_arguments(alloc: Global, words: &[String]) -> Result<Vec<String>, AllocError> {
    let mut shown = Vec::new(alloc);
    for word in words {
        shown.push(escaped_argument(alloc, word.as_str())?)?;
    }
    Ok(shown)
}

/// Returns `error` if `other` is the text of `--help` or `--version`, otherwise `other`.
fn usage_error_or(other: Error, error: Error) -> UsageFault
    ensures { IsUsageErrorFor error result }
{
    if requests_text(&other) {
        return UsageFault::Words(error);
    }
    UsageFault::Words(other)
}

/// Replaces an error of `clap` with the error that `clap` reports for the escaped arguments.
fn printed_usage_error(alloc: Global, words: &[String], error: Error) -> UsageFault
    ensures { IsUsageErrorFor error result }
{
    let Ok(shown) = escaped_arguments(alloc, words) else {
        return UsageFault::OutOfMemory;
    };
    match parse_files(alloc, shown.as_slice()) {
        Err(UsageFault::Words(other)) => usage_error_or(other, error),
        Err(UsageFault::OutOfMemory) => UsageFault::OutOfMemory,
        _ => UsageFault::Words(error),
    }
}

/// Returns an error of `clap` in the form that is printed. A text of `--help` or `--version` is
/// unchanged.
fn printed_error(alloc: Global, words: &[String], error: Error) -> UsageFault
    ensures { IsPrintedAs (UsageFault.Words error) result }
{
    if requests_text(&error) {
        return UsageFault::Words(error);
    }
    printed_usage_error(alloc, words, error)
}

/// Returns a usage error in the form that is printed. An error of `clap` is replaced with the one
/// for the escaped arguments.
pub fn printed_fault(alloc: Global, words: &[String], fault: UsageFault) -> UsageFault
    ensures { IsPrintedAs fault result }
{
    match fault {
        UsageFault::Words(error) => printed_error(alloc, words, error),
        other => other,
    }
}
