//! The work of the program, independent of the operating system.

ghost use Rattle.iimwire.specs.Format.{Serves};

use crate::start::{RunFault, print_text_or_reason};
use iim_commands::{Request, run};
use iim_dataset::{Source, Target};
use std::alloc::Global;

/// Executes a request with its reader. If there is no request, prints the requested text or the
/// error. Returns the exit status and both writers.
pub fn serve<R: Source + Drop, W: Target, E: Target>(
    alloc: Global,
    begun: Result<(Request<'_>, R), RunFault<'_>>,
    output: W,
    errors: E,
) -> (u8, W, E)
    ensures { Serves R.state R.leads begun.entry (W.state output, E.state errors) (W.state result.1, E.state result.2)
        result.0 }
{
    match begun {
        Ok((request, reader)) => run(alloc, request, reader, output, errors),
        Err(fault) => {
            let mut output = output;
            let mut errors = errors;
            let status = print_text_or_reason(alloc, fault, &mut output, &mut errors);
            (status, output, errors)
        }
    }
}
