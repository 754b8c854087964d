//! Executes requests.

ghost use Rattle.std.specs.Prelude.{◌≡◌, ℕ, List, IfOk, IfErr};
ghost use Rattle.iim_unpack.specs.States.Blocks.{with_unread};
ghost use Rattle.iim_commands.specs.Format.{PrintsError, ListsOrPrintsError, RunsJob};
ghost use Rattle.iim_output.specs.States.Devices.{devices};
ghost use Rattle.iim_output.specs.Format.{status_failed};

use crate::audit::write_audit;
use iim_dataset::{Source, Target, put};
use iim_listing::check::Check;
use iim_listing::input::Input;
use iim_listing::list::{EnvelopeLines, list};
use iim_listing::show::Show;
use iim_listing::story::write_stories;
use iim_output::fault::CommandFault;
use iim_output::status::FAILED;
use iim_pack_script::packing::{PackRequest, pack_script};
use iim_request::instant::Instant;
use iim_request::request::{Job, Request};
use iim_unpack::Intake;
use std::alloc::Global;

/// Prints an error, and returns the exit status of a failure, even if the line cannot be written.
fn print_error<E: Target>(errors: &mut E, fault: CommandFault) -> u8
    ensures status { result ≡ status_failed }
    ensures told { PrintsError (E.state errors.old) (E.state errors.new) fault }
{
    let _ = put(errors, fault.line().as_bytes());
    FAILED
}

/// Completes a run: returns the exit status, or prints the error and returns the exit status of a
/// failure.
fn finish<E: Target>(errors: &mut E, answer: Result<u8, CommandFault>) -> u8
    ensures ok { IfOk answer (λ want. (result ≡ want) × (E.state errors.new ≡ E.state errors.old)) }
    ensures fault { IfErr answer (λ fault. (result ≡ status_failed)
        × PrintsError (E.state errors.old) (E.state errors.new) fault) }
{
    match answer {
        Ok(status) => status,
        Err(fault) => print_error(errors, fault),
    }
}

/// Lists the envelopes of a reader. Returns the exit status and both writers.
fn run_listing<P: EnvelopeLines, R: Source + Drop, W: Target, E: Target>(
    alloc: Global,
    texts: &P,
    reader: R,
    output: W,
    errors: E,
) -> (u8, W, E)
    ensures { (last : R) × (pending : List ℕ) × R.leads reader last
        × ListsOrPrintsError P.written (devices (R.state reader) (W.state output) (E.state errors))
        (devices (with_unread pending (R.state last)) (W.state result.1) (E.state result.2)) result.0 }
{
    let mut intake = Input::new(reader);
    let mut output = output;
    let mut errors = errors;
    let answer = list(alloc, texts, &mut intake, &mut output);
    let status = finish(&mut errors, answer);
    (status, output, errors)
}

/// Writes the stories of the envelopes of a reader. Returns the exit status and both writers.
fn run_stories<R: Source + Drop, W: Target, E: Target>(
    alloc: Global,
    reader: R,
    output: W,
    errors: E,
) -> (u8, W, E)
    ensures { (last : R) × (pending : List ℕ) × R.leads reader last
        × RunsJob Job.Story (devices (R.state reader) (W.state output) (E.state errors))
        (devices (with_unread pending (R.state last)) (W.state result.1) (E.state result.2)) result.0 }
{
    let mut intake = Input::new(reader);
    let mut output = output;
    let mut errors = errors;
    let answer = write_stories(alloc, &mut intake, &mut output, &mut errors);
    let status = finish(&mut errors, answer);
    (status, output, errors)
}

/// Writes the audit report of a reader. Returns the exit status and both writers.
fn run_audit<R: Source + Drop, W: Target, E: Target>(
    alloc: Global,
    now: Instant,
    reader: R,
    output: W,
    errors: E,
) -> (u8, W, E)
    ensures { (last : R) × (pending : List ℕ) × R.leads reader last
        × RunsJob (Job.Audit now) (devices (R.state reader) (W.state output) (E.state errors))
        (devices (with_unread pending (R.state last)) (W.state result.1) (E.state result.2)) result.0 }
{
    let mut intake = Intake::new(reader);
    let mut output = output;
    let mut errors = errors;
    let answer = write_audit(alloc, now, &mut intake, &mut output);
    let status = finish(&mut errors, answer);
    (status, output, errors)
}

/// Packs the envelope that the script from a reader specifies. Returns the exit status and both
/// writers.
fn pack<R: Source + Drop, W: Target, E: Target>(
    alloc: Global,
    request: PackRequest,
    reader: R,
    output: W,
    errors: E,
) -> (u8, W, E)
    ensures { (last : R) × R.leads reader last
        × RunsJob (Job.Pack request) (devices (R.state reader) (W.state output) (E.state errors))
        (devices (R.state last) (W.state result.1) (E.state result.2)) result.0 }
{
    let mut reader = reader;
    let mut errors = errors;
    let (answer, output) = pack_script(alloc, request, &mut reader, output, &mut errors);
    let status = finish(&mut errors, answer);
    (status, output, errors)
}

/// Executes a request. Returns the exit status and both writers.
pub fn run<R: Source + Drop, W: Target, E: Target>(
    alloc: Global,
    request: Request<'_>,
    reader: R,
    output: W,
    errors: E,
) -> (u8, W, E)
    // The reader ends in the state `last`. The octets `pending` were read and not consumed.
    ensures { (last : R) × (pending : List ℕ) × R.leads reader last
        × RunsJob request.entry.job (devices (R.state reader) (W.state output) (E.state errors))
        (devices (with_unread pending (R.state last)) (W.state result.1) (E.state result.2)) result.0 }
{
    match request.job {
        Job::Check => run_listing(alloc, &Check, reader, output, errors),
        Job::Show => run_listing(alloc, &Show, reader, output, errors),
        Job::Story => run_stories(alloc, reader, output, errors),
        Job::Pack(request) => pack(alloc, request, reader, output, errors),
        Job::Audit { now } => run_audit(alloc, now, reader, output, errors),
    }
}
