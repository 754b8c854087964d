//! The program `iimwire`: checks files of envelopes, lists their contents, writes their stories,
//! audits them, and packs scripts.
//!
//! Depends on `iim_commands`, which parses the arguments and executes requests, on `iim_files`,
//! which executes them for more than one file, on the crates below these for their types and
//! definitions, and on `clap`. [`serve::serve`] does the work, with any source and targets. The
//! functions here provide the arguments, files and streams of a process.
#![tactic(auto)]

mod serve;
mod start;
mod words;

ghost use Rattle.std.specs.Prelude.{◌≡◌, ◌≢◌, ◌⊎◌, IfSome, None, true};
ghost use Rattle.iim_output.specs.States.Devices.{Devices};
ghost use Rattle.iim_commands.specs.Format.{RunsJob};
ghost use Rattle.std.specs.IoError.{error_kind};
ghost use Rattle.std.specs.Process.{exit_status};
ghost use Rattle.iim_output.specs.Format.{status_failed};
ghost use Rattle.iimwire.specs.Format.{run_fault_status};

use iim_commands::{Files, FilesRequest, Job, Request, parse_files};
use iim_dataset::{FromRead, FromWrite, Source, Target};
use iim_files::file::{
    SoFar, no_files, print_cannot_open, print_cannot_open_octets, print_fault, run_next,
};
use iim_files::names::Names;
use serve::serve;
use start::RunFault;
use std::fs::File;
use std::io::{ErrorKind, Read, Stdin};
use std::process::ExitCode;
use std::{env, io};
use words::printed_fault;

fn main(rt: HostRuntime) -> ExitCode {
    let words = match read_arguments(&rt) {
        Ok(words) => words,
        Err(error) => return fail_before_run(&rt, fault_of(&error, RunFault::NoText)),
    };
    let words = words.as_slice();
    match parse_files(rt.alloc(), words) {
        Ok(request) => run_files(&rt, request),
        Err(fault) => fail_before_run(
            &rt,
            RunFault::Usage(printed_fault(rt.alloc(), words, fault)),
        ),
    }
}

/// Returns the arguments of the command line.
fn read_arguments(rt: &HostRuntime) -> io::Result<Vec<String>> {
    Ok(env::args(rt)?.collect(rt.alloc())?)
}

/// Runs a job on the requested files: one file, standard input, or several files.
fn run_files(rt: &HostRuntime, request: FilesRequest<'_>) -> ExitCode
    ensures standard { request.entry.files ≡ Files.One None
        → (old : Devices) × (new : Devices) × RunsJob request.entry.job old new (exit_status result) }
{
    let FilesRequest { files, job } = request;
    match files {
        Files::One(file) => run_one(rt, Request { file, job }),
        Files::Many(names) => run_named_files(rt, job, names.as_slice()),
        Files::Listed(list) => run_list(rt, job, list),
    }
}

/// Opens the file that the request names, or standard input, and executes the request.
fn run_one(rt: &HostRuntime, request: Request<'_>) -> ExitCode
    ensures standard { request.entry.file ≡ None
        → (old : Devices) × (new : Devices) × RunsJob request.entry.job old new (exit_status result) }
    ensures named { IfSome request.entry.file
        (λ name. ((old : Devices) × (new : Devices) × RunsJob request.entry.job old new (exit_status result))
        ⊎ (exit_status result ≡ status_failed)) }
{
    let Some(name) = request.file else {
        return run_request(rt, request, rt.stdin());
    };
    match File::open(rt, name) {
        Ok(file) => run_request(rt, request, file),
        Err(error) => fail_before_run(rt, fault_of(&error, RunFault::CannotOpen(name))),
    }
}

/// Runs a job on the next file, which has this name, unless a write has failed.
fn run_next_file<W: Target, E: Target>(
    rt: &HostRuntime,
    job: Job,
    name: &str,
    so_far: SoFar<W, E>,
) -> SoFar<W, E> {
    if so_far.broken {
        return so_far;
    }
    match File::open(rt, name) {
        Ok(file) => run_next(rt.alloc(), name, job, FromRead::new(file), so_far),
        Err(error) => print_cannot_open(rt.alloc(), name, is_out_of_memory(&error), so_far),
    }
}

/// Checks whether an error is a failed allocation.
fn is_out_of_memory(error: &io::Error) -> bool
    ensures { result ≡ true → error_kind error.now ≡ ErrorKind.OutOfMemory }
{
    matches!(error.kind(), ErrorKind::OutOfMemory)
}

/// Runs a job on files that are named as arguments.
fn run_named_files(rt: &HostRuntime, job: Job, names: &[&str]) -> ExitCode {
    let output = FromWrite::new(rt.stdout());
    let errors = FromWrite::new(rt.stderr());
    let mut so_far = no_files(output, errors);
    for name in names {
        so_far = run_next_file(rt, job, *name, so_far);
    }
    exit_code(so_far)
}

/// Runs a job on the files in a list. The list is the file with this name, or standard input for
/// `-`.
fn run_list(rt: &HostRuntime, job: Job, list: &str) -> ExitCode {
    if list == "-" {
        return run_listed_files(rt, job, FromRead::new(rt.stdin()));
    }
    match File::open(rt, list) {
        Ok(file) => run_listed_files(rt, job, FromRead::new(file)),
        Err(error) => fail_before_run(rt, fault_of(&error, RunFault::CannotOpen(list))),
    }
}

/// Runs a job on the files whose names are read from a list.
fn run_listed_files<R: Source + Drop>(rt: &HostRuntime, job: Job, reader: R) -> ExitCode {
    let output = FromWrite::new(rt.stdout());
    let errors = FromWrite::new(rt.stderr());
    let mut so_far = no_files(output, errors);
    let mut names = Names::new(reader);
    let mut name = Vec::new(rt.alloc());
    'names: for _ in 0..u64::MAX {
        if so_far.broken {
            return exit_code(so_far);
        }
        match names.next_name(&mut name) {
            Ok(true) => so_far = run_listed_file(rt, job, name.as_slice(), so_far),
            Ok(false) => return exit_code(so_far),
            Err(fault) => return exit_code(print_fault(fault, so_far)),
        }
    }
    exit_code(so_far)
}

/// Runs a job on the next file, whose name consists of these octets.
fn run_listed_file<W: Target, E: Target>(
    rt: &HostRuntime,
    job: Job,
    name: &[u8],
    so_far: SoFar<W, E>,
) -> SoFar<W, E> {
    match str::from_utf8(name) {
        Ok(name) => run_next_file(rt, job, name, so_far),
        Err(_) => print_cannot_open_octets(rt.alloc(), name, so_far),
    }
}

/// Returns the exit status of a command on several files.
fn exit_code<W: Drop, E: Drop>(so_far: SoFar<W, E>) -> ExitCode
    ensures { exit_status result ≡ so_far.status }
{
    let SoFar {
        status,
        broken: _,
        output: _,
        errors: _,
    } = so_far;
    ExitCode::from(status)
}

/// Returns the error of a run: `OutOfMemory` if an allocation failed, otherwise `other`.
fn fault_of<'a>(error: &io::Error, other: RunFault<'a>) -> RunFault<'a>
    ensures memory { error_kind error.now ≡ ErrorKind.OutOfMemory → result ≡ RunFault.OutOfMemory }
    ensures other { error_kind error.now ≢ ErrorKind.OutOfMemory → result ≡ other.entry }
{
    match error.kind() {
        ErrorKind::OutOfMemory => RunFault::OutOfMemory,
        _ => other,
    }
}

/// Executes a request with a reader and the standard streams.
fn run_request<R: Read + Drop>(rt: &HostRuntime, request: Request<'_>, reader: R) -> ExitCode
    ensures { (old : Devices) × (new : Devices) × RunsJob request.entry.job old new (exit_status result) }
{
    let begun = Ok((request, FromRead::new(reader)));
    let output = FromWrite::new(rt.stdout());
    let errors = FromWrite::new(rt.stderr());
    let (status, _, _) = serve(rt.alloc(), begun, output, errors);
    ExitCode::from(status)
}

/// Prints to the standard streams why a run cannot start.
fn fail_before_run(rt: &HostRuntime, fault: RunFault<'_>) -> ExitCode
    ensures { (exit_status result ≡ run_fault_status fault.entry) ⊎ (exit_status result ≡ status_failed) }
{
    let output = FromWrite::new(rt.stdout());
    let errors = FromWrite::new(rt.stderr());
    let begun: Result<(Request<'_>, FromRead<Stdin>), RunFault<'_>> = Err(fault);
    let (status, _, _) = serve(rt.alloc(), begun, output, errors);
    ExitCode::from(status)
}
