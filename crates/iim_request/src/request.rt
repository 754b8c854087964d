//! Requests, and how they are parsed from arguments.

ghost use Rattle.std.specs.Prelude.{◌≡◌, ◌≤◌, IfOk, IfErr, IfSome, IsNone, IsSome, List, true, false, map, string_bytes};
ghost use Rattle.clap.specs.Words.{Text, found_of, rows_of, kind_of};
ghost use Rattle.iim_dataset.specs.Format.Octets.{greatest_size};

use crate::commands::command;
use crate::instant::{Instant, instant_of};
use crate::pack_request::PackRequest;
use clap::error::ErrorKind;
use clap::{ArgMatches, Error};
use iim_dataset::GREATEST_SIZE;
use jiff::Timestamp;
use std::alloc::{AllocError, Global};
use std::fmt::{Display, Formatter};
use std::{error, fmt};

/// The number of octets of a full subfile, if no number is given.
pub const DEFAULT_SUBFILE: u64 = 1_024;

/// The job of a command.
#[derive(Clone, Copy, Debug, PartialEq, Eq)]
pub enum Job {
    /// Lists the envelopes of the input.
    Check,
    /// Lists everything in each envelope except its story.
    Show,
    /// Writes the story of each envelope.
    Story,
    /// Packs the envelope that a script specifies.
    Pack(PackRequest),
    /// Reports the id, sizes, words and age of each envelope, the earlier envelope that it
    /// repeats, and whether its copy may be used.
    Audit {
        /// The present instant.
        now: Instant,
    },
}

/// A file or standard input, and the job to run on it.
#[derive(Clone, Copy, Debug, PartialEq, Eq)]
pub struct Request<'a> {
    /// The path of the file, or `None` for standard input.
    pub file: Option<&'a str>,
    /// The job.
    pub job: Job,
}

/// The files that a command reads.
#[derive(Drop)]
pub enum Files<'a> {
    /// The file with this path, or standard input for `None`.
    One(Option<&'a str>),
    /// Two or more files, in the order of the arguments.
    Many(Vec<&'a str>),
    /// The files whose names are in a list, in the order of the list. The list is the file with
    /// this path, or standard input for `-`.
    Listed(&'a str),
}

/// Files, and the job to run on each of them.
#[derive(Drop)]
pub struct FilesRequest<'a> {
    /// The files.
    pub files: Files<'a>,
    /// The job.
    pub job: Job,
}

/// A usage error.
#[derive(Debug, Drop)]
pub enum UsageFault {
    /// An error of `clap`, with its message.
    Words(Error),
    /// `--max` is given without `--unknown`.
    MaxNeedsUnknown,
    /// The value of `--now` is not an instant.
    BadNow,
    /// An allocation failed.
    OutOfMemory,
}

/// Writes the message of `clap`, or the line that the command prints.
impl Display for UsageFault {
    fn fmt<W: fmt::Write>(&self, f: &mut Formatter<W>) -> fmt::Result {
        match self {
            UsageFault::Words(error) => write!(f, "{error}"),
            UsageFault::MaxNeedsUnknown => f.write_str("--max needs --unknown"),
            UsageFault::BadNow => f.write_str("bad --now"),
            UsageFault::OutOfMemory => f.write_str("out of memory"),
        }
    }
}

impl error::Error for UsageFault {}

impl From<AllocError> for UsageFault {
    ghost use Rattle.iim_request.specs.declared.request.UsageFault.TheVariants.{OutOfMemory};

    ghost from_gives = { λ _ fault. fault ≡ OutOfMemory };

    fn from(_error: AllocError) -> UsageFault {
        UsageFault::OutOfMemory
    }
}

impl From<Error> for UsageFault {
    ghost use Rattle.iim_request.specs.Verbs.{IsUsageErrorFromClap};

    ghost from_gives = { IsUsageErrorFromClap };

    fn from(error: Error) -> UsageFault {
        match error.kind() {
            ErrorKind::OutOfMemory => UsageFault::OutOfMemory,
            _ => UsageFault::Words(error),
        }
    }
}

ghost use Rattle.iim_request.specs.declared.request.Verb.{Verb as VerbValue};
ghost use Rattle.iim_request.specs.Format.{AreNamedFiles, AreFilesOf, IsRequestOf, IsFilesRequestOf, IsJobOf, IsNumberOption, IsUsageErrorOf, IsFilesFault, IsFilesUsageErrorOf, IsJobFault, IsErrorOfKind, IsSubfile, text_of_option};
ghost use Rattle.iim_request.specs.Verbs.{verb_name, IsOneFileRequest, IsRejectedFilesRequest, AreMatchesOf};

/// The name of a command.
#[derive(Clone, Copy, Debug, PartialEq, Eq)]
enum Verb {
    Check,
    Show,
    Story,
    Pack,
    Audit,
}

/// Returns the command with this name, or `None` if there is no such command.
fn verb_by_name(name: &str) -> Option<Verb>
    ensures named { IfSome result (λ verb. name.now ≡ verb_name verb) }
    ensures other { IsNone result → (verb : VerbValue) → name.now ≡ verb_name verb → ⊥ }
{
    match name {
        "check" => Some(Verb::Check),
        "show" => Some(Verb::Show),
        "story" => Some(Verb::Story),
        "pack" => Some(Verb::Pack),
        "audit" => Some(Verb::Audit),
        _ => None,
    }
}

/// Parses the value of an option. Returns `None` if it is missing, or not between `least` and the
/// greatest size.
fn number_option(text: Option<&str>, least: u64) -> Option<u64>
    ensures given { IsNumberOption least (text_of_option text.entry) result }
    ensures within { IfSome result (λ number. (least ≤ number) × (number ≤ greatest_size)) }
{
    let number = text?.parse::<u64>().ok()?;
    if number < least || number > GREATEST_SIZE {
        return None;
    }
    Some(number)
}

/// Returns the number of octets of a full subfile: the value that was given, or 1,024.
fn subfile_option(text: Option<&str>) -> u64
    ensures given { IsSubfile (text_of_option text.entry) result }
    ensures within { (1 ≤ result) × (result ≤ greatest_size) }
{
    match number_option(text, 1) {
        Some(number) => number,
        None => DEFAULT_SUBFILE,
    }
}

/// Checks whether a maximum is given, but not `--unknown`.
fn is_max_alone(unknown: bool, max: Option<u64>) -> bool
    ensures yes { result ≡ true → IsSome max × (unknown ≡ false) }
    ensures no { result ≡ false → IsSome max → unknown ≡ true }
{
    max.is_some() && !unknown
}

/// Returns the job of `pack`.
fn pack_job(found: &ArgMatches<'_>) -> Result<Job, UsageFault>
    ensures ok { IfOk result (IsJobOf (verb_name VerbValue.Pack) (rows_of (found_of found.now))) }
    ensures err { IfErr result (IsJobFault (verb_name VerbValue.Pack) (rows_of (found_of found.now))) }
{
    let subfile = subfile_option(found.get_str("subfile"));
    let unknown = found.get_flag("unknown");
    let max = number_option(found.get_str("max"), 0);
    if is_max_alone(unknown, max) {
        return Err(UsageFault::MaxNeedsUnknown);
    }
    Ok(Job::Pack(PackRequest {
        subfile,
        unknown,
        max,
    }))
}

/// Returns the job of `audit`.
fn audit_job(found: &ArgMatches<'_>) -> Result<Job, UsageFault>
    ensures ok { IfOk result (IsJobOf (verb_name VerbValue.Audit) (rows_of (found_of found.now))) }
    ensures err { IfErr result (IsJobFault (verb_name VerbValue.Audit) (rows_of (found_of found.now))) }
{
    let Some(text) = found.get_str("now") else {
        return Err(UsageFault::BadNow);
    };
    match text.parse::<Timestamp>() {
        Ok(now) => Ok(Job::Audit {
            now: instant_of(now),
        }),
        Err(_) => Err(UsageFault::BadNow),
    }
}

/// Returns the job of a command.
fn job_of(verb: Verb, found: &ArgMatches<'_>) -> Result<Job, UsageFault>
    ensures ok { IfOk result (IsJobOf (verb_name verb) (rows_of (found_of found.now))) }
    ensures err { IfErr result (IsJobFault (verb_name verb) (rows_of (found_of found.now))) }
{
    match verb {
        Verb::Check => Ok(Job::Check),
        Verb::Show => Ok(Job::Show),
        Verb::Story => Ok(Job::Story),
        Verb::Pack => pack_job(found),
        Verb::Audit => audit_job(found),
    }
}

/// The message of the error if `--files-from` is given together with a FILE.
const LIST_AND_FILE: &str = "--files-from takes no FILE";

/// The message of the error if more than one file is given to a command that reads one.
const NOT_ONE_FILE: &str = "more than one FILE";

/// Creates a usage error with this message.
fn fault_of(alloc: Global, kind: ErrorKind, message: &str) -> UsageFault
    requires { kind ≡ ErrorKind.OutOfMemory → ⊥ }
    ensures { IsErrorOfKind kind result }
{
    let Ok(mut program) = command(alloc) else {
        return UsageFault::OutOfMemory;
    };
    match program.error(kind, message) {
        Ok(error) => UsageFault::Words(error),
        Err(_) => UsageFault::OutOfMemory,
    }
}

/// Returns the files with these names, given as arguments.
fn files_named<'a>(alloc: Global, names: &[&'a str]) -> Result<Files<'a>, UsageFault>
    ensures ok { IfOk result (AreNamedFiles (map (λ name. name.now) names.now)) }
    ensures err { IfErr result (λ fault. fault ≡ UsageFault.OutOfMemory) }
{
    match names {
        [] => Ok(Files::One(None)),
        [name] => Ok(Files::One(Some(*name))),
        _ => match Vec::from_slice(alloc, names) {
            Ok(names) => Ok(Files::Many(names)),
            Err(_) => Err(UsageFault::OutOfMemory),
        },
    }
}

/// Returns the files that the arguments of a command name.
fn requested_files<'a>(alloc: Global, found: &ArgMatches<'a>) -> Result<Files<'a>, UsageFault>
    ensures ok { IfOk result (AreFilesOf (rows_of (found_of found.now))) }
    ensures err { IfErr result (IsFilesFault (rows_of (found_of found.now))) }
{
    match (found.get_str("files-from"), found.get_strs("FILE")) {
        (None, None) => Ok(Files::One(None)),
        (None, Some(names)) => files_named(alloc, names),
        (Some(list), None) => Ok(Files::Listed(list)),
        (Some(_), Some(_)) => Err(fault_of(alloc, ErrorKind::ArgumentConflict, LIST_AND_FILE)),
    }
}

/// Converts arguments that `clap` accepted to a request. They name one of the commands.
fn request_of<'a>(alloc: Global, matches: &ArgMatches<'a>) -> Result<FilesRequest<'a>, UsageFault>
    requires { (words : List Text) × AreMatchesOf words matches.now }
    ensures ok { (words : List Text) → AreMatchesOf words matches.now → IfOk result (IsFilesRequestOf words) }
    ensures err { (words : List Text) → AreMatchesOf words matches.now → IfErr result (IsFilesUsageErrorOf words) }
{
    let Some((name, found)) = matches.subcommand() else {
        unreachable!()
    };
    let Some(verb) = verb_by_name(name) else {
        unreachable!()
    };
    let job = job_of(verb, found)?;
    match requested_files(alloc, found) {
        Ok(files) => Ok(FilesRequest { files, job }),
        Err(fault) => Err(fault),
    }
}

/// Parses the arguments of a command line, with any number of files. The first argument is the name
/// of the program.
pub fn parse_files<'a>(alloc: Global, words: &'a [String]) -> Result<FilesRequest<'a>, UsageFault>
    ensures ok { IfOk result (IsFilesRequestOf (map string_bytes words.entry.now)) }
    ensures err { IfErr result (IsFilesUsageErrorOf (map string_bytes words.entry.now)) }
{
    let matches = command(alloc)?.try_get_matches_from(words)?;
    request_of(alloc, &matches)
}

/// Parses the arguments of a command line, with at most one file. The first argument is the name of
/// the program.
pub fn parse<'a>(alloc: Global, words: &'a [String]) -> Result<Request<'a>, UsageFault>
    ensures ok { IfOk result (IsRequestOf (map string_bytes words.entry.now)) }
    ensures err { IfErr result (IsUsageErrorOf (map string_bytes words.entry.now)) }
{
    match parse_files(alloc, words) {
        Ok(request) => one_file(alloc, request),
        Err(fault) => Err(fault),
    }
}

/// Returns the request for one file. Returns a usage error if the request is for several files or
/// for a list.
fn one_file(alloc: Global, request: FilesRequest<'_>) -> Result<Request<'_>, UsageFault>
    ensures ok { IfOk result (IsOneFileRequest request.entry) }
    ensures err { IfErr result (IsRejectedFilesRequest request.entry) }
{
    let FilesRequest { files, job } = request;
    match files {
        Files::One(file) => Ok(Request { file, job }),
        Files::Many(_) | Files::Listed(_) => {
            Err(fault_of(alloc, ErrorKind::TooManyValues, NOT_ONE_FILE))
        }
    }
}
