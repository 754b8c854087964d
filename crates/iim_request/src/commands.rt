//! The commands of the program, as they are declared to `clap`.

ghost use Rattle.std.specs.Prelude.{◌≡◌, codes, false, IfOk};
ghost use Rattle.clap.specs.Words.{App, Rule, app_of, new_app, rule_of, with_rule, with_subcommand};
ghost use Rattle.iim_request.specs.Verbs.{IsCommand};
ghost use Rattle.iim_request.specs.Format.{audit_command, file_command, files_command, files_rule, list_rule, now_rule, number_rule, pack_command, program, unknown_rule, requires_subcommand};

use clap::builder::ValueParser;
use clap::{Arg, ArgAction, Command};
use iim_dataset::GREATEST_SIZE;
use std::alloc::{AllocError, Global};

/// The version that `--version` prints: the version of the tickets that this release writes.
const RELEASE: &str = "2";

/// The help text of the argument FILE.
const FILE_HELP: &str =
    "The file to read, or else standard input, which is /dev/stdin, too; - is a file of that name";

/// The help text of the arguments FILE.
const FILES_HELP: &str =
    "The files to read, or else standard input, which is /dev/stdin, too; - is a file of that name";

/// The help text of `--files-from`.
const LIST_HELP: &str =
    "Read the files that LIST names, one a line or each ended by NUL; - is standard input";

/// The end of the help text of `check`.
const CHECK_HELP: &str = "\
Example:
  iimwire check samples/smallest.iim
prints: 1 accepted 114 octets

Status: 0 all accepted, 1 refused, 2 a mistake in the words, 3 a file, output or memory fault.
The manual page, iimwire(1), and docs/reference/causes.md list the causes of a refusal.
An input of no octets is accepted, and prints nothing.";

/// The end of the help text of `show`.
const SHOW_HELP: &str = "\
Example:
  iimwire show samples/smallest.iim
prints: envelope 1, the datasets as 1:30 TST, the lines message and trailer, and the sizes.
Octets other than 20 to 7E, and the backslash, are shown as \\x and two digits.

Status: 0 all accepted, 1 refused, 2 a mistake in the words, 3 a file, output or memory fault.
The manual page, iimwire(1), and docs/reference/causes.md list the causes of a refusal.";

/// The end of the help text of `story`.
const STORY_HELP: &str = "\
Example:
  iimwire story samples/story.iim 2>/dev/null
prints the lines of the story, each ended by LF. The lines of check go to standard error.
The octets of a line are those of the copy: on a terminal read them through cat -v.

Status: 0 all accepted, 1 refused, 2 a mistake in the words, 3 a file, output or memory fault.
The manual page, iimwire(1), and docs/reference/causes.md list the causes of a refusal.";

/// The end of the help text of `pack`.
const PACK_HELP: &str = "\
FILE is a script: what show prints between its first and its last line, then a line text, and the story.
  1:00 \\x00\\x04
  1:20 \\x00\\x02
  1:22 \\x00\\x01
  1:30 TST
  1:40 00000001
  1:70 20240301
  2:00 \\x00\\x04
  2:105 Rates held
  message TST 0007 4 ECO 2 rates
  text
  Rates stay.
The line message has the source, number, priority, category, words and info of the message.

Example:
  iimwire pack samples/story.script > story.iim

Status: 0 packed, 1 the script is refused, 2 a mistake in the words, 3 a file, output or memory fault.
The manual page, iimwire(1), and docs/reference/causes.md list the causes of a refusal.";

/// The end of the help text of `audit`.
const AUDIT_HELP: &str = "\
INSTANT is a date, T, a time, and Z or an offset: 2024-03-01T12:00:00Z, 2024-03-01T13:00:00.5+01:00.
One with no Z or offset is none. The present instant is that of date -u:
  iimwire audit --now \"$(date -u +%FT%TZ)\" samples/audit.iim
prints a row for each envelope, and a last line: 3 envelopes, 1 repeated, 0 held

Status: 0 all accepted, 1 refused, 2 a mistake in the words, 3 a file, output or memory fault.
The manual page, iimwire(1), and docs/reference/causes.md list the causes of a refusal.";

/// The end of the help text of the program.
const PROGRAM_HELP: &str = "\
Example:
  iimwire check samples/smallest.iim
prints: 1 accepted 114 octets

Status: 0 all accepted, 1 refused, 2 a mistake in the words, 3 a file, output or memory fault.
The manual page, iimwire(1), and docs/reference/causes.md list the causes of a refusal.
iimwire COMMAND --help has an example of each command.";

/// Returns a command that has one argument FILE. `about` and `after` are the beginning and the end
/// of its help text.
fn with_file<'a>(
    alloc: Global,
    name: &'a str,
    about: &'a str,
    after: &'a str,
) -> Result<Command<'a>, AllocError>
    ensures { IsCommand (file_command name.entry.now) result }
{
    Command::new(alloc, name)
        .about(about)
        .after_help(after)
        .arg(Arg::new(alloc, "FILE").help(FILE_HELP))
}

/// Returns the argument FILE of a command that takes any number of files.
fn files_arg<'a>(alloc: Global) -> Arg<'a>
    ensures rule { rule_of result ≡ files_rule }
    ensures local { result.global ≡ false }
{
    Arg::new(alloc, "FILE")
        .action(ArgAction::Append)
        .help(FILES_HELP)
}

/// Returns the option `--files-from`, which names a list of files.
fn list_arg<'a>(alloc: Global) -> Arg<'a>
    ensures rule { rule_of result ≡ list_rule }
    ensures local { result.global ≡ false }
{
    Arg::new(alloc, "files-from")
        .long("files-from")
        .value_name("LIST")
        .help(LIST_HELP)
}

/// Returns a command with any number of files as arguments. `about` and `after` are the beginning
/// and the end of its help text.
fn with_names<'a>(
    alloc: Global,
    name: &'a str,
    about: &'a str,
    after: &'a str,
) -> Result<Command<'a>, AllocError>
    ensures { IsCommand (with_rule (new_app name.entry.now) files_rule) result }
{
    Command::new(alloc, name)
        .about(about)
        .after_help(after)
        .arg(files_arg(alloc))
}

/// Returns a command with any number of files as arguments, or with a list of files.
fn with_files<'a>(
    alloc: Global,
    name: &'a str,
    about: &'a str,
    after: &'a str,
) -> Result<Command<'a>, AllocError>
    ensures { IsCommand (files_command name.entry.now) result }
{
    with_arg(with_names(alloc, name, about, after), list_arg(alloc))
}

/// Returns an option whose value is a number from `least` to the greatest size.
fn number_arg<'a>(
    alloc: Global,
    name: &'a str,
    least: u64,
    value: &'a str,
    help: &'a str,
) -> Arg<'a>
    ensures rule { rule_of result ≡ number_rule name.entry.now least }
    ensures local { result.global ≡ false }
{
    Arg::new(alloc, name)
        .long(name)
        .value_name(value)
        .value_parser(ValueParser::unsigned(least, GREATEST_SIZE))
        .help(help)
}

/// Returns the option `--unknown`: the envelope states that the size of its object is unknown.
fn unknown_arg<'a>(alloc: Global) -> Arg<'a>
    ensures rule { rule_of result ≡ unknown_rule }
    ensures local { result.global ≡ false }
{
    Arg::new(alloc, "unknown")
        .long("unknown")
        .action(ArgAction::SetTrue)
        .help(
            "Announce no size of the object; takes memory for N octets, or for M where that is less",
        )
}

/// Returns the option `--now`, which sets the instant of the audit.
fn now_arg<'a>(alloc: Global) -> Arg<'a>
    ensures rule { rule_of result ≡ now_rule }
    ensures local { result.global ≡ false }
{
    Arg::new(alloc, "now")
        .long("now")
        .value_name("INSTANT")
        .required(true)
        .help("The present instant, as 2024-03-01T12:00:00Z")
}

/// Adds an argument to a command. Returns an error if this or an earlier allocation failed.
fn with_arg<'a>(
    command: Result<Command<'a>, AllocError>,
    arg: Arg<'a>,
) -> Result<Command<'a>, AllocError>
    ensures { (app : App) → (rule : Rule) → IsCommand app command.entry → rule_of arg.entry ≡ rule
        → arg.entry.global ≡ false → IsCommand (with_rule app rule) result }
{
    command?.arg(arg)
}

/// Adds a command to a program. Returns an error if this or an earlier allocation failed.
fn with_command<'a>(
    program: Result<Command<'a>, AllocError>,
    command: Result<Command<'a>, AllocError>,
) -> Result<Command<'a>, AllocError>
    ensures { (app : App) → (added : App) → IfOk program.entry (λ program. app_of program ≡ app)
        → IsCommand added command.entry → IfOk result (λ program. app_of program ≡ with_subcommand app added.top) }
{
    match (program, command) {
        (Ok(program), Ok(command)) => program.subcommand(command),
        _ => Err(AllocError),
    }
}

/// Returns the command `pack`.
fn pack<'a>(alloc: Global) -> Result<Command<'a>, AllocError>
    ensures { IsCommand pack_command result }
{
    let subfile = number_arg(
        alloc,
        "subfile",
        1,
        "N",
        "The most octets of a subfile; 1024 where this is not given",
    );
    let max = number_arg(
        alloc,
        "max",
        0,
        "M",
        "The most octets of an object of unknown size",
    );
    let pack = with_file(
        alloc,
        "pack",
        "Packs the envelope that a script tells",
        PACK_HELP,
    );
    with_arg(with_arg(with_arg(pack, subfile), unknown_arg(alloc)), max)
}

/// Returns the command `audit`.
fn audit<'a>(alloc: Global) -> Result<Command<'a>, AllocError>
    ensures { IsCommand audit_command result }
{
    let audit = with_file(
        alloc,
        "audit",
        "Tells id, sizes, words and age of each envelope, which of them repeat others, and whether their copy is held",
        AUDIT_HELP,
    );
    with_arg(audit, now_arg(alloc))
}

/// Returns the program without its commands.
fn program_without_commands<'a>(alloc: Global) -> Command<'a>
    ensures { app_of result ≡ requires_subcommand (new_app (codes "iimwire")) }
{
    Command::new(alloc, "iimwire")
        .version(RELEASE)
        .about("Reads and packs envelopes of the IPTC-NAA Information Interchange Model")
        .after_help(PROGRAM_HELP)
        .subcommand_required(true)
        .disable_help_subcommand(true)
}

/// Returns the program with all its commands. Returns an error if an allocation fails.
pub fn command<'a>(alloc: Global) -> Result<Command<'a>, AllocError>
    ensures { IfOk result (λ command. app_of command ≡ program) }
{
    let check = with_files(
        alloc,
        "check",
        "Lists the envelopes, up to the first refusal",
        CHECK_HELP,
    );
    let show = with_files(
        alloc,
        "show",
        "Shows the fields, the message's header and the sizes of each envelope",
        SHOW_HELP,
    );
    let story = with_files(
        alloc,
        "story",
        "Writes the story of each envelope",
        STORY_HELP,
    );
    let program = with_command(Ok(program_without_commands(alloc)), check);
    let program = with_command(with_command(program, show), story);
    with_command(with_command(program, pack(alloc)), audit(alloc))
}
