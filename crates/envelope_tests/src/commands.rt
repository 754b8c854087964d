//! Tests the commands with readers and writers that are interrupted, and with an output that
//! accepts no octets.

use crate::outcome::{Trouble, right, right_at};
use crate::told::Told;
use iim_listing::check::Check;
use iim_listing::input::Input;
use iim_listing::list::list;
use iim_listing::story::write_stories;
use iim_output::fault::CommandFault;
use iim_output::status::ACCEPTED;
use iim_pack_script::packing::{PackRequest, pack_script};
use std::alloc::Global;
use std::io;
use trials::{TrialReader, TrialWriter, Trouble as DeviceTrouble};
use worked::STORY;

/// The script of the smallest envelope, whose packed form has 114 octets.
const SCRIPT: &[u8] =
    b"1:00 \\x00\\x04\n1:20 \\x00\\x02\n1:22 \\x00\\x01\n1:30 TST\n1:40 00000001\n\
    1:70 20240301\n2:00 \\x00\\x04\nmessage X 1 4 N 0\ntext\n";

const TEXT: &[u8] = b"Rates stay.\nNo change.\n";

const LINE: &[u8] = b"1 accepted 246 octets\n";

/// The number of consecutive interruptions that is an error.
const TOO_MANY: u32 = 1_000_000;

/// The greatest number of consecutive interruptions that is not an error.
const BORNE: DeviceTrouble = DeviceTrouble::Interruptions(TOO_MANY - 1);

/// A trouble with the number of consecutive interruptions that is an error.
const FAULT: DeviceTrouble = DeviceTrouble::Interruptions(TOO_MANY);

/// The expected result of a command, its output, and the lines in its error output.
#[derive(Clone, Copy)]
struct Want {
    answer: Result<u8, CommandFault>,
    octets: &'static [u8],
    lines: &'static [u8],
}

/// The expected result if a read fails: nothing is written.
const UNREAD: Want = Want {
    answer: Err(CommandFault::CannotRead),
    octets: b"",
    lines: b"",
};

const CHECKED: Want = Want {
    answer: Ok(ACCEPTED),
    octets: LINE,
    lines: b"",
};

const TOLD: Want = Want {
    answer: Ok(ACCEPTED),
    octets: TEXT,
    lines: LINE,
};

/// The expected result if a write fails after these octets.
const fn cut(octets: &'static [u8]) -> Want {
    Want {
        answer: Err(CommandFault::CannotWrite),
        octets,
        lines: b"",
    }
}

/// The number of successful calls of a reader or writer, and what goes wrong afterwards.
type Calls = (u64, DeviceTrouble);

const CALM: Calls = (0, DeviceTrouble::Interruptions(0));

/// Checks whether a command has the expected result and output.
fn is_met(answer: Result<u8, CommandFault>, output: &[u8], errors: &[u8], want: Want) -> bool {
    answer == want.answer && output == want.octets && errors == want.lines
}

fn writer((good, trouble): Calls) -> TrialWriter<256> {
    TrialWriter::new(good, trouble)
}

/// Checks whether `check` of the envelope has the expected result and output.
fn is_checked<const N: usize>(
    alloc: Global,
    input: Calls,
    mut output: TrialWriter<N>,
    want: Want,
) -> bool {
    let mut intake = Input::new(TrialReader::new(STORY, input.0, input.1));
    let answer = list(alloc, &Check, &mut intake, &mut output);
    is_met(answer, output.octets(), b"", want)
}

/// Runs `story` on the envelope, and returns the result.
fn told(
    alloc: Global,
    output: &mut TrialWriter<256>,
    errors: &mut TrialWriter<256>,
) -> Result<u8, CommandFault> {
    let reader = TrialReader::new(STORY, CALM.0, CALM.1);
    write_stories(alloc, &mut Input::new(reader), output, errors)
}

/// Checks whether `story` of the envelope has the expected result and output.
fn is_told(alloc: Global, output: Calls, errors: Calls, want: Want) -> bool {
    let mut output = writer(output);
    let mut errors = writer(errors);
    let answer = told(alloc, &mut output, &mut errors);
    is_met(answer, output.octets(), errors.octets(), want)
}

/// Runs `pack` on the script. Returns the result, and the lengths of the output and of the error
/// output in octets.
fn packed(alloc: Global, input: Calls) -> (Result<u8, CommandFault>, usize, usize) {
    let request = PackRequest {
        subfile: 1024,
        unknown: false,
        max: None,
    };
    let mut reader = TrialReader::new(SCRIPT, input.0, input.1);
    let mut errors = writer(CALM);
    let (answer, output) = pack_script(alloc, request, &mut reader, writer(CALM), &mut errors);
    (answer, output.octets().len(), errors.octets().len())
}

/// Checks whether `check` and `pack` behave as expected if `trouble` occurs after 50 successful
/// reads. `octets` is the expected length of the output of `pack`.
fn reads_past(alloc: Global, trouble: DeviceTrouble, want: Want, octets: usize) -> bool {
    let input = (50, trouble);
    is_checked(alloc, input, writer(CALM), want) && packed(alloc, input) == (want.answer, octets, 0)
}

fn commands_read_past_interruptions(alloc: Global) -> Result<(), Trouble> {
    right(reads_past(alloc, BORNE, CHECKED, 114))?;
    right(reads_past(alloc, FAULT, UNREAD, 0))
}

fn story_stops_after_a_million_interruptions(alloc: Global) -> Result<(), Trouble> {
    for good in [0usize, 1, 7, 11, 12, 21, 22] {
        let (front, _) = TEXT.split_at(TEXT.len().min(good));
        let output = (good as u64, FAULT);
        right_at(good, is_told(alloc, output, CALM, cut(front)))?;
    }
    Ok(())
}

fn check_stops_after_a_million_interruptions(alloc: Global) -> Result<(), Trouble> {
    for good in [0usize, 1, 7, 21] {
        let (front, _) = LINE.split_at(LINE.len().min(good));
        let output = writer((good as u64, FAULT));
        right_at(good, is_checked(alloc, CALM, output, cut(front)))?;
    }
    Ok(())
}

fn commands_write_past_interruptions(alloc: Global) -> Result<(), Trouble> {
    let slow = (4, BORNE);
    right(is_checked(alloc, CALM, writer(slow), CHECKED))?;
    right(is_told(alloc, slow, slow, TOLD))
}

fn check_stops_at_a_full_output(alloc: Global) -> Result<(), Trouble> {
    let output: TrialWriter<3> = TrialWriter::new(0, DeviceTrouble::Interruptions(0));
    right(is_checked(alloc, CALM, output, cut(b"1 a")))
}

/// Runs the tests of commands.
pub(crate) fn tell(rt: &impl Print, told: &mut Told, alloc: Global) -> io::Result<()> {
    let read = commands_read_past_interruptions(alloc);
    told.trial(rt, "commands_read_past_interruptions", read)?;
    let text = story_stops_after_a_million_interruptions(alloc);
    told.trial(rt, "story_stops_after_a_million_interruptions", text)?;
    let line = check_stops_after_a_million_interruptions(alloc);
    told.trial(rt, "check_stops_after_a_million_interruptions", line)?;
    told.trial(
        rt,
        "commands_write_past_interruptions",
        commands_write_past_interruptions(alloc),
    )?;
    let full = check_stops_at_a_full_output(alloc);
    told.trial(rt, "check_stops_at_a_full_output", full)
}
