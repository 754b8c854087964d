//! The lines of `check`.

ghost use Rattle.std.specs.Prelude.{◌≡◌, ◌++◌, length, IfErr, OnOk};
ghost use Rattle.iim_dataset.specs.States.Devices.{WroteAllOf, WithinInterruptionLimit};
ghost use Rattle.iim_output.specs.Format.{IsPrinted, WriteFails, accepted_line, refused_line};
ghost use Rattle.iim_output.specs.States.Holding.{HasBuffered, HasEmptyBuffer, AppendFails};

use crate::block_writer::BlockWriter;
use crate::fault::CommandFault;
use crate::status::FAILED;
use iim_dataset::device_laws::writes_join;
use iim_dataset::{Target, put};
use iim_places::Refusal;
use iim_script::{push_display, write_word};
use itoa::write_digits;
use std::alloc::AllocError;

/// The line that is printed for the first envelope over the limit.
pub const TOO_MANY: &str = "too many envelopes\n";

/// Writes a text to a target without buffering.
pub fn write_text<W: Target>(output: &mut W, text: &[u8]) -> Result<(), CommandFault>
    ensures ok { OnOk result (WroteAllOf (W.state output.old) (W.state output.new) text.now) }
    ensures err { IfErr result (WriteFails (W.state output.old) (W.state output.new) text.now) }
    // At most a million interruptions occurred for each octet of the text.
    ensures retry_limit { WithinInterruptionLimit (length text.now) (W.state output.old) (W.state output.new) }
{
    match put(output, text) {
        Ok(()) => Ok(()),
        Err(_) => Err(CommandFault::CannotWrite),
    }
}

/// Appends a text to buffered output.
pub fn append<W: Target>(output: &mut BlockWriter<'_, W>, text: &[u8]) -> Result<(), CommandFault>
    ensures ok { OnOk result (HasBuffered W.state output.old output.new text.now) }
    ensures err { IfErr result (AppendFails W.state output.old output.new text.now) }
{
    match output.put(text) {
        Ok(()) => Ok(()),
        Err(_) => Err(CommandFault::CannotWrite),
    }
}

/// Appends a text to buffered output, and flushes it.
pub fn append_and_flush<W: Target>(
    output: &mut BlockWriter<'_, W>,
    text: &[u8],
) -> Result<(), CommandFault>
    ensures ok { OnOk result (HasBuffered W.state output.old output.new text.now) }
    ensures pending { OnOk result (HasEmptyBuffer output.new) }
    ensures err { IfErr result (AppendFails W.state output.old output.new text.now) }
{
    writes_join();
    append(output, text)?;
    match output.flush() {
        Ok(()) => Ok(()),
        Err(_) => Err(CommandFault::CannotWrite),
    }
}

/// Writes a text to a target. Returns `status`, or the status of a failure if the write fails.
pub fn write_with_status<E: Target>(errors: &mut E, text: &[u8], status: u8) -> u8
    ensures said { IsPrinted (E.state errors.old) (E.state errors.new) text.now status result }
    // The limit on interruptions is that of `write_text`.
    ensures retry_limit { WithinInterruptionLimit (length text.now) (E.state errors.old) (E.state errors.new) }
{
    match put(errors, text) {
        Ok(()) => status,
        Err(_) => FAILED,
    }
}

/// The capacity for the line of an accepted envelope. The longest line has two numbers of 20
/// digits, and 18 other octets.
const LINE: usize = 64;

/// Appends the line of an accepted envelope, with its number and its length in octets.
pub fn push_accepted(text: &mut Vec<u8>, number: u64, used: u64) -> Result<(), AllocError>
    ensures { OnOk result (text.new.items ≡ text.old.items ++ accepted_line number used) }
{
    let mut line = [0; LINE];
    let octets = write_word(b" octets\n", &mut line, LINE);
    let used_at = write_digits(used, &mut line, octets);
    let accepted = write_word(b" accepted ", &mut line, used_at);
    let number_at = write_digits(number, &mut line, accepted);
    text.extend_from_slice(&line[number_at..])
}

/// Appends the line of a refusal.
pub fn push_refused(text: &mut Vec<u8>, number: u64, refusal: Refusal) -> Result<(), AllocError>
    ensures { OnOk result (text.new.items ≡ text.old.items ++ refused_line number refusal) }
{
    push_display(text, format_args!("{number} {refusal}\n"))
}
