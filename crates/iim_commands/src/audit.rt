//! Writes the audit report of an input.

ghost use Rattle.std.specs.Prelude.{◌≡◌, None, IfOk, IfErr, OnOk};
ghost use Rattle.iim_audit.specs.Format.{printed_report};
ghost use Rattle.iim_unpack.specs.States.Intakes.{input_of};
ghost use Rattle.iim_commands.specs.Format.{WritesAudit, AuditFails, IsErrorLine};
ghost use Rattle.iim_output.specs.States.Holding.{HasBuffered, HasEmptyBuffer, KeepsWriter, device_of, AppendFails};
ghost use Rattle.iim_commands.specs.Endings.{HasNoErrorLine};

use iim_audit::{AuditCause, AuditFault, Report, audit};
use iim_dataset::device_laws::{reads_join, writes_join};
use iim_dataset::{Source, Target};
use iim_output::block_writer::BlockWriter;
use iim_output::fault::CommandFault;
use iim_output::limits::LIMITS;
use iim_output::lines::{TOO_MANY, append, append_and_flush, push_refused};
use iim_output::status::{ACCEPTED, REFUSED};
use iim_request::instant::Instant;
use iim_unpack::Intake;
use jiff::Timestamp;
use std::alloc::Global;

/// Formats the error of an audit as a line, if the error is in the octets of the input. Otherwise
/// returns the error of the command.
fn reason(alloc: Global, fault: AuditFault) -> Result<Vec<u8>, CommandFault>
    ensures told { IfOk result (λ line. IsErrorLine fault.envelope fault.cause line.items) }
    ensures other { IfErr result (HasNoErrorLine fault.cause) }
{
    match fault.cause {
        AuditCause::Refused(refusal) => {
            let mut line = Vec::new(alloc);
            push_refused(&mut line, fault.envelope, refusal)?;
            Ok(line)
        }
        AuditCause::TooManyEnvelopes => Ok(Vec::from_slice(alloc, TOO_MANY.as_bytes())?),
        AuditCause::Read | AuditCause::Interrupted => Err(CommandFault::CannotRead),
        AuditCause::OutOfMemory => Err(CommandFault::OutOfMemory),
    }
}

/// Writes the lines of a report, and flushes the output. Allocates nothing.
fn write_report<W: Target>(
    output: &mut BlockWriter<'_, W>,
    report: &Report,
) -> Result<(), CommandFault>
    ensures ok { OnOk result (HasBuffered W.state output.old output.new (printed_report report.now)) }
    ensures pending { OnOk result (HasEmptyBuffer output.new) }
    ensures err { IfErr result (AppendFails W.state output.old output.new (printed_report report.now)) }
{
    writes_join();
    'rows: for index in 0..report.rows().len() {
        append(output, report.line(index).as_slice())?;
    }
    append_and_flush(output, report.last_line().as_slice())
}

/// Converts an instant to its form in `jiff`.
fn timestamp_of(instant: Instant) -> Timestamp
    ensures { result.nanosecond ≡ instant.nanosecond }
{
    match Timestamp::from_nanosecond(instant.nanosecond()) {
        Ok(timestamp) => timestamp,
        Err(_) => unreachable!(),
    }
}

/// Writes the report of an input, or the line of its error, and returns the exit status. The output
/// must have nothing buffered. Unless a write fails, it has nothing buffered afterwards.
fn report_input<R: Source, W: Target>(
    alloc: Global,
    now: Instant,
    intake: &mut Intake<R>,
    output: &mut BlockWriter<'_, W>,
) -> Result<u8, CommandFault>
    requires alive { intake.old.failed ≡ None }
    requires pending { HasEmptyBuffer output.old }
    ensures ok { IfOk result (WritesAudit now.nanosecond (input_of R.state intake.old) (input_of R.state intake.new)
        (device_of W.state output.old) (device_of W.state output.new)) }
    ensures err { IfErr result (AuditFails now.nanosecond (input_of R.state intake.old) (input_of R.state intake.new)
        (device_of W.state output.old) (device_of W.state output.new)) }
    ensures same { KeepsWriter output.old output.new }
    ensures leads { R.leads intake.old.reader intake.new.reader }
{
    match audit(alloc, intake, LIMITS, timestamp_of(now)) {
        Ok(report) => {
            write_report(output, &report)?;
            Ok(ACCEPTED)
        }
        Err(fault) => {
            let line = reason(alloc, fault)?;
            append_and_flush(output, line.as_slice())?;
            Ok(REFUSED)
        }
    }
}

/// Writes the report of an input at the instant `now`, or the line of its error, and returns the
/// exit status. All allocations are done before anything is written. If a write fails, the rest of
/// the text is lost.
pub fn write_audit<R: Source, W: Target>(
    alloc: Global,
    now: Instant,
    intake: &mut Intake<R>,
    output: &mut W,
) -> Result<u8, CommandFault>
    requires { intake.old.failed ≡ None }
    ensures ok { IfOk result
        (WritesAudit now.nanosecond (input_of R.state intake.old) (input_of R.state intake.new) (W.state output.old)
        (W.state output.new)) }
    ensures err { IfErr result
        (AuditFails now.nanosecond (input_of R.state intake.old) (input_of R.state intake.new) (W.state output.old)
        (W.state output.new)) }
    ensures leads { R.leads intake.old.reader intake.new.reader }
{
    reads_join();
    match BlockWriter::new(alloc, output) {
        Ok(made) => {
            let mut blocks = made;
            let answer = report_input(alloc, now, intake, &mut blocks);
            // This line has no effect at run time. The proof needs this use of the returned target
            // to know its contents.
            let _ = &*blocks.into_writer();
            answer
        }
        Err(same) => {
            // As above, for the target that is returned if the allocation fails.
            let _ = &*same;
            Err(CommandFault::OutOfMemory)
        }
    }
}
