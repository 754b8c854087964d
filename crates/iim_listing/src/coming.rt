//! Reads the next envelope of an input.

ghost use Rattle.std.specs.Prelude.{◌≡◌, [], None, OnOk, OnErr};
ghost use Rattle.iim_unpack.specs.States.Intakes.{input_of};
ghost use Rattle.iim_listing.specs.States.{IsNextItem, CountsFailuresOfSink, CanReadNext};
ghost use Rattle.iim_unpack.specs.States.Unpacking.{limits_in};
ghost use Rattle.iim_unpack.specs.declared.intake.IntakeFault.TheVariants.{Refused};
ghost use Rattle.iim_listing.specs.Steps.{IsNextForFault};
ghost use Rattle.iim_output.specs.Format.{limits};

use crate::input::Input;
use iim_dataset::device_laws::reads_join;
use iim_dataset::{Source, Stop};
use iim_output::fault::CommandFault;
use iim_output::flush_sink::FlushSink;
pub use iim_output::limits::LIMITS;
use iim_unpack::laws::place_laws;
use iim_unpack::{Cause, Fed, IntakeFault, Refusal, Unpacker};
use wire_story::laws::delivery_of_chunks_joins;

/// The next item of an input.
#[derive(Clone, Copy, Debug, PartialEq, Eq)]
pub enum Next {
    /// A complete envelope of this length in octets. The unpacker is in the state after it.
    Envelope(u64),
    /// The end of the input.
    End,
    /// Octets that are rejected.
    Refused(Refusal),
}

/// Flushes the sink if the input has no buffered octets and the next call will read.
fn flush_before_read<R: Source, S: FlushSink>(intake: &Input<R>, sink: &mut S) -> Result<(), Stop>
    ensures told { OnOk result (S.goes sink.old [] sink.new) }
    ensures no_failure { OnOk result (S.failures sink.new ≡ S.failures sink.old) }
    ensures is_flushed { OnOk result (intake.now.block ≡ [] → S.is_flushed sink.new) }
    ensures write_failed { OnErr result (S.write_failed sink.old sink.new) }
{
    if intake.has_buffered_octets() {
        return Ok(());
    }
    sink.flush_all()
}

/// Converts a refusal to the next item. Returns an error if the sink caused the refusal.
fn next_of_refusal(refusal: Refusal) -> Result<Next, CommandFault>
    ensures { IsNextForFault (Refused refusal) result }
{
    if refusal.cause == Cause::SINK {
        return Err(CommandFault::CannotWrite);
    }
    Ok(Next::Refused(refusal))
}

/// Converts an error of an intake to the next item, or to an error of the command.
fn next_of_fault(fault: IntakeFault) -> Result<Next, CommandFault>
    ensures { IsNextForFault fault result }
{
    match fault {
        IntakeFault::Refused(refusal) => next_of_refusal(refusal),
        IntakeFault::Read => Err(CommandFault::CannotRead),
        IntakeFault::Interrupted => Err(CommandFault::CannotRead),
    }
}

/// Resets an unpacker, and feeds the next envelope of an input to it. The sink receives the text of
/// the envelope, and is flushed before each read of the input. Returns an error if the input or the
/// output fails; a refusal is an item.
pub fn next_item<R: Source, S: FlushSink>(
    intake: &mut Input<R>,
    unpacker: &mut Unpacker,
    sink: &mut S,
) -> Result<Next, CommandFault>
    requires alive { intake.old.failed ≡ None }
    requires limits { limits_in unpacker.old ≡ limits }
    ensures next { IsNextItem S.goes S.failures S.is_flushed S.write_failed (input_of R.state intake.old, sink.old)
        (input_of R.state intake.new, unpacker.new, sink.new) result }
    ensures no_failure { CountsFailuresOfSink (S.failures sink.old) (S.failures sink.new) result }
    ensures lives { CanReadNext intake.new.failed result }
    ensures leads { R.leads intake.old.reader intake.new.reader }
{
    reads_join();
    delivery_of_chunks_joins();
    place_laws();
    unpacker.again();
    'feeding: loop {
        match flush_before_read(intake, sink) {
            Ok(()) => {}
            Err(_) => return Err(CommandFault::CannotWrite),
        }
        match intake.next_piece(unpacker, sink) {
            Ok(Fed::More(_)) => {}
            Ok(Fed::Done(_)) => return Ok(Next::Envelope(unpacker.octets())),
            Ok(Fed::End) => return Ok(Next::End),
            Err(fault) => return next_of_fault(fault),
        }
    }
}
