//! An input that can be read only after all earlier output is written.

ghost use Rattle.std.specs.Prelude.{◌≡◌, ◌↔◌, ◌<◌, [], None, IsTrue, IfOk, IfErr, OnOk, length};
ghost use Rattle.iim_unpack.specs.States.Intakes.{FedChunk, ReturnsNone, AcceptsInput, ReadsOnlyIfEmpty, input_of};

use iim_dataset::Source;
use iim_output::flush_sink::FlushSink;
use iim_unpack::{Fed, Intake, IntakeFault, Unpacker};
use std::marker::Model;

/// The input of a listing or of stories: an [`Intake`] that can be read only when the sink has
/// nothing buffered. A command has no other way to read its input, so it cannot wait for input
/// while output is pending.
///
/// Its model in contracts is the intake.
#[derive(Drop)]
pub struct Input<R> {
    intake: Intake<R>,
}

impl<R> Model for Input<R> {
    ghost use Rattle.iim_unpack.specs.declared.intake.Intake.{Intake};

    ghost Value = { Intake R };

    ghost view = { λ input. input.intake };
}

impl<R: Source> Input<R> {
    /// Creates an input from which nothing was read.
    pub fn new(reader: R) -> Input<R>
        ensures reader { result.reader ≡ reader }
        ensures block { result.block ≡ [] }
        ensures failed { result.failed ≡ None }
    {
        Input {
            intake: Intake::new(reader),
        }
    }

    /// Checks whether the input has octets that were read but not consumed. If it has,
    /// [`Input::next_piece`] does not read.
    pub fn has_buffered_octets(&self) -> bool
        ensures { IsTrue result ↔ (0 < length self.now.block) }
    {
        self.intake.has_buffered_octets()
    }

    /// Feeds to an unpacker the octets that were read but not consumed. If there are none, reads
    /// once, as [`Intake::next_piece`] does, and feeds the new octets. In that case the sink must
    /// have nothing buffered.
    pub fn next_piece<S: FlushSink>(
        &mut self,
        unpacker: &mut Unpacker,
        sink: &mut S,
    ) -> Result<Fed, IntakeFault>
        requires ready { AcceptsInput unpacker.old }
        requires out { self.old.block ≡ [] → S.is_flushed sink.old }
        ensures fed { self.old.failed ≡ None → IfOk result (FedChunk S.goes
            (input_of R.state self.old, unpacker.old, sink.old) (input_of R.state self.new, unpacker.new, sink.new)) }
        ensures no_failure { OnOk result ((self.new.failed ≡ None) × (S.failures sink.new ≡ S.failures sink.old)) }
        ensures faults { self.old.failed ≡ None → IfErr result (ReturnsNone S.goes S.failures R.state
            (self.old, unpacker.old, sink.old) (self.new, unpacker.new, sink.new)) }
        ensures reads { ReadsOnlyIfEmpty self.old self.new unpacker.old unpacker.new sink.old sink.new result }
        ensures leads { R.leads self.old.reader self.new.reader }
    {
        self.intake.next_piece(unpacker, sink)
    }
}
