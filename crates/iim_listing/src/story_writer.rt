//! The output of `story`: the text in blocks, and the lines of the envelopes on a second target.

ghost use Rattle.std.specs.Prelude.{◌≡◌, [], ◌∷◌, IfErr, OnOk, OnErr};
ghost use Rattle.iim_output.specs.Format.{accepted_line, refused_line};

use iim_dataset::device_laws::writes_join;
use iim_dataset::octets::LF;
use iim_dataset::{Stop, Target, put};
use iim_output::block_writer::BlockWriter;
use iim_output::fault::CommandFault;
use iim_output::flush_sink::FlushSink;
use iim_output::lines::{push_accepted, push_refused, write_text};
use iim_places::Refusal;
use std::alloc::{AllocError, Global};
use wire_story::StorySink;

/// Writes the text of stories in blocks to one target, and the lines of the envelopes to another.
/// The lines are buffered until the writer is flushed: each line is written after the text that was
/// received before it.
#[derive(Drop)]
pub(crate) struct StoryWriter<'o, 'e, W, E> {
    /// The writer for the text.
    pub output: BlockWriter<'o, W>,
    /// The target for the lines.
    pub errors: &'e mut E,
    /// The lines that are not written yet.
    pub lines: Vec<u8>,
    /// A buffer in which the next line is built.
    line: Vec<u8>,
}

impl<'o, 'e, W: Target, E: Target> StoryWriter<'o, 'e, W, E> {
    ghost use Rattle.iim_dataset.specs.Format.Octets.{lf};
    ghost use Rattle.iim_output.specs.States.Holding.{BuffersText};
    ghost use Rattle.iim_listing.specs.Steps.{BuffersLines, EndStoryFails, LastLineFails, FlushesBefore, stops_of};

    /// Creates a writer that has no line buffered.
    pub(crate) fn new(
        alloc: Global,
        output: BlockWriter<'o, W>,
        errors: &'e mut E,
    ) -> StoryWriter<'o, 'e, W, E>
        ensures output { result.output ≡ output.entry }
        ensures errors { result.errors ≡ errors.entry }
        ensures lines { result.lines.items ≡ [] }
    {
        StoryWriter {
            output,
            errors,
            lines: Vec::new(alloc),
            line: Vec::new(alloc),
        }
    }

    /// Returns both targets. Everything that is still buffered is lost.
    pub(crate) fn into_targets(self) -> (&'o mut W, &'e mut E)
        ensures output { result.0 ≡ self.entry.output.writer }
        ensures errors { result.1 ≡ self.entry.errors }
    {
        let StoryWriter {
            output,
            errors,
            lines: _,
            line: _,
        } = self;
        (output.into_writer(), errors)
    }

    /// Flushes everything that is buffered, after an allocation failed. Returns the error of that
    /// allocation, or of a write that fails now.
    fn flush_without_memory(&mut self) -> CommandFault
        ensures { LastLineFails W.state E.state self.old self.new [] result }
    {
        match self.flush_all() {
            Ok(()) => CommandFault::OutOfMemory,
            Err(_) => CommandFault::CannotWrite,
        }
    }

    /// Buffers the line of an accepted envelope. If the allocation fails, nothing is buffered.
    fn buffer_line(&mut self, number: u64, octets: u64) -> Result<(), AllocError>
        ensures ok { OnOk result (BuffersLines self.old self.new (accepted_line number octets)) }
        ensures err { OnErr result (BuffersLines self.old self.new []) }
        ensures text { self.new.output ≡ self.old.output }
    {
        self.line.clear();
        push_accepted(&mut self.line, number, octets)?;
        self.lines.extend_from_slice(self.line.as_slice())
    }

    /// Ends the story of an envelope: writes an LF after its text, and buffers its line. If the
    /// allocation for the line fails, flushes everything that is buffered, and writes no LF.
    pub(crate) fn end_story(&mut self, number: u64, octets: u64) -> Result<(), CommandFault>
        ensures ok { OnOk result (BuffersText W.state self.old.output self.new.output (lf ∷ [])
            × (stops_of self.new ≡ stops_of self.old) × BuffersLines self.old self.new (accepted_line number octets)) }
        ensures err { IfErr result (EndStoryFails W.state E.state self.old self.new) }
    {
        if self.buffer_line(number, octets).is_err() {
            return Err(self.flush_without_memory());
        }
        match self.output.put(&[LF]) {
            Ok(()) => Ok(()),
            Err(_) => Err(CommandFault::CannotWrite),
        }
    }

    /// Flushes everything that is buffered, and then writes a last line.
    pub(crate) fn write_last_line(&mut self, line: &[u8]) -> Result<(), CommandFault>
        ensures ok { OnOk result (FlushesBefore W.state E.state self.old self.new line.now) }
        ensures err { IfErr result (LastLineFails W.state E.state self.old self.new line.now) }
    {
        writes_join();
        match self.flush_all() {
            Ok(()) => write_text(&mut *self.errors, line),
            Err(_) => Err(CommandFault::CannotWrite),
        }
    }

    /// Flushes everything that is buffered, and then writes the line of a refusal.
    pub(crate) fn tell_refusal(&mut self, number: u64, refusal: Refusal) -> Result<(), CommandFault>
        ensures ok { OnOk result (FlushesBefore W.state E.state self.old self.new (refused_line number refusal)) }
        ensures err { IfErr result (LastLineFails W.state E.state self.old self.new (refused_line number refusal)) }
    {
        writes_join();
        match self.flush_all() {
            Ok(()) => {
                push_refused(&mut self.lines, number, refusal)?;
                write_text(&mut *self.errors, self.lines.as_slice())
            }
            Err(_) => Err(CommandFault::CannotWrite),
        }
    }
}

impl<'o, 'e, W: Target, E: Target> StorySink for StoryWriter<'o, 'e, W, E> {
    ghost use Rattle.iim_listing.specs.Steps.{PassesEvents, stops_of};

    ghost goes = { PassesEvents W.state E.state };

    ghost failures = { stops_of };

    ghost use Rattle.iim_listing.specs.Steps.{no_events, events_joined};

    ghost nothing = { λ sink. no_events W.state E.state sink };

    ghost joined = { λ a b c xs ys first then. events_joined W.state E.state a b c xs ys first then };

    fn text(&mut self, run: &[u8]) -> Result<(), Stop> {
        self.output.text(run)
    }

    fn line_end(&mut self) -> Result<(), Stop> {
        self.output.line_end()
    }
}

impl<'o, 'e, W: Target, E: Target> FlushSink for StoryWriter<'o, 'e, W, E> {
    ghost use Rattle.iim_listing.specs.Steps.{StoryWriterIsFlushed, StoryWriterFlushFails, FlushesBefore, PassesEvents, stops_of};

    ghost is_flushed = { StoryWriterIsFlushed };

    ghost write_failed = { StoryWriterFlushFails W.state E.state };

    fn flush_all(&mut self) -> Result<(), Stop>
        ensures told { OnOk result (PassesEvents W.state E.state self.old [] self.new) }
        ensures no_failure { OnOk result (stops_of self.new ≡ stops_of self.old) }
        ensures is_flushed { OnOk result (StoryWriterIsFlushed self.new) }
        ensures out { OnOk result (FlushesBefore W.state E.state self.old self.new []) }
        ensures write_failed { OnErr result (StoryWriterFlushFails W.state E.state self.old self.new) }
    {
        self.output.flush()?;
        match put(&mut *self.errors, self.lines.as_slice()) {
            Ok(()) => {
                self.lines.clear();
                Ok(())
            }
            Err(_) => Err(Stop { taken: 0 }),
        }
    }
}
