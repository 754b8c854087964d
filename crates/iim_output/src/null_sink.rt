//! A sink that discards the text of a story.

ghost use Rattle.std.specs.Prelude.{[]};

use crate::block_writer::BlockWriter;
use crate::flush_sink::FlushSink;
use iim_dataset::{Stop, Target};
use wire_story::StorySink;

/// A sink that discards the text of a story. Flushing it flushes the writer to which the lines of
/// the listing are written.
#[derive(Drop)]
pub struct NullSink<'w, W> {
    /// The writer of the lines.
    pub output: BlockWriter<'w, W>,
}

impl<'w, W: Target> StorySink for NullSink<'w, W> {
    ghost use Rattle.iim_output.specs.States.Holding.{DiscardsEvents, never_stops};

    ghost goes = { DiscardsEvents W.state };

    ghost failures = { never_stops };

    ghost use Rattle.iim_output.specs.HoldingLaws.{buffered_nothing, buffered_joined};

    ghost nothing = { λ sink. buffered_nothing W.state sink.output };

    ghost joined = { λ a b c xs ys first then. buffered_joined W.state a.output b.output c.output [] [] first then };

    fn text(&mut self, _run: &[u8]) -> Result<(), Stop> {
        Ok(())
    }

    fn line_end(&mut self) -> Result<(), Stop> {
        Ok(())
    }
}

impl<'w, W: Target> FlushSink for NullSink<'w, W> {
    ghost use Rattle.iim_output.specs.States.Holding.{NullSinkIsFlushed, NullSinkFlushFails};

    ghost is_flushed = { NullSinkIsFlushed };

    ghost write_failed = { NullSinkFlushFails W.state };

    fn flush_all(&mut self) -> Result<(), Stop> {
        self.output.flush()
    }
}
