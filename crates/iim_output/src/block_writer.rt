//! Buffered output.

ghost use Rattle.std.specs.Prelude.{◌≡◌, ◌+◌, ◌<◌, ◌≤◌, [], ◌∷◌, length, map, take, IfOk, IfErr, OnOk, OnErr};
ghost use Rattle.iim_dataset.specs.Format.Octets.{CounterRose};
ghost use Rattle.iim_dataset.specs.States.Devices.{WithinInterruptionLimit};
ghost use Rattle.wire_story.specs.Format.Texts.{IsLine, LineOctet, LineEnd};

use crate::flush_sink::FlushSink;
use crate::pending::PendingOctets;
use iim_dataset::device_laws::writes_join;
use iim_dataset::octets::LF;
use iim_dataset::{Stop, Target, put};
use std::alloc::Global;
use wire_story::StorySink;

/// A writer with a buffer of 4,096 octets, which are written to a target when the buffer is full or
/// at [`BlockWriter::flush`]. Every octet that it consumed is written or still buffered; a failed
/// write loses none. It counts failed writes, up to `u64::MAX`.
#[derive(Drop)]
pub struct BlockWriter<'w, W> {
    writer: &'w mut W,
    pending: PendingOctets,
    stops: u64,
}

impl<'w, W: Target> BlockWriter<'w, W> {
    ghost use Rattle.iim_output.specs.States.Holding.{HasBuffered, HasBufferedInPart, BuffersText, FlushFails, HasEmptyBuffer, device_of, buffered_octets, stops_of};

    /// Creates a writer with an empty buffer over a borrowed target. Returns the target if the
    /// allocation fails.
    pub fn new(alloc: Global, writer: &'w mut W) -> Result<BlockWriter<'w, W>, &'w mut W>
        ensures writer { IfOk result (λ made. made.writer ≡ writer.entry) }
        ensures pending { IfOk result HasEmptyBuffer }
        ensures stops { IfOk result (λ made. stops_of made ≡ 0) }
        ensures returned_unchanged { IfErr result (λ same. same ≡ writer.entry) }
    {
        match PendingOctets::new(alloc) {
            Ok(pending) => Ok(BlockWriter {
                writer,
                pending,
                stops: 0,
            }),
            Err(_) => Err(writer),
        }
    }

    /// Returns the target. Octets that are still buffered are lost.
    pub fn into_writer(self) -> &'w mut W
        ensures { result ≡ self.entry.writer }
    {
        let BlockWriter {
            writer,
            pending: _,
            stops: _,
        } = self;
        writer
    }

    /// Writes all buffered octets. If a write fails, the octets that were not written remain
    /// buffered.
    pub fn flush(&mut self) -> Result<(), Stop>
        ensures put { OnOk result (HasBuffered W.state self.old self.new []) }
        ensures puts { OnOk result (BuffersText W.state self.old self.new []) }
        ensures pending { OnOk result (HasEmptyBuffer self.new) }
        ensures no_failure { OnOk result (stops_of self.new ≡ stops_of self.old) }
        ensures write_failed { OnErr result (FlushFails W.state self.old self.new) }
        ensures front { OnErr result (BuffersText W.state self.old self.new []) }
        ensures none { IfErr result (λ stop. stop.taken ≡ 0) }
        ensures counted { OnErr result (CounterRose (stops_of self.old) (stops_of self.new)) }
        // At most a million interruptions occurred for each octet that was buffered.
        ensures retry_limit { WithinInterruptionLimit (length (buffered_octets self.old)) (device_of W.state self.old)
            (device_of W.state self.new) }
    {
        match put(&mut *self.writer, self.pending.octets()) {
            Ok(()) => {
                self.pending.clear();
                Ok(())
            }
            Err(out) => {
                self.pending.skip_written(out);
                self.stops = self.stops.saturating_add(1);
                Err(Stop { taken: 0 })
            }
        }
    }

    /// Writes or buffers a text. If a write fails, only the octets before the failure are consumed.
    #[inline(always)]
    pub fn put(&mut self, text: &[u8]) -> Result<(), Stop>
        ensures put { OnOk result (HasBuffered W.state self.old self.new text.now) }
        ensures puts { OnOk result (BuffersText W.state self.old self.new text.now) }
        ensures no_failure { OnOk result (stops_of self.new ≡ stops_of self.old) }
        ensures refused { IfErr result (λ stop. stop.taken < length text.now) }
        ensures write_failed { IfErr result (λ stop. HasBufferedInPart W.state self.old self.new
            (take stop.taken text.now)) }
        ensures front { IfErr result (λ stop. BuffersText W.state self.old self.new (take stop.taken text.now)) }
        ensures counted { OnErr result (CounterRose (stops_of self.old) (stops_of self.new)) }
        // At most a million interruptions occurred for each octet that was buffered and for each
        // octet of the text.
        ensures retry_limit { WithinInterruptionLimit (length (buffered_octets self.old) + length text.now)
            (device_of W.state self.old) (device_of W.state self.new) }
    {
        if text.len() <= self.pending.room() {
            self.buffer_text(text);
            return Ok(());
        }
        self.flush_and_write(text)
    }

    /// Flushes the buffer, and then writes or buffers a text that did not fit into it.
    #[inline(never)]
    fn flush_and_write(&mut self, text: &[u8]) -> Result<(), Stop>
        requires { self.old.pending.room < length text.now }
        ensures put { OnOk result (HasBuffered W.state self.old self.new text.now) }
        ensures puts { OnOk result (BuffersText W.state self.old self.new text.now) }
        ensures no_failure { OnOk result (stops_of self.new ≡ stops_of self.old) }
        ensures refused { IfErr result (λ stop. stop.taken < length text.now) }
        ensures write_failed { IfErr result (λ stop. HasBufferedInPart W.state self.old self.new
            (take stop.taken text.now)) }
        ensures front { IfErr result (λ stop. BuffersText W.state self.old self.new (take stop.taken text.now)) }
        ensures counted { OnErr result (CounterRose (stops_of self.old) (stops_of self.new)) }
        ensures retry_limit { WithinInterruptionLimit (length (buffered_octets self.old) + length text.now)
            (device_of W.state self.old) (device_of W.state self.new) }
    {
        writes_join();
        match self.flush() {
            Ok(()) => self.write_to_empty_buffer(text),
            Err(stop) => Err(stop),
        }
    }

    /// Buffers a text in the empty buffer, or writes the text directly if it is longer than a
    /// block.
    fn write_to_empty_buffer(&mut self, text: &[u8]) -> Result<(), Stop>
        requires { HasEmptyBuffer self.old }
        ensures put { OnOk result (HasBuffered W.state self.old self.new text.now) }
        ensures puts { OnOk result (BuffersText W.state self.old self.new text.now) }
        ensures no_failure { OnOk result (stops_of self.new ≡ stops_of self.old) }
        ensures refused { IfErr result (λ stop. stop.taken < length text.now) }
        ensures write_failed { IfErr result (λ stop. HasBufferedInPart W.state self.old self.new
            (take stop.taken text.now)) }
        ensures front { IfErr result (λ stop. BuffersText W.state self.old self.new (take stop.taken text.now)) }
        ensures counted { OnErr result (CounterRose (stops_of self.old) (stops_of self.new)) }
        ensures retry_limit { WithinInterruptionLimit (length text.now) (device_of W.state self.old)
            (device_of W.state self.new) }
    {
        if text.len() <= self.pending.room() {
            self.buffer_text(text);
            return Ok(());
        }
        match put(&mut *self.writer, text) {
            Ok(()) => Ok(()),
            Err(taken) => {
                self.stops = self.stops.saturating_add(1);
                Err(Stop { taken })
            }
        }
    }

    /// Buffers a text that fits into the buffer.
    #[inline(always)]
    fn buffer_text(&mut self, text: &[u8])
        requires { length text.now ≤ self.old.pending.room }
        ensures put { HasBuffered W.state self.old self.new text.now }
        ensures puts { BuffersText W.state self.old self.new text.now }
        ensures no_failure { stops_of self.new ≡ stops_of self.old }
        ensures retry_limit { WithinInterruptionLimit 0 (device_of W.state self.old) (device_of W.state self.new) }
    {
        writes_join();
        self.pending.take(text);
    }
}

impl<'w, W: Target> StorySink for BlockWriter<'w, W> {
    ghost use Rattle.iim_output.specs.States.Holding.{BuffersEvents, device_of, buffered_octets, stops_of};

    ghost goes = { BuffersEvents W.state };

    ghost failures = { stops_of };

    ghost use Rattle.iim_output.specs.HoldingLaws.{buffers_no_events, buffered_events_joined};

    ghost nothing = { λ sink. buffers_no_events W.state sink };

    ghost joined = { λ a b c xs ys first then. buffered_events_joined W.state a b c xs ys first then };

    fn text(&mut self, run: &[u8]) -> Result<(), Stop>
        requires { IsLine run.now }
        ensures ok { OnOk result (BuffersEvents W.state self.old (map LineOctet run.now) self.new) }
        ensures no_failure { OnOk result (stops_of self.new ≡ stops_of self.old) }
        ensures refused { IfErr result (λ stop. stop.taken < length run.now) }
        ensures front { IfErr result (λ stop.
            BuffersEvents W.state self.old (map LineOctet (take stop.taken run.now)) self.new) }
        ensures counted { OnErr result (CounterRose (stops_of self.old) (stops_of self.new)) }

        // The limit on interruptions is that of `put`.
        ensures retry_limit { WithinInterruptionLimit (length (buffered_octets self.old) + length run.now)
            (device_of W.state self.old) (device_of W.state self.new) }
    {
        self.put(run)
    }

    fn line_end(&mut self) -> Result<(), Stop>
        ensures ok { OnOk result (BuffersEvents W.state self.old (LineEnd ∷ []) self.new) }
        ensures no_failure { OnOk result (stops_of self.new ≡ stops_of self.old) }
        ensures refused { IfErr result (λ stop. stop.taken ≡ 0) }
        ensures front { OnErr result (BuffersEvents W.state self.old [] self.new) }
        ensures counted { OnErr result (CounterRose (stops_of self.old) (stops_of self.new)) }

        // The limit on interruptions is that of `put` for one octet, LF.
        ensures retry_limit { WithinInterruptionLimit (length (buffered_octets self.old) + 1)
            (device_of W.state self.old)
            (device_of W.state self.new) }
    {
        self.put(&[LF])
    }
}

impl<'w, W: Target> FlushSink for BlockWriter<'w, W> {
    ghost use Rattle.iim_output.specs.States.Holding.{HasEmptyBuffer, BuffersEvents, FlushFails, device_of, buffered_octets, stops_of};

    ghost is_flushed = { HasEmptyBuffer };

    ghost write_failed = { FlushFails W.state };

    fn flush_all(&mut self) -> Result<(), Stop>
        ensures told { OnOk result (BuffersEvents W.state self.old [] self.new) }
        ensures no_failure { OnOk result (stops_of self.new ≡ stops_of self.old) }
        ensures is_flushed { OnOk result (HasEmptyBuffer self.new) }
        ensures write_failed { OnErr result (FlushFails W.state self.old self.new) }

        // The limit on interruptions is that of `flush`.
        ensures retry_limit { WithinInterruptionLimit (length (buffered_octets self.old)) (device_of W.state self.old)
            (device_of W.state self.new) }
    {
        self.flush()
    }
}
