//! A target with a buffer of one block.

ghost use Rattle.std.specs.Prelude.{◌≡◌, ℕ, ◌<◌, ◌≤◌, ◌+◌, ◌-◌, ◌⊎◌, [], ◌++◌, length, min, take, drop, IfOk, IfErr, OnErr};
ghost use Rattle.iim_dataset.specs.States.Devices.{WriteAccepted, CountedFault};

use iim_dataset::{IoFault, Target, put};
use std::snapshot::Snapshot;

/// Calls `write` once for the first `used` octets of a block, and moves those that were not written
/// to the start of the block. Returns the number of octets written.
fn write_front<W: Target>(writer: &mut W, block: &mut [u8], used: usize) -> Result<usize, IoFault>
    requires { used ≤ length block.old }
    ensures ok { IfOk result (WriteAccepted (W.state writer.old) (W.state writer.new) (take used block.old)) }
    ensures rest { IfOk result (λ count. take (used - count) block.new ≡ drop count (take used block.old)) }
    ensures room { length block.new ≡ length block.old }
    ensures err { IfErr result (CountedFault (W.state writer.old) (W.state writer.new)) }
    ensures same { OnErr result (block.new ≡ block.old) }
{
    match writer.write(&block[..used]) {
        Ok(count) => {
            block.copy_within(count..used, 0);
            Ok(count)
        }
        Err(fault) => Err(fault),
    }
}

/// A target that collects octets in a block, and writes the block to another target when it is
/// full. Octets that it accepted were written or are buffered; a failed write loses none of them.
/// Its model in contracts is a target that accepted both the octets written and those buffered,
/// with the failures of the inner target.
pub(crate) struct BlockTarget<'b, W> {
    pub(crate) writer: W,
    /// The initial value of the inner target, for contracts.
    first: Snapshot<W>,
    block: &'b mut [u8],
    /// The number of octets of the block that are buffered.
    used: usize,
    ghost some: { 0 < length block.now },
    ghost within: { used ≤ length block.now },
}

impl<'b, W: Target> BlockTarget<'b, W> {
    ghost use Rattle.iim_dataset.specs.States.Devices.{CountedNoFault, CountedFailure, WroteOnlyPrefixOf, WroteAllOf};
    ghost use Rattle.std.specs.Io.KnownBytes.{Appends, Keeps};
    ghost use Rattle.iim_pack_script.specs.Steps.{IsFresh, block_device, buffer_of, remaining_capacity};

    /// Creates a target with an empty buffer over `writer`.
    pub(crate) fn new(block: &'b mut [u8], writer: W) -> BlockTarget<'b, W>
        requires { 0 < length block.old }
        ensures writer { result.writer ≡ writer }
        ensures fresh { IsFresh result }
    {
        let first = Snapshot::of(&writer);
        BlockTarget {
            writer,
            first,
            block,
            used: 0,
        }
    }

    /// Returns the inner target. Octets that are still buffered are lost.
    pub(crate) fn into_writer(self) -> W
        ensures { result ≡ self.entry.writer }
    {
        let BlockTarget {
            writer,
            first: _,
            block: _,
            used: _,
        } = self;
        writer
    }

    /// Flushes the buffer. Returns the inner target, as the error if a write fails.
    pub(crate) fn finish(self) -> Result<W, W>
        ensures ok { IfOk result (λ last. WroteAllOf (W.state self.entry.writer) (W.state last)
            (buffer_of self.entry)) }
        ensures err { IfErr result (λ last. (out : ℕ)
            × WroteOnlyPrefixOf (W.state self.entry.writer) (W.state last) (buffer_of self.entry) out) }
    {
        let BlockTarget {
            mut writer,
            first: _,
            block,
            used,
        } = self;
        match put(&mut writer, &block[..used]) {
            Ok(()) => Ok(writer),
            Err(_) => Err(writer),
        }
    }

    /// Buffers as much of the chunk as fits. Returns the number of octets buffered.
    fn buffer_some(&mut self, piece: &[u8]) -> usize
        ensures count { result ≡ min (length piece.now) (remaining_capacity self.old) }
        ensures held { Appends (block_device W.state self.old).octets (block_device W.state self.new).octets
            (take result piece.now) }
        ensures no_failure { CountedNoFault (block_device W.state self.old) (block_device W.state self.new) }
    {
        let count = piece.len().min(self.block.len() - self.used);
        self.block[self.used..self.used + count].copy_from_slice(&piece[..count]);
        self.used += count;
        count
    }

    /// Calls `write` once for the buffered octets. Returns the number of octets written. If it is
    /// not 0, the block has capacity again; 0 is a failure.
    fn flush_once(&mut self) -> Result<usize, IoFault>
        requires { 0 < self.old.used }
        ensures ok { IfOk result (λ count.
            Keeps (block_device W.state self.old).octets (block_device W.state self.new).octets
            × (((0 < count) × (0 < remaining_capacity self.new)
            × CountedNoFault (block_device W.state self.old) (block_device W.state self.new))
            ⊎ ((count ≡ 0) × CountedFailure (block_device W.state self.old) (block_device W.state self.new)))) }
        ensures err { IfErr result (CountedFault (block_device W.state self.old) (block_device W.state self.new)) }
    {
        match write_front(&mut self.writer, &mut *self.block, self.used) {
            Ok(count) => {
                self.used -= count;
                Ok(count)
            }
            Err(fault) => Err(fault),
        }
    }
}

impl<'b, W: Target> Target for BlockTarget<'b, W> {
    ghost use Rattle.iim_pack_script.specs.Steps.{block_device};

    ghost state = { block_device W.state };

    fn write(&mut self, piece: &[u8]) -> Result<usize, IoFault> {
        if self.used < self.block.len() || piece.is_empty() {
            return Ok(self.buffer_some(piece));
        }
        match self.flush_once() {
            Ok(0) => Ok(0),
            Ok(_) => Ok(self.buffer_some(piece)),
            Err(fault) => Err(fault),
        }
    }
}
