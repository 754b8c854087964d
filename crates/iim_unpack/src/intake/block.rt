//! The buffer of an intake.

ghost use Rattle.std.specs.Prelude.{◌≡◌, ◌≤◌, [], ℕ, length, drop, IfOk, IfErr, OnErr};
ghost use Rattle.std.specs.Io.KnownBytes.{IsAtEnd};
ghost use Rattle.iim_dataset.specs.States.Devices.{ReadFailed, ReadsGave, WithinInterruptionLimit};

use iim_dataset::{BLOCK, IoFault, Source, take};
use std::marker::Model;

/// A buffer for one read. It has the octets that were read but not consumed yet.
#[derive(Drop)]
pub(crate) struct Block {
    octets: [u8; BLOCK],
    from: usize,
    to: usize,
}

impl Model for Block {
    ghost use Rattle.std.specs.Prelude.{ℕ, List, ◌≤◌, slice_range};

    ghost Value = { List ℕ };

    ghost view = { λ b. slice_range b.octets b.from b.to };

    ghost invariant = { λ b. (b.from ≤ b.to) × (b.to ≤ 4096) };
}

impl Block {
    /// Creates an empty block.
    pub(crate) fn new() -> Block
        ensures { result ≡ [] }
    {
        Block {
            octets: [0u8; BLOCK],
            from: 0,
            to: 0,
        }
    }

    /// Returns the buffered octets.
    pub(crate) fn held(&self) -> &[u8]
        ensures { result.now ≡ self.now }
    {
        &self.octets[self.from..self.to]
    }

    /// Removes the first `used` buffered octets.
    pub(crate) fn pass(&mut self, used: usize)
        requires { used ≤ length self.old }
        ensures { self.new ≡ drop used self.old }
    {
        self.from += used;
    }

    /// Reads once, with retries after interruptions, and replaces the buffered octets. Returns the
    /// number of octets read, which is 0 only at the end of the source.
    pub(crate) fn fill<R: Source>(&mut self, reader: &mut R) -> Result<usize, IoFault>
        ensures given { IfOk result (λ count. ReadsGave (R.state reader.old) (R.state reader.new) self.new) }
        ensures length { IfOk result (λ count. length self.new ≡ count) }
        ensures end { IfOk result (λ count. count ≡ 0 → IsAtEnd (R.state reader.new).octets) }
        ensures missed { IfErr result (ReadFailed (R.state reader.old) (R.state reader.new)) }
        ensures empty { OnErr result (self.new ≡ []) }
        ensures retry_limit { WithinInterruptionLimit 1 (R.state reader.old) (R.state reader.new) }
        ensures leads { R.leads reader.old reader.new }
    {
        self.from = 0;
        self.to = 0;
        match take(reader, &mut self.octets) {
            Ok(count) => {
                self.to = count;
                Ok(count)
            }
            Err(fault) => Err(fault),
        }
    }
}
