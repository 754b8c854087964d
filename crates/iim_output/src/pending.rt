//! Octets that are buffered for a target.

ghost use Rattle.std.specs.Prelude.{◌≡◌, ◌≤◌, ◌+◌, [], ◌++◌, length, drop, IfOk};

use iim_dataset::BLOCK;
use iim_dataset::internals::ReservedOctets;
use std::alloc::{AllocError, Global};
use std::marker::Model;

/// A buffer for one block of octets that are not written yet. Its model in contracts is these
/// octets, and the number of octets that still fit.
#[derive(Drop)]
pub(crate) struct PendingOctets {
    /// The octets appended since the last `clear`.
    block: ReservedOctets,
    /// The number of these octets that are written.
    out: usize,
}

impl Model for PendingOctets {
    ghost use Rattle.std.specs.Prelude.{◌≡◌, ◌≤◌, ◌-◌, drop, length};
    ghost use Rattle.iim_output.specs.States.PendingOctets.{Holding};

    ghost Value = { Holding };

    ghost view = { λ h. record { octets = drop h.out h.block.items; room = h.block.room - length h.block.items } };

    ghost invariant = { λ h. (h.out ≤ length h.block.items) × (length h.block.items ≤ h.block.room)
        × (h.block.room ≡ 4096) };
}

/// Appends octets, which must fit. A single octet is appended without a call that copies a slice.
#[inline(always)]
fn take(block: &mut ReservedOctets, more: &[u8])
    requires { length block.old.items + length more.now ≤ block.old.room }
    ensures items { block.new.items ≡ block.old.items ++ more.now }
    ensures room { block.new.room ≡ block.old.room }
{
    match more {
        [octet] => block.take(&[*octet]),
        _ => block.take(more),
    }
}

impl PendingOctets {
    /// Creates an empty buffer. Returns an error if the allocation fails.
    pub(crate) fn new(alloc: Global) -> Result<PendingOctets, AllocError>
        ensures { IfOk result (λ pending. pending.octets ≡ []) }
    {
        let pending = PendingOctets {
            block: ReservedOctets::new(alloc, BLOCK)?,
            out: 0,
        };
        Ok(pending)
    }

    /// Returns the octets that are not written yet.
    pub(crate) fn octets(&self) -> &[u8]
        ensures { result.now ≡ self.now.octets }
    {
        &self.block.as_slice()[self.out..]
    }

    /// Returns the number of octets that still fit.
    pub(crate) fn room(&self) -> usize
        ensures { result ≡ self.now.room }
    {
        self.block.room() - self.block.len()
    }

    /// Appends octets, which must fit.
    #[inline(always)]
    pub(crate) fn take(&mut self, more: &[u8])
        requires { length more.now ≤ self.old.room }
        ensures { self.new.octets ≡ self.old.octets ++ more.now }
    {
        take(&mut self.block, more);
    }

    /// Marks the first `out` octets as written.
    pub(crate) fn skip_written(&mut self, out: usize)
        requires { out ≤ length self.old.octets }
        ensures { self.new.octets ≡ drop out self.old.octets }
    {
        self.out += out;
    }

    /// Removes all octets. The memory is reused.
    pub(crate) fn clear(&mut self)
        ensures { self.new.octets ≡ [] }
    {
        self.block.clear();
        self.out = 0;
    }
}
