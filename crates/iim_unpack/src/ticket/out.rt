//! Outputs for a ticket: memory that grows, or a buffer of the caller.

ghost use Rattle.std.specs.Prelude.{[], ◌++◌, List, ℕ};

/// An output for octets, slice by slice. Calls do not fail: if an allocation fails or the buffer is
/// full, the output has a field that records this.
pub(crate) trait TicketOut {
    /// Relates the values of the output before and after it received these octets.
    ghost puts: { Self → List ℕ → Self → Type 0 };

    /// Appends octets.
    fn put(&mut self, more: &[u8])
        ensures { puts self.old more.now self.new };

    /// Appending no octets changes nothing.
    ghost nothing: { (out : Self) → puts out [] out };

    /// Appending two slices one after the other is the same as appending their concatenation.
    ghost joined: { (a b c : Self) (xs ys : List ℕ) → puts a xs b → puts b ys c → puts a (xs ++ ys) c };
}

/// An output into memory that grows.
#[derive(Drop)]
pub(crate) struct Grown {
    /// The octets.
    pub ticket: Vec<u8>,
    /// Whether an allocation failed, so that some octets are missing.
    pub is_refused: bool,
}

impl TicketOut for Grown {
    ghost use Rattle.iim_unpack.specs.TicketOuts.{AppendsOctets, appends_octets_nil, appends_octets_append};

    ghost puts = { AppendsOctets };

    ghost nothing = { appends_octets_nil };

    ghost joined = { appends_octets_append };

    fn put(&mut self, more: &[u8]) {
        if self.is_refused {
            return;
        }
        if self.ticket.extend_from_slice(more).is_err() {
            self.is_refused = true;
        }
    }
}

/// An output to the start of a buffer. Octets are written as far as they fit, and all of them are
/// counted.
pub(crate) struct Front<'o> {
    /// The buffer.
    pub out: &'o mut [u8],
    /// The number of octets appended, which saturates at the greatest number of 64 bits.
    pub count: usize,
}

impl<'o> TicketOut for Front<'o> {
    ghost use Rattle.iim_unpack.specs.TicketOuts.{WritesPrefix, writes_prefix_nil, writes_prefix_append};

    ghost puts = { WritesPrefix };

    ghost nothing = { writes_prefix_nil };

    ghost joined = { writes_prefix_append };

    #[inline(always)]
    fn put(&mut self, more: &[u8]) {
        let from = self.count;
        self.count = from.saturating_add(more.len());
        if self.count <= self.out.len() {
            self.out[from..self.count].copy_from_slice(more);
        }
    }
}
