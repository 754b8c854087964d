//! The part of an audit's state that is not in the ticket.

ghost use Rattle.std.specs.Prelude.{◌≡◌};
ghost use Rattle.iim_c.specs.Format.Tickets.{state_at_start, words_so_far};

/// The part of an audit's state that is not in the ticket. It concerns the envelope in progress.
#[repr(C)]
#[derive(Clone, Copy)]
pub struct IimSoFar {
    /// The offset in the input of the first octet of the envelope.
    pub at: u64,
    /// The number of octets of the envelope that were received; 0 if no envelope is in progress.
    pub octets: u64,
    /// The number of words counted in these octets.
    pub words: u64,
    /// Whether the last of these octets is part of a word.
    pub inside: bool,
}

impl IimSoFar {
    /// Returns the value for an envelope that begins at the offset `at`.
    pub(crate) fn begins(at: u64) -> IimSoFar
        ensures { result ≡ state_at_start at }
    {
        IimSoFar {
            at,
            octets: 0,
            words: 0,
            inside: false,
        }
    }

    /// Returns the number of words so far, and whether the last octet is part of a word. With an
    /// empty ticket these are 0 and false.
    pub(crate) fn words(&self, ticket: &[u8]) -> (u64, bool)
        ensures { record { words = result.0; inside = result.1 } ≡ words_so_far ticket.now self.now }
    {
        if ticket.is_empty() {
            return (0, false);
        }
        (self.words, self.inside)
    }
}
