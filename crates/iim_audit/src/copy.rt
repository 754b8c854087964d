//! Copy states: whether the news copy in an envelope may be used.

ghost use Rattle.std.specs.Prelude.{◌≡◌, ◌≤◌, length, Some};
ghost use Rattle.iim_audit.specs.Format.{copy_at, copy_word};

use iim_fields::{EnvelopeRef, instants};
use jiff::Timestamp;
use std::fmt;
use std::fmt::{Display, Formatter};

/// Whether the news copy in an envelope may be used.
#[derive(Clone, Copy, Debug, PartialEq, Eq)]
pub enum CopyState {
    /// The copy may not be used yet: its release is later than the instant of the audit.
    Held,
    /// The copy may no longer be used: its expiration is earlier than the instant of the audit. A
    /// copy that is also not released yet is `Held`.
    Expired,
    /// The copy may be used.
    Free,
}

impl Display for CopyState {
    ghost output = { λ copy. Some (copy_word copy) };

    fn fmt<W: fmt::Write>(&self, f: &mut Formatter<W>) -> fmt::Result {
        f.write_str(self.word())
    }
}

impl CopyState {
    /// Returns the word that a report prints for this state: `held`, `expired` or `free`.
    pub(crate) fn word(self) -> &'static str
        ensures word { result.now ≡ copy_word self }
        ensures short { length result.now ≤ 7 }
    {
        match self {
            CopyState::Held => "held",
            CopyState::Expired => "expired",
            CopyState::Free => "free",
        }
    }
}

/// Returns the copy state of an envelope at the instant `now`.
pub(crate) fn copy_at(envelope: &EnvelopeRef<'_>, now: Timestamp) -> CopyState
    ensures { result ≡ copy_at now.nanosecond envelope.now }
{
    if let Some(release) = instants::release(envelope) {
        if release.as_nanosecond() > now.as_nanosecond() {
            return CopyState::Held;
        }
    }
    if let Some(expiration) = instants::expires(envelope) {
        if now.as_nanosecond() > expiration.as_nanosecond() {
            return CopyState::Expired;
        }
    }
    CopyState::Free
}
