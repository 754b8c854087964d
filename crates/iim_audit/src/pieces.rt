//! Audits of envelopes that are received in chunks.

ghost use Rattle.std.specs.Prelude.{◌≡◌, ◌≤◌, ℕ, List, [], length, None, Some, Err, IfOk, IfErr, IfSome, OnOk};
ghost use Rattle.iim_unpack.specs.States.Unpacking.{IsDone, IsDoneWith, failed_at, limits_in};
ghost use Rattle.iim_audit.specs.Format.{FindsRow, WordsAreCounted, IsRowOf, RejectsChunk, AuditHasConsumed};
ghost use Rattle.iim_audit.specs.Steps.{FeedsAndCounts, ChunkIsRejected, IsShort};

use crate::row::{AuditRow, EnvelopeParts, row_of};
use iim_dataset::laws::dataset_laws;
use iim_fields::{Limits, instants};
use iim_unpack::laws::unpackers_are_reachable;
use iim_unpack::{Progress, Refusal, Unpacker};
use jiff::Timestamp;
use std::alloc::{AllocError, Global};
use wire_message::laws::message_laws;
use wire_story::WordCount;
use wire_story::laws::{delivery_of_chunks_joins, story_laws};

/// The row of an envelope that ends in a chunk, with the envelope's length and instants.
#[derive(Debug, Drop)]
pub struct PieceRow {
    /// The number of octets of the chunk that were consumed. The last of them ends the envelope.
    pub used: usize,
    /// The length of the envelope in octets, including its octets in earlier chunks.
    pub octets: u64,
    /// The row of the envelope. Its `first` is `None`.
    pub row: AuditRow,
    /// The first instant at which the copy may be used, if the envelope states one.
    pub release: Option<Timestamp>,
    /// The last instant at which the copy may be used, if the envelope states one.
    pub expires: Option<Timestamp>,
}

/// An audit of envelopes that are received in chunks. It has one unpacker, which is reset after
/// each envelope and reuses its memory.
#[derive(Drop)]
pub struct PieceAudit {
    unpacker: Unpacker,
    count: WordCount,
}

/// Feeds a chunk to an unpacker, and counts the words of the story text in the chunk.
fn feed_count(
    unpacker: &mut Unpacker,
    piece: &[u8],
    count: &mut WordCount,
) -> Result<Progress, Refusal>
    ensures fed { IfOk result (FeedsAndCounts unpacker.old count.old piece.now unpacker.new count.new) }
    ensures refused { IfErr result (ChunkIsRejected unpacker.old piece.now) }
    ensures failed { IfErr result (λ e. unpacker.new.refused ≡ Some e.octet) }
    ensures again { (octet : ℕ) → unpacker.old.refused ≡ Some octet → (result ≡ Err (failed_at octet))
        × (unpacker.new ≡ unpacker.old) × (count.new ≡ count.old) }
    ensures limits { unpacker.old.refused ≡ None → OnOk result (limits_in unpacker.new ≡ limits_in unpacker.old) }
{
    unpackers_are_reachable(unpacker);
    unpacker.feed(piece, count)
}

impl PieceAudit {
    /// Creates an audit that has consumed no octets. Allocates all the memory that the limits
    /// allow; no later call allocates.
    pub fn new(alloc: Global, limits: Limits) -> Result<PieceAudit, AllocError>
        ensures stands { IfOk result (λ audit. AuditHasConsumed audit [] 0) }
        ensures limits { IfOk result (λ audit. limits_in audit.unpacker ≡ limits) }
    {
        let unpacker = Unpacker::new(alloc, limits)?;
        let count = WordCount::new();
        Ok(PieceAudit { unpacker, count })
    }

    /// Creates an audit that continues inside an envelope, from the state of `unpacker`. `words` is
    /// the number of words counted so far in that envelope, and `inside` is whether its last octet
    /// so far is part of a word.
    pub fn resume(unpacker: Unpacker, words: u64, inside: bool) -> PieceAudit
        requires { IsDone unpacker → ⊥ }
        ensures unpacker { result.unpacker ≡ unpacker }
        ensures count { result.count ≡ record { words = words; inside = inside } }
    {
        let count = WordCount::resume(words, inside);
        PieceAudit { unpacker, count }
    }

    /// Returns the unpacker, which has the state and the length of the partial envelope.
    pub fn unpacker(&self) -> &Unpacker
        ensures { result.now ≡ self.now.unpacker }
    {
        &self.unpacker
    }

    /// Returns the number of words counted in the partial envelope, and whether its last octet so
    /// far is part of a word. [`PieceAudit::resume`] continues from these values.
    pub fn words(&self) -> (u64, bool)
        ensures { result ≡ (self.now.count.words, self.now.count.inside) }
    {
        self.count.so_far()
    }

    /// Returns the row of the complete envelope, whose last `used` octets are in the last chunk.
    fn row_of_complete(&self, used: usize, now: Timestamp) -> PieceRow
        requires { IsDone self.now.unpacker }
        ensures used { result.used ≡ used }
        ensures octets { result.octets ≡ self.now.unpacker.octets }
        ensures short { IsShort result.row.id }
        ensures row { (p : List ℕ) (a : ℕ) → IsDoneWith self.now.unpacker p a → WordsAreCounted p self.now.count
            → IsRowOf (limits_in self.now.unpacker) now.nanosecond p result }
    {
        dataset_laws();
        message_laws();
        story_laws();
        let Some(unpacked) = self.unpacker.unpacked() else {
            unreachable!()
        };
        let release = instants::release(&unpacked.envelope);
        let expires = instants::expires(&unpacked.envelope);
        let words = self.count.words();
        PieceRow {
            used,
            octets: self.unpacker.octets(),
            row: row_of(&EnvelopeParts { unpacked, words }, now),
            release,
            expires,
        }
    }

    /// Resets the audit for the next envelope.
    fn again(&mut self)
        ensures stands { AuditHasConsumed self.new [] 0 }
        ensures limits { limits_in self.new.unpacker ≡ limits_in self.old.unpacker }
    {
        self.unpacker.again();
        self.count = WordCount::new();
    }

    /// Feeds a chunk up to the end of the first envelope that ends in it. Returns the row of that
    /// envelope at the instant `now`, and the number of octets consumed; the rest of the chunk
    /// belongs to the next envelope. Returns `None` if the whole chunk was consumed and the
    /// envelope is still incomplete. Allocates nothing.
    ///
    /// **Errors:** the refusal of the first octet that some layer cannot accept. After an error,
    /// every call returns [`iim_unpack::Cause::Failed`].
    pub fn next_row(&mut self, piece: &[u8], now: Timestamp) -> Result<Option<PieceRow>, Refusal>
        // The result depends only on the octets of the envelope, not on how they were split into
        // chunks.
        ensures found { IfOk result (λ found. (p : List ℕ) (a : ℕ) → AuditHasConsumed self.old p a
            → FindsRow (limits_in self.old.unpacker) now.nanosecond p a piece.now self.new found) }
        ensures refused { IfErr result (λ e. (p : List ℕ) (a : ℕ) → AuditHasConsumed self.old p a
            → RejectsChunk (limits_in self.old.unpacker) p a piece.now e) }
        ensures failed { IfErr result (λ e. self.new.unpacker.refused ≡ Some e.octet) }

        // After a refusal, a further call changes nothing.
        ensures again { (octet : ℕ) → self.old.unpacker.refused ≡ Some octet → (result ≡ Err (failed_at octet))
            × (self.new ≡ self.old) }
        ensures limits { self.old.unpacker.refused ≡ None → OnOk result (limits_in self.new.unpacker
            ≡ limits_in self.old.unpacker) }
        ensures lives { OnOk result (self.new.unpacker.refused ≡ None) }
        ensures fits { IfOk result (λ found. IfSome found (λ row. (row.used ≤ length piece.now)
            × (length row.row.id.service ≤ 10) × (length row.row.id.number ≤ 8) × (length row.row.id.date_sent ≤ 8))) }
    {
        delivery_of_chunks_joins();
        match feed_count(&mut self.unpacker, piece, &mut self.count) {
            Ok(Progress::More) => Ok(None),
            Ok(Progress::Done { used }) => {
                let found = self.row_of_complete(used, now);
                self.again();
                Ok(Some(found))
            }
            Err(refusal) => Err(refusal),
        }
    }
}
