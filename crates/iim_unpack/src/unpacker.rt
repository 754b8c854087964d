//! The push parser of one envelope.

ghost use Rattle.std.specs.Prelude.{◌≡◌, ◌+◌, ◌*◌, ◌^◌, [], is_some, ◌<◌, ◌≤◌, ◌⊎◌, ◌||◌, ℕ, List, Option, Some, None, Ok, Err, false, length, IsTrue, ◌↔◌, IsSome, IsOk, IfSome, IfOk, IfErr, OnOk, OnErr};
ghost use Rattle.iim_dataset.specs.States.Reading.{to_come, DatasetReaderAccepts, tag_cause_of};
ghost use Rattle.iim_fields.specs.States.Standing.{HasReadDatasets, limits_of, reader_capacity, room_for};
ghost use Rattle.wire_story.specs.Format.Texts as story;
ghost use Rattle.iim_unpack.specs.States.Unpacking.{CountsSinkFailure, failed_at, HasRead, IsDoneWith, IsDone, IsRefusedIn, Progresses, limits_in, capacity_in, AreSame, StoresFew};
ghost use Rattle.iim_places.specs.Format.Causes.{refusal_at};
ghost use Rattle.iim_unpack.specs.RouterSteps.{Takes};
ghost use Rattle.iim_unpack.specs.Steps.{HasAdvanced, IsRejectedBy, IsRejectedWith, tag_fault, IsConsistent, IsReachable};
ghost use Rattle.iim_places.specs.Format.Streams.{is_non_empty, sum_capped};
ghost use Rattle.iim_unpack.specs.States.Restored.{WritesTicketOf};
ghost use Rattle.iim_places.specs.Format.Open.{IsTruncatedAt};
ghost use Rattle.iim_places.specs.Format.Admitted.{Value, Admits};
ghost use Rattle.iim_places.specs.Format.Tickets.{IsTicketOf};
ghost use Rattle.iim_unpack.specs.Format.Pieces.{HasParts, HasBorrowedParts};
ghost use Rattle.iim_places.specs.declared.refusal.Refusal.{Refusal as RefusalValue};

use crate::parts::message::end_borrow;
use crate::parts::router::Router;
use crate::parts::{Parts, Rejection};
use crate::ticket::spelling::{SaveFault, encode_ticket, encode_ticket_at};
use arrayvec::ArrayVec;
use iim_dataset::{Fault as TagFault, FaultCause, HeadReader};
use iim_fields::{Envelope, EnvelopeRef, Fields, Limits};
use iim_object::laws::readers_return_sizes;
use iim_object::{ObjectReader, Sizes};
use iim_places::internals::TokenFault;
use iim_places::laws::{layer_lemmas, place_laws};
use iim_places::{Cause, Layer, Refusal};
use std::alloc::{AllocError, Global};
use std::marker::Model;
use wire_message::{MessageHead, MessageReader};
use wire_story::StorySink;

/// How much of a chunk the unpacker consumed, and whether the envelope is complete.
#[derive(Clone, Copy, Debug, PartialEq, Eq)]
pub enum Progress {
    /// The whole chunk was consumed, and the envelope is not complete.
    More,
    /// The envelope is complete after `used` octets of the chunk.
    Done { used: usize },
}

/// Feeds a chunk to the reader of tags, with a router as its sink. The references in the router
/// afterwards point to the same values as before.
fn feed_router<'p, 's, S: StorySink>(
    reader: &mut HeadReader,
    piece: &[u8],
    router: &mut Router<'p, 's, S>,
) -> Result<usize, TagFault>
    requires takes_calls { DatasetReaderAccepts reader.old }
    requires stands { Takes router.old.parts.now (to_come reader.old.place) }
    ensures parts { router.new.parts.ghost_name ≡ router.old.parts.ghost_name }
    ensures sink { router.new.sink.ghost_name ≡ router.old.sink.ghost_name }
    ensures taken { IfOk result (HasAdvanced S.goes S.failures
        (reader.old.place, router.old.parts.now, router.old.sink.now) piece.now
        (reader.new, router.new.parts.now, router.new.sink.now)) }
    ensures before { IfErr result (λ fault. fault.used < length piece.now) }
    ensures fails { IfErr result (λ fault.
        IsRejectedBy S.goes S.failures (tag_cause_of fault.cause) router.new.refused
        (reader.old.place, router.old.parts.now, router.old.sink.now) piece.now fault.used
        (reader.new.place, router.new.parts.now, router.new.sink.now)) }
    ensures room { reader_capacity router.new.parts.now.fields ≡ reader_capacity router.old.parts.now.fields }
{
    reader.feed(piece, router)
}

fn tag_fault(names: (u8, u8), cause: Cause) -> TokenFault
    ensures { result ≡ record { layer = Layer.Dataset; rec = names.0; set = names.1; cause = cause } }
{
    TokenFault {
        layer: Layer::Dataset,
        rec: names.0,
        set: names.1,
        cause,
    }
}

/// Consumes a chunk up to its end, or up to the end of the last dataset. Returns the number of
/// octets consumed.
fn advance<S: StorySink>(
    reader: &mut HeadReader,
    parts: &mut Parts,
    piece: &[u8],
    sink: &mut S,
) -> Result<usize, Rejection>
    requires takes_calls { DatasetReaderAccepts reader.old }
    requires stands { Takes parts.old (to_come reader.old.place) }
    ensures taken { IfOk result (HasAdvanced S.goes S.failures (reader.old.place, parts.old, sink.old) piece.now
        (reader.new, parts.new, sink.new)) }
    ensures before { IfErr result (λ halt. halt.taken < length piece.now) }
    ensures fails { IfErr result (λ halt.
        IsRejectedWith S.goes S.failures (reader.old.place, parts.old, sink.old) piece.now halt.taken halt.fault
        (reader.new.place, parts.new, sink.new)) }
    ensures room { reader_capacity parts.new.fields ≡ reader_capacity parts.old.fields }
{
    let mut router = Router {
        parts,
        sink,
        refused: None,
    };
    let answer = feed_router(reader, piece, &mut router);
    let Router {
        parts: _parts,
        sink: same,
        refused,
    } = router;
    end_borrow(same);
    match answer {
        Ok(used) => Ok(used),
        Err(fault) => {
            let why = match fault.cause {
                FaultCause::Marker => tag_fault(reader.named(), Cause::Marker),
                FaultCause::CountForm => tag_fault(reader.named(), Cause::CountForm),
                FaultCause::Stopped => match refused {
                    Some(fault) => fault,
                    None => unreachable!(),
                },
            };
            Err(Rejection {
                taken: fault.used,
                fault: why,
            })
        }
    }
}

/// The contents of an envelope, except its lines, which were passed to the sink.
#[derive(Drop)]
pub struct Unpacked {
    /// The datasets of records 1 and 2.
    pub envelope: Envelope,
    /// The header of the message.
    pub head: MessageHead,
    /// The octets between ETX and EOT, at most 64.
    pub trailer: ArrayVec<u8, 64>,
    /// The sizes of the object that records 7 to 9 state.
    pub sizes: Sizes,
}

/// The contents of an envelope, except its lines, borrowed from its unpacker.
#[derive(Drop)]
pub struct UnpackedRef<'u> {
    /// The datasets of records 1 and 2.
    pub envelope: EnvelopeRef<'u>,
    /// The header of the message.
    pub head: &'u MessageHead,
    /// The octets between ETX and EOT.
    pub trailer: &'u [u8],
    /// The sizes of the object that records 7 to 9 state.
    pub sizes: Sizes,
}

/// A push parser of one envelope, which is fed in chunks of any size.
///
/// It stores the data of records 1 and 2, at most `Limits.octets` octets in at most `Limits.fields`
/// datasets, and fewer than 256 other octets: those of a partial tag (at most 12), of a partial
/// number of record 7 or 9 (8), of the header and the trailer of the message (163), and CR that may
/// precede an LF (2). [`Unpacker::new`] and [`Unpacker::restore`] allocate all this memory. The
/// only later call that allocates is [`Unpacker::save`], for the ticket that it returns.
#[derive(Drop)]
pub struct Unpacker {
    reader: HeadReader,
    parts: Parts,
    octets: u64,
    begun: bool,
    refused: Option<u64>,
}

impl Model for Unpacker {
    ghost use Rattle.iim_unpack.specs.States.Unpacking.{Unpacking};
    ghost use Rattle.std.specs.Prelude.{◌≡◌, None};
    ghost use Rattle.iim_unpack.specs.Steps.{IsConsistent};

    ghost Value = { Unpacking };

    ghost view = { λ u. record
        { reader = u.reader; parts = u.parts; octets = u.octets; begun = u.begun; refused = u.refused } };

    ghost invariant = { λ u. u.refused ≡ None → IsConsistent
        (record { reader = u.reader; parts = u.parts; octets = u.octets; begun = u.begun; refused = u.refused }) };
}

/// Creates the refusal for an error at this octet.
fn refusal_at(octet: u64, fault: TokenFault) -> Refusal
    ensures { result ≡ refusal_at octet fault }
{
    Refusal {
        layer: fault.layer,
        rec: fault.rec,
        set: fault.set,
        octet,
        cause: fault.cause,
    }
}

/// Creates the refusal of a call after an earlier refusal at this octet.
pub(crate) fn failed_at(octet: u64) -> Refusal
    ensures { result ≡ failed_at octet }
{
    Refusal {
        layer: Layer::Outside,
        rec: 0,
        set: 0,
        octet,
        cause: Cause::Failed,
    }
}

/// Adds to a count, which saturates at the greatest number of 64 bits.
pub(crate) fn sum_capped(octets: u64, more: u64) -> u64
    ensures { result ≡ sum_capped octets more }
{
    octets.saturating_add(more)
}

/// Returns whether any octet was received, in this chunk or before.
fn begins(begun: bool, piece: &[u8]) -> bool
    ensures { result ≡ (begun || is_non_empty piece.now) }
{
    begun || !piece.is_empty()
}

impl Unpacker {
    /// Creates an unpacker that has consumed nothing. Allocates exactly the memory that the limits
    /// require; no later call allocates. Returns an error if the allocation fails.
    pub fn new(alloc: Global, limits: Limits) -> Result<Unpacker, AllocError>
        ensures stands { IfOk result (λ u. HasRead u [] 0) }
        ensures limits { IfOk result (λ u. limits_in u ≡ limits) }
        ensures room { IfOk result (λ u. capacity_in u ≡ room_for limits) }
    {
        Ok(Unpacker::begin(Fields::new(alloc, limits)?))
    }

    /// Creates an unpacker that has consumed nothing.
    fn begin(fields: Fields) -> Unpacker
        requires { HasReadDatasets fields [] }
        ensures stands { HasRead result [] 0 }
        ensures limits { limits_in result ≡ limits_of fields }
        ensures room { capacity_in result ≡ reader_capacity fields }
    {
        layer_lemmas();
        Unpacker {
            reader: HeadReader::new(),
            parts: Parts {
                fields,
                object: ObjectReader::new(),
                message: MessageReader::new(),
            },
            octets: 0,
            begun: false,
            refused: None,
        }
    }

    /// Resets the unpacker to the beginning of an envelope, with the same memory and limits.
    /// Allocates nothing.
    pub fn again(&mut self)
        ensures stands { HasRead self.new [] 0 }
        ensures limits { limits_in self.new ≡ limits_in self.old }
        ensures room { capacity_in self.new ≡ capacity_in self.old }
    {
        layer_lemmas();
        self.reader = HeadReader::new();
        self.parts.fields.again();
        self.parts.object = ObjectReader::new();
        self.parts.message = MessageReader::new();
        self.octets = 0;
        self.begun = false;
        self.refused = None;
    }

    /// Creates an unpacker with these readers that has consumed `octets` octets. `begun` is whether
    /// any octet was received.
    pub(crate) fn at_place(reader: HeadReader, parts: Parts, octets: u64, begun: bool) -> Unpacker
        requires { IsConsistent (record
            { reader = reader; parts = parts; octets = octets; begun = begun; refused = None }) }
        ensures { result ≡ record { reader = reader; parts = parts; octets = octets; begun = begun; refused = None } }
    {
        Unpacker {
            reader,
            parts,
            octets,
            begun,
            refused: None,
        }
    }

    /// Checks whether the envelope is complete.
    pub fn is_done(&self) -> bool
        ensures { IsTrue result ↔ IsDone self.now }
    {
        self.parts.has_ended() && self.refused.is_none()
    }

    /// Returns whether an octet was rejected.
    pub fn is_failed(&self) -> bool
        ensures { result ≡ is_some self.now.refused }
    {
        self.refused.is_some()
    }

    /// Proves that an unpacker that has rejected nothing has consumed an envelope or an incomplete
    /// input.
    pub(crate) fn is_reachable(&self)
        ensures stood { self.now.refused ≡ None → IsReachable self.now }
        ensures counts { self.now.octets < 2 ^ 64 }
        ensures octets { (limits_in self.now).octets < 2 ^ 32 }
        ensures fields { (limits_in self.now).fields < 2 ^ 32 }
    {
        // These calls make the ranges of their results available to the proof.
        let _octets = self.octets();
        let _limits = self.parts.fields.limits();
    }

    /// Checks whether no octet was consumed.
    pub(crate) fn is_fresh(&self) -> bool
        ensures { (p : List ℕ) (a : ℕ) → HasRead self.now p a → IsTrue result ↔ (p ≡ []) }
    {
        !self.begun
    }

    /// Returns the number of octets consumed.
    pub fn octets(&self) -> u64
        ensures { result ≡ self.now.octets }
    {
        self.octets
    }

    /// Feeds the next octets of the stream, and passes the story text in them to `sink`, as slices
    /// of `piece`. Returns `Done` at the end of the envelope, and consumes nothing after that end.
    /// Allocates nothing.
    ///
    /// **Errors:** the refusal of the first octet that some layer cannot accept, or at which the
    /// sink stopped ([`Cause::SINK`]). After an error every call returns [`Cause::Failed`].
    pub fn feed<S: StorySink>(&mut self, piece: &[u8], sink: &mut S) -> Result<Progress, Refusal>
        // The octets so far are an incomplete input or an envelope. The sink received the text in
        // the chunk, and did not fail.
        ensures goes { IfOk result (λ progress. (S.failures sink.new ≡ S.failures sink.old)
            × ((more : List story.StoryEvent) × S.goes sink.old more sink.new
            × ((p : List ℕ) (a : ℕ) → HasRead self.old p a → Progresses self.new p a piece.now more progress))) }

        // The octet at `e.octet` completes the first rejected token. The sink received the text in
        // the octets before it.
        ensures refused { IfErr result (λ e. (more : List story.StoryEvent) × S.goes sink.old more sink.new
            × ((p : List ℕ) (a : ℕ) → HasRead self.old p a → IsRefusedIn (limits_in self.old) p a piece.now more e)) }
        ensures counted { IfErr result (λ e. CountsSinkFailure e.cause (S.failures sink.old) (S.failures sink.new)) }
        ensures failed { IfErr result (λ e. self.new.refused ≡ Some e.octet) }

        // After an envelope and after a refusal, a call changes nothing.
        ensures done { IsDone self.old → (result ≡ Ok (Progress.Done 0)) × AreSame self.old sink.old self.new sink.new }
        ensures again { (octet : ℕ) → self.old.refused ≡ Some octet → (result ≡ Err (failed_at octet))
            × AreSame self.old sink.old self.new sink.new }
        ensures limits { self.old.refused ≡ None → OnOk result (limits_in self.new ≡ limits_in self.old) }
        // The unpacker stores what its limits allow, and at most 256 octets more. It never
        // allocates, whatever the result.
        ensures memory { (capacity_in self.new ≡ capacity_in self.old) × (self.new.refused ≡ None
            → StoresFew self.new) }
    {
        layer_lemmas();
        readers_return_sizes();
        place_laws();
        if let Some(octet) = self.refused {
            return Err(failed_at(octet));
        }
        if self.parts.has_ended() {
            return Ok(Progress::Done { used: 0 });
        }
        match advance(&mut self.reader, &mut self.parts, piece, sink) {
            Ok(used) => {
                self.octets = sum_capped(self.octets, used as u64);
                self.begun = begins(self.begun, piece);
                if self.parts.has_ended() {
                    return Ok(Progress::Done { used });
                }
                Ok(Progress::More)
            }
            Err(halt) => {
                let octet = sum_capped(self.octets, halt.taken as u64);
                self.refused = Some(octet);
                Err(refusal_at(octet, halt.fault))
            }
        }
    }

    /// Returns the refusal for an input that ends here: `None` after an envelope, and
    /// [`Cause::Truncated`] inside an envelope.
    pub fn end_of_input(&self) -> Option<Refusal>
        ensures done { IsDone self.now → result ≡ None }
        ensures failed { (octet : ℕ) → self.now.refused ≡ Some octet → result ≡ Some (failed_at octet) }
        ensures truncated { (p : List ℕ) (a : ℕ) → HasRead self.now p a → (e : RefusalValue) × (result ≡ Some e)
            × IsTruncatedAt p a e }
    {
        if let Some(octet) = self.refused {
            return Some(failed_at(octet));
        }
        if self.parts.has_ended() {
            return None;
        }
        let (rec, set) = self.reader.named();
        Some(Refusal {
            layer: Layer::Dataset,
            rec,
            set,
            octet: self.octets,
            cause: Cause::Truncated,
        })
    }

    /// Returns the ticket of the current position, which may be inside an envelope or at its end.
    /// The ticket depends only on the octets consumed, not on how they were split into chunks. It
    /// encodes neither the sink nor the limits.
    pub fn save(&self, alloc: Global) -> Result<Vec<u8>, SaveFault>
        ensures failed { (octet : ℕ) → self.now.refused ≡ Some octet → result ≡ Err SaveFault.Failed }
        ensures memory { self.now.refused ≡ None → IfErr result (λ fault. fault ≡ SaveFault.OutOfMemory) }
        ensures ticket { IfOk result (λ ticket. (p : List ℕ) (a : ℕ) → HasRead self.now p a ⊎ IsDoneWith self.now p a
            → IsTicketOf p ticket.items) }
        ensures short { IfOk result (λ ticket. length ticket.items ≤ (limits_in self.now).octets
            + 6 * (limits_in self.now).fields + 256) }
    {
        if self.refused.is_some() {
            return Err(SaveFault::Failed);
        }
        layer_lemmas();
        self.is_reachable();
        match encode_ticket(alloc, &self.reader, &self.parts) {
            Some(ticket) => Ok(ticket),
            None => Err(SaveFault::OutOfMemory),
        }
    }

    /// Writes the ticket to the start of a buffer, if it fits. Returns the length of the ticket in
    /// octets, whether it was written or not. Allocates nothing. Returns an error only after a
    /// refusal.
    pub fn save_at(&self, out: &mut [u8]) -> Result<usize, SaveFault>
        ensures failed { (octet : ℕ) → self.now.refused ≡ Some octet → result ≡ Err SaveFault.Failed }
        ensures saved { self.now.refused ≡ None → IsOk result }
        ensures ticket { IfOk result (WritesTicketOf self.now out.new) }
    {
        if self.refused.is_some() {
            return Err(SaveFault::Failed);
        }
        layer_lemmas();
        self.is_reachable();
        Ok(encode_ticket_at(out, &self.reader, &self.parts))
    }

    /// Returns the contents of a complete envelope, borrowed from the unpacker, or `None` if the
    /// envelope is not complete.
    pub fn unpacked(&self) -> Option<UnpackedRef<'_>>
        ensures done { IsSome result ↔ IsDone self.now }
        ensures value { IfSome result (λ got. (p : List ℕ) (a : ℕ) → IsDoneWith self.now p a → (v : Value) → Admits p v
            → HasBorrowedParts got v) }
    {
        layer_lemmas();
        place_laws();
        if !self.is_done() {
            return None;
        }
        let Some(head) = self.parts.message.head() else {
            unreachable!()
        };
        let Some(envelope) = self.parts.fields.envelope() else {
            unreachable!()
        };
        Some(UnpackedRef {
            envelope,
            head,
            trailer: self.parts.message.trailer(),
            sizes: self.parts.object.sizes(),
        })
    }

    /// Returns the contents of a complete envelope. If the envelope is not complete, returns the
    /// unchanged unpacker as an error.
    pub fn into_unpacked(self) -> Result<Unpacked, Unpacker>
        ensures done { OnOk result (IsDone self) }
        ensures value { IfOk result (λ got. (p : List ℕ) (a : ℕ) → IsDoneWith self p a → (v : Value) → Admits p v
            → HasParts got v) }
        ensures not_done { OnErr result (IsDone self → ⊥) }
        ensures returned_unchanged { IfErr result (λ u. u ≡ self) }
    {
        layer_lemmas();
        place_laws();
        if !self.is_done() {
            return Err(self);
        }
        let Some(head) = self.parts.message.head() else {
            unreachable!()
        };
        let head = head.copied();
        let mut trailer = ArrayVec::new();
        let Ok(()) = trailer.try_extend_from_slice(self.parts.message.trailer()) else {
            unreachable!()
        };
        let sizes = self.parts.object.sizes();
        let Unpacker { parts, .. } = self;
        let Parts { fields, .. } = parts;
        let Ok(envelope) = fields.into_envelope() else {
            unreachable!()
        };
        Ok(Unpacked {
            envelope,
            head,
            trailer,
            sizes,
        })
    }
}
