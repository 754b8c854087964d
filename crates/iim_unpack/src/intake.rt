//! Parses envelopes, one after another, from a source.

ghost use Rattle.std.specs.Prelude.{◌≡◌, ◌<◌, [], ℕ, List, Option, Some, None, Ok, Err, true, false, length, IfSome, IfNone, IfOk, IfErr, IsTrue, OnOk, OnErr, ◌↔◌};
ghost use Rattle.std.specs.Io.KnownBytes.{IsAtEnd};
ghost use Rattle.iim_dataset.specs.States.Devices.{ReadsGave, ReadFailedAfter, WithinInterruptionLimit};
ghost use Rattle.iim_unpack.specs.States.Blocks.{with_unread};
ghost use Rattle.iim_unpack.specs.States.Intakes.{input_of, AcceptsInput, ReturnsNone, FedEnvelope, FedChunk, Gives, ReadsOnlyIfEmpty, HasRefused};
ghost use Rattle.iim_unpack.specs.Steps.{read_fault};
ghost use Rattle.iim_places.specs.Format.Open.{IsTruncatedAt};
ghost use Rattle.iim_unpack.specs.States.Unpacking.{Unpacking, HasRead, failed_at};
ghost use Rattle.iim_places.specs.Format.Streams.{sum_capped};
ghost use Rattle.iim_unpack.specs.declared.intake.IntakeFault.TheVariants.{Refused as RefusedFault};
ghost use Rattle.iim_places.specs.declared.refusal.Refusal.{Refusal as RefusalValue};

pub(crate) mod block;

use crate::intake::block::Block;
use crate::unpacker::{Progress, Unpacked, Unpacker, failed_at, sum_capped};
use iim_dataset::device_laws::reads_join;
use iim_dataset::{IoFault, Source};
use iim_places::Refusal;
use iim_places::laws::place_laws;
use thiserror::Error;
use wire_story::StorySink;
use wire_story::laws::delivery_of_chunks_joins;

/// Why an intake returned no envelope.
#[derive(Clone, Copy, Debug, PartialEq, Eq, Error)]
pub enum IntakeFault {
    /// The input is rejected or ends inside an envelope, or an earlier call returned an error.
    #[error("{0}")]
    Refused(Refusal),
    /// The reader failed (71).
    #[error("the reader failed")]
    Read,
    /// A read was interrupted a million times in a row (72).
    #[error("a million interruptions came in a row")]
    Interrupted,
}

impl IntakeFault {
    ghost use Rattle.iim_unpack.specs.Format.Faults.{intake_number, intake_name};

    /// Returns the number of the cause, as it is printed. For a refusal, it is the number of the
    /// refusal's cause.
    pub fn number(self) -> u8
        ensures { result ≡ intake_number self }
    {
        match self {
            IntakeFault::Refused(refusal) => refusal.cause.number(),
            IntakeFault::Read => 71,
            IntakeFault::Interrupted => 72,
        }
    }

    /// Returns the name of the cause, as it is printed. For a refusal, it is the name of the
    /// refusal's cause.
    pub fn name(self) -> &'static str
        ensures { result.now ≡ intake_name self }
    {
        match self {
            IntakeFault::Refused(refusal) => refusal.cause.name(),
            IntakeFault::Read => "Read",
            IntakeFault::Interrupted => "Interrupted",
        }
    }
}

/// Reads once if the block is empty. Returns `false` at the end of the source. Otherwise returns
/// `true`, and the block is non-empty.
fn next_piece<R: Source>(block: &mut Block, reader: &mut R) -> Result<bool, IoFault>
    ensures given { OnOk result (ReadsGave (with_unread block.old (R.state reader.old))
        (with_unread block.new (R.state reader.new)) []) }
    ensures some { IfOk result (λ more. more ≡ true → 0 < length block.new) }
    ensures end { IfOk result (λ more. more ≡ false → IsAtEnd (with_unread block.new (R.state reader.new)).octets) }
    ensures missed { IfErr result (ReadFailedAfter (with_unread block.old (R.state reader.old))
        (with_unread block.new (R.state reader.new)) []) }
    ensures ended { IfOk result (λ more. more ≡ false → block.old ≡ []) }
    ensures empty { OnErr result (block.old ≡ []) }
    ensures held { 0 < length block.old → reader.new ≡ reader.old }
    ensures retry_limit { WithinInterruptionLimit 1 (R.state reader.old) (R.state reader.new) }
    ensures leads { R.leads reader.old reader.new }
{
    reads_join();
    if !block.held().is_empty() {
        return Ok(true);
    }
    match block.fill(reader) {
        Ok(count) => Ok(count > 0),
        Err(fault) => Err(fault),
    }
}

fn read_fault(fault: IoFault) -> IntakeFault
    ensures { result ≡ read_fault fault }
{
    match fault {
        IoFault::Failed => IntakeFault::Read,
        IoFault::Interrupted => IntakeFault::Interrupted,
    }
}

/// The result of feeding one chunk of an input.
#[derive(Clone, Copy, Debug, PartialEq, Eq)]
pub enum Fed {
    /// This many octets were fed, and the envelope has not ended.
    More(u64),
    /// This many octets were fed, and the last of them ended the envelope.
    Done(u64),
    /// The input has ended, and the unpacker has consumed no octet.
    End,
}

/// Returns the refusal at the end of the input, or `None` if the unpacker has consumed no octet.
#[tactic(auto, using(crate::proofs::Intakes::none_missing, crate::proofs::Intakes::some_missing))]
fn missing_at_end(unpacker: &Unpacker) -> Option<Refusal>
    ensures none { IfNone result ((p : List ℕ) (n : ℕ) → HasRead unpacker.now p n → p ≡ []) }
    ensures truncated { IfSome result (λ e. (p : List ℕ) (n : ℕ) → HasRead unpacker.now p n
        → (p ≡ [] → ⊥) × IsTruncatedAt p n e) }
{
    if unpacker.is_fresh() {
        return None;
    }
    unpacker.end_of_input()
}

/// Reads envelopes, one after another, from a source, in blocks of 4,096 octets. No octet is lost
/// or read twice. After an error every call returns a refusal with cause 61.
#[derive(Drop)]
pub struct Intake<R> {
    reader: R,
    block: Block,
    octets: u64,
    failed: Option<u64>,
}

impl<R: Source> Intake<R> {
    /// Creates an intake that has read nothing.
    pub fn new(reader: R) -> Intake<R>
        ensures reader { result.reader ≡ reader }
        ensures block { result.block ≡ [] }
        ensures octets { result.octets ≡ 0 }
        ensures failed { result.failed ≡ None }
    {
        Intake {
            reader,
            block: Block::new(),
            octets: 0,
            failed: None,
        }
    }

    /// Returns the number of octets of the envelope that the last call returned, as far as that
    /// call consumed them. Returns 0 if the last call returned no envelope.
    pub fn octets(&self) -> u64
        ensures { result ≡ self.now.octets }
    {
        self.octets
    }

    /// Checks whether octets are buffered. If so, the next call of [`Intake::next_piece`] does not
    /// read.
    pub fn has_buffered_octets(&self) -> bool
        ensures { IsTrue result ↔ (0 < length self.now.block) }
    {
        !self.block.held().is_empty()
    }

    /// Feeds the buffered octets to an unpacker.
    fn feed_buffered<S: StorySink>(
        &mut self,
        unpacker: &mut Unpacker,
        sink: &mut S,
    ) -> Result<Fed, IntakeFault>
        requires ready { AcceptsInput unpacker.old }
        requires some { 0 < length self.old.block }
        ensures fed { IfOk result (FedChunk S.goes (input_of R.state self.old, unpacker.old, sink.old)
            (input_of R.state self.new, unpacker.new, sink.new)) }
        ensures not_end { IfOk result (λ fed. fed ≡ Fed.End → ⊥) }
        ensures no_failure { OnOk result ((self.new.failed ≡ self.old.failed) × (S.failures sink.new
            ≡ S.failures sink.old)) }
        ensures refused { IfErr result (λ fault. (e : RefusalValue) × (fault ≡ RefusedFault e)
            × (self.new.failed ≡ Some e.octet)
            × HasRefused S.goes S.failures (input_of R.state self.old) (input_of R.state self.new)
            unpacker.old unpacker.new sink.old sink.new e) }
        ensures keeps { (self.new.reader ≡ self.old.reader) × (self.new.octets ≡ self.old.octets) }
    {
        unpacker.is_reachable();
        let count = self.block.held().len();
        match unpacker.feed(self.block.held(), sink) {
            Ok(Progress::More) => {
                self.block.pass(count);
                Ok(Fed::More(sum_capped(0, count as u64)))
            }
            Ok(Progress::Done { used: last }) => {
                self.block.pass(last);
                Ok(Fed::Done(sum_capped(0, last as u64)))
            }
            Err(refusal) => {
                self.block.pass(count);
                self.failed = Some(refusal.octet);
                Err(IntakeFault::Refused(refusal))
            }
        }
    }

    /// Feeds the buffered octets to an unpacker. If there are none, reads once, with retries after
    /// interruptions, and feeds the new octets.
    ///
    /// **Errors:** a refusal, or an error of the reader. After an error every call returns a
    /// refusal, as [`Intake::next_envelope`] does.
    pub fn next_piece<S: StorySink>(
        &mut self,
        unpacker: &mut Unpacker,
        sink: &mut S,
    ) -> Result<Fed, IntakeFault>
        requires ready { AcceptsInput unpacker.old }
        ensures fed { self.old.failed ≡ None → IfOk result (FedChunk S.goes
            (input_of R.state self.old, unpacker.old, sink.old) (input_of R.state self.new, unpacker.new, sink.new)) }
        ensures no_failure { OnOk result ((self.new.failed ≡ None) × (S.failures sink.new ≡ S.failures sink.old)) }
        ensures faults { self.old.failed ≡ None → IfErr result (ReturnsNone S.goes S.failures R.state
            (self.old, unpacker.old, sink.old) (self.new, unpacker.new, sink.new)) }
        // If octets were buffered, the reader is not called: there is no error of the reader, and
        // no end of the input. If the reader fails, nothing was fed.
        ensures reads { ReadsOnlyIfEmpty self.old self.new unpacker.old unpacker.new sink.old sink.new result }
        // At most a million interruptions occurred.
        ensures retry_limit { WithinInterruptionLimit 1 (R.state self.old.reader) (R.state self.new.reader) }
        ensures octets { self.new.octets ≡ self.old.octets }
        ensures again { (octet : ℕ) → self.old.failed ≡ Some octet → (result ≡ Err (RefusedFault (failed_at octet)))
            × (unpacker.new ≡ unpacker.old) × (sink.new ≡ sink.old) × (self.new ≡ self.old) }
        ensures leads { R.leads self.old.reader self.new.reader }
    {
        if let Some(octet) = self.failed {
            return Err(IntakeFault::Refused(failed_at(octet)));
        }
        reads_join();
        unpacker.is_reachable();
        match next_piece(&mut self.block, &mut self.reader) {
            Ok(true) => self.feed_buffered(unpacker, sink),
            Ok(false) => match missing_at_end(unpacker) {
                None => Ok(Fed::End),
                Some(refusal) => {
                    self.failed = Some(refusal.octet);
                    Err(IntakeFault::Refused(refusal))
                }
            },
            Err(fault) => {
                self.failed = Some(unpacker.octets());
                Err(read_fault(fault))
            }
        }
    }

    /// Feeds the next envelope to an unpacker, up to the end of that envelope. The unpacker may
    /// have consumed the beginning of the envelope already. Returns `true` at the end of the
    /// envelope, and `false` if the input ends and the unpacker has consumed no octet. Octets after
    /// the envelope are still buffered.
    ///
    /// If the reader fails, the unpacker has consumed the octets that were read before, and can be
    /// fed by another intake.
    pub fn feed_envelope<S: StorySink>(
        &mut self,
        unpacker: &mut Unpacker,
        sink: &mut S,
    ) -> Result<bool, IntakeFault>
        requires ready { AcceptsInput unpacker.old }
        ensures fed { IfOk result (FedEnvelope S.goes (input_of R.state self.old, unpacker.old, sink.old)
            (input_of R.state self.new, unpacker.new, sink.new) self.new.octets) }
        ensures no_failure { OnOk result ((self.new.failed ≡ None) × (S.failures sink.new ≡ S.failures sink.old)) }
        ensures faults { self.old.failed ≡ None → IfErr result (ReturnsNone S.goes S.failures R.state
            (self.old, unpacker.old, sink.old) (self.new, unpacker.new, sink.new)) }
        ensures none { OnErr result (self.new.octets ≡ 0) }
        ensures again { (octet : ℕ) → self.old.failed ≡ Some octet → (result ≡ Err (RefusedFault (failed_at octet)))
            × (unpacker.new ≡ unpacker.old) × (sink.new ≡ sink.old) × (self.new ≡ record (self.old) { octets = 0 }) }
        ensures leads { R.leads self.old.reader self.new.reader }
    {
        reads_join();
        delivery_of_chunks_joins();
        place_laws();
        unpacker.is_reachable();
        self.octets = 0;
        if let Some(octet) = self.failed {
            return Err(IntakeFault::Refused(failed_at(octet)));
        }
        let mut used: u64 = 0;
        'feeding: loop {
            match self.next_piece(unpacker, sink) {
                Ok(Fed::More(more)) => used = sum_capped(used, more),
                Ok(Fed::Done(last)) => {
                    self.octets = sum_capped(used, last);
                    return Ok(true);
                }
                Ok(Fed::End) => return Ok(false),
                Err(fault) => return Err(fault),
            }
        }
    }

    /// Returns the next envelope. The unpacker may have consumed the beginning of the envelope
    /// already. Returns `None` if the input ends and the unpacker has consumed no octet. Octets
    /// after the envelope are still buffered.
    pub fn next_envelope<S: StorySink>(
        &mut self,
        unpacker: Unpacker,
        sink: &mut S,
    ) -> Result<Option<Unpacked>, IntakeFault>
        requires ready { AcceptsInput unpacker }
        ensures gives { self.old.failed ≡ None → IfOk result (Gives S.goes
            (input_of R.state self.old, unpacker, sink.old) (input_of R.state self.new, sink.new) self.new.octets) }
        ensures no_failure { OnOk result ((self.new.failed ≡ None) × (S.failures sink.new ≡ S.failures sink.old)) }
        ensures faults { self.old.failed ≡ None → IfErr result (λ fault. (left : Unpacking)
            × ReturnsNone S.goes S.failures R.state (self.old, unpacker, sink.old) (self.new, left, sink.new) fault) }
        ensures none { OnErr result (self.new.octets ≡ 0) }
        ensures again { (octet : ℕ) → self.old.failed ≡ Some octet → (result ≡ Err (RefusedFault (failed_at octet)))
            × (sink.new ≡ sink.old) × (self.new ≡ record (self.old) { octets = 0 }) }
        ensures leads { R.leads self.old.reader self.new.reader }
    {
        let mut unpacker = unpacker;
        unpacker.is_reachable();
        match self.feed_envelope(&mut unpacker, sink) {
            Ok(true) => match unpacker.into_unpacked() {
                Ok(got) => Ok(Some(got)),
                Err(_) => unreachable!(),
            },
            Ok(false) => Ok(None),
            Err(fault) => Err(fault),
        }
    }
}
