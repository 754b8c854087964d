//! All readers of an unpacker except the reader of tags.

ghost use Rattle.std.specs.Prelude.{◌≡◌, true, false, IsTrue, ◌<◌, ◌≤◌, ◌-◌, ℕ, nat_lt, [], ◌∷◌, length, map, take, slice_index, Some, None, IsSome, IfSome, IfOk, IfErr, OnOk};
ghost use Rattle.iim_dataset.specs.States.Reading.{HeadRead, DataOctet, DatasetEnd};
ghost use Rattle.iim_fields.specs.States.Standing.{reader_capacity, IsBetweenDatasets};
ghost use Rattle.iim_object.specs.Format.Objects.{head_token, value_token, max_subfiles};
ghost use Rattle.iim_object.specs.States.Reading.{ObjectMayEndAs, TokenAdvancesObject, events_at};
ghost use Rattle.wire_message.specs.States.Reading.{IsCompleteMessage};
ghost use Rattle.iim_places.specs.Format.Causes.{message_fault_on, count_fault_on};
ghost use Rattle.iim_unpack.specs.RouterSteps.{MessageEmits, IsFaultOfObject, AllowsSubfile, RejectsSubfileHead, PartsAreBetween, PartsAcceptData, PartsConsume, PartsEmit, ConsumesWhole, PartsReject, RejectsClose, ConsumedWholeDataset};
ghost use Rattle.iim_unpack.specs.States.Unpacking.{has_ended};

pub(crate) mod message;
pub(crate) mod router;

use crate::parts::message::{pass_head, pass_octets};
use iim_dataset::{Head, Step};
use iim_fields::Fields;
use iim_object::{MAX_SUBFILES, ObjectFault, ObjectReader};
use iim_places::internals::{
    TokenFault, count_fault_on, fault_of_record, message_fault_on, size_fault_on,
};
use iim_places::laws::layer_lemmas;
use iim_tables::number_of;
use iim_tables::records::{OBJECT, POST_OBJECT, PRE_OBJECT};
use wire_message::{MessageFault, MessageReader};
use wire_story::StorySink;

/// The state of an unpacker after complete tags and data: that of its records, its object and its
/// message. The readers also store the dataset in progress, and the number of its octets that
/// remain.
#[derive(Drop)]
pub(crate) struct Parts {
    /// The reader of the records, which stores their datasets.
    pub fields: Fields,
    /// The reader of the object's sizes.
    pub object: ObjectReader,
    /// The reader of the message in the object.
    pub message: MessageReader,
}

/// A rejected octet of data.
#[derive(Clone, Copy)]
pub(crate) struct Rejection {
    /// The number of octets of the data before the rejected one.
    pub taken: usize,
    /// The error.
    pub fault: TokenFault,
}

/// Converts the error for an octet of a subfile to a rejection, which names the dataset of `head`.
fn rejection_on(head: Head, fault: MessageFault) -> Rejection
    ensures { result ≡ record { taken = fault.taken; fault = message_fault_on head fault.cause } }
{
    Rejection {
        taken: fault.taken,
        fault: message_fault_on(head, fault.cause),
    }
}

/// Checks whether one more subfile is allowed after `subfiles` subfiles.
#[inline(always)]
fn may_begin(subfiles: u64) -> bool
    ensures { result ≡ nat_lt subfiles max_subfiles }
{
    subfiles < MAX_SUBFILES
}

/// Consumes the head of a subfile.
#[inline(always)]
fn subfile<S: StorySink>(
    object: &mut ObjectReader,
    message: &mut MessageReader,
    head: Head,
    sink: &mut S,
) -> Result<(), TokenFault>
    requires object { IsSome object.old }
    requires message { IsSome message.old }
    ensures takes_calls { OnOk result (IsSome object.new) }
    ensures leads_on { OnOk result (TokenAdvancesObject object.old (head_token head.rec head.count) object.new) }
    ensures told { OnOk result (MessageEmits S.goes S.failures (message.old, sink.old) (events_at head.rec)
        (message.new, sink.new)) }
    ensures few { OnOk result (AllowsSubfile object.old) }
    ensures refused { IfErr result (RejectsSubfileHead S.goes S.failures object.old head (message.old, sink.old)
        (message.new, sink.new)) }
{
    if !may_begin(object.subfiles()) {
        return Err(count_fault_on(head));
    }
    pass_head(object, message, head, sink)
}

/// Passes the number of a value to the object reader.
#[inline(always)]
fn pass_number(object: &mut ObjectReader, head: Head, number: u64) -> Result<(), TokenFault>
    requires { IsSome object.old }
    ensures takes_calls { OnOk result (IsSome object.new) }
    ensures leads_on { OnOk result (TokenAdvancesObject object.old (value_token head.rec head.set number) object.new) }
    ensures refused { IfErr result (IsFaultOfObject object.old (value_token head.rec head.set number) head) }
{
    match object.value(head.rec, head.set, number) {
        Ok(()) => Ok(()),
        Err(ObjectFault::Size { cause }) => Err(size_fault_on(head, cause)),
        Err(ObjectFault::Stopped(_)) => unreachable!(),
    }
}

/// Checks whether the message is complete, and the object can end here with this number of 9:10.
#[inline(always)]
fn may_end(object: &ObjectReader, message: &MessageReader, number: u64) -> bool
    requires { IsSome object.now }
    ensures whole { IsTrue result → IsCompleteMessage message.now }
    ensures ends { IsTrue result → ObjectMayEndAs object.now number object.now }
{
    message.is_whole() && object.may_end(number)
}

impl Parts {
    /// Checks whether the last dataset has ended.
    #[inline(always)]
    pub(crate) fn has_ended(&self) -> bool
        ensures { result ≡ has_ended self.now }
    {
        self.fields.section() == POST_OBJECT && self.fields.current_head().is_none()
    }

    /// Consumes the next head, or returns its first error.
    pub(crate) fn head<S: StorySink>(&mut self, head: Head, sink: &mut S) -> Result<(), TokenFault>
        requires { PartsAreBetween false self.old }
        ensures takes { OnOk result (PartsAcceptData self.new head.count) }
        ensures went { OnOk result (PartsEmit S.goes S.failures (self.old, sink.old) (HeadRead head ∷ [])
            (self.new, sink.new)) }
        ensures stopped { IfErr result (λ fault.
            PartsReject S.goes S.failures (Some fault) (self.old, sink.old) [] (HeadRead head) (self.new, sink.new)) }
        ensures room { reader_capacity self.new.fields ≡ reader_capacity self.old.fields }
    {
        layer_lemmas();
        if let Err(fault) = self.fields.begin(head) {
            return Err(fault_of_record(fault));
        }
        if head.rec == OBJECT {
            return subfile(&mut self.object, &mut self.message, head, sink);
        }
        if head.rec == POST_OBJECT {
            return pass_head(&mut self.object, &mut self.message, head, sink);
        }
        Ok(())
    }

    /// Consumes a complete dataset of record 7. Returns `true` if it was consumed; otherwise
    /// nothing changes.
    #[inline(never)]
    fn whole_number(&mut self, set: u8, count: u64, octets: &[u8]) -> bool
        requires takes { PartsAreBetween false self.old }
        requires count { count ≡ length octets.now }
        ensures takes { PartsAreBetween false self.new }
        ensures whole { IsTrue result
            → ConsumesWhole self.old (record { rec = 7; set = set; count = count }) octets.now self.new }
        ensures left { result ≡ false → self.new ≡ self.old }
        ensures room { reader_capacity self.new.fields ≡ reader_capacity self.old.fields }
    {
        layer_lemmas();
        let Some(number) = number_of(octets) else {
            return false;
        };
        if !self.object.accepts_number(set, number) {
            return false;
        }
        let rec = PRE_OBJECT;
        let head = Head { rec, set, count };
        if !self.fields.admits_number(head, number) {
            return false;
        }
        self.fields.put_number(head);
        self.object.put_number(set, number);
        true
    }

    /// Consumes a complete 9:10, with which the envelope ends. Returns `true` if it was consumed;
    /// otherwise nothing changes.
    #[inline(never)]
    fn whole_end(&mut self, set: u8, count: u64, octets: &[u8]) -> bool
        requires takes { PartsAreBetween false self.old }
        requires count { count ≡ length octets.now }
        ensures ended { IsTrue result → PartsAreBetween true self.new }
        ensures whole { IsTrue result
            → ConsumesWhole self.old (record { rec = 9; set = set; count = count }) octets.now self.new }
        ensures left { result ≡ false → self.new ≡ self.old }
        ensures room { reader_capacity self.new.fields ≡ reader_capacity self.old.fields }
    {
        layer_lemmas();
        let Some(number) = number_of(octets) else {
            return false;
        };
        if !may_end(&self.object, &self.message, number) {
            return false;
        }
        let rec = POST_OBJECT;
        let head = Head { rec, set, count };
        if !self.fields.admits_number(head, number) {
            return false;
        }
        self.fields.put_number(head);
        true
    }

    /// Consumes a complete dataset of record 1 or 2. Returns `true` if it was consumed; otherwise
    /// nothing changes.
    #[inline(always)]
    fn whole_field(&mut self, head: Head, octets: &[u8]) -> bool
        requires takes { PartsAreBetween false self.old }
        requires count { head.count ≡ length octets.now }
        ensures takes { PartsAreBetween false self.new }
        ensures whole { IsTrue result → ConsumesWhole self.old head octets.now self.new }
        ensures left { result ≡ false → self.new ≡ self.old }
        ensures room { reader_capacity self.new.fields ≡ reader_capacity self.old.fields }
    {
        layer_lemmas();
        self.fields.whole(head, octets)
    }

    /// Consumes a complete subfile. Returns `None` if it must be passed in parts instead; nothing
    /// changes then. On an error, the head and the octets before the rejected one have been
    /// consumed.
    #[inline(always)]
    fn whole_subfile<S: StorySink>(
        &mut self,
        head: Head,
        octets: &[u8],
        sink: &mut S,
    ) -> Result<Option<Step>, Rejection>
        requires takes { PartsAreBetween false self.old }
        requires subfile { head.rec ≡ 8 }
        ensures taken { IfOk result (ConsumedWholeDataset S.goes S.failures (self.old, sink.old) head octets.now
            (self.new, sink.new)) }
        ensures before { IfErr result (λ halt. halt.taken < length octets.now) }
        ensures stopped { IfErr result (λ halt.
            PartsReject S.goes S.failures (Some halt.fault) (self.old, sink.old)
            (HeadRead head ∷ map DataOctet (take halt.taken octets.now))
            (DataOctet (slice_index octets.now halt.taken)) (self.new, sink.new)) }
        ensures room { reader_capacity self.new.fields ≡ reader_capacity self.old.fields }
    {
        layer_lemmas();
        if !self.object.accepts_subfile(head.count) {
            return Ok(None);
        }
        if !self.fields.whole_subfile(head) {
            return Ok(None);
        }
        self.object.put_subfile(head.count);
        match pass_octets(&mut self.object, &mut self.message, octets, sink) {
            Ok(()) => Ok(Some(Step::More)),
            Err(fault) => Err(rejection_on(head, fault)),
        }
    }

    /// Consumes a complete dataset. Returns `None` if it must be passed in parts instead; nothing
    /// changes then. On an error, which only a subfile can cause, the head and the octets before
    /// the rejected one have been consumed.
    #[inline(always)]
    pub(crate) fn whole<S: StorySink>(
        &mut self,
        head: Head,
        octets: &[u8],
        sink: &mut S,
    ) -> Result<Option<Step>, Rejection>
        requires takes { PartsAreBetween false self.old }
        requires count { head.count ≡ length octets.now }
        ensures taken { IfOk result (ConsumedWholeDataset S.goes S.failures (self.old, sink.old) head octets.now
            (self.new, sink.new)) }
        ensures before { IfErr result (λ halt. halt.taken < length octets.now) }
        ensures stopped { IfErr result (λ halt.
            PartsReject S.goes S.failures (Some halt.fault) (self.old, sink.old)
            (HeadRead head ∷ map DataOctet (take halt.taken octets.now))
            (DataOctet (slice_index octets.now halt.taken)) (self.new, sink.new)) }
        ensures room { reader_capacity self.new.fields ≡ reader_capacity self.old.fields }
    {
        match head.rec {
            OBJECT => self.whole_subfile(head, octets, sink),
            POST_OBJECT => Ok(
                self.whole_end(head.set, head.count, octets)
                    .then_some(Step::Last),
            ),
            PRE_OBJECT => Ok(
                self.whole_number(head.set, head.count, octets)
                    .then_some(Step::More),
            ),
            _ => Ok(self.whole_field(head, octets).then_some(Step::More)),
        }
    }

    /// Consumes octets of the dataset in progress. On an error, the octets before the rejected one
    /// have been consumed.
    pub(crate) fn run<S: StorySink>(&mut self, run: &[u8], sink: &mut S) -> Result<(), Rejection>
        requires { (left : ℕ) × PartsAcceptData self.old left × (length run.now ≤ left) }
        ensures takes { OnOk result ((left : ℕ) → PartsAcceptData self.old left
            → PartsAcceptData self.new (left - length run.now)) }
        ensures went { OnOk result (PartsEmit S.goes S.failures (self.old, sink.old) (map DataOctet run.now)
            (self.new, sink.new)) }
        ensures before { IfErr result (λ halt. halt.taken < length run.now) }
        ensures stopped { IfErr result (λ halt.
            PartsReject S.goes S.failures (Some halt.fault) (self.old, sink.old)
            (map DataOctet (take halt.taken run.now)) (DataOctet (slice_index run.now halt.taken))
            (self.new, sink.new)) }
        ensures room { reader_capacity self.new.fields ≡ reader_capacity self.old.fields }
    {
        layer_lemmas();
        let Some(head) = self.fields.current_head() else {
            unreachable!()
        };
        if head.rec != OBJECT {
            self.fields.bytes(run);
            return Ok(());
        }
        match pass_octets(&mut self.object, &mut self.message, run, sink) {
            Ok(()) => Ok(()),
            Err(fault) => Err(rejection_on(head, fault)),
        }
    }

    /// Ends the dataset in progress, or returns the first error of its value.
    pub(crate) fn close(&mut self) -> Result<(), TokenFault>
        requires { PartsAcceptData self.old 0 }
        ensures object { OnOk result (IsSome self.new.object) }
        ensures message { OnOk result (IsSome self.new.message) }
        ensures between { OnOk result (IsBetweenDatasets self.new.fields) }
        ensures closed { OnOk result (PartsConsume self.old (DatasetEnd ∷ []) [] self.new) }
        ensures refused { IfErr result (RejectsClose self.old) }
        ensures room { reader_capacity self.new.fields ≡ reader_capacity self.old.fields }
    {
        layer_lemmas();
        let Some(head) = self.fields.current_head() else {
            unreachable!()
        };
        match self.fields.close() {
            Ok(Some(number)) => pass_number(&mut self.object, head, number),
            Ok(None) => Ok(()),
            Err(fault) => Err(fault_of_record(fault)),
        }
    }
}
