//! A reader of the records of an envelope, dataset by dataset.

ghost use Rattle.std.specs.Prelude.{◌≡◌, ◌⊎◌, false, ◌+◌, ◌-◌, ◌≤◌, ◌<◌, ℕ, List, [], ◌∷◌, ◌++◌, length, is_none, Some, None, IfOk, IfErr, OnOk, OnErr, ◌↔◌, IsTrue, IsSome, IfSome};
ghost use Rattle.iim_dataset.specs.Format.Datasets.{Dataset};
ghost use Rattle.iim_dataset.specs.declared.head.Head.{Head as HeadValue};
ghost use Rattle.iim_fields.specs.Format.Records.{AreSections, encoded_number, data_of};
ghost use Rattle.std.specs.Option.{option_or};
ghost use Rattle.iim_fields.specs.Format.Causes.{first_fault, is_kept, kept, room_fault, value_fault};
ghost use Rattle.iim_fields.specs.States.Standing.{IsValueFault};

use crate::check::RecordCheck;
use crate::envelope::Envelope;
use crate::envelope_ref::EnvelopeRef;
use crate::fault::{FieldCause, FieldFault};
use crate::limits::Limits;
use crate::order::fault_on;
use crate::records::is_kept;
use crate::store::Store;
use crate::walk::FieldIter;
use arrayvec::ArrayVec;
use iim_dataset::Head;
use iim_tables::SIZE_OCTETS;
use iim_tables::laws::each_row_has_values;
use iim_tables::records::OBJECT;
use std::alloc::{AllocError, Global};
use std::marker::Model;

/// Returns the first limit that would be exceeded if a dataset with this head were added to
/// `octets` stored octets in `fields` stored datasets, or `None`.
#[inline(always)]
pub(crate) fn room_fault(
    limits: Limits,
    octets: usize,
    fields: usize,
    head: Head,
) -> Option<FieldFault>
    ensures { result ≡ room_fault limits octets fields head }
{
    if !is_kept(head.rec) {
        return None;
    }
    if (octets as u64).saturating_add(head.count) > u64::from(limits.octets) {
        return Some(fault_on(head, FieldCause::HeaderFull));
    }
    if fields as u64 >= u64::from(limits.fields) {
        return Some(fault_on(head, FieldCause::TooManyFields));
    }
    None
}

/// Checks whether a dataset with this head can be added to `octets` stored octets in `fields`
/// stored datasets within the limits, which is when `room_fault` returns `None`.
#[inline(always)]
fn has_room(limits: Limits, octets: usize, fields: usize, head: Head) -> bool
    requires kept { IsTrue (is_kept head.rec) }
    requires within { octets ≤ limits.octets }
    ensures { result ≡ is_none (room_fault limits octets fields head) }
{
    head.count <= u64::from(limits.octets) - octets as u64
        && (fields as u64) < u64::from(limits.fields)
}

/// A reader of the datasets of an envelope. It checks them one after another, and stores those of
/// records 1 and 2. Its model in contracts is the state of its check, its limits, the stored
/// datasets, the octets received of the dataset in progress, and its capacity, which never changes.
#[derive(Drop)]
pub struct Fields {
    check: RecordCheck,
    limits: Limits,
    /// The stored datasets, followed by the octets of the dataset in progress if that will be
    /// stored.
    store: Store,
    /// The octets of the value in progress, if its record is 7 or 9.
    size: ArrayVec<u8, SIZE_OCTETS>,
}

impl Model for Fields {
    ghost use Rattle.iim_fields.specs.States.Standing.{FieldsPlace};
    ghost use Rattle.iim_fields.specs.Steps.{reader_view, IsReaderState};

    ghost Value = { FieldsPlace };

    ghost view = { λ f. reader_view f.check f.limits f.store f.size.items };

    ghost invariant = { λ f. IsReaderState f.check f.limits f.store f.size.items };
}

impl Fields {
    ghost use Rattle.iim_fields.specs.Format.Causes.{section_after};
    ghost use Rattle.iim_fields.specs.States.Walks.{rest_of};
    ghost use Rattle.iim_fields.specs.States.Standing.{limits_of, reader_capacity, section_of, current_head_of, room_for, RecordReaderFailed, IsBetweenDatasets, IsInsideDataset, AcceptsData, AcceptsEnd, HasReadDatasets, IsReadingDataset, AcceptedDataset, AcceptedSubfile, HasSameBounds, IsHeadFault, IsDatasetOf, RecordReaderHasEnded, DatasetEncodesNumber, AdmitsDataset, added_field_fault};

    /// Creates a reader at the beginning of an envelope. Allocates memory for exactly what the
    /// limits allow; no later call allocates.
    ///
    /// **Errors:** the allocation fails.
    pub fn new(alloc: Global, limits: Limits) -> Result<Fields, AllocError>
        ensures stands { IfOk result (λ fields. HasReadDatasets fields []) }
        ensures limits { IfOk result (λ fields. limits_of fields ≡ limits) }
        ensures room { IfOk result (λ fields. reader_capacity fields ≡ room_for limits) }
    {
        let store = Store::new(alloc, limits.octets as usize, limits.fields as usize)?;
        Ok(Fields {
            check: RecordCheck::new(),
            limits,
            store,
            size: ArrayVec::new(),
        })
    }

    /// Resets the reader to the beginning of an envelope, with the same memory and limits, even
    /// after an error. Does not allocate.
    pub fn again(&mut self)
        ensures stands { HasReadDatasets self.new [] }
        ensures bounds { HasSameBounds self.old self.new }
    {
        self.store.empty();
        self.size.clear();
        self.check = RecordCheck::new();
    }

    /// Returns the limits of the reader.
    pub fn limits(&self) -> Limits
        ensures { result ≡ limits_of self.now }
    {
        self.limits
    }

    /// Returns whether a call has returned an error.
    pub fn is_failed(&self) -> bool
        ensures { IsTrue result ↔ RecordReaderFailed self.now }
    {
        self.check.is_failed()
    }

    /// Returns the current record, which is the record of the last head. Returns 0 at the beginning
    /// of an envelope and after an error.
    #[inline(always)]
    pub fn section(&self) -> u8
        ensures section { result ≡ section_of self.now }
        ensures after { (ds : List Dataset) → HasReadDatasets self.now ds → result ≡ section_after ds }
        ensures inside { (ds : List Dataset) (h : HeadValue) (taken : List ℕ) → IsReadingDataset self.now ds h taken
            → result ≡ h.rec }
    {
        self.check.section()
    }

    /// Returns the head of the dataset in progress. Returns `None` between datasets, at the
    /// beginning of an envelope, and after an error.
    #[inline(always)]
    pub fn current_head(&self) -> Option<Head>
        ensures head { result ≡ current_head_of self.now }
        ensures after { (ds : List Dataset) → HasReadDatasets self.now ds → result ≡ None }
        ensures inside { (ds : List Dataset) (h : HeadValue) (taken : List ℕ) → IsReadingDataset self.now ds h taken
            → result ≡ Some h }
    {
        self.check.begun()
    }

    /// Returns the octets received of the dataset in progress. The octets of a subfile are not
    /// passed to this reader. The reader must not have failed.
    pub fn begun(&self) -> &[u8]
        requires { RecordReaderFailed self.now → ⊥ }
        ensures { result.now ≡ self.now.taken }
    {
        match self.check.begun() {
            Some(head) if is_kept(head.rec) => self.store.begun(),
            _ => self.size.as_slice(),
        }
    }

    /// Iterates over the stored datasets, in order: record, number and data of each.
    pub fn kept(&self) -> FieldIter<'_>
        ensures { rest_of result ≡ self.now.kept }
    {
        FieldIter {
            from: 0,
            entries: &self.store.entries,
            octets: self.store.octets.as_slice(),
        }
    }

    /// Accepts the next head.
    ///
    /// **Errors:** the first fault of the head. After this head, no further datasets can complete
    /// the envelope, or exceed a limit. The reader has then failed.
    #[inline(always)]
    pub fn begin(&mut self, head: Head) -> Result<(), FieldFault>
        requires { IsBetweenDatasets self.old }
        ensures inside { OnOk result (IsInsideDataset self.new head head.count) }
        ensures stands { OnOk result ((ds : List Dataset) → HasReadDatasets self.old ds
            → IsReadingDataset self.new ds head []) }
        ensures failed { OnErr result (RecordReaderFailed self.new) }
        ensures fault { IfErr result (λ fault. (ds : List Dataset) → HasReadDatasets self.old ds
            → IsHeadFault (limits_of self.old) ds head fault) }
        ensures bounds { HasSameBounds self.old self.new }
    {
        self.check.head(head)?;
        let octets = self.store.octets.len();
        if let Some(fault) = room_fault(self.limits, octets, self.store.entries.len(), head) {
            self.check = RecordCheck::refused();
            return Err(fault);
        }
        Ok(())
    }

    /// Accepts a complete dataset of record 1 or 2, its head and all of its data, with the same
    /// effect as `begin`, `bytes` and `close`. Returns `false` and changes nothing if the dataset
    /// is of another record, has a fault in its head or value, or exceeds a limit. `begin` or
    /// `close` then returns that fault.
    #[inline(always)]
    pub fn whole(&mut self, head: Head, octets: &[u8]) -> bool
        requires between { IsBetweenDatasets self.old }
        requires count { head.count ≡ length octets.now }
        ensures exactly { (ds : List Dataset) → HasReadDatasets self.old ds
            → result ≡ is_none (added_field_fault (limits_of self.old) ds (data_of head octets.now)) }
        ensures kept { IsTrue result → IsTrue (is_kept head.rec) }
        ensures took { IsTrue result → AcceptedDataset self.old head octets.now self.new }
        ensures between { IsBetweenDatasets self.new }
        ensures left { result ≡ false → self.new ≡ self.old }
        ensures bounds { HasSameBounds self.old self.new }
    {
        if !is_kept(head.rec) {
            return false;
        }
        let kept = self.store.octets.len();
        if !has_room(self.limits, kept, self.store.entries.len(), head) {
            return false;
        }
        if !self.check.whole(head, octets) {
            return false;
        }
        self.store.take(octets);
        self.store.keep(head.rec, head.set);
        true
    }

    /// Checks whether `begin`, `bytes` and `close` would accept a dataset of record 7 or 9 with
    /// this head and with data that encode this number. If not, one of these calls returns the
    /// fault.
    #[inline(always)]
    pub fn admits_number(&self, head: Head, number: u64) -> bool
        requires between { IsBetweenDatasets self.now }
        requires number { (head.rec ≡ 7) ⊎ (head.rec ≡ 9) }
        requires spelled { (octets : List ℕ) × DatasetEncodesNumber octets head number }
        ensures exactly { (ds : List Dataset) (octets : List ℕ) → HasReadDatasets self.now ds
            → DatasetEncodesNumber octets head number
            → result ≡ is_none (option_or (first_fault (limits_of self.now) ds head)
            (value_fault (data_of head octets))) }
    {
        self.check.admits_number(head, number)
    }

    /// Accepts a complete dataset of record 7 or 9, with the same effect as `begin`, `bytes` and
    /// `close`. `admits_number` must have returned `true` for this dataset.
    #[inline(always)]
    pub fn put_number(&mut self, head: Head)
        requires between { IsBetweenDatasets self.old }
        requires number { (head.rec ≡ 7) ⊎ (head.rec ≡ 9) }
        requires admitted { (octets : List ℕ) × AdmitsDataset self.old head octets }
        ensures took { (octets : List ℕ) → AdmitsDataset self.old head octets
            → AcceptedDataset self.old head octets self.new }
        ensures between { IsBetweenDatasets self.new }
        ensures bounds { HasSameBounds self.old self.new }
    {
        self.check.put(head);
    }

    /// Accepts a complete subfile with any data, with the same effect as `begin` and `close`.
    /// Returns `false` and changes nothing if its head has a fault. `begin` then returns that
    /// fault.
    #[inline(always)]
    pub fn whole_subfile(&mut self, head: Head) -> bool
        requires between { IsBetweenDatasets self.old }
        requires subfile { head.rec ≡ 8 }
        ensures exactly { (ds : List Dataset) → HasReadDatasets self.old ds
            → result ≡ is_none (first_fault (limits_of self.old) ds head) }
        ensures section { IsTrue result → section_of self.new ≡ head.rec }
        ensures passes { IsTrue result → AcceptedSubfile self.old head self.new }
        ensures between { IsBetweenDatasets self.new }
        ensures left { result ≡ false → self.new ≡ self.old }
        ensures bounds { HasSameBounds self.old self.new }
    {
        self.check.whole_subfile(head)
    }

    /// Appends the next octets of the dataset in progress. It may be called any number of times, up
    /// to the count of the head. It must not be called for a subfile, 8:10, whose data belong to
    /// the object.
    #[inline(always)]
    pub fn bytes(&mut self, octets: &[u8])
        requires { AcceptsData self.old (length octets.now) }
        ensures inside { (h : HeadValue) (n : ℕ) → IsInsideDataset self.old h n → IsInsideDataset self.new h
            (n - length octets.now) }
        ensures stands { (ds : List Dataset) (h : HeadValue) (taken : List ℕ) → IsReadingDataset self.old ds h taken
            → IsReadingDataset self.new ds h (taken ++ octets.now) }
        ensures bounds { HasSameBounds self.old self.new }
    {
        each_row_has_values();
        let Some(head) = self.check.begun() else {
            unreachable!()
        };
        if is_kept(head.rec) {
            self.store.take(octets);
            return;
        }
        self.size.try_extend_from_slice(octets).unwrap();
    }

    /// Ends the dataset in progress. Returns the encoded number if the record is 7 or 9.
    ///
    /// **Errors:** the first fault of the value. After this value, no further datasets can complete
    /// the envelope, and the reader has failed.
    #[inline(always)]
    pub fn close(&mut self) -> Result<Option<u64>, FieldFault>
        requires { AcceptsEnd self.old }
        ensures between { OnOk result (IsBetweenDatasets self.new) }
        ensures stands { IfOk result (λ number. (ds : List Dataset) (h : HeadValue) (taken : List ℕ)
            → IsReadingDataset self.old ds h taken
            → (d : Dataset) → IsDatasetOf h taken d → HasReadDatasets self.new (ds ++ d ∷ []) × (number
            ≡ encoded_number d)) }
        ensures failed { OnErr result (RecordReaderFailed self.new) }
        ensures fault { IfErr result (λ fault. (ds : List Dataset) (h : HeadValue) (taken : List ℕ)
            → IsReadingDataset self.old ds h taken
            → IsValueFault ds (data_of h taken) fault) }
        ensures bounds { HasSameBounds self.old self.new }
    {
        let Some(head) = self.check.begun() else {
            unreachable!()
        };
        if head.rec == OBJECT {
            self.check.end_subfile();
            return Ok(None);
        }
        if !is_kept(head.rec) {
            let number = self.check.value(self.size.as_slice())?;
            self.size.clear();
            return Ok(number);
        }
        let number = self.check.value(self.store.begun())?;
        self.store.keep(head.rec, head.set);
        Ok(number)
    }

    /// Returns a borrowed view of the stored envelope, if 9:10 has ended and no call has returned
    /// an error.
    pub fn envelope(&self) -> Option<EnvelopeRef<'_>>
        ensures ended { IsSome result ↔ RecordReaderHasEnded self.now }
        ensures whole { (ds : List Dataset) → HasReadDatasets self.now ds → IsSome result ↔ AreSections ds }
        ensures envelope { IfSome result (λ envelope. (ds : List Dataset) → HasReadDatasets self.now ds → envelope
            ≡ kept ds) }
    {
        if !self.check.is_ended() {
            return None;
        }
        Some(EnvelopeRef { store: &self.store })
    }

    /// Returns the stored envelope, if 9:10 has ended and no call has returned an error. Otherwise
    /// returns the unchanged reader.
    pub fn into_envelope(self) -> Result<Envelope, Fields>
        ensures ended { OnOk result (RecordReaderHasEnded self) }
        ensures whole { OnOk result ((ds : List Dataset) → HasReadDatasets self ds → AreSections ds) }
        ensures envelope { IfOk result (λ envelope. (ds : List Dataset) → HasReadDatasets self ds → envelope
            ≡ kept ds) }
        ensures not_ended { OnErr result (RecordReaderHasEnded self → ⊥) }
        ensures refused { OnErr result ((ds : List Dataset) → HasReadDatasets self ds → AreSections ds → ⊥) }
        ensures returned_unchanged { IfErr result (λ fields. fields ≡ self) }
    {
        if !self.check.is_ended() {
            return Err(self);
        }
        let store = self.store;
        Ok(Envelope { store })
    }
}
