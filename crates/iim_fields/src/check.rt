//! The record layer alone. It checks the heads and values of an envelope's datasets, one after
//! another.

ghost use Rattle.std.specs.Prelude.{◌≡◌, ◌≢◌, ◌⊎◌, ℕ, false, List, [], ◌∷◌, ◌++◌, length, Option, is_none, Some, None, IsSome, IsSomeAnd, IfOk, IfErr, OnOk, OnErr, ◌↔◌, IsTrue};
ghost use Rattle.std.specs.Option.{ForSome, option_or};
ghost use Rattle.iim_dataset.specs.Format.Octets.{Octets};
ghost use Rattle.iim_dataset.specs.Format.Datasets.{Dataset, head_of};
ghost use Rattle.iim_dataset.specs.declared.head.Head.{Head as HeadValue};
ghost use Rattle.iim_fields.specs.Format.Causes.{head_fault, section_after, record_fault, value_fault};
ghost use Rattle.iim_fields.specs.States.Standing.{has_seen, DatasetEncodesNumber, current_head, section_at, AcceptsHead, AcceptsValue, IsBetweenHeads, IsInDataset, HasChecked, IsChecking, HasAcceptedHead, IsRecordFault, IsValueFault, LastRecordHasEnded};
ghost use Rattle.iim_fields.specs.Steps.{OrderAddsHead, end_fault, MayAcceptDataset, place_fault, IsRecordPlace};
ghost use Rattle.iim_fields.specs.Format.Records.{encoded_number, data_of};
ghost use Rattle.iim_fields.specs.declared.check.RecordPlace.{RecordPlace as PlaceValue};

use crate::fault::FieldFault;
use crate::order::Order;
use crate::value::{check_value, is_number, is_value};
use iim_dataset::Head;
use iim_tables::Row;
use iim_tables::internals::line;
use iim_tables::laws::each_row_has_values;
use iim_tables::records::POST_OBJECT;
use std::marker::Model;

/// A dataset in progress.
#[derive(Clone, Copy)]
pub(crate) struct Begun {
    /// The head of the dataset.
    pub head: Head,
    /// The row of the dataset in the tables.
    pub row: Row,
}

/// The state after some heads and values: the current record, the datasets that have occurred in
/// it, and the dataset in progress.
#[derive(Drop)]
pub(crate) struct RecordPlace {
    /// The current record, and the datasets that have occurred in it.
    pub order: Order,
    /// The dataset in progress, if there is one.
    pub begun: Option<Begun>,
}

impl RecordPlace {
    /// Returns a copy of the state.
    fn copied(&self) -> RecordPlace
        ensures { result ≡ self.now }
    {
        RecordPlace {
            order: self.order.copied(),
            begun: self.begun,
        }
    }

    /// Accepts a complete dataset, if no dataset is in progress and this one may come next. Returns
    /// `true` if it was accepted; otherwise the state is unchanged.
    #[inline(always)]
    fn whole(&mut self, head: Head, octets: &[u8]) -> bool
        requires { head.count ≡ length octets.now }
        ensures exactly { result ≡ is_none (place_fault self.old head octets.now) }
        ensures took { IsTrue result → OrderAddsHead self.old.order head self.new.order }
        ensures begun { self.new.begun ≡ self.old.begun }
        ensures left { result ≡ false → self.new ≡ self.old }
    {
        let Some(row) = line(head.rec, head.set) else {
            return false;
        };
        if head.rec == self.order.present() {
            if !self.order.admits_more(head, row) {
                return false;
            }
            if !is_value(head, row, octets) {
                return false;
            }
            self.order.add(head);
            return true;
        }
        if !self.order.admits_next(head, row) {
            return false;
        }
        if !is_value(head, row, octets) {
            return false;
        }
        self.order.begin(head);
        true
    }

    /// Accepts a complete subfile, if its head may come next. Returns `true` if it was accepted;
    /// otherwise the state is unchanged.
    #[inline(always)]
    fn whole_subfile(&mut self, head: Head) -> bool
        requires subfile { head.rec ≡ 8 }
        ensures exactly { result ≡ is_none (head_fault self.old.order.rec (has_seen self.old.order) head) }
        ensures took { IsTrue result → OrderAddsHead self.old.order head self.new.order }
        ensures begun { self.new.begun ≡ self.old.begun }
        ensures left { result ≡ false → self.new ≡ self.old }
    {
        if !self.order.admits_subfile(head) {
            return false;
        }
        self.order.take(head);
        true
    }

    /// Accepts a head that may come next. `row` is the row of its dataset.
    #[inline(always)]
    fn accept_head(&mut self, head: Head, row: Row)
        ensures order { OrderAddsHead self.old.order head self.new.order }
        ensures begun { self.new.begun ≡ Some (record { head = head; row = row }) }
    {
        self.order.take(head);
        self.begun = Some(Begun { head, row });
    }
}

/// A check of an envelope's datasets: of each head, and of each complete value except those of
/// subfiles. It has no limits and stores no data. Its model in contracts is its state, or `None`
/// after an error. Every state that it can have is reached by some heads and values.
#[derive(Drop)]
pub struct RecordCheck {
    /// The state, or `None` after an error.
    place: Option<RecordPlace>,
}

impl Model for RecordCheck {
    ghost Value = { Option PlaceValue };

    ghost view = { λ check. check.place };

    ghost invariant = { λ check. ForSome check.place IsRecordPlace };
}

impl RecordCheck {
    /// Creates a check at the beginning of an envelope.
    pub fn new() -> RecordCheck
        ensures takes_head { AcceptsHead result }
        ensures between { IsBetweenHeads result }
        ensures stands { HasChecked result [] }
    {
        each_row_has_values();
        let place = RecordPlace {
            order: Order::new(),
            begun: None,
        };
        RecordCheck { place: Some(place) }
    }

    /// Creates a check that has already failed.
    pub(crate) fn refused() -> RecordCheck
        ensures { result ≡ None }
    {
        RecordCheck { place: None }
    }

    /// Returns a copy of the check.
    pub(crate) fn copied(&self) -> RecordCheck
        ensures { result ≡ self.now }
    {
        let place = match &self.place {
            Some(place) => Some(place.copied()),
            None => None,
        };
        RecordCheck { place }
    }

    /// Returns whether a call has returned an error.
    pub fn is_failed(&self) -> bool
        ensures { result ≡ is_none self.now }
    {
        self.place.is_none()
    }

    /// Returns the record of the last head, or 0 at the beginning and after an error.
    #[inline(always)]
    pub fn section(&self) -> u8
        ensures seen { result ≡ section_at self.now }
        ensures stands { (ds : List Dataset) → HasChecked self.now ds → result ≡ section_after ds }
    {
        match &self.place {
            Some(place) => place.order.present(),
            None => 0,
        }
    }

    /// Returns the head of the dataset in progress.
    #[inline(always)]
    pub(crate) fn begun(&self) -> Option<Head>
        ensures { result ≡ current_head self.now }
    {
        match &self.place {
            Some(
                RecordPlace {
                    begun: Some(begun),
                    ..
                },
            ) => Some(begun.head),
            _ => None,
        }
    }

    /// Accepts the next head. No value follows the head of a subfile, since the data of a subfile
    /// do not concern the records.
    ///
    /// **Errors:** the first fault of the head. After this head, no further datasets can complete
    /// the envelope, and the check has failed.
    #[inline(always)]
    pub fn head(&mut self, head: Head) -> Result<(), FieldFault>
        requires { AcceptsHead self.old }
        ensures takes_value { OnOk result (head.rec ≢ 8 → AcceptsValue self.new head.count) }
        ensures takes_head { OnOk result (head.rec ≡ 8 → AcceptsHead self.new) }
        ensures inside { OnOk result (IsInDataset self.new head) }
        ensures stands { OnOk result ((ds : List Dataset) → HasChecked self.old ds → HasAcceptedHead self.new ds head) }
        ensures failed { OnErr result (self.new ≡ None) }
        ensures fault { IfErr result (λ fault. (ds : List Dataset) → HasChecked self.old ds
            → IsRecordFault ds head fault) }
    {
        each_row_has_values();
        match &mut self.place {
            Some(place) => match place.order.check(head) {
                Ok(row) => {
                    place.accept_head(head, row);
                    Ok(())
                }
                Err(fault) => {
                    self.place = None;
                    Err(fault)
                }
            },
            None => unreachable!(),
        }
    }

    /// Accepts a complete dataset other than a subfile, if it may come next. Returns `true` if it
    /// was accepted; otherwise the state is unchanged.
    #[inline(always)]
    pub(crate) fn whole(&mut self, head: Head, octets: &[u8]) -> bool
        requires between { IsBetweenHeads self.old }
        requires count { head.count ≡ length octets.now }
        ensures exactly { (ds : List Dataset) → HasChecked self.old ds
            → result ≡ is_none (option_or (record_fault ds head) (value_fault (data_of head octets.now))) }
        ensures took { IsTrue result → (ds : List Dataset) → HasChecked self.old ds
            → HasChecked self.new (ds ++ data_of head octets.now ∷ []) }
        ensures section { IsTrue result → section_at self.new ≡ head.rec }
        ensures between { IsBetweenHeads self.new }
        ensures left { result ≡ false → self.new ≡ self.old }
    {
        each_row_has_values();
        match &mut self.place {
            Some(place) => place.whole(head, octets),
            None => unreachable!(),
        }
    }

    /// Checks whether a complete dataset of record 7 or 9 may come next, if its data encode this
    /// number.
    #[inline(always)]
    pub(crate) fn admits_number(&self, head: Head, number: u64) -> bool
        requires between { IsBetweenHeads self.now }
        requires number { (head.rec ≡ 7) ⊎ (head.rec ≡ 9) }
        ensures { (ds : List Dataset) (xs : List ℕ) → HasChecked self.now ds → DatasetEncodesNumber xs head number
            → result ≡ is_none (option_or (record_fault ds head) (value_fault (data_of head xs))) }
    {
        match &self.place {
            Some(place) => is_number(head, number) && place.order.admits_once(head),
            None => unreachable!(),
        }
    }

    /// Accepts a complete dataset other than a subfile. The dataset must be one that may come next.
    #[inline(always)]
    pub(crate) fn put(&mut self, head: Head)
        requires between { IsBetweenHeads self.old }
        requires admitted { (xs : List ℕ) × MayAcceptDataset self.old head xs }
        ensures took { (xs : List ℕ) → MayAcceptDataset self.old head xs → (ds : List Dataset) → HasChecked self.old ds
            → HasChecked self.new (ds ++ data_of head xs ∷ []) }
        ensures section { section_at self.new ≡ head.rec }
        ensures between { IsBetweenHeads self.new }
    {
        each_row_has_values();
        match &mut self.place {
            Some(place) => place.order.take(head),
            None => unreachable!(),
        }
    }

    /// Accepts a complete subfile with any data, if its head may come next. Returns `true` if it
    /// was accepted; otherwise the state is unchanged.
    #[inline(always)]
    pub(crate) fn whole_subfile(&mut self, head: Head) -> bool
        requires between { IsBetweenHeads self.old }
        requires subfile { head.rec ≡ 8 }
        ensures exactly { (ds : List Dataset) → HasChecked self.old ds → result ≡ is_none (record_fault ds head) }
        ensures took { IsTrue result → (ds : List Dataset) → HasChecked self.old ds → (d : Dataset) → head_of d ≡ head
            → Octets d.octets → HasChecked self.new (ds ++ d ∷ []) }
        ensures section { IsTrue result → section_at self.new ≡ head.rec }
        ensures between { IsBetweenHeads self.new }
        ensures left { result ≡ false → self.new ≡ self.old }
    {
        each_row_has_values();
        match &mut self.place {
            Some(place) => place.whole_subfile(head),
            None => unreachable!(),
        }
    }

    /// Accepts the complete value of the dataset in progress. Returns the encoded number if the
    /// record is 7 or 9.
    ///
    /// **Errors:** the first fault of the value. After this value, no further datasets can complete
    /// the envelope, and the check has failed.
    #[inline(always)]
    pub fn value(&mut self, octets: &[u8]) -> Result<Option<u64>, FieldFault>
        requires { AcceptsValue self.old (length octets.now) }
        ensures takes_head { OnOk result (AcceptsHead self.new) }
        ensures between { OnOk result (IsBetweenHeads self.new) }
        ensures stands { IfOk result (λ number. (ds : List Dataset) (h : HeadValue) → IsChecking self.old ds h
            → HasChecked self.new (ds ++ data_of h octets.now ∷ []) × (number ≡ encoded_number
            (data_of h octets.now))) }
        ensures failed { OnErr result (self.new ≡ None) }
        ensures fault { IfErr result (λ fault. (ds : List Dataset) (h : HeadValue) → IsChecking self.old ds h
            → IsValueFault ds (data_of h octets.now) fault) }
    {
        each_row_has_values();
        match &mut self.place {
            Some(place) => {
                let begun = place.begun.unwrap();
                match check_value(begun.head, &begun.row, octets) {
                    Ok(number) => {
                        place.begun = None;
                        Ok(number)
                    }
                    Err(fault) => {
                        self.place = None;
                        Err(fault)
                    }
                }
            }
            None => unreachable!(),
        }
    }

    /// Ends a subfile.
    pub(crate) fn end_subfile(&mut self)
        requires { AcceptsHead self.old }
        ensures between { IsBetweenHeads self.new }
        ensures stands { (ds : List Dataset) → HasChecked self.old ds → HasChecked self.new ds }
    {
        if let Some(place) = &mut self.place {
            place.begun = None;
        }
    }

    /// Checks whether the dataset of record 9, the last of an envelope, has ended.
    pub(crate) fn is_ended(&self) -> bool
        ensures { IsTrue result ↔ LastRecordHasEnded self.now }
    {
        match &self.place {
            Some(RecordPlace { order, begun: None }) => order.present() == POST_OBJECT,
            _ => false,
        }
    }

    /// Returns the first dataset that is missing if records 1 and 2 end here.
    pub(crate) fn end_fault(&self) -> Option<FieldFault>
        requires { IsSome self.now }
        ensures { IsSomeAnd self.now (λ place. result ≡ end_fault place.order.rec (has_seen place.order)) }
    {
        match &self.place {
            Some(place) => place.order.end_fault(),
            None => unreachable!(),
        }
    }
}
