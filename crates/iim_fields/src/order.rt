//! Decides which head may come next: the order of the records, and the rows of their datasets.

ghost use Rattle.std.specs.Prelude.{◌≡◌, ◌≢◌, false, ◌&&◌, ◌||◌, ◌==◌, nat_le, not, if◌then◌else◌, replicate, is_none, Some, None, IfOk, IfErr, OnOk, IsTrue};
ghost use Rattle.std.specs.Int.{IsInRange};
ghost use Rattle.iim_dataset.specs.Format.Octets.{greatest_size, within};
ghost use Rattle.iim_tables.specs.Format.Rows.{row_of};
ghost use Rattle.iim_fields.specs.Format.Causes.{head_fault, row_fault, missing_of, missing_fault, is_in_order, is_first};
ghost use Rattle.iim_fields.specs.Format.Records.{after};
ghost use Rattle.iim_fields.specs.States.Standing.{has_seen};
ghost use Rattle.iim_fields.specs.Steps.{OrderAddsHead, end_fault};

use crate::fault::{FieldCause, FieldFault};
use crate::number_set::NumberSet;
use crate::records::{mandatory, next_record};
use iim_dataset::{GREATEST_SIZE, Head};
use iim_tables::records::{APPLICATION, ENVELOPE, OBJECT, POST_OBJECT, PRE_OBJECT, SUBFILE};
use iim_tables::{Row, row};

/// The state after the heads so far: the current record, which is 0 before the first head, and the
/// numbers of the datasets that have occurred in it.
#[derive(Drop)]
pub(crate) struct Order {
    rec: u8,
    seen: NumberSet,
}

/// Creates a fault for the dataset of a head.
#[inline(always)]
pub(crate) fn fault_on(head: Head, cause: FieldCause) -> FieldFault
    ensures { result ≡ record { rec = head.rec; set = head.set; cause = cause } }
{
    FieldFault {
        rec: head.rec,
        set: head.set,
        cause,
    }
}

fn missing_fault_on(rec: u8, set: u8) -> FieldFault
    ensures { result ≡ record { rec = rec; set = set; cause = FieldCause.Missing } }
{
    FieldFault {
        rec,
        set,
        cause: FieldCause::Missing,
    }
}

/// Returns the fault of an envelope that has no record 2.
fn no_application() -> Option<FieldFault>
    ensures { result ≡ missing_fault 2 (missing_of 2 (λ _. false)) }
{
    Some(missing_fault_on(APPLICATION, 0))
}

/// Returns the first fault of a head with this row. `again` is whether its dataset has already
/// occurred.
#[inline(always)]
fn row_fault(again: bool, row: &Row, head: Head) -> Option<FieldFault>
    ensures { result ≡ row_fault again (Some row.now) head }
{
    if again && !row.repeats {
        return Some(fault_on(head, FieldCause::Repeated));
    }
    if !(row.min..=row.max).contains(&head.count) {
        return Some(fault_on(head, FieldCause::CountRange));
    }
    None
}

/// Checks whether the count of a head is within the bounds of this row.
#[inline(always)]
fn is_counted(head: Head, row: &Row) -> bool
    ensures exactly { result ≡ within row.now.min row.now.max head.count }
    ensures bounds { IsTrue result → IsInRange row.now.min row.now.max head.count }
{
    row.min <= head.count && head.count <= row.max
}

/// Checks whether a head is that of a subfile with a count of at most the greatest size, as the row
/// of 8:10 requires.
#[inline(always)]
fn is_subfile(head: Head) -> bool
    ensures { result ≡ (head.set == 10 && nat_le head.count greatest_size) }
{
    head.set == SUBFILE && head.count <= GREATEST_SIZE
}

impl Order {
    /// Creates the state at the beginning of an envelope.
    pub(crate) fn new() -> Order
        ensures rec { result.rec ≡ 0 }
        ensures seen { result.seen ≡ replicate 256 false }
    {
        Order {
            rec: 0,
            seen: NumberSet::new(),
        }
    }

    /// Returns a copy of the state.
    pub(crate) fn copied(&self) -> Order
        ensures { result ≡ self.now }
    {
        Order {
            rec: self.rec,
            seen: self.seen.copied(),
        }
    }

    /// Returns the current record, or 0 before the first head.
    pub(crate) fn present(&self) -> u8
        ensures { result ≡ self.now.rec }
    {
        self.rec
    }

    /// Returns the lowest number of a mandatory dataset of the record that has not occurred.
    #[inline(always)]
    fn missing(&self, rec: u8) -> Option<u8>
        ensures { result ≡ missing_of rec (has_seen self.now) }
    {
        mandatory(rec)
            .iter()
            .copied()
            .find(|set| !self.seen.contains(*set))
    }

    /// Checks whether the record is the one after the current record.
    #[inline(always)]
    fn begins(&self, rec: u8) -> bool
        ensures { result ≡ is_first rec (after self.now.rec) }
    {
        match next_record(self.rec) {
            Some(next) => rec == next,
            None => false,
        }
    }

    /// Checks whether the record is the current one or the one after it.
    #[inline(always)]
    fn is_in_order(&self, rec: u8) -> bool
        ensures { result ≡ is_in_order self.now.rec rec }
    {
        (rec == self.rec && rec != 0) || self.begins(rec)
    }

    /// Returns the fault for the first mandatory dataset of the record that has not occurred, or
    /// `None` if all of them have.
    #[inline(always)]
    fn missing_fault(&self, rec: u8) -> Option<FieldFault>
        ensures { result ≡ missing_fault rec (missing_of rec (has_seen self.now)) }
    {
        match self.missing(rec) {
            Some(set) => Some(missing_fault_on(rec, set)),
            None => None,
        }
    }

    /// Returns the first dataset that is missing if records 1 and 2 of the envelope end here.
    pub(crate) fn end_fault(&self) -> Option<FieldFault>
        ensures { result ≡ end_fault self.now.rec (has_seen self.now) }
    {
        if self.rec == APPLICATION {
            return self.missing_fault(APPLICATION);
        }
        match self.missing_fault(ENVELOPE) {
            Some(fault) => Some(fault),
            None => no_application(),
        }
    }

    /// Returns the row of a head, if that head may come next.
    ///
    /// **Errors:** the first fault of the head.
    #[inline(always)]
    pub(crate) fn check(&self, head: Head) -> Result<Row, FieldFault>
        ensures row { IfOk result (λ row. row_of head.rec head.set ≡ Some row) }
        ensures ok { OnOk result (head_fault self.now.rec (has_seen self.now) head ≡ None) }
        ensures fault { IfErr result (λ fault. head_fault self.now.rec (has_seen self.now) head ≡ Some fault) }
    {
        if !self.is_in_order(head.rec) {
            return Err(fault_on(head, FieldCause::RecordOrder));
        }
        let Some(row) = row(head.rec, head.set) else {
            return Err(fault_on(head, FieldCause::UnknownDataset));
        };
        let again = head.rec == self.rec && self.seen.contains(head.set);
        if let Some(fault) = row_fault(again, &row, head) {
            return Err(fault);
        }
        if self.begins(head.rec) {
            if let Some(fault) = self.missing_fault(self.rec) {
                return Err(fault);
            }
        }
        Ok(row)
    }

    /// Checks whether a record may begin: it is the one after the current record, in which no
    /// mandatory dataset is missing. Each record has its own match arm, so that its mandatory
    /// numbers are constants in it.
    #[inline(never)]
    fn may_begin(&self, rec: u8) -> bool
        ensures { result ≡ is_first rec (after self.now.rec) && is_none (missing_of self.now.rec (has_seen self.now)) }
    {
        match self.rec {
            0 => rec == ENVELOPE,
            ENVELOPE => rec == APPLICATION && self.missing(ENVELOPE).is_none(),
            APPLICATION => rec == PRE_OBJECT && self.missing(APPLICATION).is_none(),
            PRE_OBJECT => rec == OBJECT && self.missing(PRE_OBJECT).is_none(),
            OBJECT => rec == POST_OBJECT && self.missing(OBJECT).is_none(),
            _ => false,
        }
    }

    /// Checks whether `check` accepts a head of the current record. `row` is the row of its
    /// dataset.
    #[inline(always)]
    pub(crate) fn admits_more(&self, head: Head, row: &Row) -> bool
        requires row { row_of head.rec head.set ≡ Some row.now }
        requires present { head.rec ≡ self.now.rec }
        ensures exactly { result ≡ is_none (head_fault self.now.rec (has_seen self.now) head) }
        ensures bounds { IsTrue result → IsInRange row.now.min row.now.max head.count }
    {
        is_counted(head, row) && (row.repeats || !self.seen.contains(head.set))
    }

    /// Checks whether `check` accepts a head of another record. `row` is the row of its dataset.
    #[inline(always)]
    pub(crate) fn admits_next(&self, head: Head, row: &Row) -> bool
        requires row { row_of head.rec head.set ≡ Some row.now }
        requires other { head.rec ≢ self.now.rec }
        ensures exactly { result ≡ is_none (head_fault self.now.rec (has_seen self.now) head) }
        ensures bounds { IsTrue result → IsInRange row.now.min row.now.max head.count }
    {
        is_counted(head, row) && self.may_begin(head.rec)
    }

    /// Checks whether `check` accepts a head whose dataset must not repeat and whose count is
    /// within the bounds of its row.
    #[inline(always)]
    pub(crate) fn admits_once(&self, head: Head) -> bool
        ensures { result ≡ (if head.rec == self.now.rec then not (has_seen self.now head.set)
            else is_first head.rec (after self.now.rec) && is_none (missing_of self.now.rec (has_seen self.now))) }
    {
        if head.rec == self.rec {
            return !self.seen.contains(head.set);
        }
        self.may_begin(head.rec)
    }

    /// Checks whether a subfile may come next.
    #[inline(always)]
    fn subfile_may_follow(&self) -> bool
        ensures { result ≡ (self.now.rec == 8 || (self.now.rec == 7 && is_none (missing_of 7 (has_seen self.now)))) }
    {
        match self.rec {
            OBJECT => true,
            PRE_OBJECT => self.missing(PRE_OBJECT).is_none(),
            _ => false,
        }
    }

    /// Checks whether `check` accepts the head of a subfile.
    #[inline(always)]
    pub(crate) fn admits_subfile(&self, head: Head) -> bool
        requires { head.rec ≡ 8 }
        ensures { result ≡ is_none (head_fault self.now.rec (has_seen self.now) head) }
    {
        is_subfile(head) && self.subfile_may_follow()
    }

    /// Accepts a head of the current record. The head must be one that may come next.
    #[inline(always)]
    pub(crate) fn add(&mut self, head: Head)
        requires { head.rec ≡ self.old.rec }
        ensures { OrderAddsHead self.old head self.new }
    {
        self.seen.insert(head.set);
    }

    /// Accepts a head of another record. The head must be one that may come next.
    #[inline(always)]
    pub(crate) fn begin(&mut self, head: Head)
        requires { head.rec ≢ self.old.rec }
        ensures { OrderAddsHead self.old head self.new }
    {
        self.rec = head.rec;
        self.seen = NumberSet::new();
        self.seen.insert(head.set);
    }

    /// Accepts a head. The head must be one that may come next.
    #[inline(always)]
    pub(crate) fn take(&mut self, head: Head)
        ensures { OrderAddsHead self.old head self.new }
    {
        if head.rec == self.rec {
            self.add(head);
        } else {
            self.begin(head);
        }
    }
}
