//! Consumers of complete datasets: a check of the records, or a reader that stores them.

ghost use Rattle.std.specs.Prelude.{◌≡◌, [], ◌∷◌, ◌++◌, List, IsTrue, true, cond};
ghost use Rattle.iim_dataset.specs.Format.Datasets.{Dataset};
ghost use Rattle.iim_fields.specs.States.Standing as checks;
ghost use Rattle.iim_fields.specs.States.Standing.{IsBetweenDatasets, HasReadDatasets, limits_of, reader_capacity};
ghost use Rattle.iim_fields.specs.States.Stores.{Room};
ghost use Rattle.iim_fields.specs.declared.limits.Limits.{Limits as LimitsValue};
ghost use Rattle.iim_object.specs.Format.Packing.{number_dataset};
ghost use Rattle.iim_places.specs.TicketParts.{dataset, AreRecordNumbers, IsAbsentOrSize};
ghost use Rattle.iim_places.specs.States.Possible.{mode_dataset, dataset_if, witness_end, witness_numbers, widest};
ghost use Rattle.iim_places.specs.Restoring.{AreStored, ConsumesEach, numbers_of_list, state_datasets};

use crate::ticket::fields::TicketFields;
use iim_dataset::{Head, number_bytes};
use iim_fields::internals::is_kept;
use iim_fields::{Fields, RecordCheck};
use iim_tables::records::{
    ANNOUNCED_SIZE, CONFIRMED_SIZE, MAX_SUBFILE_SIZE, MAXIMUM_SIZE, OBJECT, POST_OBJECT,
    PRE_OBJECT, SIZE_MODE, SUBFILE,
};

/// A consumer of the datasets of an envelope. Each dataset is passed with its complete data.
pub(crate) trait DatasetTaker {
    /// The consumer can accept a dataset.
    ghost ready: { Self → Type 0 };

    /// The consumer has accepted exactly these datasets.
    ghost stands: { Self → List Dataset → Type 0 };

    /// The limits that the consumer enforces.
    ghost limits: { Self → LimitsValue };

    /// The capacity of the consumer.
    ghost room: { Self → Room };

    /// Accepts a dataset. Returns `false` if the datasets including this one are no longer a viable
    /// prefix, or exceed the limits. Allocates nothing.
    fn take(&mut self, rec: u8, set: u8, octets: &[u8]) -> bool
        requires { ready self.old }
        ensures took { ConsumesEach ready stands limits self.old (dataset rec set octets.now ∷ []) self.new result }
        ensures room { room self.new ≡ room self.old };
}

impl DatasetTaker for RecordCheck {
    ghost ready = { checks.AcceptsHead };

    ghost stands = { checks.HasChecked };

    // A check enforces no limit: the widest limits add nothing to the rules of the records.
    ghost limits = { λ _. widest };

    // A check stores nothing.
    ghost room = { λ _. record { octets = 0; entries = 0 } };

    fn take(&mut self, rec: u8, set: u8, octets: &[u8]) -> bool {
        let head = Head {
            rec,
            set,
            count: octets.len() as u64,
        };
        match self.head(head) {
            Ok(()) if rec == OBJECT => true,
            Ok(()) => self.value(octets).is_ok(),
            Err(_) => false,
        }
    }
}

impl DatasetTaker for Fields {
    ghost ready = { IsBetweenDatasets };

    ghost stands = { HasReadDatasets };

    ghost limits = { limits_of };

    ghost room = { reader_capacity };

    fn take(&mut self, rec: u8, set: u8, octets: &[u8]) -> bool {
        let head = Head {
            rec,
            set,
            count: octets.len() as u64,
        };
        if self.whole(head, octets) {
            return true;
        }
        match self.begin(head) {
            Ok(()) if rec == OBJECT => self.close().is_ok(),
            Ok(()) => {
                self.bytes(octets);
                self.close().is_ok()
            }
            Err(_) => false,
        }
    }
}

/// Passes the datasets of records 1 and 2 to `taker`.
fn take_fields<T: DatasetTaker>(taker: &mut T, fields: TicketFields<'_>) -> bool
    requires { T.ready taker.old }
    ensures kept { IsTrue result → AreStored fields.entry }
    ensures all { AreStored fields.entry
        → ConsumesEach T.ready T.stands T.limits taker.old fields.entry taker.new result }
    ensures room { T.room taker.new ≡ T.room taker.old }
{
    let mut fields = fields;
    while let Some((rec, set, octets)) = fields.next() {
        if !is_kept(rec) {
            return false;
        }
        if !taker.take(rec, set, octets) {
            return false;
        }
    }
    true
}

/// Passes the mode, 7:10, to `taker`, if there is a mode.
fn take_mode<T: DatasetTaker>(taker: &mut T, mode: Option<u64>) -> bool
    requires { T.ready taker.old }
    ensures took { ConsumesEach T.ready T.stands T.limits taker.old (dataset_if mode_dataset mode) taker.new result }
    ensures room { T.room taker.new ≡ T.room taker.old }
{
    match mode {
        None => true,
        Some(mode) if mode < 256 => taker.take(PRE_OBJECT, SIZE_MODE, &[mode as u8]),
        Some(_) => false,
    }
}

/// Passes the size 7:`set` to `taker`, if there is such a size.
fn take_size<T: DatasetTaker>(taker: &mut T, set: u8, size: Option<u64>) -> bool
    requires ready { T.ready taker.old }
    requires fits { IsAbsentOrSize size }
    ensures took { ConsumesEach T.ready T.stands T.limits taker.old (dataset_if (number_dataset 7 set) size) taker.new
        result }
    ensures room { T.room taker.new ≡ T.room taker.old }
{
    match size {
        None => true,
        Some(size) => taker.take(PRE_OBJECT, set, number_bytes(size).as_slice()),
    }
}

/// Passes the numbers of record 7 to `taker`, in their order.
fn take_numbers<T: DatasetTaker>(taker: &mut T, numbers: [Option<u64>; 4]) -> bool
    requires ready { T.ready taker.old }
    requires fits { AreRecordNumbers numbers }
    ensures took { ConsumesEach T.ready T.stands T.limits taker.old (witness_numbers
        (numbers_of_list numbers)) taker.new
        result }
    ensures room { T.room taker.new ≡ T.room taker.old }
{
    let [mode, largest, announced, maximum] = numbers;
    take_mode(taker, mode)
        && take_size(taker, MAX_SUBFILE_SIZE, largest)
        && take_size(taker, ANNOUNCED_SIZE, announced)
        && take_size(taker, MAXIMUM_SIZE, maximum)
}

/// Passes an empty subfile to `taker` if `some` subfiles are complete.
fn take_subfile<T: DatasetTaker>(taker: &mut T, some: bool) -> bool
    requires { T.ready taker.old }
    ensures took { ConsumesEach T.ready T.stands T.limits taker.old (cond some (dataset 8 10 [] ∷ []) []) taker.new
        result }
    ensures room { T.room taker.new ≡ T.room taker.old }
{
    !some || taker.take(OBJECT, SUBFILE, &[])
}

/// Passes 9:10 of an empty object to `taker` if the object has ended.
fn take_end<T: DatasetTaker>(taker: &mut T, ended: bool) -> bool
    requires { T.ready taker.old }
    ensures took { ConsumesEach T.ready T.stands T.limits taker.old (witness_end ended []) taker.new result }
    ensures room { T.room taker.new ≡ T.room taker.old }
{
    !ended || taker.take(POST_OBJECT, CONFIRMED_SIZE, &[0, 0, 0, 0])
}

/// Passes the datasets of records 1 and 2 and the numbers of record 7 to `taker`.
fn take_records<T: DatasetTaker>(
    taker: &mut T,
    fields: TicketFields<'_>,
    numbers: [Option<u64>; 4],
) -> bool
    requires ready { T.ready taker.old }
    requires fits { AreRecordNumbers numbers }
    ensures kept { IsTrue result → AreStored fields.entry }
    ensures all { AreStored fields.entry
        → ConsumesEach T.ready T.stands T.limits taker.old (fields.entry ++ witness_numbers (numbers_of_list numbers))
        taker.new result }
    ensures room { T.room taker.new ≡ T.room taker.old }
{
    take_fields(taker, fields) && take_numbers(taker, numbers)
}

/// Passes an empty subfile to `taker` if `some` subfiles are complete, and 9:10 if the object has
/// ended.
fn take_object<T: DatasetTaker>(taker: &mut T, some: bool, ended: bool) -> bool
    requires { T.ready taker.old }
    ensures took { ConsumesEach T.ready T.stands T.limits taker.old
        (cond some (dataset 8 10 [] ∷ []) [] ++ witness_end ended []) taker.new result }
    ensures room { T.room taker.new ≡ T.room taker.old }
{
    take_subfile(taker, some) && take_end(taker, ended)
}

/// Passes to `taker` the datasets that determine the state of the record layer at a ticket's
/// position: the fields, the numbers of record 7, an empty subfile if `some` subfiles are complete,
/// and 9:10 if the object has ended.
pub(crate) fn pass_state<T: DatasetTaker>(
    taker: &mut T,
    fields: TicketFields<'_>,
    numbers: [Option<u64>; 4],
    some: bool,
    ended: bool,
) -> bool
    requires ready { T.ready taker.old }
    requires fits { AreRecordNumbers numbers }
    ensures kept { IsTrue result → AreStored fields.entry }
    ensures all { AreStored fields.entry
        → ConsumesEach T.ready T.stands T.limits taker.old (state_datasets fields.entry numbers some ended) taker.new
        result }
    ensures room { T.room taker.new ≡ T.room taker.old }
{
    take_records(taker, fields, numbers) && take_object(taker, some, ended)
}
