//! The rows of an audit that is in progress.

ghost use Rattle.std.specs.Prelude.{◌≡◌, ◌+◌, ◌<◌, ◌≤◌, ◌^◌, ◌++◌, ◌∷◌, [], ℤ, List, length, OnOk};
ghost use Rattle.iim_places.specs.Format.Admitted.{Value};
ghost use Rattle.iim_audit.specs.Format.{report_of};
ghost use Rattle.iim_audit.specs.Steps.{ArePartsOf};

use crate::repeats::{set_repeats, sort_key_of};
use crate::report::Report;
use crate::row::{AuditRow, EnvelopeParts, row_of};
use jiff::Timestamp;
use std::alloc::{AllocError, Global};

/// The rows so far, each with `first` still unset, and a sort key for each row. The keys are stored
/// when the rows are added, because nothing may be allocated at the end of the input.
#[derive(Drop)]
pub(crate) struct Ledger {
    rows: Vec<AuditRow>,
    places: Vec<u64>,
}

impl Ledger {
    ghost use Rattle.iim_audit.specs.Steps.{HasRowsOf, HaveShortIds, ids_of, sort_keys_of};

    /// Creates an empty ledger.
    pub(crate) fn new(alloc: Global) -> Ledger
        ensures keeps { (now : ℤ) → HasRowsOf now result [] }
        ensures empty { result.rows.items ≡ [] }
        ensures none { result.places.items ≡ [] }
    {
        Ledger {
            rows: Vec::new(alloc),
            places: Vec::new(alloc),
        }
    }

    /// Returns the number of the next envelope, from 1.
    pub(crate) fn next_number(&self) -> u64
        ensures { result ≡ length self.now.rows.items + 1 }
    {
        self.rows.len() as u64 + 1
    }

    /// Appends the row of the next envelope. Returns an error if an allocation fails.
    pub(crate) fn add_row(
        &mut self,
        got: &EnvelopeParts<'_>,
        now: Timestamp,
    ) -> Result<(), AllocError>
        requires few { length self.old.rows.items < 2 ^ 32 }
        requires places { self.old.places.items ≡ sort_keys_of 0 (ids_of self.old.rows.items) }
        requires short { HaveShortIds self.old.rows.items }
        ensures keeps { OnOk result ((values : List Value) (v : Value) → HasRowsOf now.nanosecond self.old values
            → ArePartsOf got.now v → HasRowsOf now.nanosecond self.new (values ++ v ∷ [])) }
        ensures few { OnOk result (length (ids_of self.new.rows.items) ≤ 2 ^ 32) }
        ensures one { OnOk result (length self.new.rows.items ≡ length self.old.rows.items + 1) }
        ensures places { OnOk result (self.new.places.items ≡ sort_keys_of 0 (ids_of self.new.rows.items)) }
        ensures short { OnOk result (HaveShortIds self.new.rows.items) }
    {
        let index = self.rows.len() as u32;
        let row = row_of(got, now);
        self.places.push(sort_key_of(&row.id, index))?;
        self.rows.push(row)?;
        Ok(())
    }

    /// Returns the report of the rows, with `first` set in each row that repeats an earlier one.
    /// Allocates nothing.
    pub(crate) fn into_report(self) -> Report
        requires few { length (ids_of self.rows.items) ≤ 2 ^ 32 }
        requires places { self.places.items ≡ sort_keys_of 0 (ids_of self.rows.items) }
        requires short { HaveShortIds self.rows.items }
        ensures { (now : ℤ) (values : List Value) → HasRowsOf now self values → result ≡ report_of now values }
    {
        let Ledger {
            mut rows,
            mut places,
        } = self;
        set_repeats(&mut rows, &mut places);
        Report { rows }
    }
}
