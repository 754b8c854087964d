//! A builder of envelopes, dataset by dataset.

ghost use Rattle.std.specs.Prelude.{◌≡◌, [], ◌∷◌, ◌++◌, Some, None, IfOk, IfErr, OnOk, OnErr};
ghost use Rattle.iim_fields.specs.States.Standing.{added_field_fault, missing_field_fault, limit_exceeded_by, IsCopyFault, room_for};

use crate::check::RecordCheck;
use crate::envelope::Envelope;
use crate::fault::{CopyFault, FieldCause, FieldFault};
use crate::fields::room_fault;
use crate::laws::record_laws;
use crate::limits::Limits;
use crate::order::fault_on;
use crate::records::is_kept;
use crate::store::Store;
use iim_dataset::Head;
use iim_tables::laws::each_row_has_values;
use std::alloc::{AllocError, Global};
use std::marker::Model;

/// A builder of an envelope, which stores the datasets so far. Its model in contracts is its
/// limits, the list of datasets, and its capacity, which never changes.
#[derive(Drop)]
pub struct EnvelopeBuilder {
    check: RecordCheck,
    limits: Limits,
    store: Store,
}

impl Model for EnvelopeBuilder {
    ghost use Rattle.iim_fields.specs.States.Standing.{BuilderView};
    ghost use Rattle.iim_fields.specs.Steps.{IsBuilderState};
    ghost use Rattle.iim_fields.specs.StoreLayout.{fields_of, store_room};

    ghost Value = { BuilderView };

    ghost view = { λ b. record
        { limits = b.limits; fields = fields_of b.store; room = store_room b.store } };

    ghost invariant = { λ b. IsBuilderState b.check b.limits b.store };
}

impl EnvelopeBuilder {
    /// Creates a builder without datasets. Allocates memory for exactly what the limits allow; no
    /// later call allocates.
    ///
    /// **Errors:** the allocation fails.
    pub fn new(alloc: Global, limits: Limits) -> Result<EnvelopeBuilder, AllocError>
        ensures empty { IfOk result (λ builder. builder
            ≡ record { limits = limits; fields = []; room = room_for limits }) }
    {
        let store = Store::new(alloc, limits.octets as usize, limits.fields as usize)?;
        Ok(EnvelopeBuilder {
            check: RecordCheck::new(),
            limits,
            store,
        })
    }

    /// Creates a builder that contains the datasets of an envelope, and to which further datasets
    /// of record 2 can be added. Allocates memory for exactly what the limits allow. The limits may
    /// differ from those under which the envelope was read.
    ///
    /// **Errors:** the envelope exceeds the limits, or the allocation fails.
    pub fn from(
        alloc: Global,
        limits: Limits,
        envelope: &Envelope,
    ) -> Result<EnvelopeBuilder, CopyFault>
        ensures copied { IfOk result (λ builder. builder
            ≡ record { limits = limits; fields = envelope.now; room = room_for limits }) }
        ensures within { OnOk result (limit_exceeded_by limits envelope.now ≡ None) }
        ensures refused { IfErr result (λ fault. IsCopyFault limits envelope.now fault) }
    {
        record_laws();
        let (octets, fields) = envelope.totals();
        if let Some(cause) = limits.passed(octets, fields) {
            return Err(CopyFault::Passed(cause));
        }
        let mut builder = EnvelopeBuilder::new(alloc, limits)?;
        let mut rest = envelope.fields();
        while let Some((rec, set, octets)) = rest.next() {
            builder.add(rec, set, octets).unwrap();
        }
        Ok(builder)
    }

    /// Adds a dataset.
    ///
    /// **Errors:** the first fault of the head after the datasets so far, or otherwise the fault of
    /// the value. The builder is unchanged. A dataset of a record other than 1 and 2 is out of
    /// order.
    pub fn add(&mut self, rec: u8, set: u8, octets: &[u8]) -> Result<(), FieldFault>
        ensures admitted { OnOk result (added_field_fault self.old.limits self.old.fields record
            { rec = rec; set = set; octets = octets.now } ≡ None) }
        ensures added { OnOk result (self.new
            ≡ record self.old {
              fields = self.old.fields ++ record { rec = rec; set = set; octets = octets.now }
                  ∷ [];
            }) }
        ensures fault { IfErr result (λ fault.
            added_field_fault self.old.limits self.old.fields record { rec = rec; set = set; octets = octets.now }
            ≡ Some fault) }
        ensures unchanged { OnErr result (self.new ≡ self.old) }
    {
        let head = Head {
            rec,
            set,
            count: octets.len() as u64,
        };
        if !is_kept(rec) {
            return Err(fault_on(head, FieldCause::RecordOrder));
        }
        let mut check = self.check.copied();
        check.head(head)?;
        let kept = self.store.octets.len();
        if let Some(fault) = room_fault(self.limits, kept, self.store.entries.len(), head) {
            return Err(fault);
        }
        check.value(octets)?;
        self.check = check;
        self.store.take(octets);
        self.store.keep(rec, set);
        Ok(())
    }

    /// Returns the envelope if no mandatory dataset is missing.
    ///
    /// **Errors:** the unchanged builder, and the first missing dataset, of record 1 or otherwise
    /// of record 2.
    pub fn finish(self) -> Result<Envelope, (EnvelopeBuilder, FieldFault)>
        ensures whole { OnOk result (missing_field_fault self.fields ≡ None) }
        ensures envelope { IfOk result (λ envelope. envelope ≡ self.fields) }
        ensures fault { IfErr result (λ refused. missing_field_fault self.fields ≡ Some refused.1) }
        ensures unchanged { IfErr result (λ refused. refused.0 ≡ self) }
    {
        each_row_has_values();
        match self.check.end_fault() {
            Some(fault) => Err((self, fault)),
            None => {
                let store = self.store;
                Ok(Envelope { store })
            }
        }
    }
}
