//! Envelopes: the datasets of records 1 and 2, with a method for each field.

use crate::envelope_ref::EnvelopeRef;
use crate::id::EnvelopeId;
use crate::instants;
use crate::store::Store;
use crate::walk::{DataIter, FieldIter};
use iim_tables::records::{APPLICATION, ENVELOPE};
use jiff::Timestamp;
use jiff::civil::Date;
use std::marker::Model;

/// The datasets of a complete record 1 and a complete record 2, each of them valid. Its model in
/// contracts is the list of these datasets, in order.
#[derive(Drop)]
pub struct Envelope {
    pub(crate) store: Store,
}

impl Model for Envelope {
    ghost use Rattle.std.specs.Prelude.{List};
    ghost use Rattle.iim_dataset.specs.Format.Datasets.{Dataset};
    ghost use Rattle.iim_fields.specs.Steps.{IsEnvelopeStore};
    ghost use Rattle.iim_fields.specs.StoreLayout.{fields_of};

    ghost Value = { List Dataset };

    ghost view = { λ e. fields_of e.store };

    ghost invariant = { λ e. IsEnvelopeStore e.store };
}

impl Envelope {
    ghost use Rattle.std.specs.Prelude.{◌≡◌, ◌≤◌, List, [], ◌∷◌, length, is_some, Some, ◌↔◌, IsTrue, IsSomeAnd, IfSome, pos};
    ghost use Rattle.iim_dataset.specs.Format.Datasets.{Dataset};
    ghost use Rattle.std.specs.Option.{option_map};
    ghost use Rattle.jiff.specs.Words.{IsYmd};
    ghost use Rattle.iim_tables.specs.Format.Dates.{is_date, year_in, month_in, day_in};
    ghost use Rattle.iim_fields.specs.States.Walks.{rest_of, data_left};
    ghost use Rattle.iim_fields.specs.Format.Records.{IsEnvelope, first_data, all_data, instant_sent, instant_of_release, instant_of_expiration};
    ghost use Rattle.iim_fields.specs.States.Standing.{FitAnyLimits};
    ghost use Rattle.iim_fields.specs.Format.Causes.{joined};
    ghost use Rattle.iim_tables.specs.Format.Rows.{OctetsMeetRow};

    /// Returns a borrowed view of the envelope.
    pub fn borrowed(&self) -> EnvelopeRef<'_>
        ensures { result ≡ self.now }
    {
        EnvelopeRef { store: &self.store }
    }

    /// Returns the total number of octets of the datasets, and the number of datasets.
    pub(crate) fn totals(&self) -> (u64, u64)
        ensures { result ≡ (length (joined self.now), length self.now) }
    {
        let octets = self.store.octets.len() as u64;
        (octets, self.store.entries.len() as u64)
    }

    /// Iterates over all datasets, in order: record, number and data of each.
    pub fn fields(&self) -> FieldIter<'_>
        ensures fields { rest_of result ≡ self.now }
        ensures envelope { IsEnvelope self.now }
        ensures few { FitAnyLimits self.now }
    {
        self.borrowed().fields()
    }

    /// Returns the data of the first dataset with this record and number, which may be any. The
    /// data are valid for the dataset's row in the tables.
    pub fn first(&self, rec: u8, set: u8) -> Option<&[u8]>
        ensures data { option_map (λ x. x.now) result ≡ first_data rec set self.now }
        ensures meets { IfSome result (λ x. OctetsMeetRow rec set x.now) }
    {
        self.borrowed().first(rec, set)
    }

    /// Iterates over the data of each dataset with this record and number, in order.
    pub fn all(&self, rec: u8, set: u8) -> DataIter<'_>
        ensures { data_left result ≡ all_data rec set self.now }
    {
        DataIter {
            fields: self.fields(),
            rec,
            set,
        }
    }

    /// Returns the data of the first dataset with this record and number, which must be mandatory.
    fn mandatory(&self, rec: u8, set: u8) -> &[u8]
        requires { (ds : List Dataset) → IsEnvelope ds → IsTrue (is_some (first_data rec set ds)) }
        ensures data { first_data rec set self.now ≡ Some result.now }
        ensures meets { OctetsMeetRow rec set result.now }
    {
        self.borrowed().mandatory(rec, set)
    }

    /// Returns 1:30 Service Identifier.
    pub fn service(&self) -> &[u8]
        ensures data { first_data 1 30 self.now ≡ Some result.now }
        ensures fits { length result.now ≤ 10 }
    {
        self.borrowed().service()
    }

    /// Returns 1:40 Envelope Number: eight digits.
    pub fn number(&self) -> &[u8]
        ensures data { first_data 1 40 self.now ≡ Some result.now }
        ensures fits { length result.now ≡ 8 }
    {
        self.borrowed().number()
    }

    /// Returns 1:70 Date Sent, as eight digits, CCYYMMDD.
    pub fn date_sent_text(&self) -> &[u8]
        ensures data { first_data 1 70 self.now ≡ Some result.now }
        ensures fits { length result.now ≡ 8 }
        ensures date { IsTrue (is_date result.now) }
    {
        self.borrowed().date_sent_text()
    }

    /// Returns the day of 1:70 Date Sent.
    pub fn date_sent(&self) -> Date
        ensures { IsSomeAnd (first_data 1 70 self.now)
            (λ date. IsYmd (pos (year_in date)) (pos (month_in date)) (pos (day_in date)) result) }
    {
        instants::date_sent(&self.borrowed())
    }

    /// Returns the instant of 1:70 Date Sent and 1:80 Time Sent: the local time minus its offset.
    /// Returns `None` if no time was sent, or if the instant is out of range for `jiff`, whose last
    /// instant is 9999-12-30T22:00:00.999999999Z.
    pub fn sent(&self) -> Option<Timestamp>
        ensures { option_map (λ t. t.nanosecond) result ≡ instant_sent self.now }
    {
        instants::sent(&self.borrowed())
    }

    /// Returns the first instant at which the copy may be used: 2:30 Release Date and 2:35 Release
    /// Time, as local time minus its offset, or the beginning of that day in universal time if no
    /// time was sent. Returns `None` if no date was sent, or if the instant is out of range for
    /// `jiff`.
    pub fn release(&self) -> Option<Timestamp>
        ensures { option_map (λ t. t.nanosecond) result ≡ instant_of_release self.now }
    {
        instants::release(&self.borrowed())
    }

    /// Returns the last instant at which the copy may be used: 2:37 Expiration Date and 2:38
    /// Expiration Time, as local time minus its offset, or the last second of that day in universal
    /// time if no time was sent. Returns `None` if no date was sent, or if the instant is out of
    /// range for `jiff`.
    pub fn expires(&self) -> Option<Timestamp>
        ensures { option_map (λ t. t.nanosecond) result ≡ instant_of_expiration self.now }
    {
        instants::expires(&self.borrowed())
    }

    /// Returns the identity of the envelope: 1:30 Service Identifier, 1:40 Envelope Number and 1:70
    /// Date Sent.
    pub fn id(&self) -> EnvelopeId
        ensures service { first_data 1 30 self.now ≡ Some result.service }
        ensures number { first_data 1 40 self.now ≡ Some result.number }
        ensures date_sent { first_data 1 70 self.now ≡ Some result.date_sent }
    {
        self.borrowed().id()
    }

    /// Returns 1:00 Model Version.
    pub fn model_version(&self) -> &[u8]
        ensures { first_data 1 0 self.now ≡ Some result.now }
    {
        self.mandatory(ENVELOPE, 0)
    }

    /// Returns 1:22 File Format Version.
    pub fn format_version(&self) -> &[u8]
        ensures { first_data 1 22 self.now ≡ Some result.now }
    {
        self.mandatory(ENVELOPE, 22)
    }

    /// Returns 2:00 Record Version.
    pub fn record_version(&self) -> &[u8]
        ensures { first_data 2 0 self.now ≡ Some result.now }
    {
        self.mandatory(APPLICATION, 0)
    }

    /// Returns the digit of 1:60 Envelope Priority, if it was sent: `1` is most urgent, `5` normal,
    /// `8` least urgent.
    pub fn priority(&self) -> Option<u8>
        ensures { option_map (λ digit. digit ∷ []) result ≡ first_data 1 60 self.now }
    {
        self.borrowed().priority()
    }

    /// Returns 1:80 Time Sent, if it was sent.
    pub fn time_sent(&self) -> Option<&[u8]>
        ensures { option_map (λ x. x.now) result ≡ first_data 1 80 self.now }
    {
        self.first(ENVELOPE, 80)
    }

    /// Returns 2:05 Object Name, if it was sent.
    pub fn object_name(&self) -> Option<&[u8]>
        ensures { option_map (λ x. x.now) result ≡ first_data 2 5 self.now }
    {
        self.first(APPLICATION, 5)
    }

    /// Returns 2:10 Urgency, if it was sent.
    pub fn urgency(&self) -> Option<&[u8]>
        ensures { option_map (λ x. x.now) result ≡ first_data 2 10 self.now }
    {
        self.first(APPLICATION, 10)
    }

    /// Returns 2:15 Category, if it was sent.
    pub fn category(&self) -> Option<&[u8]>
        ensures { option_map (λ x. x.now) result ≡ first_data 2 15 self.now }
    {
        self.first(APPLICATION, 15)
    }

    /// Returns 2:105 Headline, if it was sent.
    pub fn headline(&self) -> Option<&[u8]>
        ensures { option_map (λ x. x.now) result ≡ first_data 2 105 self.now }
    {
        self.first(APPLICATION, 105)
    }

    /// Iterates over each 1:05 Destination, in order.
    pub fn destinations(&self) -> DataIter<'_>
        ensures { data_left result ≡ all_data 1 5 self.now }
    {
        self.all(ENVELOPE, 5)
    }

    /// Iterates over each 1:50 Product I.D., in order.
    pub fn products(&self) -> DataIter<'_>
        ensures { data_left result ≡ all_data 1 50 self.now }
    {
        self.all(ENVELOPE, 50)
    }

    /// Iterates over each 2:20 Supplemental Category, in order.
    pub fn supplementals(&self) -> DataIter<'_>
        ensures { data_left result ≡ all_data 2 20 self.now }
    {
        self.all(APPLICATION, 20)
    }

    /// Iterates over each 2:25 Keywords, in order.
    pub fn keywords(&self) -> DataIter<'_>
        ensures { data_left result ≡ all_data 2 25 self.now }
    {
        self.all(APPLICATION, 25)
    }

    /// Iterates over each 2:80 By-line, in order.
    pub fn bylines(&self) -> DataIter<'_>
        ensures { data_left result ≡ all_data 2 80 self.now }
    {
        self.all(APPLICATION, 80)
    }

    /// Iterates over each 2:85 By-line Title, in order.
    pub fn byline_titles(&self) -> DataIter<'_>
        ensures { data_left result ≡ all_data 2 85 self.now }
    {
        self.all(APPLICATION, 85)
    }

    /// Iterates over each 2:122 Writer/Editor, in order.
    pub fn writers(&self) -> DataIter<'_>
        ensures { data_left result ≡ all_data 2 122 self.now }
    {
        self.all(APPLICATION, 122)
    }

    /// Checks whether both envelopes have the same datasets in the same order.
    pub fn same(&self, other: &Envelope) -> bool
        ensures { IsTrue result ↔ (self.now ≡ other.now) }
    {
        self.store.octets.as_slice() == other.store.octets.as_slice()
            && self.store.entries == other.store.entries
    }
}
