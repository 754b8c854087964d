//! Borrowed envelopes.

use crate::id::EnvelopeId;
use crate::instants;
use crate::store::Store;
use crate::walk::FieldIter;
use iim_tables::records::ENVELOPE;
use jiff::Timestamp;
use jiff::civil::Date;
use std::marker::Model;

/// A borrowed view of the datasets of a complete record 1 and a complete record 2, each of them
/// valid. They belong to an [`Envelope`](crate::Envelope), or to an unpacker that has read a
/// complete envelope. Its model in contracts is the list of these datasets, in order. Fields
/// without a method here can be read by `first` and `fields`.
#[derive(Drop)]
pub struct EnvelopeRef<'a> {
    pub(crate) store: &'a Store,
}

impl<'a> Model for EnvelopeRef<'a> {
    ghost use Rattle.std.specs.Prelude.{List};
    ghost use Rattle.iim_dataset.specs.Format.Datasets.{Dataset};
    ghost use Rattle.iim_fields.specs.Steps.{IsEnvelopeStore};
    ghost use Rattle.iim_fields.specs.StoreLayout.{fields_of};

    ghost Value = { List Dataset };

    ghost view = { λ e. fields_of e.store.now };

    ghost invariant = { λ e. IsEnvelopeStore e.store.now };
}

impl<'a> EnvelopeRef<'a> {
    ghost use Rattle.std.specs.Prelude.{◌≡◌, ◌≤◌, List, [], ◌∷◌, length, is_some, Some, IsTrue, IsSomeAnd, IfSome, pos};
    ghost use Rattle.iim_dataset.specs.Format.Datasets.{Dataset};
    ghost use Rattle.std.specs.Option.{option_map};
    ghost use Rattle.jiff.specs.Words.{IsYmd};
    ghost use Rattle.iim_tables.specs.Format.Dates.{is_date, year_in, month_in, day_in};
    ghost use Rattle.iim_fields.specs.States.Walks.{rest_of};
    ghost use Rattle.iim_fields.specs.Format.Records.{IsEnvelope, first_data, instant_sent, instant_of_release, instant_of_expiration};
    ghost use Rattle.iim_fields.specs.States.Standing.{FitAnyLimits};
    ghost use Rattle.iim_tables.specs.Format.Rows.{OctetsMeetRow};

    /// Iterates over all datasets, in order: record, number and data of each.
    pub fn fields(&self) -> FieldIter<'a>
        ensures fields { rest_of result ≡ self.now }
        ensures envelope { IsEnvelope self.now }
        ensures few { FitAnyLimits self.now }
    {
        FieldIter {
            from: 0,
            entries: &self.store.entries,
            octets: self.store.octets.as_slice(),
        }
    }

    /// Returns the data of the first dataset with this record and number, which may be any. The
    /// data are valid for the dataset's row in the tables.
    pub fn first(&self, rec: u8, set: u8) -> Option<&'a [u8]>
        ensures data { option_map (λ x. x.now) result ≡ first_data rec set self.now }
        ensures meets { IfSome result (λ x. OctetsMeetRow rec set x.now) }
    {
        let mut fields = self.fields();
        while let Some((field_rec, field_set, octets)) = fields.next() {
            if field_rec == rec && field_set == set {
                return Some(octets);
            }
        }
        None
    }

    /// Returns the data of the first dataset with this record and number, which must be mandatory.
    pub(crate) fn mandatory(&self, rec: u8, set: u8) -> &'a [u8]
        requires { (ds : List Dataset) → IsEnvelope ds → IsTrue (is_some (first_data rec set ds)) }
        ensures data { first_data rec set self.now ≡ Some result.now }
        ensures meets { OctetsMeetRow rec set result.now }
    {
        // Reading a field makes the invariant of the type available to the proof.
        let _ = &self.store;
        self.first(rec, set).unwrap()
    }

    /// Returns 1:30 Service Identifier.
    pub fn service(&self) -> &'a [u8]
        ensures data { first_data 1 30 self.now ≡ Some result.now }
        ensures fits { length result.now ≤ 10 }
    {
        self.mandatory(ENVELOPE, 30)
    }

    /// Returns 1:40 Envelope Number: eight digits.
    pub fn number(&self) -> &'a [u8]
        ensures data { first_data 1 40 self.now ≡ Some result.now }
        ensures fits { length result.now ≡ 8 }
    {
        self.mandatory(ENVELOPE, 40)
    }

    /// Returns 1:70 Date Sent, as eight digits, CCYYMMDD.
    pub fn date_sent_text(&self) -> &'a [u8]
        ensures data { first_data 1 70 self.now ≡ Some result.now }
        ensures fits { length result.now ≡ 8 }
        ensures date { IsTrue (is_date result.now) }
    {
        self.mandatory(ENVELOPE, 70)
    }

    /// Returns the day of 1:70 Date Sent.
    pub fn date_sent(&self) -> Date
        ensures { IsSomeAnd (first_data 1 70 self.now)
            (λ date. IsYmd (pos (year_in date)) (pos (month_in date)) (pos (day_in date)) result) }
    {
        instants::date_sent(self)
    }

    /// Returns the instant of 1:70 Date Sent and 1:80 Time Sent: the local time minus its offset.
    /// Returns `None` if no time was sent, or if the instant is out of range for `jiff`, whose last
    /// instant is 9999-12-30T22:00:00.999999999Z.
    pub fn sent(&self) -> Option<Timestamp>
        ensures { option_map (λ t. t.nanosecond) result ≡ instant_sent self.now }
    {
        instants::sent(self)
    }

    /// Returns the first instant at which the copy may be used: 2:30 Release Date and 2:35 Release
    /// Time, as local time minus its offset, or the beginning of that day in universal time if no
    /// time was sent. Returns `None` if no date was sent, or if the instant is out of range for
    /// `jiff`.
    pub fn release(&self) -> Option<Timestamp>
        ensures { option_map (λ t. t.nanosecond) result ≡ instant_of_release self.now }
    {
        instants::release(self)
    }

    /// Returns the last instant at which the copy may be used: 2:37 Expiration Date and 2:38
    /// Expiration Time, as local time minus its offset, or the last second of that day in universal
    /// time if no time was sent. Returns `None` if no date was sent, or if the instant is out of
    /// range for `jiff`.
    pub fn expires(&self) -> Option<Timestamp>
        ensures { option_map (λ t. t.nanosecond) result ≡ instant_of_expiration self.now }
    {
        instants::expires(self)
    }

    /// Returns the identity of the envelope: 1:30 Service Identifier, 1:40 Envelope Number and 1:70
    /// Date Sent.
    pub fn id(&self) -> EnvelopeId
        ensures service { first_data 1 30 self.now ≡ Some result.service }
        ensures number { first_data 1 40 self.now ≡ Some result.number }
        ensures date_sent { first_data 1 70 self.now ≡ Some result.date_sent }
    {
        EnvelopeId::new(self.service(), self.number(), self.date_sent_text())
    }

    /// Returns the digit of 1:60 Envelope Priority, if it was sent: `1` is most urgent, `5` normal,
    /// `8` least urgent.
    pub fn priority(&self) -> Option<u8>
        ensures { option_map (λ digit. digit ∷ []) result ≡ first_data 1 60 self.now }
    {
        self.first(ENVELOPE, 60)?.first().copied()
    }
}
