//! The identity of an envelope.

ghost use Rattle.std.specs.Prelude.{◌≡◌, ◌≤◌, ◌↔◌, length, take, IsTrue, refl};
ghost use Rattle.std.specs.Ordering.{as_partial_cmp};
ghost use Rattle.iim_fields.specs.Format.Records.{id_eq, id_cmp};
ghost use Rattle.iim_fields.specs.Steps.{id_equivalence, id_total, id_ties};
ghost use Rattle.std.specs.Cmp.{partial_equiv_from_equiv, po};

use std::cmp::Ordering;
use std::marker::Model;

/// The greatest length of a service in octets.
const MAX_SERVICE: usize = 10;

/// The identity of an envelope: the service that sent it, its number, and the date on which it was
/// sent. According to the standard, a service sends each number at most once on a date. The type
/// does not allocate.
///
/// Identities are ordered by service, then by number, then by date, each compared octet by octet.
/// If one service is a prefix of the other, the shorter one is less.
///
/// Its model in contracts is these three texts.
#[derive(Clone, Debug, Drop)]
pub struct EnvelopeId {
    number: [u8; 8],
    date_sent: [u8; 8],
    // The service, padded with zeros.
    service: [u8; MAX_SERVICE],
    service_len: u8,
}

impl Model for EnvelopeId {
    ghost use Rattle.std.specs.Prelude.{◌≤◌, take};
    ghost use Rattle.iim_fields.specs.Format.Records.{Identity};

    ghost Value = { Identity };

    ghost view = { λ id. record
        { service = take id.service_len id.service; number = id.number; date_sent = id.date_sent } };

    ghost invariant = { λ id. id.service_len ≤ 10 };
}

/// Pads octets with zeros up to the length of the array.
fn filled<const ROOM: usize>(octets: &[u8]) -> [u8; ROOM]
    requires { length octets.now ≤ ROOM }
    ensures { take (length octets.now) result ≡ octets.now }
{
    let mut filled = [0; ROOM];
    filled[..octets.len()].copy_from_slice(octets);
    filled
}

impl EnvelopeId {
    /// Creates the identity from these data, whose lengths are within the bounds of their rows in
    /// the tables.
    pub(crate) fn new(service: &[u8], number: &[u8], date_sent: &[u8]) -> EnvelopeId
        requires service { length service.now ≤ 10 }
        requires number { length number.now ≡ 8 }
        requires date_sent { length date_sent.now ≡ 8 }
        ensures { result ≡ record { service = service.now; number = number.now; date_sent = date_sent.now } }
    {
        EnvelopeId {
            number: filled(number),
            date_sent: filled(date_sent),
            service: filled(service),
            service_len: service.len() as u8,
        }
    }

    /// Returns 1:30 Service Identifier.
    pub fn service(&self) -> &[u8]
        ensures { result.now ≡ self.now.service }
    {
        &self.service[..usize::from(self.service_len)]
    }

    /// Returns 1:40 Envelope Number: eight digits.
    pub fn number(&self) -> &[u8]
        ensures { result.now ≡ self.now.number }
    {
        &self.number
    }

    /// Returns 1:70 Date Sent, as eight digits, CCYYMMDD.
    pub fn date_sent(&self) -> &[u8]
        ensures { result.now ≡ self.now.date_sent }
    {
        &self.date_sent
    }
}

impl PartialEq for EnvelopeId {
    ghost eq = { id_eq };

    ghost laws = { partial_equiv_from_equiv id_equivalence };

    fn eq(&self, other: &EnvelopeId) -> bool
        ensures value { result ≡ id_eq self.now other.now }
        ensures same { IsTrue result ↔ (self.now ≡ other.now) }
    {
        self.service() == other.service()
            && self.number() == other.number()
            && self.date_sent() == other.date_sent()
    }
}

impl Eq for EnvelopeId {
    ghost laws = { id_equivalence };
}

impl PartialOrd for EnvelopeId {
    ghost partial_cmp = { as_partial_cmp id_cmp };

    ghost laws = { po id_total id_ties };

    fn partial_cmp(&self, other: &EnvelopeId) -> Option<Ordering> {
        Some(self.cmp(other))
    }
}

impl Ord for EnvelopeId {
    ghost cmp = { id_cmp };

    ghost total = { id_total };

    ghost matches_partial_cmp = { λ a b. refl };

    ghost matches_eq = { id_ties };

    fn cmp(&self, other: &EnvelopeId) -> Ordering {
        self.service()
            .cmp(&other.service())
            .then_with(|| self.number().cmp(&other.number()))
            .then_with(|| self.date_sent().cmp(&other.date_sent()))
    }
}
