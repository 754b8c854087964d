//! Rows of a report.

ghost use Rattle.std.specs.Prelude.{◌≡◌, ◌<◌, None};
ghost use Rattle.std.specs.Str.Parse.{digits_value};
ghost use Rattle.wire_message.specs.Format.Messages.{IsField, max_words};
ghost use Rattle.iim_dataset.specs.Format.Octets.{is_digit};
ghost use Rattle.iim_places.specs.Format.Admitted.{Value};
ghost use Rattle.iim_audit.specs.Steps.{IsShort, ArePartsOf};
ghost use Rattle.iim_audit.specs.Format.{row_with_first_of};

use crate::age::age_at;
use crate::copy::{CopyState, copy_at};
use iim_fields::EnvelopeId;
use iim_unpack::UnpackedRef;
use jiff::Timestamp;

/// The values of one envelope in a report.
#[derive(Debug, Drop)]
pub struct AuditRow {
    /// The identity of the envelope: service, number and date sent.
    pub id: EnvelopeId,
    /// The number of octets of the object.
    pub size: u64,
    /// The number of subfiles of the object.
    pub subfiles: u64,
    /// The number of words of the story. A word is a longest span, within one line, of octets other
    /// than SP and TAB.
    pub counted: u64,
    /// The number of whole seconds since the envelope was sent, which is negative if that is in the
    /// future, or `None` if the envelope states no such instant.
    pub age: Option<i64>,
    /// The number of words that the header of the message announces.
    pub announced: u64,
    /// The number of the first envelope with the same id, if that envelope is earlier.
    pub first: Option<u64>,
    /// The digit of 1:60 Envelope Priority, as an ASCII octet, if the envelope has one.
    pub priority: Option<u8>,
    /// Whether the copy may be used at the instant of the audit.
    pub copy: CopyState,
}

/// The values from which a row is computed: borrowed parts of an unpacked envelope, and the number
/// of words of its story.
#[derive(Drop)]
pub(crate) struct EnvelopeParts<'u> {
    pub(crate) unpacked: UnpackedRef<'u>,
    pub(crate) words: u64,
}

/// Parses a number of one to six digits.
fn number_of(digits: &[u8]) -> u64
    requires { IsField is_digit 1 max_words digits.now }
    ensures value { result ≡ digits_value 10 digits.now }
    ensures small { result < 1000000 }
{
    let mut number = 0;
    for digit in digits {
        number = 10 * number + u64::from(*digit - b'0');
    }
    number
}

/// Computes the row of an envelope, with `first` unset.
pub(crate) fn row_of(got: &EnvelopeParts<'_>, now: Timestamp) -> AuditRow
    ensures row { (v : Value) → ArePartsOf got.now v → result ≡ row_with_first_of now.nanosecond v None }
    ensures short { IsShort result.id }
{
    let unpacked = &got.unpacked;
    AuditRow {
        id: unpacked.envelope.id(),
        size: unpacked.sizes.total,
        subfiles: unpacked.sizes.subfiles,
        counted: got.words,
        age: age_at(&unpacked.envelope, now),
        announced: number_of(unpacked.head.words()),
        first: None,
        priority: unpacked.envelope.priority(),
        copy: copy_at(&unpacked.envelope, now),
    }
}
