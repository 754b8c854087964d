//! Rows of an audit, for C.

ghost use Rattle.std.specs.Prelude.{◌≡◌, ◌≤◌, length};
ghost use Rattle.iim_audit.specs.Steps.{IsShort};
ghost use Rattle.std.specs.Option.{option_map};
ghost use Rattle.iim_c.specs.Format.Auditing.{IsRowFor, copy_number, padded};

use crate::instant::{IimInstant, optional_instant};
use iim_audit::{CopyState, PieceRow};

/// The copy may be used.
pub const FREE: u8 = 0;

/// The release of the copy is later than the instant of the audit.
pub const HELD: u8 = 1;

/// The expiration of the copy is earlier than the instant of the audit.
pub const EXPIRED: u8 = 2;

/// The columns of the audit report for one envelope. Fields that are not mentioned are zero.
#[repr(C)]
#[derive(Clone, Copy)]
pub struct IimAuditRow {
    /// The offset in the input of the first octet of the envelope.
    pub at: u64,
    /// The length of the envelope in octets.
    pub octets: u64,
    /// The number of octets of the object.
    pub size: u64,
    /// The number of subfiles of the object.
    pub subfiles: u64,
    /// The number of words that the header of the message announces.
    pub announced: u64,
    /// The number of words of the story.
    pub counted: u64,
    /// The number of whole seconds since the envelope was sent, rounded down; negative if that is
    /// in the future.
    pub age: i64,
    /// The first instant at which the copy may be used.
    pub release: IimInstant,
    /// The last instant at which the copy may be used.
    pub expires: IimInstant,
    /// Whether the envelope states the instant at which it was sent.
    pub has_age: bool,
    /// Whether the envelope states a release.
    pub has_release: bool,
    /// Whether the envelope states an expiration.
    pub has_expires: bool,
    /// Whether the copy may be used: [`FREE`], [`HELD`] or [`EXPIRED`].
    pub copy: u8,
    /// The digit of 1:60 as an ASCII octet, or 0 if the envelope has no 1:60.
    pub priority: u8,
    /// The length of 1:30 Service Identifier in octets.
    pub service_octets: u8,
    /// 1:30 Service Identifier, padded with zeros.
    pub service: [u8; 10],
    /// 1:40 Envelope Number, eight digits.
    pub number: [u8; 8],
    /// 1:70 Date Sent, eight digits.
    pub date_sent: [u8; 8],
}

/// Pads octets with zeros up to the length of the array.
fn padded<const ROOM: usize>(octets: &[u8]) -> [u8; ROOM]
    requires { length octets.now ≤ ROOM }
    ensures { result ≡ padded ROOM octets.now }
{
    let mut padded = [0; ROOM];
    padded[..octets.len()].copy_from_slice(octets);
    padded
}

/// Returns the number of a copy state.
fn copy_number(copy: CopyState) -> u8
    ensures { result ≡ copy_number copy }
{
    match copy {
        CopyState::Free => FREE,
        CopyState::Held => HELD,
        CopyState::Expired => EXPIRED,
    }
}

/// Converts the row of an envelope to its form for C. The envelope begins at the offset `at` of the
/// input.
pub(crate) fn row_for(at: u64, found: &PieceRow) -> IimAuditRow
    requires { IsShort found.now.row.id }
    ensures { IsRowFor at found.now.octets found.now.row (option_map (λ t. t.nanosecond) found.now.release)
        (option_map (λ t. t.nanosecond) found.now.expires) result }
{
    let row = &found.row;
    let (has_release, release) = optional_instant(found.release);
    let (has_expires, expires) = optional_instant(found.expires);
    IimAuditRow {
        at,
        octets: found.octets,
        size: row.size,
        subfiles: row.subfiles,
        announced: row.announced,
        counted: row.counted,
        age: row.age.unwrap_or(0),
        release,
        expires,
        has_age: row.age.is_some(),
        has_release,
        has_expires,
        copy: copy_number(row.copy),
        priority: row.priority.unwrap_or(0),
        service_octets: row.id.service().len() as u8,
        service: padded(row.id.service()),
        number: padded(row.id.number()),
        date_sent: padded(row.id.date_sent()),
    }
}
