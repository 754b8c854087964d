//! Finds the envelopes that end in a chunk.

ghost use Rattle.std.specs.Prelude.{◌≡◌, ◌≤◌, ◌<◌, ℕ, List, length, drop, None, OnErr};
ghost use Rattle.iim_audit.specs.Format.{AuditHasConsumed};
ghost use Rattle.iim_unpack.specs.States.Unpacking.{limits_in};
ghost use Rattle.iim_c.specs.Steps.{HasFound, IsWithinChunk, EndsSearchBy};

use crate::row::{IimAuditRow, row_for};
use iim_audit::PieceAudit;
use iim_unpack::Refusal;
use jiff::Timestamp;

/// The rows that were found in a chunk.
#[derive(Clone, Copy)]
pub(crate) struct Found {
    /// The number of rows.
    pub(crate) rows: usize,
    /// The number of octets of the chunk that belong to the envelopes of these rows.
    pub(crate) used: usize,
    /// The offset in the input at which the next envelope begins.
    pub(crate) at: u64,
}

/// The reason why the search for rows ended.
#[derive(Clone, Copy)]
pub(crate) enum Ending {
    /// All octets of the chunk were consumed.
    Used,
    /// The array of rows is full.
    Full,
    /// An octet was rejected.
    Refused(Refusal),
}

/// Writes a row for each envelope that ends in a chunk, until `rows` is full. `at` is the offset in
/// the input of the first octet of the current envelope.
pub(crate) fn find_rows(
    audit: &mut PieceAudit,
    at: u64,
    piece: &[u8],
    now: Timestamp,
    rows: &mut [IimAuditRow],
) -> (Found, Ending)
    requires { audit.old.unpacker.refused ≡ None }
    ensures found { (p : List ℕ) (a : ℕ) → AuditHasConsumed audit.old p a
        → HasFound (limits_in audit.old.unpacker) now.nanosecond (record { at = at; octets = p; count = a })
        piece.now rows.new audit.new result.0 result.1 }
    ensures within { IsWithinChunk piece.now rows.old rows.new result.0 }
    ensures lives { EndsSearchBy audit.old audit.new result.0.rows (length rows.old) result.1 }
{
    let mut found = Found {
        rows: 0,
        used: 0,
        at,
    };
    'envelopes: while found.rows < rows.len() {
        match audit.next_row(&piece[found.used..], now) {
            Ok(Some(next)) => {
                rows[found.rows] = row_for(found.at, &next);
                found = Found {
                    rows: found.rows + 1,
                    used: found.used + next.used,
                    at: found.at.saturating_add(next.octets),
                };
            }
            Ok(None) => return (found, Ending::Used),
            Err(refusal) => return (found, Ending::Refused(refusal)),
        }
    }
    (found, Ending::Full)
}
