//! The order of the records of an envelope, and the mandatory datasets of each.

ghost use Rattle.std.specs.Prelude.{◌≡◌, ◌∷◌, [], MatchOption};
ghost use Rattle.iim_fields.specs.Format.Records.{after};
ghost use Rattle.iim_tables.specs.Format.Records.{mandatory};
ghost use Rattle.iim_fields.specs.Format.Causes.{is_kept};

use iim_tables::records::{APPLICATION, ENVELOPE, OBJECT, POST_OBJECT, PRE_OBJECT};

/// Returns the numbers of the mandatory datasets of a record, lowest first.
#[inline(always)]
pub(crate) fn mandatory(rec: u8) -> &'static [u8]
    ensures { result.now ≡ mandatory rec }
{
    match rec {
        ENVELOPE => &[0, 20, 22, 30, 40, 70],
        APPLICATION => &[0],
        PRE_OBJECT => &[10, 20],
        OBJECT | POST_OBJECT => &[10],
        _ => &[],
    }
}

/// Returns the record that follows this one. Record 1 follows 0, which stands for the beginning of
/// an envelope (fixed).
#[inline(always)]
pub(crate) fn next_record(rec: u8) -> Option<u8>
    ensures { MatchOption result (after rec ≡ []) (λ next. after rec ≡ next ∷ after next) }
{
    match rec {
        0 => Some(ENVELOPE),
        ENVELOPE => Some(APPLICATION),
        APPLICATION => Some(PRE_OBJECT),
        PRE_OBJECT => Some(OBJECT),
        OBJECT => Some(POST_OBJECT),
        _ => None,
    }
}

/// Checks whether an `Envelope` stores the datasets of this record, which is so for records 1 and
/// 2.
#[inline(always)]
pub fn is_kept(rec: u8) -> bool
    ensures { result ≡ is_kept rec }
{
    rec == ENVELOPE || rec == APPLICATION
}
