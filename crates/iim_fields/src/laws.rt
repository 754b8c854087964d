//! Lemmas about the datasets of an envelope, and about the limits of wire copy.

ghost use Rattle.std.specs.Prelude.{◌≡◌};
ghost use Rattle.iim_fields.specs.Format.Records.{wire_limits};
ghost use Rattle.iim_fields.specs.Laws.{RecordLaws};

use crate::limits::Limits;
use iim_tables::laws::each_row_has_values;

/// Proves the lemmas about the datasets of an envelope. The record has a field for each lemma.
pub fn record_laws()
    ensures { RecordLaws }
{
    each_row_has_values();
}

/// Proves that [`Limits::WIRE`] allows 65,536 octets in 512 datasets.
pub fn wire_limits_are_stated()
    ensures { Limits.WIRE ≡ wire_limits }
{}
