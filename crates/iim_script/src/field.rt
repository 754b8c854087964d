//! Parses lines that specify a dataset.

ghost use Rattle.std.specs.Prelude.{◌≡◌, ◌⊎◌, not, ℕ, List, [], ◌∷◌, ◌++◌, None, IfErr, OnOk, OnErr, IfSome, IfNone};
ghost use Rattle.std.specs.List.{position_or_len};
ghost use Rattle.iim_script.specs.Format.Scripts.{BeginsWithName, DescribesField, DescribesHead};
ghost use Rattle.iim_dataset.specs.Format.Datasets.{Dataset};
ghost use Rattle.iim_dataset.specs.Format.Octets.{is_digit};
ghost use Rattle.iim_fields.specs.States.Standing.{added_field_fault};
ghost use Rattle.iim_script.specs.Format.Causes.{InFields, HasNoForm, IsBadLine};

use crate::fault::ScriptCause;
use crate::line::split_on;
use crate::number::{is_decimal, number};
use crate::shown::read_last;
use iim_fields::EnvelopeBuilder;
use std::alloc::Global;

/// Returns the number of digits at the start of the octets.
fn digits(octets: &[u8]) -> usize
    ensures { result ≡ position_or_len (λ b. not (is_digit b)) octets.now }
{
    for (at, octet) in octets.iter().enumerate() {
        if !is_decimal(*octet) {
            return at;
        }
    }
    octets.len()
}

/// Parses the record and the number at the start of a line `R:D`. Returns them and the rest of the
/// line, or `None` if the line has another form.
fn names(line: &[u8]) -> Option<(u8, u8, &[u8])>
    ensures some { IfSome result (λ names. BeginsWithName line.now names.0 names.1 names.2.now) }
    ensures none { IfNone result ((rec set : ℕ) (end : List ℕ) → BeginsWithName line.now rec set end → ⊥) }
{
    let Some((before, after)) = split_on(line, b':') else {
        return None;
    };
    let Some(rec) = number(before) else {
        return None;
    };
    let end = digits(after);
    let Some(set) = number(&after[..end]) else {
        return None;
    };
    Some((rec, set, &after[end..]))
}

/// Adds the dataset that a line specifies. If the dataset is rejected, returns the cause and
/// changes nothing.
pub(crate) fn add_line(
    alloc: Global,
    line: &[u8],
    builder: &mut EnvelopeBuilder,
) -> Result<(), ScriptCause>
    ensures added { OnOk result ((d : Dataset) × DescribesField line.now d
        × (added_field_fault builder.old.limits builder.old.fields d ≡ None)
        × (builder.new.fields ≡ builder.old.fields ++ d ∷ [])) }
    ensures limits { builder.new.limits ≡ builder.old.limits }
    ensures refused { IfErr result (λ cause. HasNoForm DescribesHead line.now →
        (cause ≡ ScriptCause.OutOfMemory) ⊎ IsBadLine builder.old.limits (InFields builder.old.fields) line.now cause) }
    ensures unchanged { OnErr result (builder.new ≡ builder.old) }
{
    let Some((rec, set, end)) = names(line) else {
        return Err(ScriptCause::ScriptLine);
    };
    let octets = match read_last(alloc, end) {
        Ok(Some(octets)) => octets,
        Ok(None) => return Err(ScriptCause::ScriptLine),
        Err(_) => return Err(ScriptCause::OutOfMemory),
    };
    match builder.add(rec, set, octets.as_slice()) {
        Ok(()) => Ok(()),
        Err(fault) => Err(ScriptCause::Field(fault.cause)),
    }
}
