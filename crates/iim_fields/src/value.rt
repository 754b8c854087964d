//! Checks complete values.

ghost use Rattle.std.specs.Prelude.{◌≡◌, ◌==◌, ◌&&◌, ◌||◌, nat_le, if◌then◌else◌, IsTrue, is_none, Some, None, length, IfOk, IfErr, OnOk};
ghost use Rattle.iim_tables.specs.Format.Rows.{row_of};
ghost use Rattle.iim_fields.specs.Format.Causes.{value_fault};
ghost use Rattle.std.specs.Int.{IsInRange};
ghost use Rattle.iim_dataset.specs.Format.Octets.{greatest_size};
ghost use Rattle.iim_tables.specs.Format.Kinds.{size_octets, has_kind};
ghost use Rattle.iim_tables.specs.Format.Records.{has_file_format};
ghost use Rattle.iim_fields.specs.Format.Records.{data_of, encoded_number, has_number_value};

use crate::fault::{FieldCause, FieldFault};
use crate::order::fault_on;
use iim_dataset::{GREATEST_SIZE, Head};
use iim_tables::internals::has_kind;
use iim_tables::records::{
    ANNOUNCED_SIZE, CONFIRMED_SIZE, ENVELOPE, FILE_FORMAT, MAX_SUBFILE_SIZE, MAXIMUM_SIZE,
    POST_OBJECT, PRE_OBJECT, SIZE_MODE,
};
use iim_tables::{Kind, Row, admits, number_of};

/// The only value of 1:20 File Format that the profile allows: text for wire services.
const WIRE_FORMAT: u64 = 2;

/// Checks whether a value of 1:20 File Format is 2. Returns `true` for every other dataset.
#[inline(always)]
fn has_file_format(head: Head, octets: &[u8]) -> bool
    requires { head.rec ≡ 1 → head.set ≡ 20 → length octets.now ≡ 2 }
    ensures { result ≡ has_file_format (data_of head octets.now) }
{
    if head.rec != ENVELOPE || head.set != FILE_FORMAT {
        return true;
    }
    number_of(octets).is_some_and(|number| number == WIRE_FORMAT)
}

/// Returns the first fault of a value.
#[inline(always)]
fn value_fault(head: Head, row: &Row, octets: &[u8]) -> Option<FieldFault>
    requires { row_of head.rec head.set ≡ Some row.now }
    ensures { result ≡ value_fault (data_of head octets.now) }
{
    if !admits(row, octets) {
        return Some(fault_on(head, FieldCause::BadValue));
    }
    if !has_file_format(head, octets) {
        return Some(fault_on(head, FieldCause::FileFormat));
    }
    None
}

/// Checks whether the octets are a value of this kind. Every octet string is a binary number, so
/// that kind needs no call.
#[inline(always)]
fn is_of_kind(kind: Kind, octets: &[u8]) -> bool
    ensures { result ≡ has_kind kind octets.now }
{
    match kind {
        Kind::Binary => true,
        _ => has_kind(kind, octets),
    }
}

/// Checks whether a value has no fault, which is when `value_fault` returns `None`. The length of
/// the value must be within the bounds of its row.
#[inline(always)]
pub(crate) fn is_value(head: Head, row: &Row, octets: &[u8]) -> bool
    requires row { row_of head.rec head.set ≡ Some row.now }
    requires bounds { IsInRange row.now.min row.now.max (length octets.now) }
    ensures { result ≡ is_none (value_fault (data_of head octets.now)) }
{
    is_of_kind(row.kind, octets) && has_file_format(head, octets)
}

/// Checks whether this number is a valid value of a dataset of record 7 or 9, encoded in as many
/// octets as the head counts.
#[inline(always)]
pub(crate) fn is_number(head: Head, number: u64) -> bool
    ensures { result ≡ (if head.rec == 9 then head.set == 10 && nat_le number greatest_size
        else if head.set == 10 then head.count == 1 && nat_le number 1
        else if head.set == 20 then nat_le 1 number && nat_le number greatest_size
        else (head.set == 90 || head.set == 95) && nat_le number greatest_size) }
{
    if head.rec == POST_OBJECT {
        return head.set == CONFIRMED_SIZE && number <= GREATEST_SIZE;
    }
    match head.set {
        SIZE_MODE => head.count == 1 && number <= 1,
        MAX_SUBFILE_SIZE => 1 <= number && number <= GREATEST_SIZE,
        ANNOUNCED_SIZE | MAXIMUM_SIZE => number <= GREATEST_SIZE,
        _ => false,
    }
}

/// Decodes the value of a dataset of record 7 or 9. Returns `None` for other records.
#[inline(always)]
fn encoded_number(head: Head, octets: &[u8]) -> Option<u64>
    requires { IsTrue (has_number_value head.rec) → IsInRange 1 size_octets (length octets.now) }
    ensures { result ≡ encoded_number (data_of head octets.now) }
{
    match head.rec {
        PRE_OBJECT | POST_OBJECT => number_of(octets),
        _ => None,
    }
}

/// Checks a complete value. Returns the encoded number if the record is 7 or 9.
///
/// **Errors:** the first fault of the value.
#[inline(always)]
pub(crate) fn check_value(head: Head, row: &Row, octets: &[u8]) -> Result<Option<u64>, FieldFault>
    requires { row_of head.rec head.set ≡ Some row.now }
    ensures number { IfOk result (λ number. number ≡ encoded_number (data_of head octets.now)) }
    ensures ok { OnOk result (value_fault (data_of head octets.now) ≡ None) }
    ensures fault { IfErr result (λ fault. value_fault (data_of head octets.now) ≡ Some fault) }
{
    if let Some(fault) = value_fault(head, row, octets) {
        return Err(fault);
    }
    Ok(encoded_number(head, octets))
}
