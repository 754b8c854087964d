//! Finds the rows whose id repeats that of an earlier row.

ghost use Rattle.std.specs.Prelude.{◌≡◌, ℕ, ◌<◌, ◌≤◌, ◌^◌, ◌+◌, Some, None, true, false, length, map, slice_index_or};
ghost use Rattle.std.specs.List.{All};
ghost use Rattle.std.specs.List.Sorted.{IsPermutation, IsSortedBy};
ghost use Rattle.std.specs.Ordering.{is_lt};
ghost use Rattle.iim_fields.specs.Format.Records.{id_cmp, id_eq};
ghost use Rattle.iim_audit.specs.Steps.{HaveFirsts, HaveNoFirst, IsIdOrder, IsSortKey, id_at_index_cmp, ids_of, index_at, id_then_index_cmp, id_key_at, id_key_of, sort_key_cmp, sort_key_of, sort_keys_of};
ghost use Rattle.iim_audit.specs.declared.row.AuditRow.{AuditRow as Row};

use crate::row::AuditRow;
use iim_fields::EnvelopeId;
use std::cmp::Ordering;

/// The number of possible row indices. The low 32 bits of a sort key are the index of its row, and
/// the high 32 bits are the key of the row's id.
const INDICES: u64 = 1 << 32;

/// Returns the key of an id: the low four bits of each octet of its envelope number. Ids with
/// different numbers have different keys.
fn id_key_of(id: &EnvelopeId) -> u32
    ensures { result ≡ id_key_of id.now }
{
    let mut key: u32 = 0;
    for octet in id.number() {
        key = key.wrapping_mul(16).wrapping_add(u32::from(*octet % 16));
    }
    key
}

/// Returns the sort key of the row at `index`, whose id is `id`.
pub(crate) fn sort_key_of(id: &EnvelopeId, index: u32) -> u64
    ensures { result ≡ sort_key_of id.now index }
{
    u64::from(id_key_of(id)) * INDICES + u64::from(index)
}

/// Returns the high half of a sort key: the key of the row's id.
#[inline(always)]
fn id_key_at(place: u64) -> u64
    ensures { result ≡ id_key_at place }
{
    place / INDICES
}

/// Returns the low half of a sort key: the index of the row.
#[inline(always)]
fn index_at(place: u64) -> usize
    ensures { result ≡ index_at place }
{
    (place % INDICES) as usize
}

/// Compares the ids of the rows at two indices. An index that is out of range is less than every
/// id.
fn compare_ids(rows: &[AuditRow], a: usize, b: usize) -> Ordering
    ensures { result ≡ id_at_index_cmp id_cmp (ids_of rows.now) a b }
{
    match (rows.get(a), rows.get(b)) {
        (None, None) => Ordering::Equal,
        (None, Some(_)) => Ordering::Less,
        (Some(_), None) => Ordering::Greater,
        (Some(row), Some(other)) => row.id.cmp(&other.id),
    }
}

/// Compares two indices by the ids of their rows. If the ids are equal, compares the indices
/// themselves.
fn compare_indices(rows: &[AuditRow], a: usize, b: usize) -> Ordering
    ensures { result ≡ id_then_index_cmp id_cmp (ids_of rows.now) a b }
{
    compare_ids(rows, a, b).then(a.cmp(&b))
}

/// Compares two sort keys by the keys of their ids. If these are equal, compares the ids of the
/// rows, and then the indices.
#[inline(always)]
fn compare(rows: &[AuditRow], a: u64, b: u64) -> Ordering
    ensures { result ≡ sort_key_cmp (ids_of rows.now) a b }
{
    match id_key_at(a).cmp(&id_key_at(b)) {
        Ordering::Equal => compare_indices(rows, index_at(a), index_at(b)),
        order => order,
    }
}

/// Sorts the sort keys of rows: by the keys of their ids, then by the ids, then by the indices.
/// Allocates nothing.
fn sort_keys(rows: &[AuditRow], places: &mut [u64])
    ensures permutation { IsPermutation places.old places.new }
    ensures sorted { IsSortedBy (λ a b. is_lt (sort_key_cmp (ids_of rows.now) a b)) places.new }
{
    places.sort_unstable_by(|a, b| compare(rows, *a, *b));
}

/// Returns the sort key of the first row with the same id as the row at `place`. `group` is the
/// result of this function for the previous sort key in the sorted order. The ids themselves are
/// compared only if their keys are equal.
#[inline(always)]
fn group_of(rows: &[AuditRow], group: u64, place: u64) -> u64
    requires group { IsSortKey (ids_of rows.now) group }
    requires place { IsSortKey (ids_of rows.now) place }
    ensures within { IsSortKey (ids_of rows.now) result }
    ensures same { (d : Row) → id_eq (slice_index_or rows.now (index_at place) d).id
        (slice_index_or rows.now (index_at group) d).id ≡ true → index_at result ≡ index_at group }
    ensures other { (d : Row) → id_eq (slice_index_or rows.now (index_at place) d).id
        (slice_index_or rows.now (index_at group) d).id ≡ false → index_at result ≡ index_at place }
{
    if id_key_at(place) != id_key_at(group) {
        return place;
    }
    if rows[index_at(place)].id == rows[index_at(group)].id {
        group
    } else {
        place
    }
}

/// Sets `first` in the row at index `at` to the number of the row at `group`, if that row is
/// earlier.
fn set_first(row: &mut AuditRow, group: usize, at: usize)
    ensures told { group < at → row.new ≡ record (row.old) { first = Some (group + 1) } }
    ensures untold { (group < at → ⊥) → row.new ≡ row.old }
    ensures id { row.new.id ≡ row.old.id }
{
    if group < at {
        row.first = Some(group as u64 + 1);
    }
}

/// Sets `first` in each row that repeats an earlier id. `places` has the sort keys of all rows,
/// sorted by id and then by index.
fn set_all_firsts(rows: &mut [AuditRow], places: &[u64])
    requires { All (IsSortKey (ids_of rows.old)) places.now }
    ensures filled { IsIdOrder (ids_of rows.old) (map index_at places.now) → HaveNoFirst rows.old
        → HaveFirsts rows.old rows.new }
    ensures ids { ids_of rows.new ≡ ids_of rows.old }
{
    let Some(first) = places.first() else {
        return;
    };
    let mut group = *first;
    for place in places {
        group = group_of(rows, group, *place);
        let at = index_at(*place);
        set_first(&mut rows[at], index_at(group), at);
    }
}

/// Sets `first` in each row that repeats an earlier id. `places` has the sort keys of all rows, in
/// any order. Allocates nothing.
pub(crate) fn set_repeats(rows: &mut [AuditRow], places: &mut [u64])
    requires few { length (ids_of rows.old) ≤ 2 ^ 32 }
    requires places { places.old ≡ sort_keys_of 0 (ids_of rows.old) }
    ensures filled { HaveNoFirst rows.old → HaveFirsts rows.old rows.new }
    ensures ids { ids_of rows.new ≡ ids_of rows.old }
{
    sort_keys(rows, places);
    set_all_firsts(rows, places);
}
