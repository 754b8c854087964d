//! Parts of bounded length.

ghost use Rattle.std.specs.Prelude.{◌≡◌, ◌≤◌, ◌<◌, ◌↔◌, ◌+◌, ◌++◌, [], ◌∷◌, false, length, slice_index, take, IsTrue};
ghost use Rattle.arrayvec.specs.ArrayVec.{array_vec_len};
ghost use Rattle.iim_dataset.specs.Format.Octets.{sp};
ghost use Rattle.wire_message.specs.Kept.{is_in_class};
ghost use Rattle.wire_message.specs.Format.Messages.{Are, IsField};

use crate::class::{Class, is_in};
use arrayvec::ArrayVec;
use iim_dataset::octets::SP;

/// Checks whether all octets are in the class.
fn are_in(class: Class, octets: &[u8]) -> bool
    ensures { IsTrue result ↔ Are (is_in_class class) octets.now }
{
    octets.iter().all(|octet| is_in(class, *octet))
}

/// Checks whether all octets are in the class, and their number is at least `least` and at most
/// `most`.
pub(crate) fn is_field(class: Class, least: usize, most: usize, octets: &[u8]) -> bool
    ensures { IsTrue result ↔ IsField (is_in_class class) least most octets.now }
{
    if octets.len() < least || most < octets.len() {
        return false;
    }
    are_in(class, octets)
}

/// Copies the octets into an array that has capacity for them.
pub(crate) fn kept<const ROOM: usize>(octets: &[u8]) -> ArrayVec<u8, ROOM>
    requires { length octets.now ≤ ROOM }
    ensures { result.items ≡ octets.now }
{
    let mut kept = ArrayVec::new();
    // The array has the capacity, so this cannot fail.
    let _ = kept.try_extend_from_slice(octets);
    kept
}

/// Appends octets, for which the array must have capacity.
pub(crate) fn append<const ROOM: usize>(out: &mut ArrayVec<u8, ROOM>, octets: &[u8])
    requires { array_vec_len out.old + length octets.now ≤ ROOM }
    ensures items { out.new.items ≡ out.old.items ++ octets.now }
    ensures len { array_vec_len out.new ≡ array_vec_len out.old + length octets.now }
{
    // The array has the capacity, so this cannot fail.
    let _ = out.try_extend_from_slice(octets);
}

/// Appends SP and a part.
pub(crate) fn append_part<const ROOM: usize>(out: &mut ArrayVec<u8, ROOM>, part: &[u8])
    requires { array_vec_len out.old + 1 + length part.now ≤ ROOM }
    ensures items { out.new.items ≡ out.old.items ++ (sp ∷ part.now) }
    ensures len { array_vec_len out.new ≡ array_vec_len out.old + 1 + length part.now }
{
    append(out, &[SP]);
    append(out, part);
}

/// Returns the length of the longest prefix whose octets are in the class.
#[inline(always)]
pub(crate) fn run_len(class: Class, octets: &[u8]) -> usize
    ensures within { result ≤ length octets.now }
    ensures class { Are (is_in_class class) (take result octets.now) }
    ensures longest { result < length octets.now → is_in_class class (slice_index octets.now result) ≡ false }
{
    for (at, octet) in octets.iter().enumerate() {
        if !is_in(class, *octet) {
            return at;
        }
    }
    octets.len()
}

/// Returns the length of the longest prefix whose octets are in the class, but at most `most`.
#[inline(always)]
pub(crate) fn prefix_len(class: Class, most: usize, octets: &[u8]) -> usize
    ensures within { result ≤ length octets.now }
    ensures few { result ≤ most }
    ensures class { Are (is_in_class class) (take result octets.now) }
    ensures longest { result < length octets.now → result < most →
        is_in_class class (slice_index octets.now result) ≡ false }
{
    let room = octets.len().min(most);
    run_len(class, &octets[..room])
}

/// Appends octets from the start of a slice to a part, as long as they are in its class and it has
/// capacity. Returns their number.
#[inline(always)]
pub(crate) fn take_run<const ROOM: usize>(
    part: &mut ArrayVec<u8, ROOM>,
    class: Class,
    octets: &[u8],
) -> usize
    ensures within { result ≤ length octets.now }
    ensures class { Are (is_in_class class) (take result octets.now) }
    ensures items { part.new.items ≡ part.old.items ++ take result octets.now }
    ensures fits { length part.old.items + result ≤ ROOM }
    ensures longest { result < length octets.now → length part.old.items + result < ROOM →
        is_in_class class (slice_index octets.now result) ≡ false }
{
    let run = prefix_len(class, part.remaining_capacity(), octets);
    append(part, &octets[..run]);
    run
}

/// Returns a part of one octet.
pub(crate) fn part_of_one<const ROOM: usize>(octet: u8) -> ArrayVec<u8, ROOM>
    requires { 0 < ROOM }
    ensures { result.items ≡ octet ∷ [] }
{
    let mut part = ArrayVec::new();
    part.push(octet);
    part
}
