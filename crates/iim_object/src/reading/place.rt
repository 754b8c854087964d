//! Restores a state from numbers.

ghost use Rattle.std.specs.Prelude.{◌≡◌, ◌↔◌, ◌≤◌, ◌+◌, IsTrue, IsSome, IfSome, Some, None};
ghost use Rattle.iim_object.specs.States.Reading.{IsState, state_numbers, ObjectReaderStandsAt, PlaceHasNumbers, IsPossible};
ghost use Rattle.iim_object.specs.Format.Objects.{Place};

use crate::reading::state::State;
use crate::reading::step::accept_subfile;

/// Returns the state after these numbers of record 7 and `subfiles` complete subfiles with a total
/// of `total` octets. Returns `None` if no tokens reach that state.
fn between(numbers: State, subfiles: u64, total: u64) -> Option<State>
    ensures exactly { IsSome result ↔ IsState (record numbers { subfiles = subfiles; total = total }) }
    ensures value { IfSome result (λ state. state ≡ record numbers { subfiles = subfiles; total = total }) }
{
    let state = State {
        subfiles,
        total,
        ..numbers
    };
    if state.is_state() { Some(state) } else { None }
}

/// Checks whether a subfile of `count` octets may be in progress, with `left` of its octets
/// remaining. `heads` is the number of heads of subfiles so far, and `taken` the number of octets
/// received of all subfiles.
fn may_be_in_progress(taken: u64, count: u64, left: u64, heads: u64) -> bool
    ensures { IsTrue result ↔ ((1 ≤ left) × (left ≤ count) × (1 ≤ heads) × (count ≤ taken + left)) }
{
    0 < left && left <= count && 0 < heads && count - left <= taken
}

/// Returns the state with a subfile of `count` octets in progress, of which `left` remain. It is
/// the state after the complete subfiles and then the head of this one. Returns `None` if no tokens
/// reach that state.
fn within(numbers: State, taken: u64, count: u64, left: u64, heads: u64) -> Option<State>
    ensures is_state { IfSome result IsState }
    ensures exactly { IsSome result ↔
        ((p : Place) × PlaceHasNumbers (state_numbers numbers) taken (Some (count, left)) heads p × IsPossible p) }
    ensures stands { IfSome result (λ state. (p : Place)
        → PlaceHasNumbers (state_numbers numbers) taken (Some (count, left)) heads p → IsPossible p
        → ObjectReaderStandsAt (Some state) p) }
{
    if !may_be_in_progress(taken, count, left, heads) {
        return None;
    }
    let before = between(numbers, heads - 1, taken - (count - left))?;
    if !before.subfile_may_follow() {
        return None;
    }
    accept_subfile(before, count).ok()
}

/// Returns the state after these numbers of 7:10, 7:20, 7:90 and 7:95, then `heads` heads of
/// subfiles, and `taken` octets of the object. Returns `None` if no tokens reach that state.
pub(crate) fn state_at(
    numbers: [Option<u64>; 4],
    taken: u64,
    begun: Option<(u64, u64)>,
    heads: u64,
) -> Option<State>
    ensures is_state { IfSome result IsState }
    ensures exactly { IsSome result ↔ ((p : Place) × PlaceHasNumbers numbers taken begun heads p × IsPossible p) }
    ensures stands { IfSome result (λ state. (p : Place) → PlaceHasNumbers numbers taken begun heads p → IsPossible p
        → ObjectReaderStandsAt (Some state) p) }
{
    let numbers = State::of_numbers(numbers);
    match begun {
        None => between(numbers, heads, taken),
        Some((count, left)) => within(numbers, taken, count, left, heads),
    }
}
