//! Computes the state after each token.

ghost use Rattle.std.specs.Prelude.{Some, IfOk, IfErr, OnOk};
ghost use Rattle.iim_object.specs.Format.Objects.{NumberRead, SubfileBegun, ObjectEnded, Confirmed};
ghost use Rattle.iim_object.specs.States.Reading.{TokenAdvancesObject, IsViableWithToken, RejectsObjectToken, IsState};

use crate::reading::fault::SizeCause;
use crate::reading::state::State;

/// Returns the state after a number of record 7. If no such number may come next, returns the same
/// state.
#[inline(always)]
pub(crate) fn accept_number(state: State, set: u8, number: u64) -> Result<State, SizeCause>
    requires { IsState state }
    ensures is_state { IfOk result IsState }
    ensures leads_on { IfOk result (λ new. TokenAdvancesObject (Some state) (NumberRead set number) (Some new)) }
    ensures refused { IfErr result (RejectsObjectToken (Some state) (NumberRead set number)) }
{
    if !state.number_may_follow(set, number) {
        return Ok(state);
    }
    let new = state.with_number(set, number);
    match new.number_cause() {
        Some(cause) => Err(cause),
        None => Ok(new),
    }
}

/// Returns the state after the head of a subfile of `count` octets. If no subfile may come next,
/// returns the same state.
#[inline(always)]
pub(crate) fn accept_subfile(state: State, count: u64) -> Result<State, SizeCause>
    requires { IsState state }
    ensures is_state { IfOk result IsState }
    ensures leads_on { IfOk result (λ new. TokenAdvancesObject (Some state) (SubfileBegun count) (Some new)) }
    ensures refused { IfErr result (RejectsObjectToken (Some state) (SubfileBegun count)) }
{
    if !state.subfile_may_follow() {
        return Ok(state);
    }
    match state.subfile_cause(count) {
        Some(cause) => Err(cause),
        None => Ok(state.with_subfile(count)),
    }
}

/// Returns the state after the end of the object, or what is wrong with that end.
pub(crate) fn accept_object_end(state: State) -> Result<State, SizeCause>
    requires { IsState state }
    ensures is_state { IfOk result IsState }
    ensures leads_on { IfOk result (λ new. TokenAdvancesObject (Some state) ObjectEnded (Some new)) }
    ensures lives { OnOk result (IsViableWithToken (Some state) ObjectEnded) }
    ensures refused { IfErr result (RejectsObjectToken (Some state) ObjectEnded) }
{
    match state.end_cause() {
        Some(cause) => Err(cause),
        None => Ok(state),
    }
}

/// Returns the state after the confirmed size, or what is wrong with that size.
#[inline(always)]
pub(crate) fn accept_confirmed_size(state: State, number: u64) -> Result<State, SizeCause>
    requires { IsState state }
    ensures is_state { IfOk result IsState }
    ensures leads_on { IfOk result (λ new. TokenAdvancesObject (Some state) (Confirmed number) (Some new)) }
    ensures refused { IfErr result (RejectsObjectToken (Some state) (Confirmed number)) }
{
    match state.confirmed_cause(number) {
        Some(cause) => Err(cause),
        None => Ok(state),
    }
}
