//! The reader of an object.

ghost use Rattle.std.specs.Prelude.{◌≡◌, ◌↔◌, ◌<◌, false, IsTrue, [], ◌∷◌, ℕ, List, Option, is_none, length, map, sum, Some, None, IsSome, IfSome, IfNone, IfErr, OnOk, OnErr};
ghost use Rattle.std.specs.Option.{ForSome};
ghost use Rattle.iim_dataset.specs.Format.Datasets.{Dataset};
ghost use Rattle.iim_object.specs.declared.reading.state.State.{State};
ghost use Rattle.iim_object.specs.States.Reading.{IsState, state_numbers, AcceptsNumber, AcceptsSubfile, PlaceHasNumbers, IsPossible, stated_numbers, ObjectReaderStandsAt, TokenAdvancesObject, RejectsObjectToken, ObjectMayEndAs, RejectsObjectEnd, RejectsObjectValue, RejectsObjectHead, RejectsObjectOctet, IsSizes, events_at};
ghost use Rattle.iim_object.specs.Format.Objects.{max_subfiles, ObjectOctet, ObjectEnd, NumberRead, SubfileBegun, ObjectEnded, Place, ConfirmedAs, place_start, value_token, head_token, AreObjectRecords, HaveSizes, place_after_datasets};
ghost use Rattle.iim_object.specs.declared.reading.fault.SizeCause.{SizeCause};

use crate::reading::fault::ObjectFault;
use crate::reading::place::state_at;
use crate::reading::state::{KNOWN, State, is_given};
use crate::reading::step::{
    accept_confirmed_size, accept_number, accept_object_end, accept_subfile,
};
use crate::sink::ObjectSink;
use crate::size::Sizes;
use iim_tables::records::POST_OBJECT;
use std::marker::Model;

/// A reader of an object. It accepts the numbers of record 7, the heads of subfiles, the octets of
/// the object, its end, and the size that record 9 confirms. It stores a few numbers, and no octets
/// of the object.
///
/// Its contracts hold for tokens that the record layer and the limits accept. In each state, a
/// token either reaches the next state, or makes the tokens no longer a viable prefix; then the
/// fault is the first cause. The lemma `tokens_extend_the_place` relates these states to datasets.
/// The model of the reader in contracts is the numbers that it stores, or `None` after an error.
/// Every state that it can have is reached by some tokens (`object_states_are_reached`).
#[derive(Debug, Drop)]
pub struct ObjectReader {
    /// The state, or `None` after an error.
    state: Option<State>,
}

impl Model for ObjectReader {
    ghost Value = { Option State };

    ghost view = { λ reader. reader.state };

    ghost invariant = { λ reader. ForSome reader.state IsState };
}

impl ObjectReader {
    /// Creates a reader at the start of an object.
    pub fn new() -> ObjectReader
        ensures takes_calls { IsSome result }
        ensures stands { ObjectReaderStandsAt result place_start }
    {
        let state = Some(State::new());
        ObjectReader { state }
    }

    /// Creates a reader in the state after these numbers of 7:10, 7:20, 7:90 and 7:95, then `heads`
    /// heads of subfiles, and `taken` octets of the object. `begun` has the count of the subfile in
    /// progress, and the number of its octets that remain. The object has not ended. Returns `None`
    /// if and only if no tokens reach that state.
    pub fn at(
        numbers: [Option<u64>; 4],
        taken: u64,
        begun: Option<(u64, u64)>,
        heads: u64,
    ) -> Option<ObjectReader>
        ensures exactly { IsSome result ↔ ((p : Place) × PlaceHasNumbers numbers taken begun heads p × IsPossible p) }
        ensures stands { IfSome result (λ reader. (p : Place) → PlaceHasNumbers numbers taken begun heads p
            → IsPossible p
            → ObjectReaderStandsAt reader p) }
        ensures takes_calls { IfSome result IsSome }
    {
        let state = Some(state_at(numbers, taken, begun, heads)?);
        Some(ObjectReader { state })
    }

    /// Returns whether a call has returned an error.
    pub fn is_failed(&self) -> bool
        ensures { result ≡ is_none self.now }
    {
        self.state.is_none()
    }

    /// Takes the state out of the reader. The reader counts as failed until a state is stored
    /// again.
    fn take_state(&mut self) -> State
        requires { IsSome self.old }
        ensures seen { self.old ≡ Some result }
        ensures is_state { IsState result }
        ensures failed { self.new ≡ None }
    {
        self.state.take().unwrap()
    }

    /// Accepts the number of a complete value of dataset 7:`set`, or of 9:10, the confirmed size.
    /// The reader must not have failed.
    ///
    /// **Errors:** the cause for which the tokens are no longer a viable prefix. The reader has
    /// then failed.
    #[inline(always)]
    pub fn value(&mut self, rec: u8, set: u8, number: u64) -> Result<(), ObjectFault>
        requires { IsSome self.old }
        ensures takes_calls { OnOk result (IsSome self.new) }
        ensures leads_on { OnOk result (TokenAdvancesObject self.old (value_token rec set number) self.new) }
        ensures failed { OnErr result (self.new ≡ None) }
        ensures refused { IfErr result (RejectsObjectValue self.old (value_token rec set number)) }
    {
        let state = self.take_state();
        let next = if rec == POST_OBJECT {
            accept_confirmed_size(state, number)?
        } else {
            accept_number(state, set, number)?
        };
        self.state = Some(next);
        Ok(())
    }

    /// Checks whether a number of dataset 7:`set` may come next, so that the tokens are still a
    /// viable prefix. The reader must not have failed.
    #[inline(always)]
    pub fn accepts_number(&self, set: u8, number: u64) -> bool
        requires { IsSome self.now }
        ensures exactly { IsTrue result ↔ AcceptsNumber self.now set number }
        ensures refused { result ≡ false → (cause : SizeCause) × RejectsObjectToken self.now
            (NumberRead set number) cause }
    {
        match &self.state {
            Some(state) => state.accepts_number(set, number),
            None => unreachable!(),
        }
    }

    /// Accepts a number of dataset 7:`set`. `accepts_number` must have returned `true` for it.
    #[inline(always)]
    pub fn put_number(&mut self, set: u8, number: u64)
        requires takes_calls { IsSome self.old }
        requires accepts { AcceptsNumber self.old set number }
        ensures takes_calls { IsSome self.new }
        ensures leads_on { TokenAdvancesObject self.old (NumberRead set number) self.new }
    {
        match &mut self.state {
            Some(state) => state.set_number(set, number),
            None => unreachable!(),
        }
    }

    /// Checks whether the head of a subfile of `count` octets may come next, so that the tokens are
    /// still a viable prefix and the number of subfiles is within its limit. The reader must not
    /// have failed.
    #[inline(always)]
    pub fn accepts_subfile(&self, count: u64) -> bool
        requires { IsSome self.now }
        ensures exactly { IsTrue result ↔ AcceptsSubfile self.now count }
        ensures few { IsTrue result → (p : Place) → ObjectReaderStandsAt self.now p → length p.lengths < max_subfiles }
        ensures refused { result ≡ false → (cause : SizeCause) × RejectsObjectToken self.now
            (SubfileBegun count) cause }
    {
        match &self.state {
            Some(state) => state.accepts_subfile(count),
            None => unreachable!(),
        }
    }

    /// Accepts the head of a subfile of `count` octets. `accepts_subfile` must have returned `true`
    /// for it.
    #[inline(always)]
    pub fn put_subfile(&mut self, count: u64)
        requires takes_calls { IsSome self.old }
        requires accepts { AcceptsSubfile self.old count }
        ensures takes_calls { IsSome self.new }
        ensures leads_on { TokenAdvancesObject self.old (SubfileBegun count) self.new }
    {
        match &mut self.state {
            Some(state) => state.add_subfile(count),
            None => unreachable!(),
        }
    }

    /// Checks whether the object may end here with this number of 9:10, the confirmed size. The
    /// reader is unchanged. It must not have failed.
    #[inline(always)]
    pub fn may_end(&self, number: u64) -> bool
        requires { IsSome self.now }
        ensures ends { IsTrue result → ObjectMayEndAs self.now number self.now }
        ensures refused { result ≡ false → RejectsObjectEnd self.now number }
    {
        match &self.state {
            Some(state) => state.end_cause().is_none() && state.confirmed_cause(number).is_none(),
            None => unreachable!(),
        }
    }

    /// Accepts a complete head: that of a subfile, 8:10, with `count` octets, or that of 9:10,
    /// which ends the object and notifies the sink. The number `_set` is not needed, since records
    /// 8 and 9 have one dataset each. The reader must not have failed, and the sink must accept
    /// calls.
    ///
    /// **Errors:** the cause for which the tokens are no longer a viable prefix, or the stop of the
    /// sink. The reader has then failed.
    #[inline(always)]
    pub fn head<S: ObjectSink>(
        &mut self,
        rec: u8,
        _set: u8,
        count: u64,
        sink: &mut S,
    ) -> Result<(), ObjectFault>
        requires takes_calls { IsSome self.old }
        requires stands { S.stands sink.old }
        ensures takes_calls { OnOk result (IsSome self.new) }
        ensures leads_on { OnOk result (TokenAdvancesObject self.old (head_token rec count) self.new) }
        ensures told { OnOk result (S.goes sink.old (events_at rec) sink.new) }
        ensures untold { (rec ≡ 9 → ⊥) → sink.new ≡ sink.old }
        ensures failed { OnErr result (self.new ≡ None) }
        ensures refused { IfErr result (RejectsObjectHead S.goes S.stops self.old
            (head_token rec count) sink.old sink.new) }
    {
        if rec == POST_OBJECT {
            return self.end(sink);
        }
        match &mut self.state {
            Some(state) => match accept_subfile(*state, count) {
                Ok(next) => {
                    *state = next;
                    Ok(())
                }
                Err(cause) => {
                    self.state = None;
                    Err(ObjectFault::Size { cause })
                }
            },
            None => unreachable!(),
        }
    }

    /// Accepts the end of the object.
    #[inline(always)]
    fn end<S: ObjectSink>(&mut self, sink: &mut S) -> Result<(), ObjectFault>
        requires takes_calls { IsSome self.old }
        requires stands { S.stands sink.old }
        ensures takes_calls { OnOk result (IsSome self.new) }
        ensures leads_on { OnOk result (TokenAdvancesObject self.old ObjectEnded self.new) }
        ensures told { OnOk result (S.goes sink.old (ObjectEnd ∷ []) sink.new) }
        ensures failed { OnErr result (self.new ≡ None) }
        ensures refused { IfErr result (RejectsObjectHead S.goes S.stops self.old ObjectEnded sink.old sink.new) }
    {
        let state = self.take_state();
        let ended = accept_object_end(state)?;
        sink.close()?;
        self.state = Some(ended);
        Ok(())
    }

    /// Passes octets of the object to the sink: those after the heads of subfiles, split in any
    /// way. The reader must not have failed. The sink must accept calls, and still does so
    /// afterwards.
    ///
    /// **Errors:** the stop of the sink. The reader has then failed.
    #[inline(always)]
    pub fn run<S: ObjectSink>(&mut self, run: &[u8], sink: &mut S) -> Result<(), ObjectFault>
        requires takes_calls { IsSome self.old }
        requires stands { S.stands sink.old }
        ensures same { OnOk result (self.new ≡ self.old) }
        ensures told { OnOk result (S.goes sink.old (map ObjectOctet run.now) sink.new) }
        ensures stands { OnOk result (S.stands sink.new) }
        ensures failed { OnErr result (self.new ≡ None) }
        ensures refused { IfErr result (RejectsObjectOctet S.stops run.now sink.old sink.new) }
    {
        match sink.run(run) {
            Ok(()) => Ok(()),
            Err(stop) => {
                self.state = None;
                Err(ObjectFault::Stopped(stop))
            }
        }
    }

    /// Returns the total of the counts of the subfiles so far. The reader must not have failed.
    pub fn total(&self) -> u64
        requires { IsSome self.now }
        ensures { (p : Place) → ObjectReaderStandsAt self.now p → result ≡ sum p.lengths }
    {
        self.state.unwrap().total
    }

    /// Returns the number of subfiles so far. The reader must not have failed.
    pub fn subfiles(&self) -> u64
        requires { IsSome self.now }
        ensures place { (p : Place) → ObjectReaderStandsAt self.now p → result ≡ length p.lengths }
        ensures seen { (state : State) → self.now ≡ Some state → result ≡ state.subfiles }
    {
        self.state.unwrap().subfiles
    }

    /// Returns the numbers of 7:10, 7:20, 7:90 and 7:95. A number is `None` if it was not received.
    /// The reader must not have failed.
    pub fn numbers(&self) -> [Option<u64>; 4]
        requires { IsSome self.now }
        ensures place { (p : Place) → ObjectReaderStandsAt self.now p → result ≡ stated_numbers p.stated }
        ensures seen { (state : State) → self.now ≡ Some state → result ≡ state_numbers state }
    {
        self.state.unwrap().numbers()
    }

    /// Returns the sizes that records 7 to 9 state. 9:10 must have confirmed the size, and the
    /// reader must not have failed.
    pub fn sizes(&self) -> Sizes
        requires { IsSome self.now }
        ensures place { (p : Place) (n : ℕ) → ObjectReaderStandsAt self.now p → p.ending ≡ ConfirmedAs n
            → IsSizes p result }
        ensures records { (ds : List Dataset) (r : AreObjectRecords ds) → ObjectReaderStandsAt self.now
            (place_after_datasets ds)
            → HaveSizes r.r7 r.r8 r.r9 result }
    {
        let state = self.state.unwrap();
        Sizes {
            known: is_given(state.mode, KNOWN),
            subfile: state.subfile.unwrap_or(0),
            announced: state.announced,
            maximum: state.maximum,
            subfiles: state.subfiles,
            total: state.total,
        }
    }
}
