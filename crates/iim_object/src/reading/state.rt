//! What records 7 to 9 have stated about an object so far.

ghost use Rattle.std.specs.Prelude.{◌≡◌, ◌↔◌, ◌+◌, ◌^◌, ◌<◌, ◌≤◌, IsTrue, IfSome, is_some};
ghost use Rattle.iim_dataset.specs.Format.Octets.{greatest_u64};
ghost use Rattle.iim_object.specs.Format.Objects.{mode_number};
ghost use Rattle.iim_object.specs.States.Reading.{HasNumbers, HasSubfiles, IsState, state_numbers, NumberFits, SubfileFits, NumberMayCome, SubfileMayCome, state_start, state_with};
ghost use Rattle.iim_object.specs.Format.Causes.{is_given, is_above, number_cause, bound, exceeds_bound, subfile_cause, end_cause, confirmed_cause};

use crate::plan::MAX_SUBFILES;
use crate::reading::fault::SizeCause;
use iim_dataset::GREATEST_SIZE;
use iim_tables::records::{ANNOUNCED_SIZE, MAX_SUBFILE_SIZE, MAXIMUM_SIZE, SIZE_MODE};

/// The size mode of an object whose size is not known at the start.
const UNKNOWN: u64 = 0;

/// The size mode of an object whose size is known at the start.
pub(crate) const KNOWN: u64 = 1;

/// The numbers of record 7, the number of subfiles, and the total of the counts of the subfiles.
#[derive(Clone, Copy, Debug, PartialEq, Eq)]
pub(crate) struct State {
    /// 7:10 Size Mode.
    pub mode: Option<u64>,
    /// 7:20 Max Subfile Size.
    pub subfile: Option<u64>,
    /// 7:90 ObjectData Size Announced.
    pub announced: Option<u64>,
    /// 7:95 Maximum ObjectData Size.
    pub maximum: Option<u64>,
    /// The number of subfiles so far.
    pub subfiles: u64,
    /// The total of the counts of these subfiles, in octets.
    pub total: u64,
}

/// Checks whether a number is present and equals `wanted`.
#[inline(always)]
pub(crate) fn is_given(number: Option<u64>, wanted: u64) -> bool
    ensures { result ≡ is_given number wanted }
{
    match number {
        Some(number) => number == wanted,
        None => false,
    }
}

/// Checks whether a number is missing or within these bounds.
fn is_within(number: Option<u64>, least: u64, most: u64) -> bool
    ensures { IsTrue result ↔ IfSome number (λ n. (least ≤ n) × (n ≤ most)) }
{
    match number {
        Some(number) => (least..=most).contains(&number),
        None => true,
    }
}

#[inline(always)]
fn is_above(announced: Option<u64>, maximum: Option<u64>) -> bool
    ensures { result ≡ is_above announced maximum }
{
    match (announced, maximum) {
        (Some(announced), Some(maximum)) => announced > maximum,
        _ => false,
    }
}

/// Returns the greatest number of octets that the object may have, given its announced size and its
/// maximum.
#[inline(always)]
fn bound(announced: Option<u64>, maximum: Option<u64>) -> u64
    ensures { result ≡ bound announced maximum }
{
    announced
        .unwrap_or(GREATEST_SIZE)
        .min(maximum.unwrap_or(GREATEST_SIZE))
}

impl State {
    /// Creates the state at the start of an object.
    pub(crate) fn new() -> State
        ensures { result ≡ state_start }
    {
        State {
            mode: None,
            subfile: None,
            announced: None,
            maximum: None,
            subfiles: 0,
            total: 0,
        }
    }

    /// Creates the state after these numbers of 7:10, 7:20, 7:90 and 7:95, and no subfile.
    pub(crate) fn of_numbers(numbers: [Option<u64>; 4]) -> State
        ensures { state_numbers result ≡ numbers }
    {
        let [mode, subfile, announced, maximum] = numbers;
        State {
            mode,
            subfile,
            announced,
            maximum,
            ..State::new()
        }
    }

    /// Returns the numbers of 7:10, 7:20, 7:90 and 7:95.
    pub(crate) fn numbers(&self) -> [Option<u64>; 4]
        ensures { result ≡ state_numbers self.now }
    {
        [self.mode, self.subfile, self.announced, self.maximum]
    }

    /// Checks whether these numbers of record 7 may occur together.
    fn has_numbers(&self) -> bool
        ensures { IsTrue result ↔ HasNumbers self.now }
    {
        is_within(self.mode, UNKNOWN, KNOWN)
            && is_within(self.subfile, 1, GREATEST_SIZE)
            && is_within(self.announced, 0, GREATEST_SIZE)
            && is_within(self.maximum, 0, GREATEST_SIZE)
            && self.number_cause().is_none()
    }

    /// Checks whether the mode is present, and 7:90 is present if and only if the mode states that
    /// the size is known.
    fn is_announced_by_mode(&self) -> bool
        ensures { result ≡ is_given self.now.mode (mode_number (is_some self.now.announced)) }
    {
        match self.announced {
            Some(_) => is_given(self.mode, KNOWN),
            None => is_given(self.mode, UNKNOWN),
        }
    }

    /// Checks whether the object may have this number of subfiles with this total of octets.
    fn has_subfiles(&self) -> bool
        requires { HasNumbers self.now }
        ensures { IsTrue result ↔ HasSubfiles self.now }
    {
        let Some(subfile) = self.subfile else {
            return false;
        };
        self.is_announced_by_mode()
            && self.subfiles <= MAX_SUBFILES
            && self.total <= self.subfiles.saturating_mul(subfile)
            && self.total <= bound(self.announced, self.maximum)
    }

    /// Checks whether some tokens reach the state.
    pub(crate) fn is_state(&self) -> bool
        ensures { IsTrue result ↔ IsState self.now }
    {
        if !self.has_numbers() {
            return false;
        }
        if self.subfiles == 0 {
            return self.total == 0;
        }
        self.has_subfiles()
    }

    /// Sets the number of a dataset of record 7.
    #[inline(always)]
    pub(crate) fn set_number(&mut self, set: u8, number: u64)
        ensures { self.new ≡ state_with self.old set number }
    {
        match set {
            SIZE_MODE => self.mode = Some(number),
            MAX_SUBFILE_SIZE => self.subfile = Some(number),
            ANNOUNCED_SIZE => self.announced = Some(number),
            MAXIMUM_SIZE => self.maximum = Some(number),
            _ => {}
        }
    }

    /// Returns the state with the number of a dataset of record 7.
    #[inline(always)]
    pub(crate) fn with_number(self, set: u8, number: u64) -> State
        ensures { result ≡ state_with self set number }
    {
        let mut new = self;
        new.set_number(set, number);
        new
    }

    /// Counts a subfile of `count` octets.
    #[inline(always)]
    pub(crate) fn add_subfile(&mut self, count: u64)
        requires subfiles { self.old.subfiles < greatest_u64 }
        requires total { self.old.total + count < 2 ^ 64 }
        ensures { self.new ≡ record self.old { subfiles = self.old.subfiles + 1; total = self.old.total + count } }
    {
        self.subfiles += 1;
        self.total += count;
    }

    /// Returns the state with one more subfile, of `count` octets.
    #[inline(always)]
    pub(crate) fn with_subfile(self, count: u64) -> State
        requires subfiles { self.subfiles < greatest_u64 }
        requires total { self.total + count < 2 ^ 64 }
        ensures { result ≡ record self { subfiles = self.subfiles + 1; total = self.total + count } }
    {
        let mut new = self;
        new.add_subfile(count);
        new
    }

    /// Checks whether a number of record 7 may come next: no subfile has occurred yet, and the row
    /// of its dataset allows the number.
    #[inline(always)]
    pub(crate) fn number_may_follow(&self, set: u8, number: u64) -> bool
        ensures { IsTrue result ↔ NumberMayCome self.now set number }
    {
        let in_row = match set {
            SIZE_MODE => number <= KNOWN,
            MAX_SUBFILE_SIZE => (1..=GREATEST_SIZE).contains(&number),
            ANNOUNCED_SIZE | MAXIMUM_SIZE => number <= GREATEST_SIZE,
            _ => false,
        };
        self.subfiles == 0 && in_row
    }

    /// Checks whether a subfile may come next: the mode and the size of the largest subfile are
    /// present, and the number of subfiles is below its limit.
    #[inline(always)]
    pub(crate) fn subfile_may_follow(&self) -> bool
        ensures { IsTrue result ↔ SubfileMayCome self.now }
    {
        self.mode.is_some() && self.subfile.is_some() && self.subfiles < MAX_SUBFILES
    }

    /// Returns what is wrong with the numbers of record 7, or `None`.
    #[inline(always)]
    pub(crate) fn number_cause(&self) -> Option<SizeCause>
        ensures { result ≡ number_cause self.now.mode self.now.announced self.now.maximum }
    {
        if is_given(self.mode, UNKNOWN) && self.announced.is_some() {
            return Some(SizeCause::ModeClash);
        }
        if is_above(self.announced, self.maximum) {
            return Some(SizeCause::SizeClash);
        }
        None
    }

    /// Checks whether the object exceeds its bound if `count` more octets are added.
    #[inline(always)]
    fn exceeds_bound(&self, count: u64) -> bool
        ensures { result ≡ exceeds_bound (bound self.now.announced self.now.maximum) self.now.total count }
    {
        let most = bound(self.announced, self.maximum);
        match self.total.checked_add(count) {
            Some(total) => total > most,
            None => true,
        }
    }

    /// Returns what is wrong with a subfile of `count` octets, or `None`.
    #[inline(always)]
    pub(crate) fn subfile_cause(&self, count: u64) -> Option<SizeCause>
        ensures { result ≡ subfile_cause self.now.mode self.now.subfile self.now.announced self.now.maximum
            self.now.total count }
    {
        if is_given(self.mode, KNOWN) && self.announced.is_none() {
            return Some(SizeCause::ModeClash);
        }
        if count > self.subfile.unwrap_or(0) {
            return Some(SizeCause::SubfileTooLong);
        }
        if self.exceeds_bound(count) {
            return Some(SizeCause::PastSize);
        }
        None
    }

    /// Returns what is wrong if the object ends here, or `None`.
    #[inline(always)]
    pub(crate) fn end_cause(&self) -> Option<SizeCause>
        ensures { result ≡ end_cause self.now.announced self.now.total }
    {
        if self.total < self.announced.unwrap_or(0) {
            return Some(SizeCause::Short);
        }
        None
    }

    /// Returns what is wrong with the confirmed size, or `None`.
    #[inline(always)]
    pub(crate) fn confirmed_cause(&self, number: u64) -> Option<SizeCause>
        ensures { result ≡ confirmed_cause self.now.total number }
    {
        if number == self.total {
            return None;
        }
        Some(SizeCause::ConfirmedWrong)
    }

    /// Checks whether a number of record 7 may come next, and is consistent with the other numbers.
    #[inline(always)]
    pub(crate) fn accepts_number(&self, set: u8, number: u64) -> bool
        requires { HasNumbers self.now }
        ensures { IsTrue result ↔ NumberFits self.now set number }
    {
        if !self.number_may_follow(set, number) {
            return false;
        }
        match set {
            SIZE_MODE => number != UNKNOWN || self.announced.is_none(),
            ANNOUNCED_SIZE => {
                !is_given(self.mode, UNKNOWN) && !is_above(Some(number), self.maximum)
            }
            MAXIMUM_SIZE => !is_above(self.announced, Some(number)),
            _ => true,
        }
    }

    /// Checks whether a subfile of `count` octets may come next, and has nothing wrong.
    #[inline(always)]
    pub(crate) fn accepts_subfile(&self, count: u64) -> bool
        ensures { IsTrue result ↔ SubfileFits self.now count }
    {
        self.subfile_may_follow() && self.subfile_cause(count).is_none()
    }
}
