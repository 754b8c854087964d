//! A reader and a writer that fail at a chosen call, for tests.

ghost use Rattle.std.specs.Prelude.{◌≡◌, ◌≤◌, [], Some, None, IfOk, IfErr, OnOk};
ghost use Rattle.iim_dataset.specs.States.Devices.{ReadGave, WriteAccepted, CountedNoFault, CountedFault, CountedFailure, unbroken};
ghost use Rattle.trials.specs.States.{planned, new_plan, trial_device, reader_plan, writer_plan, taken_octets, trial_target, AcceptsOneOctet, CallSucceeded, CallMetTrouble, FollowsPlan, ReadsByPlan};

use arrayvec::ArrayVec;
use iim_dataset::{IoFault, Source, Target};

/// What goes wrong when a reader or a writer is called.
#[derive(Clone, Copy, Debug, PartialEq, Eq)]
pub enum Trouble {
    /// This call and all later calls fail.
    Failure,
    /// This number of calls is interrupted, and all later calls succeed.
    Interruptions(u32),
}

/// The number of calls that succeed, what goes wrong after them, and what went wrong so far.
#[derive(Clone, Copy)]
struct Plan {
    good: u64,
    trouble: Trouble,
    failures: u64,
    interruptions: u64,
}

impl Plan {
    fn new(good: u64, trouble: Trouble) -> Plan
        ensures { result ≡ new_plan good trouble }
    {
        Plan {
            good,
            trouble,
            failures: 0,
            interruptions: 0,
        }
    }

    /// Begins a call. Returns what goes wrong with it, if anything.
    fn call(&mut self) -> Result<(), IoFault>
        ensures ok { OnOk result (CountedNoFault (planned None self.old) (planned None self.new)) }
        ensures err { IfErr result (CountedFault (planned None self.old) (planned None self.new)) }
        ensures well { OnOk result (CallSucceeded self.old self.new) }
        ensures trouble { IfErr result (CallMetTrouble self.old self.new) }
        ensures plan { FollowsPlan self.old self.new }
    {
        if self.good > 0 {
            self.good -= 1;
            return Ok(());
        }
        match self.trouble {
            Trouble::Failure => {
                self.fail();
                Err(IoFault::Failed)
            }
            Trouble::Interruptions(0) => Ok(()),
            Trouble::Interruptions(left) => {
                self.trouble = Trouble::Interruptions(left - 1);
                self.interruptions = self.interruptions.saturating_add(1);
                Err(IoFault::Interrupted)
            }
        }
    }

    fn fail(&mut self)
        ensures counted { CountedFailure (planned None self.old) (planned None self.new) }
        ensures good { self.new.good ≡ self.old.good }
        ensures trouble { self.new.trouble ≡ self.old.trouble }
    {
        self.failures = self.failures.saturating_add(1);
    }
}

/// A source of known octets that returns one octet in each call, and has trouble after `good`
/// successful calls.
#[derive(Drop)]
pub struct TrialReader<'a> {
    octets: &'a [u8],
    at: usize,
    plan: Plan,
}

impl<'a> TrialReader<'a> {
    /// Creates a source of these octets that has trouble after `good` successful calls.
    pub fn new(octets: &'a [u8], good: u64, trouble: Trouble) -> TrialReader<'a>
        ensures device { trial_device result ≡ unbroken (Some octets.entry.now) }
        ensures plan { reader_plan result ≡ new_plan good trouble }
    {
        TrialReader {
            octets,
            at: 0,
            plan: Plan::new(good, trouble),
        }
    }
}

impl Source for TrialReader<'_> {
    ghost state = { trial_device };

    ghost leads = { ReadsByPlan };

    ghost use Rattle.trials.specs.DeviceLaws.{reads_on_stays, reads_on_leads_on};

    ghost stays = { reads_on_stays };

    ghost leads_on = { reads_on_leads_on };

    fn read(&mut self, buffer: &mut [u8]) -> Result<usize, IoFault>
        ensures ok { IfOk result (ReadGave (trial_device self.old) (trial_device self.new) buffer.new) }
        ensures no_failure { OnOk result (CountedNoFault (trial_device self.old) (trial_device self.new)) }
        ensures err { IfErr result (CountedFault (trial_device self.old) (trial_device self.new)) }
        ensures leads { ReadsByPlan self.old self.new }
        ensures one { IfOk result (λ n. n ≤ 1) }
        ensures well { OnOk result (CallSucceeded (reader_plan self.old) (reader_plan self.new)) }
        ensures trouble { IfErr result (CallMetTrouble (reader_plan self.old) (reader_plan self.new)) }
    {
        self.plan.call()?;
        if self.at >= self.octets.len() || buffer.is_empty() {
            return Ok(0);
        }
        buffer[0] = self.octets[self.at];
        self.at += 1;
        Ok(1)
    }
}

/// A target that accepts one octet in each call, as long as it has fewer than `N` octets, and has
/// trouble after `good` successful calls.
#[derive(Drop)]
pub struct TrialWriter<const N: usize> {
    octets: ArrayVec<u8, N>,
    plan: Plan,
}

impl<const N: usize> TrialWriter<N> {
    /// Creates an empty target that has trouble after `good` successful calls.
    pub fn new(good: u64, trouble: Trouble) -> TrialWriter<N>
        ensures empty { taken_octets result ≡ [] }
        ensures plan { writer_plan result ≡ new_plan good trouble }
    {
        TrialWriter {
            octets: ArrayVec::new(),
            plan: Plan::new(good, trouble),
        }
    }

    /// Returns the octets that were accepted.
    pub fn octets(&self) -> &[u8]
        ensures { result.now ≡ taken_octets self.now }
    {
        self.octets.as_slice()
    }
}

impl<const N: usize> Target for TrialWriter<N> {
    ghost state = { trial_target };

    fn write(&mut self, piece: &[u8]) -> Result<usize, IoFault>
        ensures ok { IfOk result (WriteAccepted (trial_target self.old) (trial_target self.new) piece.now) }
        ensures err { IfErr result (CountedFault (trial_target self.old) (trial_target self.new)) }
        ensures one { IfOk result (AcceptsOneOctet N (taken_octets self.old) piece.now) }
        ensures well { OnOk result (CallSucceeded (writer_plan self.old) (writer_plan self.new)) }
        ensures trouble { IfErr result (CallMetTrouble (writer_plan self.old) (writer_plan self.new)) }
    {
        self.plan.call()?;
        if piece.is_empty() {
            return Ok(0);
        }
        if self.octets.is_full() {
            self.plan.fail();
            return Ok(0);
        }
        self.octets.push(piece[0]);
        Ok(1)
    }
}
