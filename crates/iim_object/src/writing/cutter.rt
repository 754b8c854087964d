//! Divides an object into subfiles as its octets are received.

ghost use Rattle.std.specs.Prelude.{◌≡◌, ◌+◌, ◌-◌, ◌^◌, ◌<◌, ◌≤◌, [], ◌++◌, length, take, true, false, IfOk, IfErr, OnOk, OnErr, IfSome, IfNone, Err};
ghost use Rattle.iim_dataset.specs.Format.Datasets.{canonical_dataset};
ghost use Rattle.iim_object.specs.Format.Packing.{subfile_dataset};
ghost use Rattle.iim_object.specs.States.Writing.{plan_bound, total_of, WriterAccepts, WriterFails, IsWrittenOfMore, IsWrittenOf, WriterFinishes, write_cause, finish_cause};
ghost use Rattle.iim_object.specs.Steps.{writing_of, CutterHasCapacity, CutterMayAccept, CutterBecomes, OutputWrites, OutputFails};
ghost use Rattle.iim_object.specs.declared.writing.cause.PackCause.TheVariants as causes;

use crate::laws::objects_split_uniquely;
use crate::plan::Plan;
use crate::writing::cause::PackCause;
use crate::writing::output::Output;
use iim_dataset::Target;
use iim_dataset::device_laws::writes_join;
use iim_dataset::internals::ReservedOctets;
use iim_tables::records::{CONFIRMED_SIZE, OBJECT, POST_OBJECT, SUBFILE};

/// The octets of an object that are not written yet, and the number of those that are written.
#[derive(Drop)]
pub(crate) struct Cutter<W> {
    /// How the object is divided.
    pub plan: Plan,
    /// The octets that are not yet written.
    pub held: ReservedOctets,
    /// The number of octets of the object that were written.
    pub sent: u64,
    /// The target that the object goes to.
    pub output: Output<W>,
    /// Whether a write failed.
    pub failed: bool,
}

impl<W: Target> Cutter<W> {
    /// Returns the number of octets of the object so far, written or buffered.
    pub(crate) fn total(&self) -> u64
        requires { CutterHasCapacity self.now }
        ensures { result ≡ total_of (writing_of self.now) }
    {
        self.sent + self.held.len() as u64
    }

    /// Writes the buffered octets as a subfile.
    fn flush(&mut self) -> Result<(), PackCause>
        requires room { CutterHasCapacity self.old }
        requires unfailed { self.old.failed ≡ false }
        requires full { length self.old.held.items ≡ self.old.plan.subfile }
        ensures ok { OnOk result (OutputWrites W.state self.old.output self.new.output
            (canonical_dataset (subfile_dataset self.old.held.items))
            × CutterBecomes self.new (record self.old {
              held = record { items = []; room = self.old.held.room };
              sent = self.old.sent + length self.old.held.items;
              output = self.new.output;
            })) }
        ensures err { IfErr result (λ cause. (cause ≡ causes.Write)
            × OutputFails W.state self.old.output self.new.output (canonical_dataset
            (subfile_dataset self.old.held.items))
            × CutterBecomes self.new (record self.old { output = self.new.output; failed = true })) }
    {
        match self
            .output
            .put_dataset(OBJECT, SUBFILE, self.held.as_slice())
        {
            Ok(()) => {
                self.sent += self.held.len() as u64;
                self.held.clear();
                Ok(())
            }
            Err(cause) => {
                self.failed = true;
                Err(cause)
            }
        }
    }

    /// Buffers octets from the start of the slice, as many as fit into the current subfile, and
    /// returns their number.
    fn fill(&mut self, rest: &[u8]) -> usize
        requires room { CutterHasCapacity self.old }
        requires fits { total_of (writing_of self.old) + length rest.now ≤ plan_bound self.old.plan }
        requires short { length self.old.held.items < self.old.plan.subfile }
        ensures some { (result ≤ length rest.now) × (0 < length rest.now → 0 < result) }
        ensures fills { CutterBecomes self.new (record self.old {
          held = record { items = self.old.held.items ++ take result rest.now; room = self.old.held.room };
        }) }
    {
        let room = (self.plan.subfile - self.held.len() as u64) as usize;
        let taken = room.min(rest.len());
        self.held.take(&rest[..taken]);
        taken
    }

    /// Consumes one or more octets from the start of the slice, and returns their number.
    fn consume_prefix(&mut self, rest: &[u8]) -> Result<usize, PackCause>
        requires { CutterMayAccept self.old rest.now }
        ensures room { CutterHasCapacity self.new }
        ensures same_room { self.new.held.room ≡ self.old.held.room }
        ensures ok { IfOk result (λ taken. (0 < taken) × (taken ≤ length rest.now)
            × WriterAccepts W.state (writing_of self.old) (writing_of self.new) (take taken rest.now)) }
        ensures err { IfErr result (λ cause. (cause ≡ causes.Write)
            × WriterFails W.state (IsWrittenOfMore self.old.plan rest.now) (writing_of self.old)
            (writing_of self.new)) }
    {
        writes_join();
        if self.held.len() as u64 == self.plan.subfile {
            return match self.flush() {
                Ok(()) => Ok(self.fill(rest)),
                Err(cause) => Err(cause),
            };
        }
        Ok(self.fill(rest))
    }

    /// Returns why `octets` more octets are rejected, or `None`.
    pub(crate) fn write_cause(&self, octets: usize) -> Option<PackCause>
        requires room { CutterHasCapacity self.now }
        requires small { octets < 2 ^ 63 }
        ensures { result ≡ write_cause (writing_of self.now) octets }
    {
        if self.failed {
            return Some(PackCause::Failed);
        }
        if self.total() + octets as u64 > self.plan.bound() {
            return Some(PackCause::PastAnnounced);
        }
        None
    }

    /// Returns why the object may not end, or `None`.
    pub(crate) fn finish_cause(&self) -> Option<PackCause>
        requires { CutterHasCapacity self.now }
        ensures { result ≡ finish_cause (writing_of self.now) }
    {
        if self.failed {
            return Some(PackCause::Failed);
        }
        if self.plan.is_short(self.total()) {
            return Some(PackCause::ShortOfAnnounced);
        }
        None
    }

    /// Implements [`crate::SubfileWriter::write`].
    pub(crate) fn write(&mut self, octets: &[u8]) -> Result<(), PackCause>
        requires { CutterHasCapacity self.old }
        ensures room { CutterHasCapacity self.new }
        ensures same_room { self.new.held.room ≡ self.old.held.room }
        ensures refused { IfSome (write_cause (writing_of self.old) (length octets.now))
            (λ cause. (result ≡ Err cause) × (self.new ≡ self.old)) }
        ensures ok { OnOk result (WriterAccepts W.state (writing_of self.old) (writing_of self.new) octets.now) }
        ensures broke { IfNone (write_cause (writing_of self.old) (length octets.now))
            (OnErr result (WriterFails W.state (IsWrittenOfMore self.old.plan octets.now) (writing_of self.old)
            (writing_of self.new))) }
        ensures cause { IfNone (write_cause (writing_of self.old) (length octets.now))
            (IfErr result (λ cause. cause ≡ causes.Write)) }
    {
        writes_join();
        if let Some(cause) = self.write_cause(octets.len()) {
            return Err(cause);
        }
        let mut at = 0;
        while at < octets.len() {
            match self.consume_prefix(&octets[at..]) {
                Ok(taken) => at += taken,
                Err(cause) => return Err(cause),
            }
        }
        Ok(())
    }

    /// Implements [`crate::SubfileWriter::finish`].
    pub(crate) fn finish(&mut self) -> Result<(), PackCause>
        requires { CutterHasCapacity self.old }
        ensures room { OnErr result (CutterHasCapacity self.new) }
        ensures same_room { self.new.held.room ≡ self.old.held.room }
        ensures refused { IfSome (finish_cause (writing_of self.old))
            (λ cause. (result ≡ Err cause) × (self.new ≡ self.old)) }
        ensures ok { OnOk result (WriterFinishes W.state (writing_of self.old) self.new.output.writer) }
        ensures broke { IfNone (finish_cause (writing_of self.old))
            (OnErr result (WriterFails W.state (IsWrittenOf self.old.plan) (writing_of self.old)
            (writing_of self.new))) }
        ensures cause { IfNone (finish_cause (writing_of self.old)) (IfErr result (λ cause. cause ≡ causes.Write)) }
    {
        writes_join();
        objects_split_uniquely();
        if let Some(cause) = self.finish_cause() {
            return Err(cause);
        }
        let total = self.total();
        match self
            .output
            .put_dataset(OBJECT, SUBFILE, self.held.as_slice())
        {
            Ok(()) => {}
            Err(cause) => {
                self.failed = true;
                return Err(cause);
            }
        }
        match self.output.put_number(POST_OBJECT, CONFIRMED_SIZE, total) {
            Ok(()) => Ok(()),
            Err(cause) => {
                self.failed = true;
                Err(cause)
            }
        }
    }
}
