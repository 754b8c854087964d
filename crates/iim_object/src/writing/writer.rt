//! A writer of an object in subfiles.

ghost use Rattle.std.specs.Prelude.{◌≡◌, ◌⊎◌, ◌+◌, ◌<◌, ◌≤◌, ◌^◌, [], length, IfOk, IfErr, OnOk, OnErr, IfSome, IfNone, Err};
ghost use Rattle.iim_dataset.specs.States.Devices.{WroteAllOf, WroteOnlyPrefixOf, WithinInterruptionLimit};
ghost use Rattle.iim_object.specs.Format.Objects.{most_out};
ghost use Rattle.iim_object.specs.States.Writing.{HasWritten, WriterAccepts, WriterFails, IsWrittenOfMore, IsWrittenOf, WriterFinishes, write_cause, finish_cause, RejectsOctets, RejectsEnd, plan_octets, total_of, plan_bound, plan_capacity};
ghost use Rattle.iim_object.specs.declared.writing.cause.PackCause.{PackCause as PackCauseValue};
ghost use Rattle.iim_object.specs.declared.writing.cause.PackCause.TheVariants as causes;

use crate::plan::Plan;
use crate::writing::buffer::SubfileBuffer;
use crate::writing::cause::{PackCause, StartFault};
use crate::writing::cutter::Cutter;
use crate::writing::output::Output;
use iim_dataset::Target;
use iim_dataset::device_laws::writes_join;
use std::marker::Model;

/// Writes an object according to a plan: record 7, subfiles and record 9. It stores only its
/// buffer, whose length is a full subfile or the bound of the plan, whichever is less. No call
/// allocates: [`SubfileBuffer::reserve`] has allocated the buffer.
///
/// Its contracts hold for every object so far. Its model in contracts is its plan, the buffered
/// octets, its capacity, the number of octets of the object that were written, the number of all
/// octets that were written, whether a write failed, and its target.
#[derive(Drop)]
pub struct SubfileWriter<W> {
    cutter: Cutter<W>,
}

impl<W> Model for SubfileWriter<W> {
    ghost use Rattle.iim_object.specs.States.Writing.{Writing};
    ghost use Rattle.iim_object.specs.Steps.{writing_of, CutterHasCapacity};

    ghost Value = { Writing W };

    ghost view = { λ w. writing_of w.cutter };

    ghost invariant = { λ w. CutterHasCapacity w.cutter };
}

impl<W: Target> SubfileWriter<W> {
    /// Writes record 7 of the buffer's plan. The object is then empty.
    ///
    /// **Errors:** the target failed. The error has the target, and the number of octets of record
    /// 7 that were written.
    pub fn start(buffer: SubfileBuffer, writer: W) -> Result<SubfileWriter<W>, StartFault<W>>
        ensures plan { IfOk result (λ w. w.plan ≡ buffer) }
        ensures room { IfOk result (λ w. w.room ≡ plan_capacity buffer) }
        ensures stands { IfOk result (λ w. HasWritten w [] (plan_octets buffer)) }
        ensures wrote { IfOk result (λ w. WroteAllOf (W.state writer) (W.state w.writer) (plan_octets buffer)) }
        ensures cause { IfErr result (λ fault. fault.cause ≡ causes.Write) }
        ensures stopped { IfErr result (λ fault.
            WroteOnlyPrefixOf (W.state writer) (W.state fault.writer) (plan_octets buffer) fault.written) }
        ensures retry_limit { IfOk result (λ w.
            WithinInterruptionLimit (length (plan_octets buffer)) (W.state writer) (W.state w.writer)) }
        ensures given_up { IfErr result (λ fault.
            WithinInterruptionLimit (fault.written + 1) (W.state writer) (W.state fault.writer)) }
    {
        let SubfileBuffer { plan, octets } = buffer;
        let mut output = Output { writer, written: 0 };
        match output.put_plan(plan) {
            Ok(()) => {
                let cutter = Cutter {
                    plan,
                    held: octets,
                    sent: 0,
                    output,
                    failed: false,
                };
                Ok(SubfileWriter { cutter })
            }
            Err(cause) => {
                let Output { writer, written } = output;
                Err(StartFault {
                    cause,
                    writer,
                    written,
                })
            }
        }
    }

    /// Writes octets of the object: buffers them, and writes each full subfile.
    ///
    /// **Errors:** `Failed` after a failed write. `PastAnnounced` if the object would exceed the
    /// bound of the plan; nothing has changed then. `Write` if a write fails; what was written is
    /// then a prefix of an encoding that the plan allows for some object that begins with these
    /// octets.
    pub fn write(&mut self, octets: &[u8]) -> Result<(), PackCause>
        // Each error is returned if and only if its condition holds, and nothing has changed then.
        ensures causes { (cause : PackCauseValue) → RejectsOctets self.old (length octets.now) cause
            → (result ≡ Err cause) × (self.new ≡ self.old) }
        ensures only { IfErr result (λ cause. (cause ≡ causes.Write)
            ⊎ RejectsOctets self.old (length octets.now) cause) }
        ensures refused { IfSome (write_cause self.old (length octets.now))
            (λ cause. (result ≡ Err cause) × (self.new ≡ self.old)) }

        // Otherwise the octets are accepted, or a write failed.
        ensures ok { OnOk result (WriterAccepts W.state self.old self.new octets.now) }
        ensures cause { IfNone (write_cause self.old (length octets.now))
            (IfErr result (λ cause. cause ≡ causes.Write)) }
        ensures broke { IfNone (write_cause self.old (length octets.now))
            (OnErr result (WriterFails W.state (IsWrittenOfMore self.old.plan octets.now) self.old self.new)) }

        // The call does not allocate.
        ensures room { self.new.room ≡ self.old.room }
    {
        self.cutter.write(octets)
    }

    /// Writes the last subfile and record 9, and returns the target.
    ///
    /// **Errors:** `Failed` after a failed write. `ShortOfAnnounced` if the object is shorter than
    /// a known size; the error has the unchanged writer. `Write` if a write fails; what was written
    /// is then a prefix of the encoding of the object under the plan.
    pub fn finish(self) -> Result<W, (SubfileWriter<W>, PackCause)>
        // Each error is returned if and only if its condition holds, and nothing has changed then.
        ensures causes { (cause : PackCauseValue) → RejectsEnd self cause → result ≡ Err (self, cause) }
        ensures only { IfErr result (λ refused. (refused.1 ≡ causes.Write) ⊎ RejectsEnd self refused.1) }
        ensures refused { IfSome (finish_cause self) (λ cause. result ≡ Err (self, cause)) }

        // Otherwise the object is written, or a write failed.
        ensures ok { IfOk result (λ writer. WriterFinishes W.state self writer) }
        ensures cause { IfNone (finish_cause self) (IfErr result (λ refused. refused.1 ≡ causes.Write)) }
        ensures broke { IfNone (finish_cause self)
            (IfErr result (λ refused. WriterFails W.state (IsWrittenOf self.plan) self refused.0)) }

        // The call does not allocate.
        ensures room { IfErr result (λ refused. refused.0.room ≡ self.room) }
    {
        let mut cutter = self.cutter;
        match cutter.finish() {
            Ok(()) => Ok(cutter.output.writer),
            Err(cause) => Err((SubfileWriter { cutter }, cause)),
        }
    }

    /// Returns the number of octets of the object so far, which is at most the bound of the plan.
    /// The last of them may still be buffered, at most a full subfile or the bound.
    pub fn total(&self) -> u64
        ensures total { result ≡ total_of self.now }
        ensures fits { result ≤ plan_bound self.now.plan }
        ensures holds { length self.now.held ≤ plan_capacity self.now.plan }
    {
        self.cutter.total()
    }

    /// Checks whether a write failed.
    pub fn is_failed(&self) -> bool
        ensures { result ≡ self.now.failed }
    {
        self.cutter.failed
    }

    /// Returns the plan.
    pub fn plan(&self) -> Plan
        ensures { result ≡ self.now.plan }
    {
        self.cutter.plan
    }

    /// Returns the number of octets that were written.
    pub fn written(&self) -> u64
        ensures count { result ≡ self.now.written }
        ensures small { result < most_out }
    {
        self.cutter.output.written
    }

    /// Returns the target, in its current state.
    pub fn into_writer(self) -> W
        ensures { result ≡ self.writer }
    {
        self.cutter.output.writer
    }
}
