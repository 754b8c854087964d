//! A target that counts the octets written to it, and writing datasets to this target.

ghost use Rattle.std.specs.Prelude.{◌≡◌, ◌+◌, ◌^◌, ◌<◌, ◌≤◌, length, IfErr, OnOk, OnErr};
ghost use Rattle.iim_dataset.specs.Format.Datasets.{canonical_dataset, canonical_stream, count_octets, tag_octets};
ghost use Rattle.iim_dataset.specs.Format.Octets.{greatest_size};
ghost use Rattle.iim_object.specs.Format.Packing.{number_dataset, size_datasets, plan_datasets, is_known};
ghost use Rattle.iim_object.specs.Format.Objects.{limit_of, mode_number};
ghost use Rattle.iim_object.specs.Steps.{OutputWrites, OutputFails};
ghost use Rattle.iim_object.specs.declared.writing.cause.PackCause.TheVariants as causes;

use crate::plan::Plan;
use crate::size::Size;
use crate::writing::cause::PackCause;
use iim_dataset::device_laws::writes_join;
use iim_dataset::{Target, number_bytes, put_dataset};
use iim_tables::records::{ANNOUNCED_SIZE, MAX_SUBFILE_SIZE, MAXIMUM_SIZE, PRE_OBJECT, SIZE_MODE};

/// A target, and the number of octets written to it.
#[derive(Drop)]
pub(crate) struct Output<W> {
    /// The target.
    pub writer: W,
    /// The number of octets that were written.
    pub written: u64,
}

impl<W: Target> Output<W> {
    /// Writes a dataset in its canonical encoding.
    pub(crate) fn put_dataset(&mut self, rec: u8, set: u8, octets: &[u8]) -> Result<(), PackCause>
        requires room { self.old.written + tag_octets + length octets.now < 2 ^ 64 }
        ensures ok { OnOk result (OutputWrites W.state self.old self.new
            (canonical_dataset record { rec = rec; set = set; octets = octets.now })) }
        ensures err { OnErr result (OutputFails W.state self.old self.new
            (canonical_dataset record { rec = rec; set = set; octets = octets.now })) }
        ensures cause { IfErr result (λ cause. cause ≡ causes.Write) }
    {
        match put_dataset(&mut self.writer, rec, set, octets) {
            Ok(out) => {
                self.written += out;
                Ok(())
            }
            Err(out) => {
                self.written += out;
                Err(PackCause::Write)
            }
        }
    }

    /// Writes a dataset whose value is a number.
    pub(crate) fn put_number(&mut self, rec: u8, set: u8, n: u64) -> Result<(), PackCause>
        requires fits { n ≤ greatest_size }
        requires room { self.old.written + tag_octets + count_octets < 2 ^ 64 }
        ensures ok { OnOk result (OutputWrites W.state self.old self.new (canonical_dataset
            (number_dataset rec set n))) }
        ensures err { OnErr result (OutputFails W.state self.old self.new (canonical_dataset
            (number_dataset rec set n))) }
        ensures cause { IfErr result (λ cause. cause ≡ causes.Write) }
    {
        let octets = number_bytes(n);
        self.put_dataset(rec, set, octets.as_slice())
    }

    /// Writes 7:90 if the size is known, 7:95 if there is a maximum, and nothing otherwise.
    fn put_size_number(&mut self, size: Size) -> Result<(), PackCause>
        requires fits { limit_of size ≤ greatest_size }
        requires room { self.old.written + tag_octets + count_octets < 2 ^ 64 }
        ensures ok { OnOk result (OutputWrites W.state self.old self.new (canonical_stream (size_datasets size))) }
        ensures err { OnErr result (OutputFails W.state self.old self.new (canonical_stream (size_datasets size))) }
        ensures cause { IfErr result (λ cause. cause ≡ causes.Write) }
    {
        writes_join();
        match size {
            Size::Known(octets) => self.put_number(PRE_OBJECT, ANNOUNCED_SIZE, octets),
            Size::Unknown(Some(maximum)) => self.put_number(PRE_OBJECT, MAXIMUM_SIZE, maximum),
            Size::Unknown(None) => Ok(()),
        }
    }

    /// Writes record 7 of a plan.
    pub(crate) fn put_plan(&mut self, plan: Plan) -> Result<(), PackCause>
        requires room { self.old.written + 256 < 2 ^ 64 }
        ensures ok { OnOk result (OutputWrites W.state self.old self.new
            (canonical_stream (plan_datasets plan.subfile plan.size))) }
        ensures err { OnErr result (OutputFails W.state self.old self.new
            (canonical_stream (plan_datasets plan.subfile plan.size))) }
        ensures cause { IfErr result (λ cause. cause ≡ causes.Write) }
    {
        writes_join();
        match self.put_dataset(PRE_OBJECT, SIZE_MODE, &[mode_of(plan.size)]) {
            Ok(()) => {}
            Err(cause) => return Err(cause),
        }
        match self.put_number(PRE_OBJECT, MAX_SUBFILE_SIZE, plan.subfile) {
            Ok(()) => {}
            Err(cause) => return Err(cause),
        }
        self.put_size_number(plan.size)
    }
}

/// Returns the size mode of a plan: 1 if its size is known.
fn mode_of(size: Size) -> u8
    ensures { result ≡ mode_number (is_known size) }
{
    match size {
        Size::Known(_) => 1,
        Size::Unknown(_) => 0,
    }
}
