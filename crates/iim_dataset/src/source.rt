//! Sources of octets.

ghost use Rattle.std.specs.Prelude.{◌≡◌, ◌<◌, IfOk, IfErr, OnOk};
ghost use Rattle.iim_dataset.specs.States.Devices.{Device, ReadGave, CountedNoFault, CountedFault, ReadTook, ReadFailed, WithinInterruptionLimit, IsAfterReads, unbroken, reader_device};

use crate::device::{Faults, IoFault, MAX_INTERRUPTIONS};
use std::io::Read;

/// The number of octets that one read asks for when an input is read in blocks.
pub const BLOCK: usize = 4096;

/// A source of octets. Its model in contracts is a `Device`: the octets that it will still return,
/// if they are known, and the counters of its faults.
pub trait Source {
    ghost state: { Self → Device };

    /// Relates a source to each value that it can have after some reads.
    ghost leads: { Self → Self → Type 0 };

    /// Reads octets into the start of the buffer, and returns the number of octets read. The number
    /// is 0 only at the end of the source, or if the buffer is empty.
    ///
    /// **Errors:** the source failed or was interrupted; no octet was read.
    fn read(&mut self, buffer: &mut [u8]) -> Result<usize, IoFault>
        ensures ok { IfOk result (ReadGave (state self.old) (state self.new) buffer.new) }
        ensures no_failure { OnOk result (CountedNoFault (state self.old) (state self.new)) }
        ensures err { IfErr result (CountedFault (state self.old) (state self.new)) }
        ensures leads { leads self.old self.new };

    /// A source can have its own value after no read.
    ghost stays: { (a : Self) → leads a a };

    /// Reads can follow other reads: `leads` is transitive.
    ghost leads_on: { (a b c : Self) → leads a b → leads b c → leads a c };
}

/// Reads once, and retries after an interruption. Returns the number of octets read into the start
/// of the buffer. The number is 0 only at the end of the source, or if the buffer is empty.
///
/// **Errors:** the source failed, or was interrupted a million times in a row. No octet was read.
pub fn take<R: Source>(reader: &mut R, buffer: &mut [u8]) -> Result<usize, IoFault>
    ensures ok { IfOk result (ReadTook (R.state reader.old) (R.state reader.new) buffer.new) }
    ensures err { IfErr result (ReadFailed (R.state reader.old) (R.state reader.new)) }
    ensures retry_limit { WithinInterruptionLimit 1 (R.state reader.old) (R.state reader.new) }
    ensures leads { R.leads reader.old reader.new }
{
    for _ in 0..MAX_INTERRUPTIONS {
        match reader.read(buffer) {
            Err(IoFault::Interrupted) => {}
            answer => return answer,
        }
    }
    Err(IoFault::Interrupted)
}

/// Adapts a `std` reader to [`Source`]. Its counters of faults saturate at `u64::MAX`.
#[derive(Drop)]
pub struct FromRead<R> {
    reader: R,
    faults: Faults,
}

impl<R: Read> FromRead<R> {
    /// Wraps a reader as a source whose counters of faults are zero.
    pub fn new(reader: R) -> FromRead<R>
        ensures { reader_device R.remaining result ≡ unbroken (R.remaining reader) }
    {
        FromRead {
            reader,
            faults: Faults::new(),
        }
    }
}

impl<R: Read> Source for FromRead<R> {
    ghost state = { reader_device R.remaining };

    ghost leads = { λ old new. IsAfterReads (reader_device R.remaining old) (reader_device R.remaining new) };

    ghost use Rattle.iim_dataset.specs.Steps.{is_after_reads-refl, is_after_reads-trans};

    ghost stays = { λ a. is_after_reads-refl (reader_device R.remaining a) };

    ghost leads_on = { λ a b c.
        is_after_reads-trans (reader_device R.remaining a) (reader_device R.remaining b)
        (reader_device R.remaining c) };

    fn read(&mut self, buffer: &mut [u8]) -> Result<usize, IoFault> {
        match self.reader.read(buffer) {
            Ok(count) => Ok(count),
            Err(error) => Err(self.faults.count(error)),
        }
    }
}
