//! Targets of octets.

ghost use Rattle.std.specs.Prelude.{◌≡◌, ◌+◌, ◌<◌, ◌≤◌, length, take, IfOk, IfErr, OnOk, OnErr};
ghost use Rattle.iim_dataset.specs.Format.Datasets.{canonical_dataset};
ghost use Rattle.iim_dataset.specs.States.Devices.{Device, WriteAccepted, CountedFault, WroteAllOf, WroteOnlyPrefixOf, WithinInterruptionLimit, unbroken, writer_device};

use crate::device::{Faults, IoFault, MAX_INTERRUPTIONS};
use crate::device_laws::writes_join;
use crate::head::{Head, head_bytes};
use std::io::Write;

/// A target of octets. Its model in contracts is a `Device`: the octets that it accepted, if they
/// are known, and the counters of its faults.
pub trait Target {
    ghost state: { Self → Device };

    /// Writes octets from the start of the chunk, and returns the number of octets written. The
    /// number 0 for a non-empty chunk is a failure.
    ///
    /// **Errors:** the target failed or was interrupted. No octet was written.
    fn write(&mut self, piece: &[u8]) -> Result<usize, IoFault>
        ensures ok { IfOk result (WriteAccepted (state self.old) (state self.new) piece.now) }
        ensures err { IfErr result (CountedFault (state self.old) (state self.new)) };
}

/// Writes once, and retries after an interruption. A million interruptions in a row are an error.
fn send<W: Target>(writer: &mut W, piece: &[u8]) -> Result<usize, IoFault>
    requires { 0 < length piece.now }
    ensures within { IfOk result (λ n. n ≤ length piece.now) }
    ensures ok { IfOk result (λ n. 0 < n → WroteAllOf (W.state writer.old) (W.state writer.new) (take n piece.now)) }
    ensures none { IfOk result (λ n. n ≡ 0 → WroteOnlyPrefixOf (W.state writer.old) (W.state writer.new) piece.now 0) }
    ensures err { OnErr result (WroteOnlyPrefixOf (W.state writer.old) (W.state writer.new) piece.now 0) }
    ensures retry_limit { WithinInterruptionLimit 1 (W.state writer.old) (W.state writer.new) }
{
    for _ in 0..MAX_INTERRUPTIONS {
        match writer.write(piece) {
            Err(IoFault::Interrupted) => {}
            answer => return answer,
        }
    }
    Err(IoFault::Interrupted)
}

/// Writes all of the chunk.
///
/// **Errors:** the target failed, a write accepted no octet, or the target was interrupted a
/// million times in a row. The error is the number of octets that were written.
pub fn put<W: Target>(writer: &mut W, piece: &[u8]) -> Result<(), usize>
    ensures ok { OnOk result (WroteAllOf (W.state writer.old) (W.state writer.new) piece.now) }
    ensures err { IfErr result (WroteOnlyPrefixOf (W.state writer.old) (W.state writer.new) piece.now) }
    ensures retry_limit { WithinInterruptionLimit (length piece.now) (W.state writer.old) (W.state writer.new) }
    // After a million interruptions the counter is one million higher than before.
    ensures given_up { IfErr result (λ out.
        WithinInterruptionLimit (out + 1) (W.state writer.old) (W.state writer.new)) }
{
    let mut at = 0;
    while at < piece.len() {
        match send(writer, &piece[at..]) {
            Ok(0) | Err(_) => return Err(at),
            Ok(taken) => at += taken,
        }
    }
    Ok(())
}

/// Writes a dataset in its canonical encoding: its tag, and then its octets. Returns the number of
/// octets written.
///
/// **Errors:** those of [`put`], with the number of octets that were written.
pub fn put_dataset<W: Target>(writer: &mut W, rec: u8, set: u8, octets: &[u8]) -> Result<u64, u64>
    ensures ok { OnOk result (WroteAllOf (W.state writer.old) (W.state writer.new)
        (canonical_dataset record { rec = rec; set = set; octets = octets.now })) }
    ensures all { IfOk result (λ out. out
        ≡ length (canonical_dataset record { rec = rec; set = set; octets = octets.now })) }
    ensures err { IfErr result (WroteOnlyPrefixOf (W.state writer.old) (W.state writer.new)
        (canonical_dataset record { rec = rec; set = set; octets = octets.now })) }
    ensures retry_limit { WithinInterruptionLimit
        (length (canonical_dataset record { rec = rec; set = set; octets = octets.now })) (W.state writer.old)
        (W.state writer.new) }
    ensures given_up { IfErr result (λ out.
        WithinInterruptionLimit (out + 1) (W.state writer.old) (W.state writer.new)) }
{
    writes_join();
    let count = octets.len() as u64;
    let tag = head_bytes(Head { rec, set, count });
    let front = tag.as_slice();
    match put(writer, front) {
        Ok(()) => {}
        Err(out) => return Err(out as u64),
    }
    match put(writer, octets) {
        Ok(()) => Ok(front.len() as u64 + count),
        Err(out) => Err(front.len() as u64 + out as u64),
    }
}

/// Adapts a `std` writer to [`Target`]. Its counters of faults saturate at `u64::MAX`.
#[derive(Drop)]
pub struct FromWrite<W> {
    writer: W,
    faults: Faults,
}

impl<W: Write> FromWrite<W> {
    /// Wraps a writer as a target whose counters of faults are zero.
    pub fn new(writer: W) -> FromWrite<W>
        ensures { writer_device W.contents result ≡ unbroken (W.contents writer) }
    {
        FromWrite {
            writer,
            faults: Faults::new(),
        }
    }

    /// Returns the wrapped writer, with everything that was written to it.
    pub fn into_inner(self) -> W
        ensures { W.contents result ≡ (writer_device W.contents self).octets }
    {
        self.writer
    }
}

impl<W: Write> Target for FromWrite<W> {
    ghost state = { writer_device W.contents };

    fn write(&mut self, piece: &[u8]) -> Result<usize, IoFault> {
        match self.writer.write(piece) {
            Ok(count) => {
                if count == 0 && !piece.is_empty() {
                    self.faults.fail();
                }
                Ok(count)
            }
            Err(error) => Err(self.faults.count(error)),
        }
    }
}
