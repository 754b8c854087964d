//! Receives copy: writes each envelope of standard input to standard output, and reports octets
//! that are rejected.
#![tactic(auto)]

ghost use Rattle.std.specs.Prelude.{◌≡◌, None, IfOk};
ghost use Rattle.std.specs.Io.KnownBytes.{IsAtEnd};
ghost use Rattle.iim_unpack.specs.States.Intakes.{input_of};

use anyhow::{Result, bail};
use iim_dataset::{FromRead, Source};
use iim_fields::{Envelope, Limits};
use iim_unpack::{Cause, Intake, IntakeFault, Unpacker};
use std::alloc::Global;
use std::io::{self, Write};
use std::process::ExitCode;
use wire_story::Lines;

/// The limits on records 1 and 2 of an envelope. Exactly this much memory is allocated before an
/// envelope is read.
const LIMITS: Limits = Limits::WIRE;

/// The exit status if the whole input was accepted.
const ACCEPTED: u8 = 0;

/// The exit status if octets were rejected.
const REFUSED: u8 = 1;

/// The exit status if a read, a write or an allocation failed.
const FAILED: u8 = 3;

fn main(rt: HostRuntime) -> ExitCode {
    // An intake reads one block at a time. Octets after an envelope are buffered for the next one.
    let mut intake = Intake::new(FromRead::new(rt.stdin()));
    let status = receive(rt.alloc(), &mut intake, &mut rt.stdout());
    ExitCode::from(status.unwrap_or_else(|error| {
        // If the error cannot be printed either, the exit status still reports the failure.
        let _ = eprintln!(rt; "{error}");
        FAILED
    }))
}

/// Writes each envelope, up to the end of the input or to the first refusal. Returns the exit
/// status.
fn receive<R: Source, W: Write>(alloc: Global, intake: &mut Intake<R>, output: &mut W) -> Result<u8>
    requires { intake.old.failed ≡ None }
    // The status is ACCEPTED only if the whole input was accepted.
    ensures { IfOk result (λ status. status ≡ ACCEPTED → IsAtEnd (input_of R.state intake.new).octets
        × (intake.new.failed ≡ None)) }
{
    'receiving: for number in 1..u64::MAX {
        // Each envelope has its own unpacker. The lines are passed to the sink while they are read.
        let unpacker = Unpacker::new(alloc, LIMITS)?;
        let mut lines = Lines::new(alloc);
        match intake.next_envelope(unpacker, &mut lines) {
            Ok(Some(unpacked)) => file(output, &unpacked.envelope, &lines)?,
            Ok(None) => return Ok(ACCEPTED),
            // The octets are invalid, and nothing of this envelope is written. The refusal has the
            // offset of the octet and the cause.
            Err(IntakeFault::Refused(refusal)) if refusal.cause != Cause::SINK => {
                writeln!(output, "envelope {number} {refusal}")?;
                return Ok(REFUSED);
            }
            // The sink could not allocate memory for a line, or the reader failed. The octets are
            // not the cause.
            Err(fault) => return Err(fault.into()),
        }
    }
    bail!("too many envelopes")
}

/// Writes the id of an envelope, its headline if it has one, and its lines, byte for byte.
fn file<W: Write>(output: &mut W, envelope: &Envelope, lines: &Lines) -> io::Result<()> {
    let id = envelope.id();
    for part in [id.service(), b" ", id.number(), b" ", id.date_sent(), b"\n"] {
        output.write_all(part)?;
    }
    for line in envelope.headline().into_iter().chain(lines.iter()) {
        output.write_all(line)?;
        output.write_all(b"\n")?;
    }
    Ok(())
}
