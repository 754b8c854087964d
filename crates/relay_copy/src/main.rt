//! Relays copy: sends each envelope of standard input to standard output, with one more dataset.
#![tactic(auto)]

ghost use Rattle.std.specs.Prelude.{◌≡◌, ◌++◌, ◌∷◌, [], None, IfOk};
ghost use Rattle.std.specs.Io.KnownBytes.{IsAtEnd};
ghost use Rattle.iim_unpack.specs.States.Intakes.{input_of};

use anyhow::{Context, Result, bail};
use iim_dataset::{FromRead, FromWrite, Source, Target};
use iim_fields::{Envelope, EnvelopeBuilder, Limits};
use iim_object::{Plan, Size};
use iim_pack::{pack, packed_size};
use iim_unpack::{Intake, Unpacked, Unpacker};
use std::alloc::Global;
use wire_story::Lines;

/// The limits on records 1 and 2 of a received envelope.
const RECEIVED: Limits = Limits::WIRE;

/// The limits on records 1 and 2 of an envelope that is sent. They allow for the added dataset.
const SENT: Limits = Limits {
    octets: 65_536 + 32,
    fields: 512 + 1,
};

/// The added dataset: 2:122 Writer/Editor, which may be repeated. It states which desk sent the
/// copy.
const DESK: (u8, u8, &[u8]) = (2, 122, b"RELAY");

fn main(rt: HostRuntime) -> Result<()> {
    let mut intake = Intake::new(FromRead::new(rt.stdin()));
    relay(rt.alloc(), &mut intake, FromWrite::new(rt.stdout()))
}

/// Relays each envelope. Succeeds only if the whole input was accepted.
fn relay<R: Source, W: Target + Drop>(
    alloc: Global,
    intake: &mut Intake<R>,
    output: W,
) -> Result<()>
    requires { intake.old.failed ≡ None }
    ensures { IfOk result (λ _. IsAtEnd (input_of R.state intake.new).octets × (intake.new.failed ≡ None)) }
{
    let mut output = output;
    'receiving: for number in 1..u64::MAX {
        let unpacker = Unpacker::new(alloc, RECEIVED)?;
        let mut lines = Lines::new(alloc);
        match intake.next_envelope(unpacker, &mut lines) {
            Ok(Some(unpacked)) => output = send(alloc, &unpacked, &lines, output)?,
            Ok(None) => return Ok(()),
            // The envelopes before this one were sent. No part of this one is sent.
            Err(fault) => bail!("envelope {number}: {fault}"),
        }
    }
    bail!("too many envelopes")
}

/// Sends an envelope with the dataset added. Its message is unchanged, in subfiles of 1,024 octets.
fn send<W: Target + Drop>(
    alloc: Global,
    unpacked: &Unpacked,
    lines: &Lines,
    output: W,
) -> Result<W> {
    let envelope = with_desk(alloc, &unpacked.envelope)?;
    let head = &unpacked.head;
    let trailer = unpacked.trailer.as_slice();
    let size = packed_size(head, lines, trailer).context("the story is too long")?;
    let plan = Plan::new(1_024, Size::Known(size)).context("the story is too long")?;
    match pack(alloc, &envelope, head, lines, trailer, plan, output) {
        Ok(output) => Ok(output),
        Err(fault) => Err(fault.cause.into()),
    }
}

/// Returns the envelope with the dataset added at the end of record 2.
fn with_desk(alloc: Global, envelope: &Envelope) -> Result<Envelope>
    ensures { IfOk result (λ sent. sent ≡ envelope.now ++ record { rec = DESK.0; set = DESK.1; octets = DESK.2.now }
        ∷ []) }
{
    let mut builder = EnvelopeBuilder::from(alloc, SENT, envelope)?;
    let (rec, set, octets) = DESK;
    builder.add(rec, set, octets)?;
    match builder.finish() {
        Ok(envelope) => Ok(envelope),
        Err((_, fault)) => Err(fault.into()),
    }
}
