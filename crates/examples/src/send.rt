//! Sends copy: builds an envelope from a few values, and packs it to standard output with the lines
//! of standard input, which must be UTF-8.

ghost use Rattle.std.specs.Prelude.{◌≡◌, map, IfOk};

use anyhow::{Context, Result};
use iim_dataset::{FromWrite, Target};
use iim_fields::{Envelope, EnvelopeBuilder, Limits};
use iim_object::{Plan, Size};
use iim_pack::Packer;
use std::alloc::Global;
use wire_message::MessageHead;

/// The limits on the envelope's datasets. Exactly this much memory is allocated before the first
/// dataset is added.
const LIMITS: Limits = Limits {
    octets: 1_024,
    fields: 16,
};

/// The datasets of records 1 and 2: record, number and data of each.
const FIELDS: [(u8, u8, &[u8]); 9] = [
    // Model Version, File Format (2: a message) and its version.
    (1, 0, b"\0\x04"),
    (1, 20, b"\0\x02"),
    (1, 22, b"\0\x01"),
    // Service Identifier, Envelope Number and Date Sent, which identify the envelope.
    (1, 30, b"TST"),
    (1, 40, b"00000002"),
    (1, 70, b"20240301"),
    // Record Version, Headline and By-line.
    (2, 0, b"\0\x04"),
    (2, 105, b"Rates held"),
    (2, 80, b"A. Moor"),
];

/// Sends one envelope.
pub fn run(rt: &HostRuntime) -> Result<()> {
    let envelope = build(rt.alloc())?;
    // The parts of the message header: source, number, priority, category, announced words and
    // info.
    let head = MessageHead::new(b"TST", b"0007", b"4", b"ECO", b"4", b"rates");
    let head = head.context("bad header")?;
    // Subfiles of 1,024 octets. The length of the story is not known yet.
    let plan = Plan::new(1_024, Size::Unknown(None)).context("bad plan")?;
    send(rt, &envelope, &head, plan)
}

/// Packs the envelope with the lines of the input.
fn send(rt: &HostRuntime, envelope: &Envelope, head: &MessageHead, plan: Plan) -> Result<()> {
    let output = FromWrite::new(rt.stdout());
    let started = Packer::start(rt.alloc(), envelope, head, plan, output);
    let mut packer = started.map_err(|fault| fault.cause)?;
    pack_lines(rt, &mut packer)?;
    // The message has no trailer. If this call fails, what was written is not an envelope.
    packer.finish(b"").map_err(|(_, cause)| cause)?;
    Ok(())
}

/// Builds the envelope. Each dataset is checked when it is added, and at the end the builder checks
/// that no mandatory dataset is missing.
fn build(alloc: Global) -> Result<Envelope>
    ensures { IfOk result (λ envelope. envelope ≡ map (λ f. record { rec = f.0; set = f.1; octets = f.2.now }) FIELDS) }
{
    let mut builder = EnvelopeBuilder::new(alloc, LIMITS)?;
    for (rec, set, octets) in FIELDS {
        builder.add(rec, set, octets)?;
    }
    Ok(builder.finish().map_err(|(_, fault)| fault)?)
}

/// Packs the lines of the input while they are read, with a line end between two lines. The packer
/// buffers at most one subfile.
fn pack_lines<R: Input + Alloc, W: Target>(rt: &R, packer: &mut Packer<W>) -> Result<()> {
    for (at, line) in rt.lines(rt.alloc()).enumerate() {
        if at > 0 {
            packer.line_end()?;
        }
        packer.text(line?.as_bytes())?;
    }
    Ok(())
}
