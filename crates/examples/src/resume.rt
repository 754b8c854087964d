//! Receives an envelope in parts: each run continues in the state that the previous run saved in a
//! file.

ghost use Rattle.std.specs.Prelude.{◌↔◌, IsTrue, IfOk};
ghost use Rattle.iim_unpack.specs.States.Unpacking.{IsDone};

use anyhow::{Result, bail, ensure};
use byteorder::{BigEndian, ByteOrder};
use iim_dataset::{FromRead, FromWrite, Source, take};
use iim_fields::Limits;
use iim_unpack::{Progress, Unpacker};
use std::fs;
use std::process::ExitCode;
use wire_story::{LineWriter, StorySink};

/// The limits on records 1 and 2 of an envelope. They must be the same in each run.
const LIMITS: Limits = Limits::WIRE;

/// Receives a part. If the part is rejected or a call fails, the file is unchanged, and the part
/// can be sent again. Text of the part that was already written is then written a second time.
pub fn run(rt: &HostRuntime, name: &str) -> Result<ExitCode> {
    let mut unpacker = load(rt, name)?;
    // The state of a sink is not saved. Lines are written while they are read, joined by LF, and
    // the next run continues a partial line.
    let mut lines = LineWriter::new(FromWrite::new(rt.stdout()));
    if !receive(&mut unpacker, &mut FromRead::new(rt.stdin()), &mut lines)? {
        store(rt, name, &unpacker)?;
        return Ok(ExitCode::from(4));
    }
    println!(rt; "")?;
    if fs::exists(rt, name)? {
        fs::remove_file(rt, name)?;
    }
    Ok(ExitCode::SUCCESS)
}

/// Restores the unpacker from the file, which has the number of octets received, in eight octets,
/// and the ticket.
fn load(rt: &HostRuntime, name: &str) -> Result<Unpacker> {
    if !fs::exists(rt, name)? {
        return Ok(Unpacker::new(rt.alloc(), LIMITS)?);
    }
    let place = fs::read(rt, name)?;
    ensure!(place.len() >= 8, "the place is cut short");
    let octets = BigEndian::read_u64(&place[..8]);
    Ok(Unpacker::restore(rt.alloc(), LIMITS, &place[8..], octets)?)
}

/// Saves the state. A new file replaces the old one atomically, so that an interruption leaves the
/// old state in place.
fn store(rt: &HostRuntime, name: &str, unpacker: &Unpacker) -> Result<()> {
    let mut place = Vec::from_slice(rt.alloc(), &unpacker.octets().to_be_bytes())?;
    place.extend_from_slice(&unpacker.save(rt.alloc())?)?;
    let new = format!(in rt.alloc(); "{name}.new")?;
    fs::write(rt, new.as_str(), &place)?;
    Ok(fs::rename(rt, new.as_str(), name)?)
}

/// Feeds the whole input to an unpacker. Returns whether the envelope is complete.
fn receive<R: Source, S: StorySink>(to: &mut Unpacker, from: &mut R, lines: &mut S) -> Result<bool>
    ensures { IfOk result (λ ended. IsTrue ended ↔ IsDone to.new) }
{
    let mut block = [0; 4096];
    'receiving: for _ in 0..u64::MAX {
        let count = match take(from, &mut block) {
            Ok(0) => return Ok(to.is_done()),
            Ok(count) => count,
            Err(_) => bail!("cannot read"),
        };
        match to.feed(&block[..count], lines) {
            Ok(Progress::Done { used }) => ensure!(used == count, "octets follow the envelope"),
            Ok(Progress::More) => {}
            Err(refusal) => bail!("{refusal}"),
        }
    }
    bail!("too many blocks")
}
