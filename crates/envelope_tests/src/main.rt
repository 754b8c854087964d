//! Tests the public functions that unpack and pack complete envelopes, and prints the results.
//!
//! The functions that allocate are tested first ([`memory`]); with the argument `memory` only these
//! are tested. Then come the unpacker and the audit with readers that fail and sinks that count
//! calls, the packer and the commands with readers and writers that fail, round trips, and lemmas.
//! Last come the tests of the layers below (`layer_tests`). The file `stdout` has the expected
//! lines.
//!
//! All tests are in one program, because proving any program takes a fixed time for the crates that
//! it uses, and a separate test would be proved twice. Tests of octets alone are in
//! `crates/vectors`, and tests with the operating system are in `tests/command`.
#![tactic(auto)]

mod audits;
mod commands;
mod faults;
mod given;
mod memory;
mod outcome;
mod packing;
mod round_trips;
mod scripts;
mod told;
mod unpacking;

use outcome::End;
use std::alloc::Global;
use std::env::Env;
use std::io::{self, Write};
use std::process::ExitCode;
use told::Told;

/// Checks whether the first argument is `memory`. Allocates nothing.
fn asks_for_memory(rt: &impl Env) -> bool {
    let mut word = [0u8; 6];
    matches!(rt.arg(1, &mut word), Ok(6)) && word == *b"memory"
}

/// Runs all tests.
fn tell_trials(rt: &impl Print, told: &mut Told, alloc: Global) -> io::Result<()> {
    audits::tell(rt, told, alloc)?;
    commands::tell(rt, told, alloc)?;
    packing::tell(rt, told, alloc)?;
    round_trips::tell(rt, told, alloc)?;
    scripts::tell(rt, told, alloc)?;
    unpacking::tell(rt, told, alloc)?;
    faults::tell(rt)
}

/// Prints the results of the tests of the layers below.
fn tell_layers(rt: &HostRuntime) -> Result<(), End> {
    let lines = layer_tests::lines(rt.alloc());
    let Some(text) = lines.text() else {
        return Err(End::Refused);
    };
    rt.stdout().write_all(text)?;
    Ok(())
}

/// Tests the functions that allocate and, without the argument `memory`, runs all other tests.
fn tell(rt: &HostRuntime) -> Result<(), End> {
    memory::tell_all(rt)?;
    if asks_for_memory(rt) {
        return Ok(());
    }
    let mut told = Told::new();
    tell_trials(rt, &mut told, rt.alloc())?;
    tell_layers(rt)?;
    told.end()
}

fn main(rt: HostRuntime) -> ExitCode {
    match tell(&rt) {
        Ok(()) => ExitCode::SUCCESS,
        Err(End::Refused) => ExitCode::from(3),
        Err(End::CannotWrite) => ExitCode::from(4),
        Err(End::Wrong) => ExitCode::from(5),
    }
}
