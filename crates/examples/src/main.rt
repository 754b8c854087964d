//! Three examples in one program. The first argument names the one to run: `json`, `send` or
//! `resume`.
#![tactic(auto)]

mod json;
mod resume;
mod send;

use anyhow::{Result, bail};
use std::env;
use std::process::ExitCode;

fn main(rt: HostRuntime) -> Result<ExitCode> {
    let words: Vec<String> = env::args(&rt)?.skip(1).collect(rt.alloc())?;
    let words: Vec<&str> = words.iter().map(String::as_str).collect(rt.alloc())?;
    match words.as_slice() {
        ["json"] => json::run(&rt)?,
        ["send"] => send::run(&rt)?,
        ["resume", place] => return resume::run(&rt, place),
        _ => bail!("usage: examples json | send | resume PLACE"),
    }
    Ok(ExitCode::SUCCESS)
}
