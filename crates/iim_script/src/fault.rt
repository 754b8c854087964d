//! Errors of scripts.

ghost use Rattle.std.specs.Prelude.{◌≡◌, ◌≤◌};
ghost use Rattle.iim_script.specs.Format.Causes.{script_cause_number, script_cause_name};
ghost use Rattle.iim_script.specs.Steps.{number_after};
ghost use Rattle.iim_script.specs.Format.Scripts.{max_script};

use iim_fields::FieldCause;
use std::alloc::AllocError;
use std::fmt;
use std::fmt::{Display, Formatter};
use thiserror::Error;

/// Why a line of a script is rejected.
#[derive(Clone, Copy, Debug, PartialEq, Eq)]
pub enum ScriptCause {
    /// The line is malformed or in the wrong position, or an expected line is missing.
    ScriptLine,
    /// The script has more than 16,777,216 octets. Reported with line 0.
    ScriptTooLong,
    /// The dataset of the line is rejected, or a dataset is missing.
    Field(FieldCause),
    /// The octets are not a valid trailer.
    BadTrailer,
    /// A line of the story has an octet that is not allowed in a line.
    BadTextOctet,
    /// Memory allocation failed. Reported with line 0.
    OutOfMemory,
}

impl ScriptCause {
    /// Returns the number as it is printed.
    pub fn number(self) -> u8
        ensures { result ≡ script_cause_number self }
    {
        match self {
            ScriptCause::ScriptLine => 91,
            ScriptCause::ScriptTooLong => 92,
            ScriptCause::Field(cause) => cause.number(),
            ScriptCause::BadTrailer => 83,
            ScriptCause::BadTextOctet => 82,
            ScriptCause::OutOfMemory => 70,
        }
    }

    /// Returns the name as it is printed.
    pub fn name(self) -> &'static str
        ensures { result.now ≡ script_cause_name self }
    {
        match self {
            ScriptCause::ScriptLine => "ScriptLine",
            ScriptCause::ScriptTooLong => "ScriptTooLong",
            ScriptCause::Field(cause) => cause.name(),
            ScriptCause::BadTrailer => "BadTrailer",
            ScriptCause::BadTextOctet => "BadTextOctet",
            ScriptCause::OutOfMemory => "OutOfMemory",
        }
    }
}

/// Writes the number and the name, for example `91 ScriptLine`.
impl Display for ScriptCause {
    fn fmt<W: fmt::Write>(&self, f: &mut Formatter<W>) -> fmt::Result {
        let number = self.number();
        let name = self.name();
        write!(f, "{number} {name}")
    }
}

impl std::error::Error for ScriptCause {}

/// An error in a script: the line, counted from 1, and the cause.
#[derive(Clone, Copy, Debug, PartialEq, Eq, Error, Drop)]
#[error("script line {line} cause {} {}", .cause.number(), .cause.name())]
pub struct ScriptFault {
    /// The number of the line, or 0 if the error is not in a line.
    pub line: u64,
    /// Why the line is rejected.
    pub cause: ScriptCause,
}

/// Creates the error of the line after the first `lines` lines. An allocation failure is reported
/// with line 0.
pub(crate) fn fault_after(lines: u64, cause: ScriptCause) -> ScriptFault
    requires { lines ≤ max_script }
    ensures line { result.line ≡ number_after lines cause }
    ensures cause { result.cause ≡ cause }
{
    let line = match cause {
        ScriptCause::OutOfMemory => 0,
        _ => lines + 1,
    };
    ScriptFault { line, cause }
}

impl From<AllocError> for ScriptCause {
    ghost use Rattle.iim_script.specs.declared.fault.ScriptCause.TheVariants.{OutOfMemory};

    ghost from_gives = { λ _ cause. cause ≡ OutOfMemory };

    fn from(_error: AllocError) -> ScriptCause {
        ScriptCause::OutOfMemory
    }
}
