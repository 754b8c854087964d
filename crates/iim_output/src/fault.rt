//! Errors of commands.

ghost use Rattle.std.specs.Prelude.{◌≡◌};

use std::alloc::AllocError;
use std::error::Error;
use std::fmt;
use std::fmt::{Display, Formatter};

/// An error that does not concern the octets of the input.
#[derive(Clone, Copy, Debug, PartialEq, Eq)]
pub enum CommandFault {
    /// A read of the input failed, or was interrupted too often.
    CannotRead,
    /// A write to the output failed.
    CannotWrite,
    /// An allocation failed.
    OutOfMemory,
}

impl CommandFault {
    ghost use Rattle.iim_output.specs.Format.{fault_line};

    /// Returns the line that the command prints for this error.
    pub fn line(self) -> &'static str
        ensures { result.now ≡ fault_line self }
    {
        match self {
            CommandFault::CannotRead => "cannot read\n",
            CommandFault::CannotWrite => "cannot write\n",
            CommandFault::OutOfMemory => "out of memory\n",
        }
    }
}

/// Writes the line without its LF.
impl Display for CommandFault {
    fn fmt<W: fmt::Write>(&self, f: &mut Formatter<W>) -> fmt::Result {
        f.write_str(match self {
            CommandFault::CannotRead => "cannot read",
            CommandFault::CannotWrite => "cannot write",
            CommandFault::OutOfMemory => "out of memory",
        })
    }
}

impl Error for CommandFault {}

impl From<AllocError> for CommandFault {
    ghost use Rattle.iim_output.specs.declared.fault.CommandFault.TheVariants.{OutOfMemory};

    ghost from_gives = { λ _ fault. fault ≡ OutOfMemory };

    fn from(_error: AllocError) -> CommandFault {
        CommandFault::OutOfMemory
    }
}
