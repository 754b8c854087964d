//! Why an unpacker returned no ticket.

ghost use Rattle.std.specs.Prelude.{◌≡◌};
ghost use Rattle.iim_unpack.specs.Format.Faults.{save_number, save_name};

use crate::ticket::spelling::SaveFault;

impl SaveFault {
    /// Returns the number of the cause, as it is printed.
    pub fn number(self) -> u8
        ensures { result ≡ save_number self }
    {
        match self {
            SaveFault::Failed => 61,
            SaveFault::OutOfMemory => 70,
        }
    }

    /// Returns the name of the cause, as it is printed.
    pub fn name(self) -> &'static str
        ensures { result.now ≡ save_name self }
    {
        match self {
            SaveFault::Failed => "Failed",
            SaveFault::OutOfMemory => "OutOfMemory",
        }
    }
}
