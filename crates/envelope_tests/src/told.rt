//! Prints the results of tests.

use crate::outcome::{End, Trouble};
use std::io;

/// Whether all tests so far had the expected result.
#[derive(Drop)]
pub(crate) struct Told {
    are_right: bool,
}

impl Told {
    /// Creates the value for the time before the first test.
    pub(crate) fn new() -> Told {
        Told { are_right: true }
    }

    /// Prints the result of a test.
    pub(crate) fn trial(
        &mut self,
        rt: &impl Print,
        name: &str,
        came: Result<(), Trouble>,
    ) -> io::Result<()> {
        match came {
            Ok(()) => println!(rt; "{name}: as worked"),
            Err(trouble) => {
                self.are_right = false;
                println!(rt; "{name}: {trouble}")
            }
        }
    }

    /// Returns an error if a test did not have the expected result.
    pub(crate) fn end(&self) -> Result<(), End> {
        if self.are_right {
            Ok(())
        } else {
            Err(End::Wrong)
        }
    }
}
