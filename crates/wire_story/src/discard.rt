//! A sink that stores nothing.

ghost use Rattle.std.specs.Prelude.{◌≡◌, IsOk, refl};
ghost use Rattle.std.proofs.Common.{◌∙◌};

use crate::sink::StorySink;
use iim_dataset::Stop;

/// A sink that accepts everything and stores nothing.
#[derive(Clone, Copy, Debug, PartialEq, Eq)]
pub struct Discard;

impl StorySink for Discard {
    ghost goes = { λ old events new. new ≡ old };

    ghost failures = { λ sink. 0 };

    ghost nothing = { λ sink. refl };

    ghost joined = { λ a b c xs ys first then. then ∙ first };

    fn text(&mut self, _run: &[u8]) -> Result<(), Stop>
        ensures takes { IsOk result }
        ensures same { self.new ≡ self.old }
    {
        Ok(())
    }

    fn line_end(&mut self) -> Result<(), Stop>
        ensures takes { IsOk result }
        ensures same { self.new ≡ self.old }
    {
        self.text(&[])
    }
}
