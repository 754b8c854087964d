//! A sink that writes into a buffer of the caller.

ghost use Rattle.std.specs.Prelude.{[], ◌∷◌};

use iim_dataset::Stop;
use iim_dataset::octets::LF;
use wire_story::StorySink;

/// A sink that writes the lines of a story into a buffer, joined by LF. It writes as many octets as
/// fit and counts all of them. It never stops the unpacker.
pub struct TextOut<'t> {
    /// The buffer.
    pub out: &'t mut [u8],
    /// The number of octets received, up to the greatest `usize`.
    pub count: usize,
}

impl<'t> TextOut<'t> {
    ghost use Rattle.iim_c.specs.Format.Answers.{WritesOctets};

    /// Writes an octet, if it fits.
    #[inline(always)]
    pub(crate) fn put_octet(&mut self, octet: u8)
        ensures { WritesOctets self.old (octet ∷ []) self.new }
    {
        let from = self.count;
        if from < self.out.len() {
            self.out[from] = octet;
            self.count = from + 1;
            return;
        }
        self.count = from.saturating_add(1);
    }

    /// Writes the octets of a slice that fit.
    #[inline(never)]
    fn put_run(&mut self, octets: &[u8])
        ensures { WritesOctets self.old octets.now self.new }
    {
        let from = self.count;
        self.count = from.saturating_add(octets.len());
        if self.count <= self.out.len() {
            self.out[from..self.count].copy_from_slice(octets);
        }
    }

    /// Writes the octets that fit. A single octet is stored directly, which is faster than copying
    /// a slice.
    #[inline(always)]
    pub(crate) fn put(&mut self, octets: &[u8])
        ensures { WritesOctets self.old octets.now self.new }
    {
        match octets {
            [octet] => self.put_octet(*octet),
            _ => self.put_run(octets),
        }
    }
}

impl<'t> StorySink for TextOut<'t> {
    ghost use Rattle.iim_c.specs.Format.Answers.{WritesLines};

    ghost goes = { WritesLines };

    ghost failures = { λ sink. 0 };

    ghost use Rattle.iim_c.specs.TextOutLaws.{writes_nothing, writes_joined};

    ghost nothing = { writes_nothing };

    ghost joined = { writes_joined };

    #[inline(always)]
    fn text(&mut self, run: &[u8]) -> Result<(), Stop> {
        self.put(run);
        Ok(())
    }

    #[inline(always)]
    fn line_end(&mut self) -> Result<(), Stop> {
        self.put_octet(LF);
        Ok(())
    }
}
