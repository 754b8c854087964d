//! A sink that collects lines.

ghost use Rattle.std.specs.Prelude.{◌≡◌, ◌<◌, [], ◌∷◌, length, map, take, refl, vec_capacity, IfErr, OnOk, OnErr};
ghost use Rattle.iim_dataset.specs.Format.Octets.{CounterRose};
ghost use Rattle.wire_story.specs.Format.Texts.{IsLine, LinesMakeText, LineOctet};
ghost use Rattle.wire_story.specs.States.Reading.{Collected, collect};
ghost use Rattle.wire_story.specs.Steps.{lines_in};

use crate::line_iter::LineIter;
use crate::sink::StorySink;
use iim_dataset::Stop;
use iim_dataset::octets::LF;
use std::alloc::Global;
use std::marker::Model;

/// A sink that stores the lines that it receives. If an allocation fails, the lines are unchanged.
///
/// Its model in contracts is the list of lines, of which there is at least one, the number of
/// failed allocations, and the capacity in octets.
#[derive(Drop)]
pub struct Lines {
    // The lines joined by LF. No line has an LF.
    octets: Vec<u8>,
    failures: u64,
}

impl Model for Lines {
    ghost Value = { Collected };

    ghost view = { λ lines. record
        { lines = lines_in lines.octets.items; failures = lines.failures; room = vec_capacity lines.octets } };

    ghost invariant = { λ lines. LinesMakeText (lines_in lines.octets.items) };
}

impl Lines {
    /// Creates a sink with one empty line. Does not allocate.
    pub fn new(alloc: Global) -> Lines
        ensures lines { result.lines ≡ [] ∷ [] }
        ensures failures { result.failures ≡ 0 }
        ensures room { result.room ≡ 0 }
    {
        Lines {
            octets: Vec::new(alloc),
            failures: 0,
        }
    }

    /// Iterates over the lines, in order.
    pub fn iter(&self) -> LineIter<'_>
        ensures lines { result ≡ self.now.lines }
        ensures text { LinesMakeText self.now.lines }
    {
        LineIter::new(&self.octets)
    }

    /// Returns the lines joined by LF.
    pub(crate) fn octets(&self) -> &[u8]
        ensures { lines_in result.now ≡ self.now.lines }
    {
        &self.octets
    }

    /// Counts a failed allocation, and returns the stop that reports it.
    fn refused(&mut self) -> Stop
        ensures taken { result.taken ≡ 0 }
        ensures lines { self.new.lines ≡ self.old.lines }
        ensures counted { CounterRose self.old.failures self.new.failures }
    {
        self.failures = self.failures.saturating_add(1);
        Stop { taken: 0 }
    }
}

impl StorySink for Lines {
    ghost goes = { λ old events new. new.lines ≡ collect old.lines events };

    ghost failures = { λ sink. sink.failures };

    ghost use Rattle.wire_story.specs.Steps.{collect_joined};

    ghost nothing = { λ sink. refl };

    ghost joined = { λ a b c xs ys first then. collect_joined a.lines b.lines c.lines xs ys first then };

    fn text(&mut self, run: &[u8]) -> Result<(), Stop>
        requires { IsLine run.now }
        ensures ok { OnOk result (self.new.lines ≡ collect self.old.lines (map LineOctet run.now)) }
        ensures no_failure { OnOk result (self.new.failures ≡ self.old.failures) }
        ensures refused { IfErr result (λ stop. stop.taken < length run.now) }
        ensures front { IfErr result (λ stop.
            self.new.lines ≡ collect self.old.lines (map LineOctet (take stop.taken run.now))) }
        ensures counted { OnErr result (CounterRose self.old.failures self.new.failures) }

        // If the call fails, no octets were stored.
        ensures unchanged { OnErr result (self.new.lines ≡ self.old.lines) }
    {
        if run.is_empty() {
            return Ok(());
        }
        match self.octets.extend_from_slice(run) {
            Ok(()) => Ok(()),
            Err(_) => Err(self.refused()),
        }
    }

    fn line_end(&mut self) -> Result<(), Stop> {
        match self.octets.push(LF) {
            Ok(()) => Ok(()),
            Err(_) => Err(self.refused()),
        }
    }
}
