//! A sink that writes lines joined by LF.

ghost use Rattle.std.specs.Prelude.{◌≡◌, ◌<◌, [], ◌∷◌, length, map, take, IfErr, OnOk, OnErr};
ghost use Rattle.iim_dataset.specs.Format.Octets.{lf, CounterRose};
ghost use Rattle.iim_dataset.specs.States.Devices.{WroteAllOf, WroteOnlyPrefixOf, WithinInterruptionLimit};
ghost use Rattle.wire_story.specs.Format.Texts.{IsLine, LineOctet, LineEnd};

use crate::sink::StorySink;
use iim_dataset::octets::LF;
use iim_dataset::{Stop, Target, put};

/// A sink that writes lines, joined by LF, to a target. Its counter of stops saturates at
/// `u64::MAX`.
#[derive(Drop)]
pub struct LineWriter<W> {
    writer: W,
    stops: u64,
}

impl<W: Target> LineWriter<W> {
    ghost use Rattle.wire_story.specs.States.Reading.{writer_of, device_of, stops_of, WritesOctets};

    /// Creates a sink that writes lines to this target.
    pub fn new(writer: W) -> LineWriter<W>
        ensures writer { writer_of result ≡ writer }
        ensures stops { stops_of result ≡ 0 }
    {
        LineWriter { writer, stops: 0 }
    }

    /// Returns the target, to which the lines were written.
    pub fn into_writer(self) -> W
        ensures { result ≡ writer_of self }
    {
        let LineWriter { writer, stops: _ } = self;
        writer
    }

    /// Writes octets. If a write fails, writes only the octets before the failure.
    fn write(&mut self, octets: &[u8]) -> Result<(), Stop>
        ensures ok { OnOk result (WritesOctets W.state self.old octets.now self.new) }
        ensures no_failure { OnOk result (stops_of self.new ≡ stops_of self.old) }
        ensures front { IfErr result (λ stop.
            WritesOctets W.state self.old (take stop.taken octets.now) self.new) }
        ensures wrote { OnOk result (WroteAllOf (device_of W.state self.old) (device_of W.state self.new) octets.now) }
        ensures stopped { IfErr result (λ stop.
            WroteOnlyPrefixOf (device_of W.state self.old) (device_of W.state self.new) octets.now stop.taken) }
        ensures retry_limit { WithinInterruptionLimit (length octets.now) (device_of W.state self.old)
            (device_of W.state self.new) }
        ensures counted { OnErr result (CounterRose (stops_of self.old) (stops_of self.new)) }
    {
        match put(&mut self.writer, octets) {
            Ok(()) => Ok(()),
            Err(taken) => {
                self.stops = self.stops.saturating_add(1);
                Err(Stop { taken })
            }
        }
    }
}

impl<W: Target> StorySink for LineWriter<W> {
    ghost use Rattle.wire_story.specs.States.Reading.{device_of, stops_of, WritesLines};

    ghost goes = { WritesLines W.state };

    ghost failures = { stops_of };

    ghost use Rattle.wire_story.specs.Steps.{writes_nothing, writes_joined};

    ghost nothing = { λ sink. writes_nothing (device_of W.state sink) (stops_of sink) };

    ghost joined = { λ a b c xs ys first then.
        writes_joined (device_of W.state a) (device_of W.state b) (device_of W.state c)
        (stops_of a) (stops_of b) (stops_of c) xs ys first then };

    fn text(&mut self, run: &[u8]) -> Result<(), Stop>
        requires { IsLine run.now }
        ensures ok { OnOk result (WritesLines W.state self.old (map LineOctet run.now) self.new) }
        ensures no_failure { OnOk result (stops_of self.new ≡ stops_of self.old) }
        ensures refused { IfErr result (λ stop. stop.taken < length run.now) }
        ensures front { IfErr result (λ stop.
            WritesLines W.state self.old (map LineOctet (take stop.taken run.now)) self.new) }
        ensures counted { OnErr result (CounterRose (stops_of self.old) (stops_of self.new)) }

        // The sink stops only if the target failed during this call, or was interrupted at least a
        // million times in a row.
        ensures wrote { OnOk result (WroteAllOf (device_of W.state self.old) (device_of W.state self.new) run.now) }
        ensures stopped { IfErr result (λ stop.
            WroteOnlyPrefixOf (device_of W.state self.old) (device_of W.state self.new) run.now stop.taken) }
        ensures retry_limit { WithinInterruptionLimit (length run.now) (device_of W.state self.old)
            (device_of W.state self.new) }
    {
        self.write(run)
    }

    fn line_end(&mut self) -> Result<(), Stop>
        ensures ok { OnOk result (WritesLines W.state self.old (LineEnd ∷ []) self.new) }
        ensures no_failure { OnOk result (stops_of self.new ≡ stops_of self.old) }
        ensures refused { IfErr result (λ stop. stop.taken ≡ 0) }
        ensures front { OnErr result (WritesLines W.state self.old [] self.new) }
        ensures counted { OnErr result (CounterRose (stops_of self.old) (stops_of self.new)) }

        // For the LF too, the sink stops only if the target failed during this call, or was
        // interrupted at least a million times in a row.
        ensures wrote { OnOk result (WroteAllOf (device_of W.state self.old) (device_of W.state self.new) (lf ∷ [])) }
        ensures stopped { OnErr result (WroteOnlyPrefixOf (device_of W.state self.old) (device_of W.state self.new)
            (lf ∷ []) 0) }
        ensures retry_limit { WithinInterruptionLimit 1 (device_of W.state self.old) (device_of W.state self.new) }
    {
        self.write(&[LF])
    }
}
