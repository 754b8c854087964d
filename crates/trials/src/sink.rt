//! A sink that stops at a chosen call, for tests.

ghost use Rattle.std.specs.Prelude.{◌≡◌, ◌<◌, [], ◌∷◌, length, map, take, IsErr, IfErr, OnOk, OnErr};
ghost use Rattle.iim_dataset.specs.Format.Octets.{CounterRose};
ghost use Rattle.wire_story.specs.Format.Texts.{IsLine, LineOctet, LineEnd};

use iim_dataset::Stop;
use wire_story::StorySink;

/// A sink that forwards `good` calls to another sink, and stops at each later call. At a slice it
/// first forwards some of the octets; at a line end it stops immediately. An empty slice is never
/// rejected. It counts its own stops and those of the other sink; the counter saturates at
/// `u64::MAX`.
#[derive(Drop)]
pub struct TrialSink<S> {
    sink: S,
    good: u64,
    front: usize,
    failures: u64,
}

impl<S: StorySink> TrialSink<S> {
    ghost use Rattle.trials.specs.States.{sink_of, good_of, front_of, failures_of, PassesEventsOn, CountsCall, StopsAsPlanned};

    /// Creates a sink that forwards `good` calls, and then stops after `front` octets of a slice,
    /// or after all but the last octet if the slice is shorter.
    pub fn new(sink: S, good: u64, front: usize) -> TrialSink<S>
        ensures sink { sink_of result ≡ sink }
        ensures good { good_of result ≡ good }
        ensures front { front_of result ≡ front }
        ensures failures { failures_of result ≡ 0 }
    {
        TrialSink {
            sink,
            good,
            front,
            failures: 0,
        }
    }

    /// Returns the number of times that the sink has stopped.
    pub fn failures(&self) -> u64
        ensures { result ≡ failures_of self.now }
    {
        self.failures
    }

    /// Returns the sink to which calls are forwarded.
    pub fn into_sink(self) -> S
        ensures { result ≡ sink_of self }
    {
        let TrialSink {
            sink,
            good: _,
            front: _,
            failures: _,
        } = self;
        sink
    }

    /// Counts a stop, and returns it.
    fn stop(&mut self, taken: usize) -> Stop
        ensures taken { result.taken ≡ taken }
        ensures sink { sink_of self.new ≡ sink_of self.old }
        ensures good { good_of self.new ≡ good_of self.old }
        ensures front { front_of self.new ≡ front_of self.old }
        ensures counted { CounterRose (failures_of self.old) (failures_of self.new) }
    {
        self.failures = self.failures.saturating_add(1);
        Stop { taken }
    }

    /// Forwards octets, and counts a stop of the other sink.
    fn pass(&mut self, run: &[u8]) -> Result<(), Stop>
        requires { IsLine run.now }
        ensures ok { OnOk result (PassesEventsOn S.goes self.old (map LineOctet run.now) self.new) }
        ensures no_failure { OnOk result (failures_of self.new ≡ failures_of self.old) }
        ensures refused { IfErr result (λ stop. stop.taken < length run.now) }
        ensures passed { IfErr result (λ stop.
            PassesEventsOn S.goes self.old (map LineOctet (take stop.taken run.now)) self.new) }
        ensures counted { OnErr result (CounterRose (failures_of self.old) (failures_of self.new)) }
        ensures plan { (good_of self.new ≡ good_of self.old) × (front_of self.new ≡ front_of self.old) }
        ensures stopped { OnErr result (CounterRose (S.failures (sink_of self.old)) (S.failures (sink_of self.new))) }
    {
        match self.sink.text(run) {
            Ok(()) => Ok(()),
            Err(stop) => Err(self.stop(stop.taken)),
        }
    }
}

impl<S: StorySink> StorySink for TrialSink<S> {
    ghost use Rattle.trials.specs.States.{sink_of, good_of, failures_of, PassesEventsOn, CountsCall, StopsAsPlanned};

    ghost goes = { PassesEventsOn S.goes };

    ghost failures = { failures_of };

    ghost nothing = { λ trial. S.nothing (sink_of trial) };

    ghost joined = { λ a b c xs ys first then. S.joined (sink_of a) (sink_of b) (sink_of c) xs ys first then };

    fn text(&mut self, run: &[u8]) -> Result<(), Stop>
        requires { IsLine run.now }
        ensures ok { OnOk result (PassesEventsOn S.goes self.old (map LineOctet run.now) self.new) }
        ensures no_failure { OnOk result (failures_of self.new ≡ failures_of self.old) }
        ensures refused { IfErr result (λ stop. stop.taken < length run.now) }
        ensures front { IfErr result (λ stop.
            PassesEventsOn S.goes self.old (map LineOctet (take stop.taken run.now)) self.new) }
        ensures counted { OnErr result (CounterRose (failures_of self.old) (failures_of self.new)) }
        ensures call { CountsCall self.old self.new × (good_of self.old ≡ 0 → 0 < length run.now → IsErr result) }
        ensures plan { IfErr result (λ stop. StopsAsPlanned S.failures self.old (length run.now) stop.taken self.new) }
    {
        if self.good > 0 {
            self.good -= 1;
            return self.pass(run);
        }
        if run.is_empty() {
            return Ok(());
        }
        let front = self.front.min(run.len() - 1);
        self.pass(&run[..front])?;
        Err(self.stop(front))
    }

    fn line_end(&mut self) -> Result<(), Stop>
        ensures ok { OnOk result (PassesEventsOn S.goes self.old (LineEnd ∷ []) self.new) }
        ensures no_failure { OnOk result (failures_of self.new ≡ failures_of self.old) }
        ensures refused { IfErr result (λ stop. stop.taken ≡ 0) }
        ensures front { OnErr result (PassesEventsOn S.goes self.old [] self.new) }
        ensures counted { OnErr result (CounterRose (failures_of self.old) (failures_of self.new)) }
        ensures call { CountsCall self.old self.new × (good_of self.old ≡ 0 → IsErr result) }
        ensures plan { IfErr result (λ stop. StopsAsPlanned S.failures self.old 1 stop.taken self.new) }
    {
        if self.good == 0 {
            return Err(self.stop(0));
        }
        self.good -= 1;
        match self.sink.line_end() {
            Ok(()) => Ok(()),
            Err(stop) => Err(self.stop(stop.taken)),
        }
    }
}
