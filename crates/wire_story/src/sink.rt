//! The sink that a reader passes the text of a story to.

ghost use Rattle.std.specs.Prelude.{◌≡◌, ◌<◌, ◌++◌, [], ◌∷◌, List, ℕ, length, map, take, IfErr, OnOk, OnErr};
ghost use Rattle.iim_dataset.specs.Format.Octets.{CounterRose};
ghost use Rattle.wire_story.specs.Format.Texts.{IsLine, StoryEvent, LineOctet, LineEnd};

use iim_dataset::Stop;

/// A receiver of the text of a story: octets of lines, and ends of lines. A sink may reject any of
/// them.
pub trait StorySink {
    /// Relates the values of a sink before and after it received these events, in this order.
    ghost goes: { Self → List StoryEvent → Self → Type 0 };

    /// The number of calls that the sink rejected. A counter that is stored in the sink may
    /// saturate at the greatest number of 64 bits.
    ghost failures: { Self → ℕ };

    /// Receives octets of the current line. If the sink rejects an octet, it has received the
    /// octets before it.
    fn text(&mut self, run: &[u8]) -> Result<(), Stop>
        requires { IsLine run.now }
        ensures ok { OnOk result (goes self.old (map LineOctet run.now) self.new) }
        ensures no_failure { OnOk result (failures self.new ≡ failures self.old) }
        ensures refused { IfErr result (λ stop. stop.taken < length run.now) }
        ensures front { IfErr result (λ stop. goes self.old (map LineOctet (take stop.taken run.now)) self.new) }
        ensures counted { OnErr result (CounterRose (failures self.old) (failures self.new)) };

    /// Receives the end of the current line, or rejects it.
    fn line_end(&mut self) -> Result<(), Stop>
        ensures ok { OnOk result (goes self.old (LineEnd ∷ []) self.new) }
        ensures no_failure { OnOk result (failures self.new ≡ failures self.old) }
        ensures refused { IfErr result (λ stop. stop.taken ≡ 0) }
        ensures front { OnErr result (goes self.old [] self.new) }
        ensures counted { OnErr result (CounterRose (failures self.old) (failures self.new)) };

    /// Receiving no event relates each value to itself, so a call with an empty slice may change
    /// nothing.
    ghost nothing: { (sink : Self) → goes sink [] sink };

    /// Receiving some events and then others relates the same values as receiving all of them
    /// joined.
    ghost joined: { (a b c : Self) (xs ys : List StoryEvent) → goes a xs b → goes b ys c → goes a (xs ++ ys) c };
}
