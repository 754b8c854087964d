//! The sink that a reader passes the octets of an object to.

ghost use Rattle.std.specs.Prelude.{◌≡◌, ◌<◌, ◌++◌, [], ◌∷◌, List, length, map, take, slice_index, IfErr, OnOk, OnErr};
ghost use Rattle.iim_object.specs.Format.Objects.{ObjectEvent, ObjectOctet, ObjectEnd};

use iim_dataset::Stop;

/// A receiver of the octets of an object, without its division into subfiles, and then of its end.
/// A sink may reject any octet, and the end.
pub trait ObjectSink {
    /// Relates the values of a sink before and after it received these events, in this order.
    ghost goes: { Self → List ObjectEvent → Self → Type 0 };

    /// Relates the values of a sink before and after it received these events and rejected the next
    /// one.
    ghost stops: { Self → List ObjectEvent → ObjectEvent → Self → Type 0 };

    /// The sink accepts octets and the end. After the end, and after a rejection, it may no longer
    /// do so.
    ghost stands: { Self → Type 0 };

    /// Receives the next octets of the object. If the sink rejects an octet, it has received the
    /// octets before it.
    fn run(&mut self, run: &[u8]) -> Result<(), Stop>
        requires { stands self.old }
        ensures ok { OnOk result (goes self.old (map ObjectOctet run.now) self.new) }
        ensures stands { OnOk result (stands self.new) }
        ensures refused { IfErr result (λ stop. stop.taken < length run.now) }
        ensures stopped { IfErr result (λ stop.
            stops self.old (map ObjectOctet (take stop.taken run.now)) (ObjectOctet (slice_index run.now stop.taken))
            self.new) };

    /// Receives the end of the object, or rejects it with a stop whose `taken` is 0.
    fn close(&mut self) -> Result<(), Stop>
        requires { stands self.old }
        ensures ok { OnOk result (goes self.old (ObjectEnd ∷ []) self.new) }
        ensures refused { IfErr result (λ stop. stop.taken ≡ 0) }
        ensures stopped { OnErr result (stops self.old [] ObjectEnd self.new) };

    /// Receiving no event relates each value to itself, so a call with an empty slice may change
    /// nothing.
    ghost nothing: { (sink : Self) → goes sink [] sink };

    /// Receiving some events and then others relates the same values as receiving all of them
    /// joined.
    ghost joined: { (a b c : Self) (xs ys : List ObjectEvent) → goes a xs b → goes b ys c → goes a (xs ++ ys) c };

    /// Receiving some events, and then others up to a rejection, relates the same values as
    /// receiving all of them joined up to that rejection.
    ghost joined_stop: { (a b c : Self) (xs ys : List ObjectEvent) (refused : ObjectEvent) → goes a xs b
        → stops b ys refused c → stops a (xs ++ ys) refused c };
}
