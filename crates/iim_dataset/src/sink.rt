//! The sink that a reader passes datasets to.

ghost use Rattle.std.specs.Prelude.{◌≡◌, ◌-◌, ◌<◌, ◌≤◌, ◌++◌, [], ◌∷◌, List, ℕ, length, map, take, slice_index, Option, Some, None, MatchOption, IfSome, IfOk, IfErr, OnOk, OnErr};
ghost use Rattle.iim_dataset.specs.States.Reading.{DatasetEvent, HeadRead, DataOctet, DatasetEnd, SinkIsAfterStep};

use crate::head::Head;
use crate::stop::Stop;

/// What a sink returns at the end of a dataset.
#[derive(Clone, Copy, Debug, PartialEq, Eq)]
pub enum Step {
    /// The sink accepts the next head.
    More,
    /// This dataset was the last one.
    Last,
}

/// A receiver of datasets. For each dataset it receives the head, the data in slices of any length,
/// and the end, and it may reject any of them.
pub trait DatasetSink {
    /// Relates the values of a sink before and after it received these events, in this order.
    ghost goes: { Self → List DatasetEvent → Self → Type 0 };

    /// Relates the values of a sink before and after it received these events and rejected the next
    /// one.
    ghost stops: { Self → List DatasetEvent → DatasetEvent → Self → Type 0 };

    /// The sink accepts calls. The number is that of the octets that remain of the dataset in
    /// progress; it is `None` between datasets.
    ghost stands: { Self → Option ℕ → Type 0 };

    /// The sink has called a dataset the last one.
    ghost ends: { Self → Type 0 };

    /// Receives the head of a dataset, or rejects it with a stop whose `taken` is 0.
    fn head(&mut self, head: Head) -> Result<(), Stop>
        requires { stands self.old None }
        ensures ok { OnOk result (goes self.old (HeadRead head ∷ []) self.new) }
        ensures stands { OnOk result (stands self.new (Some head.count)) }
        ensures refused { IfErr result (λ stop. stop.taken ≡ 0) }
        ensures stopped { OnErr result (stops self.old [] (HeadRead head) self.new) };

    /// Hints whether the sink is likely to accept the next dataset in one call.
    fn prefers_whole_datasets(&self) -> bool {
        false
    }

    /// Receives a complete dataset: its head, its data and its end. The sink accepts all of it, or
    /// rejects an octet and has then received the head and the octets before that one. It may
    /// always return `None`, which means that it received nothing.
    fn whole(&mut self, head: Head, octets: &[u8]) -> Result<Option<Step>, Stop>
        requires stands { stands self.old None }
        requires count { head.count ≡ length octets.now }
        ensures taken { IfOk result (λ step. MatchOption step (self.new ≡ self.old) (λ _.
            goes self.old (HeadRead head ∷ (map DataOctet octets.now ++ DatasetEnd ∷ [])) self.new)) }
        ensures stands { IfOk result (λ step. IfSome step (SinkIsAfterStep stands ends self.new)) }
        ensures refused { IfErr result (λ stop. stop.taken < length octets.now) }
        ensures stopped { IfErr result (λ stop.
            stops self.old (HeadRead head ∷ map DataOctet (take stop.taken octets.now))
            (DataOctet (slice_index octets.now stop.taken)) self.new) }
    {
        let _ = head;
        let _ = octets;
        Ok(None)
    }

    /// Receives octets of the data. If the sink rejects an octet, it has received the octets before
    /// it.
    fn run(&mut self, run: &[u8]) -> Result<(), Stop>
        requires { (left : ℕ) × stands self.old (Some left) × (length run.now ≤ left) }
        ensures ok { OnOk result (goes self.old (map DataOctet run.now) self.new) }
        ensures stands { OnOk result ((left : ℕ) → stands self.old (Some left)
            → stands self.new (Some (left - length run.now))) }
        ensures refused { IfErr result (λ stop. stop.taken < length run.now) }
        ensures stopped { IfErr result (λ stop.
            stops self.old (map DataOctet (take stop.taken run.now)) (DataOctet (slice_index run.now stop.taken))
            self.new) };

    /// Receives the end of a dataset, after all of its octets, or rejects it with a stop whose
    /// `taken` is 0.
    fn close(&mut self) -> Result<Step, Stop>
        requires { stands self.old (Some 0) }
        ensures ok { OnOk result (goes self.old (DatasetEnd ∷ []) self.new) }
        ensures stands { IfOk result (SinkIsAfterStep stands ends self.new) }
        ensures refused { IfErr result (λ stop. stop.taken ≡ 0) }
        ensures stopped { OnErr result (stops self.old [] DatasetEnd self.new) };

    /// Receiving no event relates each value to itself, so a call with an empty slice may change
    /// nothing.
    ghost nothing: { (sink : Self) → goes sink [] sink };

    /// Receiving some events and then others relates the same values as receiving all of them
    /// joined.
    ghost joined: { (a b c : Self) (xs ys : List DatasetEvent) → goes a xs b → goes b ys c → goes a (xs ++ ys) c };

    /// A sink that has called a dataset the last one accepts no head, no data and no end.
    ghost ended: { (sink : Self) (left : Option ℕ) → ends sink → stands sink left → ⊥ };

    /// Receiving some events, and then others up to a rejection, relates the same values as
    /// receiving all of them joined up to that rejection.
    ghost joined_stop: { (a b c : Self) (xs ys : List DatasetEvent) (refused : DatasetEvent) → goes a xs b
        → stops b ys refused c → stops a (xs ++ ys) refused c };
}
