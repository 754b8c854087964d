//! The push parser of datasets, which accepts any split of the octets into chunks.

ghost use Rattle.std.specs.Prelude.{◌≡◌, ℕ, List, [], IsTrue, IsSome, IfSome, MatchOption, ◌↔◌, IfOk, IfErr, OnOk, OnErr};
ghost use Rattle.iim_dataset.specs.Format.Datasets.{count_octets};
ghost use Rattle.iim_dataset.specs.States.Reading.{DatasetEvent};

use crate::fault::Fault;
use crate::laws::dataset_states_are_reached;
use crate::piece::{consume_chunk, start};
use crate::place::{DatasetPlace, is_place};
use crate::sink::DatasetSink;
use std::marker::Model;
use std::mem;

/// A push parser of datasets. It stores either the octets of a tag in progress, at most 12, or a
/// head and the number of octets of data that remain. No call allocates.
#[derive(Debug, Drop)]
pub struct HeadReader {
    place: DatasetPlace,
    failed: bool,
}

impl Model for HeadReader {
    ghost use Rattle.iim_dataset.specs.States.Reading.{IsDatasetState, Reader};

    ghost Value = { Reader };

    ghost view = { λ reader. record { place = reader.place; failed = reader.failed } };

    ghost invariant = { λ reader. IsDatasetState reader.place };
}

ghost use Rattle.iim_dataset.specs.States.Reading.{ReachesDatasetState, between, current_name, to_come, DatasetReaderHasRead, DatasetReaderAccepts, DatasetReaderFailed, DatasetReaderConsumes, DatasetReaderRejects};

impl HeadReader {
    /// Creates a reader at the start of a stream.
    pub fn new() -> HeadReader
        ensures takes_calls { DatasetReaderAccepts result }
        ensures between { result.place ≡ between }
        ensures stands { DatasetReaderHasRead result [] [] }
    {
        HeadReader {
            place: start(),
            failed: false,
        }
    }

    /// Returns whether a call has returned an error.
    pub fn is_failed(&self) -> bool
        ensures { IsTrue result ↔ DatasetReaderFailed self.now }
    {
        self.failed
    }

    /// Returns the state of the reader, or `None` after an error.
    pub fn place(&self) -> Option<&DatasetPlace>
        ensures { MatchOption result (DatasetReaderFailed self.now) (λ place. DatasetReaderAccepts self.now × (place.now
            ≡ self.now.place)) }
    {
        if self.failed {
            return None;
        }
        Some(&self.place)
    }

    /// Creates a reader in the state `place`. Returns `None` if no octets reach that state: a
    /// partial tag must be a proper prefix of some tag, and the remaining data must be non-empty
    /// and no longer than the count of the head.
    pub fn at(place: DatasetPlace) -> Option<HeadReader>
        ensures place { IfSome result (λ reader. (reader.place ≡ place) × DatasetReaderAccepts reader) }
        ensures exactly { IsSome result ↔ ((octets : List ℕ) × (events : List DatasetEvent)
            × ReachesDatasetState count_octets octets events place) }
    {
        dataset_states_are_reached();
        if !is_place(&place) {
            return None;
        }
        let failed = false;
        Some(HeadReader { place, failed })
    }

    /// Returns the record and the number of the dataset in progress. Each is 0 until it has been
    /// read, and both are 0 between datasets. After a rejected octet of a tag they are those of the
    /// tag before that octet. After a stop of the sink both are 0.
    pub fn named(&self) -> (u8, u8)
        ensures { result ≡ current_name self.now.place }
    {
        match &self.place {
            DatasetPlace::Tag(held) => (
                held.get(1).copied().unwrap_or(0),
                held.get(2).copied().unwrap_or(0),
            ),
            DatasetPlace::Inside { head, .. } => (head.rec, head.set),
        }
    }

    /// Feeds the next octets, and passes to the sink what they complete: each head, the data in
    /// slices as long as possible, and each end of a dataset. Returns the number of octets
    /// consumed: all of them, or those up to the end of the dataset that the sink calls the last
    /// one. A further call reads the next tag, and needs a sink that accepts heads again.
    ///
    /// **Errors:** the first octet that cannot be part of a tag, or the octet that completes what
    /// the sink rejected. The reader has then failed ([`HeadReader::is_failed`]), and must not be
    /// called again.
    pub fn feed<D: DatasetSink>(&mut self, octets: &[u8], sink: &mut D) -> Result<usize, Fault>
        requires takes_calls { DatasetReaderAccepts self.old }
        requires stands { D.stands sink.old (to_come self.old.place) }

        // The consumed octets reach the new state, and the sink received what they complete. The
        // sink accepts what comes next, or has called a dataset the last one.
        ensures takes_calls { OnOk result (DatasetReaderAccepts self.new) }
        ensures taken { IfOk result (λ used.
            DatasetReaderConsumes D.goes D.stands D.ends (self.old.place, sink.old) octets.now
            (self.new.place, sink.new) used) }

        // The rejected octet cannot be part of a tag, or the sink stopped at what that octet
        // completes.
        ensures failed { OnErr result (DatasetReaderFailed self.new) }
        ensures refused { IfErr result (λ fault.
            DatasetReaderRejects D.goes D.stops D.stands (self.old.place, sink.old) octets.now fault
            (self.new.place, sink.new)) }
    {
        let place = mem::replace(&mut self.place, start());
        match consume_chunk(place, octets, sink) {
            Ok((place, used)) => {
                self.place = place;
                Ok(used)
            }
            Err((place, fault)) => {
                let failed = true;
                *self = HeadReader { place, failed };
                Err(fault)
            }
        }
    }
}
