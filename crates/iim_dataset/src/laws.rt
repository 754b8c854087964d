//! Lemmas about all encodings of datasets, with either form of a count.

ghost use Rattle.iim_dataset.specs.Laws.{DatasetStatesAreReached, DatasetLaws};

/// Proves the lemmas about encodings and readers of datasets. The record has a field for each
/// lemma.
pub fn dataset_laws()
    ensures { DatasetLaws }
{}

/// Proves that the states that satisfy the invariant of [`crate::HeadReader`] are exactly the
/// states that some octets reach.
#[tactic(auto, using(crate::proofs::Places::dataset_states_are_reached))]
pub fn dataset_states_are_reached()
    ensures { DatasetStatesAreReached }
{}
