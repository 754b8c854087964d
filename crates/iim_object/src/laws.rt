//! Lemmas about the object layer: viable prefixes, and the tokens of datasets. The functions do
//! nothing: their contracts are the lemmas.

ghost use Rattle.iim_object.specs.Laws.{ReadersReturnSizes, ObjectsSplitUniquely, ObjectLaws};

/// Proves the lemmas about sizes, subfiles and states. The record has a field for each lemma.
pub fn object_laws()
    ensures { ObjectLaws }
{}

/// Proves that a reader in the state after complete records 7 to 9 returns the sizes of these
/// records.
#[tactic(auto, using(crate::proofs::Stands::tell_sizes))]
pub fn readers_return_sizes()
    ensures { ReadersReturnSizes }
{}

/// Proves that an object can be divided in exactly one way into subfiles of a given length.
pub fn objects_split_uniquely()
    ensures { ObjectsSplitUniquely }
{}
