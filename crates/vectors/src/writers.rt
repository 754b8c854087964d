//! The targets of a packer: memory, and a writer that fails.

use crate::calls::Begun;
use iim_dataset::{FromWrite, Target};
use iim_pack::Packer;
use std::alloc::Global;
use trials::{TrialWriter, Trouble};
use vectors_layers::{Answers, Words};

/// A target in memory.
pub(crate) type Memory = FromWrite<Vec<u8>>;

/// Creates an empty target in memory.
pub(crate) fn memory(alloc: Global) -> Memory {
    FromWrite::new(Vec::new(alloc))
}

/// A writer that accepts one octet in each call, up to 512 octets, and fails after some of them.
pub(crate) type Trial = TrialWriter<512>;

/// A target that stores what it accepted.
pub(crate) trait Keeps: Target + Drop {
    /// Returns the octets that it accepted, or `None` if an allocation failed.
    fn kept(self, alloc: Global) -> Option<Vec<u8>>;

    /// Converts a packer with this target to the packer that questions refer to.
    fn begun(packer: Packer<Self>) -> Begun;
}

impl Keeps for Memory {
    fn kept(self, _alloc: Global) -> Option<Vec<u8>> {
        Some(self.into_inner())
    }

    fn begun(packer: Packer<Memory>) -> Begun {
        Begun::Whole(packer)
    }
}

impl Keeps for Trial {
    fn kept(self, alloc: Global) -> Option<Vec<u8>> {
        let mut octets = Vec::new(alloc);
        octets.extend_from_slice(self.octets()).ok()?;
        Some(octets)
    }

    fn begun(packer: Packer<Trial>) -> Begun {
        Begun::Trial(packer)
    }
}

/// Prints the octets that a target accepted.
pub(crate) fn tell_kept<K: Keeps>(alloc: Global, out: &mut Answers, target: K) {
    match target.kept(alloc) {
        Some(octets) => out.octets(octets.as_slice()),
        None => out.lack_memory(),
    }
}

/// Creates a writer that is interrupted after `good` octets. The number of interruptions is the
/// next word.
fn interrupted(words: &mut Words, good: u64) -> Option<Trial> {
    match u32::try_from(words.number()) {
        Ok(times) => Some(TrialWriter::new(good, Trouble::Interruptions(times))),
        Err(_) => {
            words.refuse();
            None
        }
    }
}

/// Parses a writer that fails from the next words: `failing K` fails after K octets, and
/// `interrupted K TIMES` is interrupted TIMES times after K octets. Returns `None` if there are no
/// more words.
pub(crate) fn trial_of(words: &mut Words) -> Option<Trial> {
    if !words.has_more() {
        return None;
    }
    let word = words.text();
    let good = words.number();
    match word {
        "failing" => Some(TrialWriter::new(good, Trouble::Failure)),
        "interrupted" => interrupted(words, good),
        _ => {
            words.refuse();
            None
        }
    }
}
