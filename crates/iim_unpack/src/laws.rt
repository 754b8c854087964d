//! Lemmas about all unpackers.

ghost use Rattle.std.specs.Prelude.{◌≡◌, ℕ, List, None};
ghost use Rattle.iim_unpack.specs.States.Unpacking.{StoresFew, IsDone, IsDoneWith, HasRead};
ghost use Rattle.iim_unpack.specs.Laws.{UnpackerLaws};

use crate::unpacker::Unpacker;
use iim_places::laws::layer_lemmas;
pub use iim_places::laws::place_laws;

/// Proves that an unpacker that has rejected nothing has consumed an envelope or an incomplete
/// input. It stores what its limits allow, and at most 256 octets more.
#[tactic(auto, using(crate::proofs::Feeding::reachable_done))]
pub fn unpackers_are_reachable(unpacker: &Unpacker)
    ensures stands { unpacker.now.refused ≡ None → (IsDone unpacker.now → ⊥) → (octets : List ℕ) × (count : ℕ)
        × HasRead unpacker.now octets count }
    ensures done { IsDone unpacker.now → (octets : List ℕ) × (count : ℕ) × IsDoneWith unpacker.now octets count }
    ensures held { unpacker.now.refused ≡ None → StoresFew unpacker.now }
{
    layer_lemmas();
    unpacker.is_reachable();
}

/// Proves the lemmas about unpackers at one position, and about saved and restored ones. The record
/// has a field for each.
pub fn unpacker_laws()
    ensures { UnpackerLaws }
{
    layer_lemmas();
    place_laws();
}
