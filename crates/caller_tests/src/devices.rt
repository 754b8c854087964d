//! An example caller of `iim_dataset`.

ghost use Rattle.std.specs.Prelude.{◌≡◌, ℕ, List, length, IfOk};
ghost use Rattle.std.specs.Io.KnownBytes.{Consumes, Appends};

use iim_dataset::{BLOCK, IoFault, Source, Target, put, take};

/// Copies the octets of one read, at most a block, to a target. Returns their number.
pub fn pass_on<R: Source, W: Target>(from: &mut R, to: &mut W) -> Result<usize, IoFault>
    ensures { IfOk result (λ count. (octets : List ℕ) × (length octets ≡ count)
        × Consumes (R.state from.old).octets (R.state from.new).octets octets
        × Appends (W.state to.old).octets (W.state to.new).octets octets) }
{
    let mut block = [0; BLOCK];
    let count = take(from, &mut block)?;
    match put(to, &block[..count]) {
        Ok(()) => Ok(count),
        Err(_) => Err(IoFault::Failed),
    }
}
