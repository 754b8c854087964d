//! Plans for dividing an object into subfiles.

ghost use Rattle.std.specs.Prelude.{◌≡◌, ◌≤◌, ◌↔◌, IsTrue, IsSome, IfSome};
ghost use Rattle.iim_dataset.specs.Format.Octets.{greatest_size};
ghost use Rattle.iim_object.specs.Format.Objects.{is_plan, bound_of, limit_of, fits, is_short};

use crate::size::Size;
use iim_dataset::GREATEST_SIZE;

/// The greatest number of subfiles of one envelope.
pub const MAX_SUBFILES: u64 = 4_294_967_295;

/// A plan for an object: the length of a full subfile, and what is known of the size of the object.
#[derive(Clone, Copy, Debug, PartialEq, Eq)]
pub struct Plan {
    /// The number of octets of a full subfile.
    pub subfile: u64,
    /// What is known of the size of the object.
    pub size: Size,
    ghost valid: { IsTrue (is_plan subfile size) },
}

/// Checks whether the size is possible in a plan with subfiles of `subfile` octets.
fn fits(subfile: u64, size: Size) -> bool
    requires { subfile ≤ greatest_size }
    ensures { result ≡ fits subfile size }
{
    match size {
        Size::Known(octets) => octets <= GREATEST_SIZE
            && octets <= subfile.saturating_mul(MAX_SUBFILES),
        Size::Unknown(Some(maximum)) => maximum <= GREATEST_SIZE,
        Size::Unknown(None) => true,
    }
}

/// Returns the greatest number of octets that a size allows.
fn limit_of(size: Size) -> u64
    ensures { result ≡ limit_of size }
{
    match size {
        Size::Known(octets) => octets,
        Size::Unknown(Some(maximum)) => maximum,
        Size::Unknown(None) => GREATEST_SIZE,
    }
}

impl Plan {
    /// Creates a plan. Returns `None` if the length of a subfile is 0 or above the greatest size of
    /// an object ([`GREATEST_SIZE`]), if a size is above the greatest size, or if a known size
    /// needs more than 4,294,967,295 subfiles.
    pub fn new(subfile: u64, size: Size) -> Option<Plan>
        ensures exactly { IsSome result ↔ IsTrue (is_plan subfile size) }
        ensures value { IfSome result (λ plan. (plan.subfile ≡ subfile) × (plan.size ≡ size)) }
    {
        if subfile == 0 || subfile > GREATEST_SIZE || !fits(subfile, size) {
            return None;
        }
        Some(Plan { subfile, size })
    }

    /// Returns the greatest number of octets that an object may have under the plan: the known
    /// size, the maximum or the greatest size, but never more than 4,294,967,295 full subfiles
    /// contain. The lemma `subfiles_are_few` proves that this bound is exact.
    pub fn bound(&self) -> u64
        ensures { result ≡ bound_of self.now.subfile self.now.size }
    {
        limit_of(self.size).min(self.subfile.saturating_mul(MAX_SUBFILES))
    }

    /// Checks whether `total` octets are fewer than a known size requires.
    pub fn is_short(&self, total: u64) -> bool
        ensures { result ≡ is_short self.now.size total }
    {
        match self.size {
            Size::Known(octets) => total < octets,
            Size::Unknown(_) => false,
        }
    }
}
