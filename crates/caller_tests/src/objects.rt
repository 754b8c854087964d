//! An example caller of `iim_object`.

ghost use Rattle.std.specs.Prelude.{◌≡◌, ◌↔◌, IsTrue, IsSome, IfSome};
ghost use Rattle.iim_object.specs.Format.Objects.{is_plan};
ghost use Rattle.iim_object.specs.declared.size.Size.TheVariants.{Known};

use iim_object::{Plan, Size};

/// Returns a plan for an object of `octets` octets in subfiles of 65,536 octets, or `None` if it
/// would need too many subfiles.
pub fn known_plan(octets: u64) -> Option<Plan>
    ensures exactly { IsSome result ↔ IsTrue (is_plan 65_536 (Known octets)) }
    ensures size { IfSome result (λ plan. plan.size ≡ Known octets) }
{
    Plan::new(65_536, Size::Known(octets))
}
