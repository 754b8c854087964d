//! A buffer for the octets of a subfile.

ghost use Rattle.std.specs.Prelude.{◌≡◌, IfOk};
ghost use Rattle.iim_object.specs.States.Writing.{plan_capacity};

use crate::plan::Plan;
use iim_dataset::internals::ReservedOctets;
use std::alloc::{AllocError, Global};
use std::marker::Model;

/// A buffer for the octets of one subfile of a plan. Its model in contracts is the plan.
#[derive(Drop)]
pub struct SubfileBuffer {
    pub(crate) plan: Plan,
    pub(crate) octets: ReservedOctets,
}

impl Model for SubfileBuffer {
    ghost use Rattle.iim_object.specs.declared.plan.Plan.{Plan};
    ghost use Rattle.std.specs.Prelude.{◌≡◌, []};
    ghost use Rattle.iim_object.specs.States.Writing.{plan_capacity};

    ghost Value = { Plan };

    ghost view = { λ b. b.plan };

    // The buffer is empty, and has exactly the capacity that the plan needs.
    ghost invariant = { λ b. (b.octets.items ≡ []) × (b.octets.room ≡ plan_capacity b.plan) };
}

impl SubfileBuffer {
    /// Allocates a buffer with capacity for a full subfile, or for the bound of the plan if that is
    /// less.
    ///
    /// **Errors:** the allocation fails.
    pub fn reserve(alloc: Global, plan: Plan) -> Result<SubfileBuffer, AllocError>
        ensures { IfOk result (λ buffer. buffer ≡ plan) }
    {
        let room = plan.subfile.min(plan.bound()) as usize;
        let octets = ReservedOctets::new(alloc, room)?;
        Ok(SubfileBuffer { plan, octets })
    }

    /// Returns the capacity in octets: that of a full subfile, or the bound of the plan if that is
    /// less.
    pub fn room(&self) -> usize
        ensures { result ≡ plan_capacity self.now }
    {
        self.octets.room()
    }
}
