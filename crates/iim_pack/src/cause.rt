//! Decides from numbers alone why a packer rejects a call.

ghost use Rattle.std.specs.Prelude.{◌≡◌, ◌+◌, ◌≤◌, length};
ghost use Rattle.iim_dataset.specs.Format.Octets.{greatest_size};
ghost use Rattle.iim_object.specs.States.Writing as object;
ghost use Rattle.wire_message.specs.Format.Messages.{packed_tail};
ghost use Rattle.iim_pack.specs.States.Packing.{ending_cause};
ghost use Rattle.iim_pack.specs.States.Packing as words;

use iim_object::{PackCause, Plan};
use wire_message::is_trailer;

/// The length of the shortest ending of an object, in octets: ETX and EOT.
pub(crate) const LEAST_ENDING: u64 = 2;

/// Checks whether an object of `total` octets exceeds the plan's bound if `octets` more octets are
/// added.
pub(crate) fn exceeds_plan(plan: Plan, total: u64, octets: u64) -> bool
    ensures { result ≡ object.exceeds_plan plan (total + octets) }
{
    total.saturating_add(octets) > plan.bound()
}

/// Returns why an object cannot end with the trailer after `total` octets, or `None` if it can.
pub(crate) fn ending_cause(plan: Plan, total: u64, trailer: &[u8]) -> Option<PackCause>
    requires { total ≤ greatest_size }
    ensures { result ≡ words.ending_cause plan (total + length (packed_tail trailer.now)) trailer.now }
{
    if !is_trailer(trailer) {
        return Some(PackCause::BadTrailer);
    }
    let tail = trailer.len() as u64 + LEAST_ENDING;
    if exceeds_plan(plan, total, tail) {
        return Some(PackCause::PastAnnounced);
    }
    if plan.is_short(total + tail) {
        return Some(PackCause::ShortOfAnnounced);
    }
    None
}
