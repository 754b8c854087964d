//! Tests the unpacker with sinks that count calls or stop, and with readers that fail.

mod calls;
mod intakes;

use crate::told::Told;
use iim_unpack::{Cause, Layer, Refusal};
use std::alloc::Global;
use std::io;

/// Returns a refusal of the dataset with these numbers.
fn refusal(layer: Layer, (rec, set): (u8, u8), octet: usize, cause: Cause) -> Refusal {
    Refusal {
        layer,
        rec,
        set,
        octet: octet as u64,
        cause,
    }
}

/// Runs the tests of the unpacker.
pub(crate) fn tell(rt: &impl Print, told: &mut Told, alloc: Global) -> io::Result<()> {
    calls::tell(rt, told, alloc)?;
    intakes::tell(rt, told, alloc)
}
