//! Opening and resetting a handle.

ghost use Rattle.iim_c.specs.Format.Checking.{limits_for};
ghost use Rattle.iim_handle.specs.Format.{HandleIsOpened, HandleIsReset};

use crate::handle::{IimUnpacker, put_back, put_new, take_out};
use crate::status::BAD_HANDLE;
use iim_c::IimLimits;
use iim_c::status::{DONE, NO_MEMORY};
use iim_unpack::Unpacker;
use std::alloc::Global;

/// Opens a closed handle at the beginning of an envelope. Allocates all the memory that the limits
/// allow.
///
/// Returns `DONE`; `NO_MEMORY` if the allocation fails, in which case the handle is still closed;
/// or `BAD_HANDLE` if the handle is already open, in which case it is unchanged.
pub fn iim_unpacker_open(alloc: Global, limits: IimLimits, handle: &mut IimUnpacker) -> u8
    ensures { HandleIsOpened (limits_for limits) handle.old.owner.home handle.new.owner.home result }
{
    if handle.is_open {
        return BAD_HANDLE;
    }
    let Ok(unpacker) = Unpacker::new(alloc, limits.limits()) else {
        return NO_MEMORY;
    };
    put_new(alloc, handle, unpacker)
}

/// Resets a handle to the beginning of a new envelope, with the same limits and memory.
///
/// Returns `DONE`, or `BAD_HANDLE` if the handle is closed. Allocates nothing.
pub fn iim_unpacker_reset(alloc: Global, handle: &mut IimUnpacker) -> u8
    ensures { HandleIsReset handle.old.owner.home handle.new.owner.home result }
{
    if !handle.is_open {
        return BAD_HANDLE;
    }
    let mut unpacker = take_out(alloc, handle);
    unpacker.again();
    put_back(handle, unpacker);
    DONE
}
