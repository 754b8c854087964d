//! The handle. Each call takes the unpacker out of it, and puts the unpacker back.

ghost use Rattle.std.specs.Prelude.{◌≡◌, ◌⊎◌, IsSome, is_some, Some, None};
ghost use Rattle.iim_c.specs.Format.Statuses as status;

use crate::owner::Owner;
use crate::parts::Parts;
use iim_c::status::{DONE, NO_MEMORY};
use iim_unpack::Unpacker;
use std::alloc::Global;
use std::mem::replace;

/// An unpacker for C. A handle in which all fields are zero is closed and owns nothing.
#[repr(C)]
pub struct IimUnpacker {
    /// The owner of the unpacker, if the handle is open.
    pub owner: Owner,
    /// Whether the handle is open, which means that it owns an unpacker.
    pub is_open: bool,
    ghost owned: { is_open ≡ is_some owner.home },
}

/// Takes the unpacker out of an open handle. The handle is then closed.
pub(crate) fn take_out(alloc: Global, handle: &mut IimUnpacker) -> Box<Unpacker>
    requires { IsSome handle.old.owner.home }
    ensures unpacker { Some result.value ≡ handle.old.owner.home }
    ensures closed { handle.new.owner.home ≡ None }
{
    let closed = IimUnpacker {
        owner: Owner::none(alloc),
        is_open: false,
    };
    let IimUnpacker { owner, is_open: _ } = replace(handle, closed);
    owner.into_parts().into_box()
}

/// Puts an unpacker into a closed handle. The handle is then open.
pub(crate) fn put_back(handle: &mut IimUnpacker, unpacker: Box<Unpacker>)
    requires { handle.old.owner.home ≡ None }
    ensures { handle.new.owner.home ≡ Some unpacker.value }
{
    let put_new_opens = IimUnpacker {
        owner: Owner::of_parts(Parts::of(unpacker)),
        is_open: true,
    };
    let IimUnpacker { owner, is_open: _ } = replace(handle, put_new_opens);
    owner.end();
}

/// Puts a new unpacker into a closed handle. Returns `DONE`, or `NO_MEMORY` if the allocation
/// fails, in which case the handle is still closed.
pub(crate) fn put_new(alloc: Global, handle: &mut IimUnpacker, unpacker: Unpacker) -> u8
    requires { handle.old.owner.home ≡ None }
    ensures { ((handle.new.owner.home ≡ Some unpacker) × (result ≡ status.done))
        ⊎ ((handle.new.owner.home ≡ None) × (result ≡ status.no_memory)) }
{
    match Box::new(alloc, unpacker) {
        Ok(unpacker) => {
            put_back(handle, unpacker);
            DONE
        }
        Err(_) => NO_MEMORY,
    }
}
