//! Options for packing an envelope.

ghost use Rattle.std.specs.Prelude.{◌≡◌, IfSome, IfNone};
ghost use Rattle.iim_pack_script.specs.Format.{asked};
ghost use Rattle.iim_c.specs.Format.Packing.{AreInvalidOptions, AreValidOptions, asked_for};

use iim_object::{Plan, Size};
use iim_pack_script::packing::PackRequest;
use iim_request::request::DEFAULT_SUBFILE;

/// How to pack an envelope. If `subfile` is 0, the size of a full subfile is 1,024 octets.
#[repr(C)]
#[derive(Clone, Copy)]
pub struct IimPacking {
    /// The number of octets of a full subfile, or 0 for the default.
    pub subfile: u64,
    /// Whether the envelope states that the size of its object is unknown.
    pub unknown: bool,
    /// Whether the envelope states a maximum size.
    pub has_max: bool,
    /// The maximum size.
    pub max: u64,
}

/// Converts the options to a request. Returns `None` if a known size is combined with a maximum, or
/// if a number exceeds the greatest size.
pub(crate) fn request_for(packing: IimPacking) -> Option<PackRequest>
    ensures request { IfSome result (λ request. (asked request.subfile request.unknown request.max ≡ asked_for packing)
        × AreValidOptions packing) }
    ensures none { IfNone result (AreInvalidOptions packing) }
{
    if packing.has_max && !packing.unknown {
        return None;
    }
    let subfile = if packing.subfile == 0 {
        DEFAULT_SUBFILE
    } else {
        packing.subfile
    };
    let max = if packing.has_max {
        Some(packing.max)
    } else {
        None
    };
    Plan::new(subfile, Size::Unknown(max))?;
    Some(PackRequest {
        subfile,
        unknown: packing.unknown,
        max,
    })
}
