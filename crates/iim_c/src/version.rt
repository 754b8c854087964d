//! The version of the interface.

ghost use Rattle.std.specs.Prelude.{◌≡◌};

/// The version of the interface, as in the header `iim.h`.
pub const VERSION: u32 = 1;

/// Returns the version of the interface that the library implements.
pub fn iim_version() -> u32
    ensures { result ≡ VERSION }
{
    VERSION
}
