//! Writes octets into buffers of the caller.

ghost use Rattle.std.specs.Prelude.{◌≡◌, ◌+◌, ◌<◌, ◌≤◌, ◌++◌, [], ◌∷◌, length, drop};

/// Writes octets to the front of a buffer that is long enough for them.
pub(crate) fn put_front(out: &mut [u8], octets: &[u8])
    requires { length octets.now ≤ length out.old }
    ensures { out.new ≡ octets.now ++ drop (length octets.now) out.old }
{
    out[..octets.len()].copy_from_slice(octets);
}

/// Writes octets and a NUL to the front of a buffer that is long enough for them.
pub(crate) fn put_text(out: &mut [u8], octets: &[u8])
    requires { length octets.now < length out.old }
    ensures { out.new ≡ (octets.now ++ 0 ∷ []) ++ drop (length octets.now + 1) out.old }
{
    put_front(out, octets);
    out[octets.len()] = 0;
}
