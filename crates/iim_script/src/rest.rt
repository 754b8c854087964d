//! The unread part of a script.

ghost use Rattle.std.specs.Prelude.{◌+◌, ◌≤◌, length};
ghost use Rattle.iim_script.specs.Format.Scripts.{max_script};

/// The unread part of a script, after its first `lines` lines.
#[derive(Clone, Copy)]
pub(crate) struct Rest<'a> {
    pub(crate) octets: &'a [u8],
    pub(crate) lines: u64,

    // Each line has at least one octet, its LF, so that the number of lines is bounded.
    ghost short: { lines + length octets.now ≤ max_script },
}
