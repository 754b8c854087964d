//! Internals for the layers above, in this repository. They are not part of the public interface,
//! and may change with any release.

pub use crate::head::{EXTENDED, HeadCause};
pub use crate::reserved::ReservedOctets;
pub use crate::shown::{escaped, is_plain, push_escape};
