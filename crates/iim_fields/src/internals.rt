//! Internals for the layers above, in this repository. They are not part of the public interface,
//! and may change with any release.

pub use crate::records::is_kept;
