//! Internals for the crates above, in this repository. They are not part of the public interface,
//! and may change with any release.

pub use crate::kinds::has_kind;
pub use crate::table::line;
