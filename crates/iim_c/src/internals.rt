//! Internals for the crates above, in this repository. They are not part of the public interface,
//! and may change with any release.

pub use crate::answer::{refusal_answer, status_answer, ticket_answer};
pub use crate::feed::{feed_text, status_and_used};
