//! Internals for the crates above, in this repository. They are not part of the public interface,
//! and may change with any release.

pub use crate::fault::{
    TokenFault, count_fault_on, fault_of_record, message_fault_on, size_fault_on,
};
pub use crate::form::{ENDED, FIRST_VERSION, IN_DATA, IN_TAG, PRESENT_VERSION};
pub use crate::ticket::possible::{Readers, readers_at};
pub use crate::ticket::readers::part_number;
pub use crate::ticket::records::fields_at;
