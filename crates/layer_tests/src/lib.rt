//! Tests the layers below the unpacker through their public functions: with readers and writers
//! that fail, with sinks that count calls and stop, with memory that is reused for a second
//! envelope, and with iterators over an envelope.
//!
//! Each line of the log begins with the name of its test. The program `envelope_tests` prints the
//! lines, and its file `stdout` has the expected lines, which follow from the format and from the
//! documentation of the libraries.
#![tactic(auto)]

mod causes;
mod datasets;
mod fields;
mod messages;
mod objects;
mod stories;
mod told;

use std::alloc::Global;
pub use told::TestLog;

/// Runs all tests. Returns their log.
pub fn lines(alloc: Global) -> TestLog {
    let mut told = TestLog::new(alloc);
    causes::tell(&mut told);
    datasets::tell(&mut told, alloc);
    fields::tell(&mut told, alloc);
    objects::tell(&mut told, alloc);
    stories::tell(&mut told, alloc);
    messages::tell(&mut told, alloc);
    told
}
