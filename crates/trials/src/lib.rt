//! Fault injection for tests: a reader, a writer and a sink of stories that fail at a chosen call.
//!
//! Depends on `iim_dataset`, `wire_story` and `arrayvec`. Only tests depend on this crate.
#![tactic(auto)]

mod device;
mod sink;

pub use device::{TrialReader, TrialWriter, Trouble};
pub use sink::TrialSink;
