//! Datasets of the Information Interchange Model: their tags, a push parser for datasets that are
//! received in chunks, and the sources and targets of octets.
//!
//! Depends on `byteorder` and `arrayvec`. Every other crate depends on this crate, at least for its
//! definitions. The unpacker feeds [`HeadReader`] with its own sink, and relies on the contract of
//! [`HeadReader::feed`] and on the lemma `what_an_octet_completes` of [`laws::dataset_laws`].
//! Writers of objects and envelopes write each dataset by [`put_dataset`], and encode sizes by
//! [`number_bytes`]. Sources and targets are used only through [`take`] and [`put`].
#![tactic(auto)]

mod device;
pub mod device_laws;
mod fault;
mod head;
pub mod internals;
pub mod laws;
mod name;
mod number;
pub mod octets;
mod piece;
mod place;
mod reader;
mod reserved;
mod shown;
mod sink;
mod size;
mod source;
mod stop;
mod target;

pub use device::IoFault;
pub use fault::{Fault, FaultCause};
pub use head::{Head, TAG_MARKER, TAG_OCTETS, head_bytes};
pub use name::DatasetName;
pub use number::{NUMBER_OCTETS, number_bytes};
pub use place::{DatasetPlace, PARTIAL_TAG_OCTETS};
pub use reader::HeadReader;
pub use shown::push_with_escapes;
pub use sink::{DatasetSink, Step};
pub use size::{COUNT_OCTETS, GREATEST_SIZE};
pub use source::{BLOCK, FromRead, Source, take};
pub use stop::Stop;
pub use target::{FromWrite, Target, put, put_dataset};
