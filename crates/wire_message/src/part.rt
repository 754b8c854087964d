//! The parts of a header before its info.

use crate::lengths::{MAX_CATEGORY, MAX_NUMBER, MAX_PRIORITY, MAX_SOURCE, MAX_WORDS};
use arrayvec::ArrayVec;

/// A part of a header, in the order of the format.
#[derive(Clone, Copy)]
pub(crate) enum HeaderPart {
    Source,
    Number,
    Priority,
    Category,
    Words,
}

/// The octets received of each part. The parts after the one in progress are empty.
#[derive(Drop)]
pub(crate) struct HeaderTexts {
    pub(crate) source: ArrayVec<u8, MAX_SOURCE>,
    pub(crate) number: ArrayVec<u8, MAX_NUMBER>,
    pub(crate) priority: ArrayVec<u8, MAX_PRIORITY>,
    pub(crate) category: ArrayVec<u8, MAX_CATEGORY>,
    pub(crate) words: ArrayVec<u8, MAX_WORDS>,
}
