//! The sizes of an object.

/// What a packer knows of the size of an object before the object begins.
#[derive(Clone, Copy, Debug, PartialEq, Eq)]
pub enum Size {
    /// The object has exactly this number of octets. It has size mode 1, and 7:90 ObjectData Size
    /// Announced.
    Known(u64),
    /// The number of octets is not known. The object has size mode 0, and 7:95 Maximum ObjectData
    /// Size if a maximum is given.
    Unknown(Option<u64>),
}

/// What records 7 to 9 state about an object. All sizes are in octets; `subfiles` is a number of
/// subfiles.
#[derive(Clone, Copy, Debug, PartialEq, Eq)]
pub struct Sizes {
    /// Whether the size is known at the start: 7:10 Size Mode.
    pub known: bool,
    /// The greatest size of a subfile: 7:20.
    pub subfile: u64,
    /// The announced size: 7:90.
    pub announced: Option<u64>,
    /// The greatest size that is allowed: 7:95.
    pub maximum: Option<u64>,
    /// The number of subfiles.
    pub subfiles: u64,
    /// The number of octets of all subfiles together.
    pub total: u64,
}
