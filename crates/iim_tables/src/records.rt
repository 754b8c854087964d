//! The numbers of the records and of the datasets that the layers refer to, with their names in the
//! standard.

/// The Envelope Record.
pub const ENVELOPE: u8 = 1;

/// 1:20 File Format.
pub const FILE_FORMAT: u8 = 20;

/// The Application Record.
pub const APPLICATION: u8 = 2;

/// The pre-ObjectData Descriptor Record, which states sizes before the object.
pub const PRE_OBJECT: u8 = 7;

/// 7:10 Size Mode.
pub const SIZE_MODE: u8 = 10;

/// 7:20 Max Subfile Size.
pub const MAX_SUBFILE_SIZE: u8 = 20;

/// 7:90 ObjectData Size Announced.
pub const ANNOUNCED_SIZE: u8 = 90;

/// 7:95 Maximum ObjectData Size.
pub const MAXIMUM_SIZE: u8 = 95;

/// The ObjectData Record.
pub const OBJECT: u8 = 8;

/// 8:10 Subfile.
pub const SUBFILE: u8 = 10;

/// The post-ObjectData Descriptor Record, the last one of an envelope.
pub const POST_OBJECT: u8 = 9;

/// 9:10 Confirmed ObjectData Size.
pub const CONFIRMED_SIZE: u8 = 10;
