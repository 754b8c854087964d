//! The row of a dataset in the tables: its bounds, kind and duty.

/// The kind of a dataset: which octets it may have (IIM version 4, the chapters on the records).
/// The names of the kinds, and the dates with missing parts, are choices of the profile.
#[derive(Clone, Copy, Debug, PartialEq, Eq)]
pub enum Kind {
    /// The octets 21 to 7E and 80 to FF: the standard's graphic characters.
    Graphic,
    /// Graphic octets and spaces.
    Spaced,
    /// Graphic octets, spaces, and the octets CR and LF of line ends.
    SpacedLines,
    /// The letters A to Z and a to z: the standard's alphabetic characters.
    Letters,
    /// The digits 0 to 9: the standard's numeric characters.
    Digits,
    /// Eight digits, CCYYMMDD: a day of the proleptic Gregorian calendar, of the years 0001 to
    /// 9999.
    Date,
    /// A date with a missing part: the month may be 00, and then the day is 00 to 31; or the day
    /// may be 00.
    PartDate,
    /// Eleven octets, HHMMSS, + or -, HHMM: a time of day and its offset from universal time.
    Time,
    /// A binary number. Any octets are valid.
    Binary,
    /// Any octets.
    Octets,
    /// One octet, 00 or 01: whether the size of the object is known at the start.
    Mode,
    /// An unsigned binary number of 1 to `SIZE_OCTETS` octets, high octet first, of at most
    /// `GREATEST_SIZE`. Leading zeros are accepted.
    Size,
    /// A `Size` of at least 1.
    SizeFromOne,
}

/// Whether a dataset must occur in its record (IIM version 4, the chapters on the records).
#[derive(Clone, Copy, Debug, PartialEq, Eq)]
pub enum Duty {
    /// The dataset must occur.
    Mandatory,
    /// The dataset may occur.
    Optional,
    /// The dataset must occur if 7:10 Size Mode states that the size is known at the start, and
    /// must not occur otherwise.
    ByMode,
}

/// The row of a dataset in the tables.
#[derive(Clone, Copy, Debug, PartialEq, Eq)]
pub struct Row {
    /// The least number of octets.
    pub min: u64,
    /// The greatest number of octets.
    pub max: u64,
    /// The kind of the data.
    pub kind: Kind,
    /// Whether the dataset must occur.
    pub duty: Duty,
    /// Whether the dataset may occur more than once.
    pub repeats: bool,
}
