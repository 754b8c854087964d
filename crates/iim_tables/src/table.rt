//! The tables of the datasets.

ghost use Rattle.std.specs.Prelude.{◌≡◌, Some, None, MatchOption};
ghost use Rattle.iim_tables.specs.Format.Rows.{row_of};

use crate::numbers::SIZE_OCTETS;
use crate::shape::{Duty, Kind, Row};
use iim_dataset::GREATEST_SIZE;

/// The row of every number of records 1 and 2 that is not in the tables. Such datasets are stored
/// without a check of their octets.
const KEPT: Row = Row {
    min: 0,
    max: 8192,
    kind: Kind::Octets,
    duty: Duty::Optional,
    repeats: true,
};

/// Expands to a match on the record and the number of a dataset. Each line is an arm: dataset,
/// octets, kind, duty, and whether the dataset repeats.
macro_rules! row_by {
    ($dataset:expr; $($rec:literal:$set:literal $min:literal..=$max:tt $kind:ident $duty:ident $repeats:literal)*) => {
        match $dataset {
            $(($rec, $set) => Some(&Row {
                min: $min,
                max: $max as u64,
                kind: Kind::$kind,
                duty: Duty::$duty,
                repeats: $repeats,
            }),)*
            (1 | 2, _) => Some(&KEPT),
            _ => None,
        }
    };
}

/// The datasets of the records 1, 2, 7, 8 and 9, in the order and with the names of the standard.
macro_rules! row_in_table {
    ($dataset:expr) => {
        row_by! { $dataset;
            // dataset  octets           kind         duty       repeats

            // Envelope Record
            1:00    2 ..= 2              Binary       Mandatory  false  // Model Version
            1:05    0 ..= 1024           Graphic      Optional   true   // Destination
            1:20    2 ..= 2              Binary       Mandatory  false  // File Format
            1:22    2 ..= 2              Binary       Mandatory  false  // File Format Version
            1:30    0 ..= 10             Graphic      Mandatory  false  // Service Identifier
            1:40    8 ..= 8              Digits       Mandatory  false  // Envelope Number
            1:50    0 ..= 32             Graphic      Optional   true   // Product I.D.
            1:60    1 ..= 1              Digits       Optional   false  // Envelope Priority
            1:70    8 ..= 8              Date         Mandatory  false  // Date Sent
            1:80   11 ..= 11             Time         Optional   false  // Time Sent
            1:90    0 ..= 32             Octets       Optional   false  // Coded Character Set
            1:100  14 ..= 80             Octets       Optional   false  // Unique Name of Object

            // Application Record
            2:00    2 ..= 2              Binary       Mandatory  false  // Record Version
            2:05    0 ..= 64             Spaced       Optional   false  // Object Name
            2:07    0 ..= 64             Spaced       Optional   false  // Edit Status
            2:10    1 ..= 1              Digits       Optional   false  // Urgency
            2:15    0 ..= 3              Letters      Optional   false  // Category
            2:20    0 ..= 32             Spaced       Optional   true   // Supplemental Category
            2:22    0 ..= 32             Graphic      Optional   false  // Fixture Identifier
            2:25    0 ..= 64             Spaced       Optional   true   // Keywords
            2:30    8 ..= 8              Date         Optional   false  // Release Date
            2:35   11 ..= 11             Time         Optional   false  // Release Time
            2:37    8 ..= 8              Date         Optional   false  // Expiration Date
            2:38   11 ..= 11             Time         Optional   false  // Expiration Time
            2:40    0 ..= 256            SpacedLines  Optional   false  // Special Instructions
            2:55    8 ..= 8              PartDate     Optional   false  // Date Created
            2:60   11 ..= 11             Time         Optional   false  // Time Created
            2:80    0 ..= 32             Spaced       Optional   true   // By-line
            2:85    0 ..= 32             Spaced       Optional   true   // By-line Title
            2:90    0 ..= 32             Spaced       Optional   false  // City
            2:95    0 ..= 32             Spaced       Optional   false  // Province/State
            2:100   0 ..= 3              Letters      Optional   false  // Country Code
            2:101   0 ..= 64             Spaced       Optional   false  // Country Name
            2:103   0 ..= 32             Spaced       Optional   false  // Original Transmission Reference
            2:105   0 ..= 256            Spaced       Optional   false  // Headline
            2:110   0 ..= 32             Spaced       Optional   false  // Credit
            2:115   0 ..= 32             Spaced       Optional   false  // Source
            2:116   0 ..= 128            Spaced       Optional   false  // Copyright Notice
            2:120   0 ..= 2000           SpacedLines  Optional   false  // Caption/Abstract
            2:122   0 ..= 32             Spaced       Optional   true   // Writer/Editor

            // pre-ObjectData Descriptor Record
            7:10    1 ..= 1              Mode         Mandatory  false  // Size Mode
            7:20    1 ..= SIZE_OCTETS    SizeFromOne  Mandatory  false  // Max Subfile Size
            7:90    1 ..= SIZE_OCTETS    Size         ByMode     false  // ObjectData Size Announced
            7:95    1 ..= SIZE_OCTETS    Size         Optional   false  // Maximum ObjectData Size

            // ObjectData Record
            8:10    0 ..= GREATEST_SIZE  Octets       Mandatory  true   // Subfile

            // post-ObjectData Descriptor Record
            9:10    1 ..= SIZE_OCTETS    Size         Mandatory  false  // Confirmed ObjectData Size
        }
    };
}

/// Returns a reference to the row of a dataset.
#[tactic(auto, unfolding(crate::specs::Format::Rows::row_of, crate::specs::Format::Rows::table))]
#[inline(always)]
pub fn line(rec: u8, set: u8) -> Option<&'static Row>
    ensures { MatchOption result (row_of rec set ≡ None) (λ row. row_of rec set ≡ Some row.now) }
{
    row_in_table!((rec, set))
}

/// Returns the row of the dataset with this record and number, or `None` if there is no such row.
/// Records 1 and 2 have a row for every number, records 7, 8 and 9 only for the numbers in the
/// tables, and other records have none.
///
/// The tables have the datasets of the Envelope Record (1), the Application Record (2), the
/// pre-ObjectData Descriptor Record (7), the ObjectData Record (8) and the post-ObjectData
/// Descriptor Record (9) of IIM version 4. A dataset with any other number of records 1 and 2 may
/// have up to 8,192 octets of any kind, and may repeat.
#[inline(always)]
pub fn row(rec: u8, set: u8) -> Option<Row>
    ensures { result ≡ row_of rec set }
{
    match line(rec, set) {
        Some(row) => Some(*row),
        None => None,
    }
}
