//! The names of datasets.

ghost use Rattle.std.specs.Prelude.{◌≡◌, Some, None, MatchOption};
ghost use Rattle.iim_c.specs.Format.Tables.{WritesName, dataset_name_of, name_or_none};

use crate::names::put_name;

/// Expands to a match on the record and the number of a dataset. Each line is an arm: dataset and
/// name.
macro_rules! name_by {
    ($dataset:expr; $($rec:literal:$set:literal $name:literal)*) => {
        match $dataset {
            $(($rec, $set) => Some($name),)*
            _ => None,
        }
    };
}

/// Matches a dataset with the tables, in the order and with the names of the standard.
macro_rules! name_in_table {
    ($dataset:expr) => {
        name_by! { $dataset;
            // Envelope Record
            1:00 "Model Version"
            1:05 "Destination"
            1:20 "File Format"
            1:22 "File Format Version"
            1:30 "Service Identifier"
            1:40 "Envelope Number"
            1:50 "Product I.D."
            1:60 "Envelope Priority"
            1:70 "Date Sent"
            1:80 "Time Sent"
            1:90 "Coded Character Set"
            1:100 "Unique Name of Object"

            // Application Record
            2:00 "Record Version"
            2:05 "Object Name"
            2:07 "Edit Status"
            2:10 "Urgency"
            2:15 "Category"
            2:20 "Supplemental Category"
            2:22 "Fixture Identifier"
            2:25 "Keywords"
            2:30 "Release Date"
            2:35 "Release Time"
            2:37 "Expiration Date"
            2:38 "Expiration Time"
            2:40 "Special Instructions"
            2:55 "Date Created"
            2:60 "Time Created"
            2:80 "By-line"
            2:85 "By-line Title"
            2:90 "City"
            2:95 "Province/State"
            2:100 "Country Code"
            2:101 "Country Name"
            2:103 "Original Transmission Reference"
            2:105 "Headline"
            2:110 "Credit"
            2:115 "Source"
            2:116 "Copyright Notice"
            2:120 "Caption/Abstract"
            2:122 "Writer/Editor"

            // pre-ObjectData Descriptor Record
            7:10 "Size Mode"
            7:20 "Max Subfile Size"
            7:90 "ObjectData Size Announced"
            7:95 "Maximum ObjectData Size"

            // ObjectData Record
            8:10 "Subfile"

            // post-ObjectData Descriptor Record
            9:10 "Confirmed ObjectData Size"
        }
    };
}

/// Returns the name of a dataset in the standard, or `None` if the dataset is not in the tables.
#[tactic(auto, unfolding(crate::specs::Format::Tables::dataset_name_of, crate::specs::Format::Tables::dataset_names))]
fn dataset_name_of(rec: u8, set: u8) -> Option<&'static str>
    ensures { MatchOption result (dataset_name_of rec set ≡ None) (λ name. dataset_name_of rec set ≡ Some name.now) }
{
    name_in_table!((rec, set))
}

/// Writes the name of a dataset and a NUL into `out`, if they fit. Returns the length of the name
/// in octets, without the NUL, or 0 if the dataset is not in the tables.
pub fn iim_dataset_name(rec: u8, set: u8, out: &mut [u8]) -> usize
    ensures { WritesName (name_or_none (dataset_name_of rec set)) out.old out.new result }
{
    put_name(dataset_name_of(rec, set), out)
}
