//! Names of datasets.

ghost use Rattle.std.specs.Prelude.{◌≡◌, Some};
ghost use Rattle.iim_dataset.specs.Format.Datasets.{dataset_name, padding};

use std::fmt;
use std::fmt::{Display, Formatter};

/// The name of a dataset: its record and number, printed as `1:00` or `2:105`.
#[derive(Clone, Copy, Debug, PartialEq, Eq)]
pub struct DatasetName {
    /// The number of the record.
    pub rec: u8,
    /// The number of the dataset within its record.
    pub set: u8,
}

/// Returns the zero that is written before a number of one digit, or nothing for a longer number.
fn padding(number: u8) -> &'static str
    ensures { result.now ≡ padding number }
{
    if number < 10 { "0" } else { "" }
}

/// Writes the record, a colon and the number, which has at least two digits.
impl Display for DatasetName {
    ghost output = { λ n. Some (dataset_name n.rec n.set) };

    fn fmt<W: fmt::Write>(&self, f: &mut Formatter<W>) -> fmt::Result {
        let rec = self.rec;
        let zero = padding(self.set);
        let set = self.set;
        write!(f, "{rec}:{zero}{set}")
    }
}
