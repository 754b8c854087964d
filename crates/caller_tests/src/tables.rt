//! An example caller of `iim_tables`.

ghost use Rattle.std.specs.Prelude.{◌↔◌, IsTrue};
ghost use Rattle.iim_tables.specs.Format.Rows.{OctetsMeetRow};

use iim_tables::{admits, row};

/// Checks whether octets are valid data of the dataset with these numbers: the tables have a row
/// for it, and the octets meet the requirements of that row.
pub fn is_good(rec: u8, set: u8, octets: &[u8]) -> bool
    ensures { IsTrue result ↔ OctetsMeetRow rec set octets.now }
{
    match row(rec, set) {
        Some(row) => admits(&row, octets),
        None => false,
    }
}
