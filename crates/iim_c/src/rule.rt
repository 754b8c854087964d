//! Rows of the tables of datasets, for C.

ghost use Rattle.std.specs.Prelude.{◌≡◌, ◌↔◌, IsTrue, is_some};
ghost use Rattle.iim_tables.specs.Format.Rows.{OctetsMeetRow, row_of};
ghost use Rattle.iim_c.specs.Format.Tables.{kind_number, duty_number, rule_of, rule_for};

use iim_tables::{Duty, Kind, Row, admits, row};

/// The row of a dataset in the tables.
#[repr(C)]
#[derive(Clone, Copy)]
pub struct IimRule {
    /// The least number of octets.
    pub min: u64,
    /// The greatest number of octets.
    pub max: u64,
    /// The number of the kind of the data.
    pub kind: u8,
    /// The number of the duty, which is whether each record must have the dataset.
    pub duty: u8,
    /// Whether the dataset may occur more than once.
    pub repeats: bool,
}

/// The value in which all fields are 0.
const NO_RULE: IimRule = IimRule {
    min: 0,
    max: 0,
    kind: 0,
    duty: 0,
    repeats: false,
};

/// Returns the number of a kind.
fn kind_number(kind: Kind) -> u8
    ensures { result ≡ kind_number kind }
{
    match kind {
        Kind::Graphic => 1,
        Kind::Spaced => 2,
        Kind::SpacedLines => 3,
        Kind::Letters => 4,
        Kind::Digits => 5,
        Kind::Date => 6,
        Kind::PartDate => 7,
        Kind::Time => 8,
        Kind::Binary => 9,
        Kind::Octets => 10,
        Kind::Mode => 11,
        Kind::Size => 12,
        Kind::SizeFromOne => 13,
    }
}

/// Returns the number of a duty.
fn duty_number(duty: Duty) -> u8
    ensures { result ≡ duty_number duty }
{
    match duty {
        Duty::Mandatory => 1,
        Duty::Optional => 2,
        Duty::ByMode => 3,
    }
}

/// Converts a row to its form for C.
fn rule_of(row: Row) -> IimRule
    ensures { result ≡ rule_of row }
{
    IimRule {
        min: row.min,
        max: row.max,
        kind: kind_number(row.kind),
        duty: duty_number(row.duty),
        repeats: row.repeats,
    }
}

/// Looks up the row of the dataset `rec`:`set`. Returns whether the tables have such a row.
pub fn iim_row(rec: u8, set: u8, rule: &mut IimRule) -> bool
    ensures has { result ≡ is_some (row_of rec set) }
    ensures rule { rule.new ≡ rule_for (row_of rec set) }
{
    match row(rec, set) {
        Some(row) => {
            *rule = rule_of(row);
            true
        }
        None => {
            *rule = NO_RULE;
            false
        }
    }
}

/// Checks whether octets are a valid value of the dataset `rec`:`set`: the tables have a row for
/// it, and the octets meet the requirements of that row.
pub fn iim_admits(rec: u8, set: u8, octets: &[u8]) -> bool
    ensures { IsTrue result ↔ OctetsMeetRow rec set octets.now }
{
    match row(rec, set) {
        Some(row) => admits(&row, octets),
        None => false,
    }
}
