//! The report of an audit.

ghost use Rattle.std.specs.Prelude.{◌≡◌};

use crate::row::AuditRow;
use std::marker::Model;

/// The report of an audit, with one row for each envelope, in the order of the input. Its model in
/// contracts is the list of its rows.
#[derive(Debug, Drop)]
pub struct Report {
    pub(crate) rows: Vec<AuditRow>,
}

impl Model for Report {
    ghost use Rattle.std.specs.Prelude.{List};
    ghost use Rattle.iim_audit.specs.declared.row.AuditRow.{AuditRow as Row};

    ghost Value = { List Row };

    ghost view = { λ report. report.rows.items };

    ghost use Rattle.iim_audit.specs.Steps.{HaveShortIds};

    ghost invariant = { λ report. HaveShortIds report.rows.items };
}

impl Report {
    /// Returns the rows, in the order of the envelopes.
    pub fn rows(&self) -> &[AuditRow]
        ensures { result.now ≡ self.now }
    {
        &self.rows
    }
}
