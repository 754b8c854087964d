//! The text of a report.

ghost use Rattle.std.specs.Prelude.{◌≡◌, ◌+◌, ◌≤◌, [], ◌++◌, length, IfOk};
ghost use Rattle.iim_audit.specs.Format.{age_columns, held_rows, is_held, id_columns, repeated_rows, row_line, seconds_or_dash, size_columns, totals_line, printed_report};
ghost use Rattle.iim_dataset.specs.Format.Datasets.{number_or_dash};
ghost use Rattle.iim_audit.specs.Steps.{IsShort};

use crate::copy::CopyState;
use crate::line::{ROOM, ReportLine};
use crate::report::Report;
use crate::row::AuditRow;
use itoa::Buffer;
use std::alloc::{AllocError, Global};

/// Inserts a number of seconds at the front, or `-` for `None`.
fn prepend_seconds(line: &mut ReportLine, seconds: Option<i64>)
    requires { length line.old + 20 ≤ ROOM }
    ensures octets { line.new ≡ seconds_or_dash seconds ++ line.old }
    ensures len { length line.new ≤ length line.old + 20 }
{
    match seconds {
        None => line.prepend(b"-"),
        Some(seconds) => line.prepend(Buffer::new().format(seconds).as_bytes()),
    }
}

/// Inserts a number at the front, or `-` for `None`.
fn prepend_number_or_dash(line: &mut ReportLine, number: Option<u64>)
    requires { length line.old + 20 ≤ ROOM }
    ensures octets { line.new ≡ number_or_dash number ++ line.old }
    ensures len { length line.new ≤ length line.old + 20 }
{
    match number {
        None => line.prepend(b"-"),
        Some(number) => line.prepend_number(number),
    }
}

/// Inserts the number of a row and the id of its envelope at the front.
fn prepend_id(line: &mut ReportLine, number: u64, row: &AuditRow)
    requires short { IsShort row.now.id }
    requires room { length line.old ≤ 190 }
    ensures { line.new ≡ id_columns number row.now ++ line.old }
{
    line.prepend(row.id.date_sent());
    line.prepend(b" ");
    line.prepend(row.id.number());
    line.prepend(b" ");
    line.prepend_shown(row.id.service());
    line.prepend(b" ");
    line.prepend_number(number);
}

/// Inserts the sizes and word counts of a row at the front.
fn prepend_sizes(line: &mut ReportLine, row: &AuditRow)
    requires { length line.old ≤ 70 }
    ensures octets { line.new ≡ size_columns row.now ++ line.old }
    ensures len { length line.new ≤ 175 }
{
    line.prepend_number(row.counted);
    line.prepend(b"/");
    line.prepend_number(row.announced);
    line.prepend(b" words ");
    line.prepend_number(row.subfiles);
    line.prepend(b" subfiles ");
    line.prepend_number(row.size);
    line.prepend(b" size ");
}

/// Inserts the age of a row, the envelope that it repeats, and its copy state at the front.
fn prepend_ages(line: &mut ReportLine, row: &AuditRow)
    requires { length line.old ≤ 0 }
    ensures octets { line.new ≡ age_columns row.now ++ line.old }
    ensures len { length line.new ≤ 70 }
{
    line.prepend(b"\n");
    line.prepend(row.copy.word().as_bytes());
    line.prepend(b" copy ");
    prepend_number_or_dash(line, row.first);
    line.prepend(b" repeats ");
    prepend_seconds(line, row.age);
    line.prepend(b" age ");
}

/// Formats the line of a row.
fn line_of(number: u64, row: &AuditRow) -> ReportLine
    requires { IsShort row.now.id }
    ensures { result ≡ row_line number row.now }
{
    let mut line = ReportLine::new();
    prepend_ages(&mut line, row);
    prepend_sizes(&mut line, row);
    line.prepend(&[row.priority.unwrap_or(b'-')]);
    line.prepend(b" priority ");
    prepend_id(&mut line, number, row);
    line
}

/// Returns the number of rows that repeat an earlier one.
fn count_repeated(rows: &[AuditRow]) -> usize
    ensures { result ≡ repeated_rows rows.now }
{
    rows.iter().filter(|row| row.first.is_some()).count()
}

/// Returns whether the copy of a row is held.
fn is_held(row: &AuditRow) -> bool
    ensures { result ≡ is_held row.now.copy }
{
    row.copy == CopyState::Held
}

/// Returns the number of rows whose copy is held.
fn count_held(rows: &[AuditRow]) -> usize
    ensures { result ≡ held_rows rows.now }
{
    rows.iter().filter(|row| is_held(row)).count()
}

impl Report {
    ghost use Rattle.std.specs.Prelude.{◌≡◌, ◌+◌, ◌<◌, length, slice_index_or};
    ghost use Rattle.iim_audit.specs.Format.{row_line, totals_line};
    ghost use Rattle.iim_audit.specs.declared.row.AuditRow.{AuditRow as Row};

    /// Formats the row at an index as a line that ends in LF. Octets of the service from 20 to 7E
    /// hexadecimal, except the backslash, are printed as they are, and all others as `\x` and two
    /// hexadecimal digits. A missing priority, age or first envelope is printed as `-`.
    pub fn line(&self, index: usize) -> ReportLine
        requires { index < length self.now }
        ensures { (row : Row) → result ≡ row_line (index + 1) (slice_index_or self.now index row) }
    {
        let row = &self.rows[index];
        line_of(index as u64 + 1, row)
    }

    /// Formats the line after the rows: the number of rows, of rows that repeat an earlier one, and
    /// of rows whose copy is held.
    pub fn last_line(&self) -> ReportLine
        ensures { result ≡ totals_line self.now }
    {
        let rows = self.rows();
        let mut line = ReportLine::new();
        line.prepend(b" held\n");
        line.prepend_number(count_held(rows) as u64);
        line.prepend(b" repeated, ");
        line.prepend_number(count_repeated(rows) as u64);
        line.prepend(b" envelopes, ");
        line.prepend_number(rows.len() as u64);
        line
    }
}

/// Formats a report as text: a line for each row, and the last line. Returns an error if an
/// allocation fails.
pub fn report_text(alloc: Global, report: &Report) -> Result<Vec<u8>, AllocError>
    ensures { IfOk result (λ text. text.items ≡ printed_report report.now) }
{
    let mut text = Vec::new(alloc);
    'rows: for index in 0..report.rows().len() {
        text.extend_from_slice(report.line(index).as_slice())?;
    }
    text.extend_from_slice(report.last_line().as_slice())?;
    Ok(text)
}
