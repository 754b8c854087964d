//! Tests reports, audits whose reader fails, and the largest number of envelopes.

ghost use Rattle.std.specs.Prelude.{◌<◌};

use crate::given::{LIMITS, joined};
use crate::outcome::{Trouble, right, right_at};
use crate::told::Told;
use iim_audit::{AuditCause, AuditFault, AuditRow, CopyState, Report, audit};
use iim_dataset::{FromRead, Source};
use iim_unpack::Intake;
use jiff::Timestamp;
use std::alloc::Global;
use std::io;
use std::io::Read;
use trials::{TrialReader, Trouble as DeviceTrouble};
use worked::SMALLEST;

/// The smallest envelope with a priority and a time: 1:60 and 1:80 are added before and after 1:70.
const TIMED: &[u8] =
    b"\x1c\x01\x00\x00\x02\x00\x04\x1c\x01\x14\x00\x02\x00\x02\x1c\x01\x16\x00\x02\x00\x01\
\x1c\x01\x1e\x00\x03TST\x1c\x01\x28\x00\x0800000001\x1c\x01\x3c\x00\x015\x1c\x01\x46\x00\x0820240301\
\x1c\x01\x50\x00\x0b120000+0100\x1c\x02\x00\x00\x02\x00\x04\
\x1c\x07\x0a\x00\x01\x01\x1c\x07\x14\x00\x04\x00\x00\x04\x00\x1c\x07\x5a\x00\x04\x00\x00\x00\x0e\
\x1c\x08\x0a\x00\x0e\x01X1 4 N 0\r\n\x02\x03\x04\x1c\x09\x0a\x00\x04\x00\x00\x00\x0e";

/// Returns noon on 1 March 2024, in UTC.
fn noon() -> Result<Timestamp, Trouble> {
    match Timestamp::from_second(1_709_294_400) {
        Ok(noon) => Ok(noon),
        Err(_) => Err(Trouble::Wrong),
    }
}

/// Returns the report on the input of a reader.
fn report_of<R: Source + Drop>(
    alloc: Global,
    reader: R,
    now: Timestamp,
) -> Result<Report, AuditFault> {
    audit(alloc, &mut Intake::new(reader), LIMITS, now)
}

/// Returns the number of rows of a report, or the error.
fn rows_of(answer: Result<Report, AuditFault>) -> Result<usize, AuditFault> {
    match answer {
        Ok(report) => Ok(report.rows().len()),
        Err(fault) => Err(fault),
    }
}

/// Checks the row of the envelope above. Each check has a number, which an error reports.
fn expect_row(row: &AuditRow) -> Result<(), Trouble> {
    let id = [row.id.service(), row.id.number(), row.id.date_sent()];
    right_at(1, id == [b"TST".as_slice(), b"00000001", b"20240301"])?;
    let numbers = [row.size, row.subfiles, row.announced, row.counted];
    right_at(2, numbers == [14, 1, 0, 0])?;
    right_at(3, row.priority == Some(b'5'))?;
    right_at(4, row.age == Some(3600))?;
    right_at(5, row.first.is_none())?;
    right_at(6, row.copy == CopyState::Free)
}

/// Checks that there is one row, which is that of the envelope above.
fn expect_rows(rows: &[AuditRow]) -> Result<(), Trouble> {
    match rows {
        [row] => expect_row(row),
        _ => Err(Trouble::WrongAt(rows.len())),
    }
}

fn returns_one_row_for_an_envelope(alloc: Global) -> Result<(), Trouble> {
    match report_of(alloc, FromRead::new(TIMED), noon()?) {
        Ok(report) => expect_rows(report.rows()),
        Err(_) => Err(Trouble::Wrong),
    }
}

/// Audits octets with a reader that returns one octet in each call, and fails as `trouble` says
/// after `good` calls. Returns the number of rows, or the error.
fn troubled(
    alloc: Global,
    octets: &[u8],
    good: usize,
    trouble: DeviceTrouble,
    now: Timestamp,
) -> Result<usize, AuditFault> {
    let reader = TrialReader::new(octets, good as u64, trouble);
    rows_of(report_of(alloc, reader, now))
}

/// Checks the error of an audit of two envelopes whose reader fails: it must name the envelope that
/// was being read.
fn expect_failures(alloc: Global, octets: &[u8]) -> Result<(), Trouble> {
    let now = noon()?;
    let cause = AuditCause::Read;
    for (good, envelope) in [(0, 1), (113, 1), (114, 2), (227, 2), (228, 3)] {
        let answer = troubled(alloc, octets, good, DeviceTrouble::Failure, now);
        right_at(good, answer == Err(AuditFault { envelope, cause }))?;
    }
    Ok(())
}

/// Checks that a million consecutive interruptions are an error, and that one interruption fewer is
/// not.
fn expect_interruptions(alloc: Global, octets: &[u8]) -> Result<(), Trouble> {
    let now = noon()?;
    let fault = AuditFault {
        envelope: 2,
        cause: AuditCause::Interrupted,
    };
    let rows = [(1_000_000, Err(fault)), (999_999, Ok(2))];
    for (count, want) in rows {
        let trouble = DeviceTrouble::Interruptions(count);
        right(troubled(alloc, octets, 120, trouble, now) == want)?;
    }
    Ok(())
}

fn audits_report_failed_reads(alloc: Global) -> Result<(), Trouble> {
    let octets = joined(alloc, &[SMALLEST.as_slice(), SMALLEST])?;
    expect_failures(alloc, &octets)?;
    expect_interruptions(alloc, &octets)
}

/// A reader that returns an envelope `left` times, with a different number each time.
#[derive(Drop)]
struct Again {
    before: &'static [u8],
    after: &'static [u8],
    left: u32,
}

impl Again {
    /// Creates a reader that returns the smallest envelope `left` times.
    fn new(left: u32) -> Again {
        Again {
            before: SMALLEST.get(..34).unwrap_or(&[]),
            after: SMALLEST.get(42..).unwrap_or(&[]),
            left,
        }
    }
}

/// Returns the decimal digit of `number` at the place with the value `place`.
fn digit(number: u32, place: u32) -> u8
    requires { 0 < place }
{
    b'0' + (number / place % 10) as u8
}

/// Returns the last eight digits of a number.
fn digits(number: u32) -> [u8; 8] {
    [
        digit(number, 10_000_000),
        digit(number, 1_000_000),
        digit(number, 100_000),
        digit(number, 10_000),
        digit(number, 1_000),
        digit(number, 100),
        digit(number, 10),
        digit(number, 1),
    ]
}

impl Read for Again {
    fn read(&mut self, buffer: &mut [u8]) -> io::Result<usize> {
        let from = self.before.len();
        if self.left == 0 || buffer.len() < from || buffer.len() - from < 8 {
            return Ok(0);
        }
        let to = from + 8;
        let after = self.after.len();
        if buffer.len() - to < after {
            return Ok(0);
        }
        buffer[..from].copy_from_slice(self.before);
        buffer[from..to].copy_from_slice(&digits(self.left));
        buffer[to..to + after].copy_from_slice(self.after);
        self.left -= 1;
        Ok(to + after)
    }
}

fn rejects_envelope_1000001(alloc: Global) -> Result<(), Trouble> {
    let reader = FromRead::new(Again::new(1_000_001));
    let answer = rows_of(report_of(alloc, reader, noon()?));
    let fault = AuditFault {
        envelope: 1_000_001,
        cause: AuditCause::TooManyEnvelopes,
    };
    right(answer == Err(fault))
}

/// Runs the tests of audits.
pub(crate) fn tell(rt: &impl Print, told: &mut Told, alloc: Global) -> io::Result<()> {
    told.trial(
        rt,
        "returns_one_row_for_an_envelope",
        returns_one_row_for_an_envelope(alloc),
    )?;
    told.trial(
        rt,
        "audits_report_failed_reads",
        audits_report_failed_reads(alloc),
    )?;
    told.trial(
        rt,
        "rejects_envelope_1000001",
        rejects_envelope_1000001(alloc),
    )
}
