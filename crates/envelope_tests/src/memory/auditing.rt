//! Calls of the audit that allocate.

use crate::given::LIMITS;
use crate::outcome::{Trouble, right};
use iim_audit::{AuditCause, AuditFault, Report, audit, report_text};
use iim_dataset::{FromRead, Source};
use iim_unpack::{Intake, Unpacker};
use jiff::Timestamp;
use std::alloc::Global;
use std::io::Read;
use wire_story::Discard;
use worked::STREAM;

/// The expected report on the stream, twice.
const REPORT: &[u8] =
    b"1 TST 00000002 20240301 priority - size 50 subfiles 1 words 5/4 age - repeats - copy free\n\
2 TST 00000001 20240301 priority - size 14 subfiles 1 words 0/0 age - repeats - copy free\n\
3 TST 00000002 20240301 priority - size 14 subfiles 1 words 0/0 age - repeats 1 copy free\n\
4 TST 00000002 20240301 priority - size 50 subfiles 1 words 5/4 age - repeats 1 copy free\n\
5 TST 00000001 20240301 priority - size 14 subfiles 1 words 0/0 age - repeats 2 copy free\n\
6 TST 00000002 20240301 priority - size 14 subfiles 1 words 0/0 age - repeats 1 copy free\n\
6 envelopes, 4 repeated, 0 held\n";

/// Converts an error of an audit to the trouble of a test. After a failed allocation the reader
/// must still be usable.
fn trouble_of<R: Source>(alloc: Global, fault: AuditFault, intake: &mut Intake<R>) -> Trouble {
    if fault.cause != AuditCause::OutOfMemory {
        return Trouble::Wrong;
    }
    let Ok(unpacker) = Unpacker::new(alloc, LIMITS) else {
        return Trouble::OutOfMemory;
    };
    match intake.next_envelope(unpacker, &mut Discard) {
        Ok(_) => Trouble::OutOfMemoryAt(fault.envelope),
        Err(_) => Trouble::Wrong,
    }
}

/// Returns the report, if it has six rows.
fn six_rows(report: Report) -> Result<Report, Trouble> {
    if report.rows().len() == 6 {
        return Ok(report);
    }
    Err(Trouble::Wrong)
}

/// Audits the stream twice. The memory that is allocated for the first row must grow at the fifth
/// row.
pub(crate) fn audited(alloc: Global) -> Result<Report, Trouble> {
    let mut intake = Intake::new(FromRead::new(STREAM.chain(STREAM)));
    match audit(alloc, &mut intake, LIMITS, Timestamp::UNIX_EPOCH) {
        Ok(report) => six_rows(report),
        Err(fault) => Err(trouble_of(alloc, fault, &mut intake)),
    }
}

/// Checks the text of the report.
pub(crate) fn written(alloc: Global, report: &Report) -> Result<(), Trouble> {
    let text = report_text(alloc, report)?;
    right(text.as_slice() == REPORT)
}
