//! An example caller of `iim_audit`.

ghost use Rattle.std.specs.Prelude.{◌≡◌, List, None, IfOk};
ghost use Rattle.iim_audit.specs.Format.{IsAudited, printed_report};
ghost use Rattle.iim_audit.specs.declared.row.AuditRow.{AuditRow};
ghost use Rattle.iim_unpack.specs.States.Intakes.{input_of};

use iim_audit::{AuditCause, audit, report_text};
use iim_dataset::Source;
use iim_fields::Limits;
use iim_unpack::Intake;
use jiff::Timestamp;
use std::alloc::Global;

/// Returns the text of the report on the envelopes of an input, at the instant `now`.
pub(crate) fn report_of<R: Source>(
    alloc: Global,
    intake: &mut Intake<R>,
    limits: Limits,
    now: Timestamp,
) -> Result<Vec<u8>, AuditCause>
    requires { intake.old.failed ≡ None }
    ensures { IfOk result (λ text. (rows : List AuditRow)
        × IsAudited limits now.nanosecond (input_of R.state intake.old) (input_of R.state intake.new) rows
        × (text.items ≡ printed_report rows)) }
{
    match audit(alloc, intake, limits, now) {
        Ok(report) => match report_text(alloc, &report) {
            Ok(text) => Ok(text),
            Err(_) => Err(AuditCause::OutOfMemory),
        },
        Err(fault) => Err(fault.cause),
    }
}
