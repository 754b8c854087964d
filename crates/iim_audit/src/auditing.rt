//! Audits all envelopes of an intake, which splits an input into envelopes.

ghost use Rattle.std.specs.Prelude.{◌≡◌, ℕ, None, Some, IfOk, IfErr, OnOk, IsErrAnd};
ghost use Rattle.iim_unpack.specs.States.Intakes.{input_of};
ghost use Rattle.iim_unpack.specs.States.Unpacking.{limits_in};
ghost use Rattle.iim_audit.specs.Format.{IsAudited, FailsWithState, RepeatsError};
ghost use Rattle.iim_audit.specs.Steps.{ReadsEnvelopeOrEnd, ReadsNoEnvelope};

use crate::fault::{AuditCause, AuditFault, audit_cause_of, error_at};
use crate::ledger::Ledger;
use crate::report::Report;
use crate::row::EnvelopeParts;
use iim_dataset::Source;
use iim_dataset::device_laws::reads_join;
use iim_dataset::laws::dataset_laws;
use iim_fields::Limits;
use iim_unpack::{Intake, MAX_ENVELOPES, Unpacker};
use jiff::Timestamp;
use std::alloc::Global;
use wire_message::laws::message_laws;
use wire_story::WordCount;
use wire_story::laws::story_laws;

/// Resets an unpacker and feeds the next envelope of an intake to it. Returns the number of words
/// in the story of that envelope, or `None` at the end of the input.
fn take_envelope<R: Source>(
    intake: &mut Intake<R>,
    unpacker: &mut Unpacker,
) -> Result<Option<u64>, AuditCause>
    ensures read_or_end { IfOk result (ReadsEnvelopeOrEnd (limits_in unpacker.old) (input_of R.state intake.old)
        (input_of R.state intake.new) unpacker.new intake.new.octets) }
    ensures none { intake.old.failed ≡ None
        → IfErr result (ReadsNoEnvelope (limits_in unpacker.old) (input_of R.state intake.old)
        (input_of R.state intake.new)
        intake.old.octets intake.new.failed intake.new.octets) }
    ensures lives { OnOk result (intake.new.failed ≡ None) }
    ensures again { (octet : ℕ) → intake.old.failed ≡ Some octet
        → IsErrAnd result (RepeatsError octet intake.old.octets intake.new.octets 1) }
    ensures unchanged { (octet : ℕ) → intake.old.failed ≡ Some octet → intake.new
        ≡ record (intake.old) { octets = intake.new.octets } }
    ensures leads { R.leads intake.old.reader intake.new.reader }
{
    reads_join();
    dataset_laws();
    message_laws();
    story_laws();
    unpacker.again();
    let mut count = WordCount::new();
    match intake.feed_envelope(unpacker, &mut count) {
        Ok(true) => Ok(Some(count.words())),
        Ok(false) => Ok(None),
        Err(fault) => Err(audit_cause_of(fault)),
    }
}

/// Returns the report on all envelopes of an input at the instant `now`. The report has one row for
/// each envelope, in the order of the input. If the intake had already failed, returns the same
/// error again, for envelope 1.
///
/// Allocates memory for each row. Takes O(n log n) time for n envelopes.
pub fn audit<R: Source>(
    alloc: Global,
    intake: &mut Intake<R>,
    limits: Limits,
    now: Timestamp,
) -> Result<Report, AuditFault>
    ensures audited { intake.old.failed ≡ None
        → IfOk result (IsAudited limits now.nanosecond (input_of R.state intake.old) (input_of R.state intake.new)) }
    ensures fails { intake.old.failed ≡ None
        → IfErr result (λ fault. FailsWithState limits (input_of R.state intake.old, intake.old.octets)
        (input_of R.state intake.new, intake.new.failed, intake.new.octets) fault.envelope fault.cause) }

    // If a report is returned, the intake has not failed, and its count of octets is 0.
    ensures lives { OnOk result (intake.new.failed ≡ None) }
    ensures none { OnOk result (intake.new.octets ≡ 0) }

    // A call on an intake that had already failed changes only its count of octets.
    ensures again { (octet : ℕ) → intake.old.failed ≡ Some octet
        → IsErrAnd result (λ fault. RepeatsError octet intake.old.octets intake.new.octets fault.envelope fault.cause) }
    ensures unchanged { (octet : ℕ) → intake.old.failed ≡ Some octet → intake.new
        ≡ record (intake.old) { octets = intake.new.octets } }
    ensures leads { R.leads intake.old.reader intake.new.reader }
{
    reads_join();
    let Ok(made) = Unpacker::new(alloc, limits) else {
        return Err(error_at(1, AuditCause::OutOfMemory));
    };
    let mut unpacker = made;
    let mut ledger = Ledger::new(alloc);
    'envelopes: loop {
        let number = ledger.next_number();
        let words = match take_envelope(intake, &mut unpacker) {
            Ok(Some(words)) => words,
            Ok(None) => return Ok(ledger.into_report()),
            Err(cause) => return Err(error_at(number, cause)),
        };
        if number > MAX_ENVELOPES {
            return Err(error_at(number, AuditCause::TooManyEnvelopes));
        }
        let Some(unpacked) = unpacker.unpacked() else {
            unreachable!()
        };
        let Ok(()) = ledger.add_row(&EnvelopeParts { unpacked, words }, now) else {
            return Err(error_at(number, AuditCause::OutOfMemory));
        };
    }
}
