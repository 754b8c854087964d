//! Errors of an audit.

use iim_unpack::{IntakeFault, Refusal};
use thiserror::Error;

/// The reason why an audit returns no report.
#[derive(Clone, Copy, Debug, PartialEq, Eq, Error)]
pub enum AuditCause {
    /// The envelope was rejected, or the input ends inside it, or the intake had already failed.
    #[error("{0}")]
    Refused(Refusal),
    /// The reader failed: cause 71.
    #[error("the input cannot be read")]
    Read,
    /// The reader was interrupted a million times in a row: cause 72.
    #[error("the input is interrupted again and again")]
    Interrupted,
    /// An allocation failed: cause 70.
    #[error("out of memory")]
    OutOfMemory,
    /// The input has more than 1,000,000 envelopes: cause 90. The envelope of the error is the
    /// first one over this limit.
    #[error("too many envelopes")]
    TooManyEnvelopes,
}

impl AuditCause {
    ghost use Rattle.std.specs.Prelude.{◌≡◌};
    ghost use Rattle.iim_audit.specs.Format.{audit_number, audit_name};

    /// Returns the number of the cause, as it is printed. For a refusal, it is the number of the
    /// refusal's cause.
    pub fn number(self) -> u8
        ensures { result ≡ audit_number self }
    {
        match self {
            AuditCause::Refused(refusal) => refusal.cause.number(),
            AuditCause::Read => 71,
            AuditCause::Interrupted => 72,
            AuditCause::OutOfMemory => 70,
            AuditCause::TooManyEnvelopes => 90,
        }
    }

    /// Returns the name of the cause, as it is printed. For a refusal, it is the name of the
    /// refusal's cause.
    pub fn name(self) -> &'static str
        ensures { result.now ≡ audit_name self }
    {
        match self {
            AuditCause::Refused(refusal) => refusal.cause.name(),
            AuditCause::Read => "Read",
            AuditCause::Interrupted => "Interrupted",
            AuditCause::OutOfMemory => "OutOfMemory",
            AuditCause::TooManyEnvelopes => "TooManyEnvelopes",
        }
    }
}

/// The error of an audit: its cause, and the envelope at which it occurred.
#[derive(Clone, Copy, Debug, PartialEq, Eq, Error)]
#[error("envelope {envelope}: {cause}")]
pub struct AuditFault {
    /// The number of the envelope that was being read, from 1.
    pub envelope: u64,
    /// The reason why the audit stopped at this envelope.
    pub cause: AuditCause,
}

/// Returns an error for the envelope with this number.
pub(crate) fn error_at(envelope: u64, cause: AuditCause) -> AuditFault
    ensures { result ≡ record { envelope = envelope; cause = cause } }
{
    AuditFault { envelope, cause }
}

ghost use Rattle.std.specs.Prelude.{◌≡◌};
ghost use Rattle.iim_audit.specs.Steps.{audit_cause_of};

/// Converts an error of an intake to the cause of an audit's error.
pub(crate) fn audit_cause_of(fault: IntakeFault) -> AuditCause
    ensures { result ≡ audit_cause_of fault }
{
    match fault {
        IntakeFault::Refused(refusal) => AuditCause::Refused(refusal),
        IntakeFault::Read => AuditCause::Read,
        IntakeFault::Interrupted => AuditCause::Interrupted,
    }
}
