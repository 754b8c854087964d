//! Audits a stream of envelopes. The report has a row for each envelope: its id, its sizes, its
//! number of words, its age, the earlier envelope that it repeats, and whether its copy may be
//! used.
//!
//! Depends on `iim_unpack`, and on the crates below `iim_unpack` for the views of an envelope. The
//! entry point is [`audit`], whose report is a function of the list of envelopes and of the present
//! instant.
#![tactic(auto)]

mod age;
mod auditing;
mod copy;
mod fault;
mod ledger;
mod line;
mod pieces;
mod repeats;
mod report;
mod row;
mod text;

pub use age::whole_seconds_are_floors;
pub use auditing::audit;
pub use copy::CopyState;
pub use fault::{AuditCause, AuditFault};
pub use line::ReportLine;
pub use pieces::{PieceAudit, PieceRow};
pub use report::Report;
pub use row::AuditRow;
pub use text::report_text;
