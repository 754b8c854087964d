//! Questions about audits.

use iim_audit::{AuditFault, Report, audit, report_text};
use iim_dataset::FromRead;
use iim_fields::Limits;
use iim_unpack::Intake;
use jiff::Timestamp;
use std::alloc::Global;
use vectors_layers::{Answers, Names, Words};

/// Prints a text, line by line.
fn print_text(out: &mut Answers, text: &[u8]) {
    match str::from_utf8(text) {
        Ok(text) => {
            for line in text.lines() {
                out.line(line);
            }
        }
        Err(_) => out.fail("the report is no text"),
    }
}

/// Prints the text of a report, line by line.
fn print_report(out: &mut Answers, alloc: Global, report: &Report) {
    match report_text(alloc, report) {
        Ok(text) => print_text(out, text.as_slice()),
        Err(_) => out.lack_memory(),
    }
}

/// Prints the number of the envelope that is rejected, and the refusal.
fn print_fault(out: &mut Answers, fault: AuditFault) {
    out.put("  ");
    out.show(&fault.envelope);
    out.put(" ");
    out.show(&fault.cause);
    out.end();
}

/// Prints the report on an intake, or why there is no report.
fn print_audit(
    out: &mut Answers,
    alloc: Global,
    intake: &mut Intake<FromRead<&[u8]>>,
    now: Timestamp,
) {
    match audit(alloc, intake, Limits::WIRE, now) {
        Ok(report) => print_report(out, alloc, &report),
        Err(fault) => print_fault(out, fault),
    }
}

/// Prints the reports on octets that are audited `times` times, by one intake.
fn print_audits(out: &mut Answers, alloc: Global, octets: &[u8], now: Timestamp, times: u8) {
    let mut intake = Intake::new(FromRead::new(octets));
    for _ in 0..times {
        print_audit(out, alloc, &mut intake, now);
    }
}

/// Prints the reports on the octets in the next words. The word before them is the instant, which
/// `jiff` parses.
fn print_next(out: &mut Answers, alloc: Global, names: &Names, words: &mut Words, times: u8) {
    let now = words.text().parse();
    let octets = words.octets(names);
    match now {
        Ok(now) => print_audits(out, alloc, octets.as_slice(), now, times),
        Err(_) => words.refuse(),
    }
}

/// Replies to a question about audits. Returns `false` if `word` is not the name of such a
/// question.
pub(crate) fn answer(
    out: &mut Answers,
    alloc: Global,
    names: &Names,
    word: &str,
    words: &mut Words,
) -> bool {
    match word {
        "audit" => print_next(out, alloc, names, words, 1),
        "audits" => print_next(out, alloc, names, words, 2),
        _ => return false,
    }
    true
}
