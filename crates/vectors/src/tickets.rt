//! Questions about tickets.

use crate::values::limits_of;
use iim_fields::Limits;
use iim_unpack::{TicketFault, TicketFields, TicketParts, TicketPhase, Unpacker, split_ticket};
use std::alloc::Global;
use vectors_layers::{Answers, MOST_ARGUMENTS, Names, Words};

/// Appends the number and the name of a cause after a label.
fn put_cause(out: &mut Answers, label: &str, number: u8, name: &str) {
    out.number(label, u64::from(number));
    out.put(" ");
    out.put(name);
}

/// Prints the number and the name of an error.
pub(crate) fn print_fault(out: &mut Answers, fault: TicketFault) {
    put_cause(out, "  ", fault.number(), fault.name());
    out.end();
}

/// Prints octets in hexadecimal digits.
fn print_hexadecimal(out: &mut Answers, octets: &[u8]) {
    out.put("  ");
    out.hexadecimal(octets);
    out.end();
}

/// Prints a ticket, or `yes` if it is the expected ticket.
fn print_saved(out: &mut Answers, ticket: &[u8], wanted: Option<&[u8]>) {
    match wanted {
        Some(wanted) if wanted == ticket => out.line("yes"),
        _ => print_hexadecimal(out, ticket),
    }
}

/// Prints the ticket of an unpacker, or why there is none. Prints `yes` if it is the expected
/// ticket.
pub(crate) fn print_ticket(
    out: &mut Answers,
    alloc: Global,
    unpacker: &Unpacker,
    wanted: Option<&[u8]>,
) {
    match unpacker.save(alloc) {
        Ok(ticket) => print_saved(out, ticket.as_slice(), wanted),
        Err(fault) => {
            put_cause(out, "  ", fault.number(), fault.name());
            out.end();
        }
    }
}

/// Prints `restored`, followed by the ticket of the unpacker unless it is the expected ticket.
fn print_again(out: &mut Answers, alloc: Global, unpacker: &Unpacker, wanted: &[u8]) {
    out.line("restored");
    if unpacker.is_failed() || unpacker.octets() != 0 {
        out.line("at another octet");
    }
    let Ok(again) = unpacker.save(alloc) else {
        out.fail("a restored ticket is not saved");
        return;
    };
    if again.as_slice() != wanted {
        print_hexadecimal(out, again.as_slice());
    }
}

/// Restores an unpacker from a ticket, and saves it again. Prints `restored`, followed by the new
/// ticket unless it is the expected one; or the error.
fn print_restored(out: &mut Answers, alloc: Global, limits: Limits, ticket: &[u8], wanted: &[u8]) {
    match Unpacker::restore(alloc, limits, ticket, 0) {
        Ok(unpacker) => print_again(out, alloc, &unpacker, wanted),
        Err(fault) => print_fault(out, fault),
    }
}

/// Appends the result of restoring an unpacker from a ticket: `restored`, or the number and the
/// name of the error.
fn put_restored(out: &mut Answers, alloc: Global, limits: Limits, ticket: &[u8]) {
    match Unpacker::restore(alloc, limits, ticket, 0) {
        Ok(_) => out.put("restored"),
        Err(fault) => put_cause(out, "", fault.number(), fault.name()),
    }
}

/// A ticket from which the number of octets of the object was removed.
#[derive(Clone, Copy)]
struct OpenTicket<'t> {
    /// The octets before the number.
    front: &'t [u8],
    /// The octets after the number.
    back: &'t [u8],
}

impl OpenTicket<'_> {
    /// Returns the ticket with a number, which has four octets in version 1, and eight in version
    /// 2. Returns `None` if an allocation failed.
    fn with(self, alloc: Global, number: u64) -> Option<Vec<u8>> {
        let octets = number.to_be_bytes();
        let is_first = matches!(self.front.get(4), Some(1));
        let from = if is_first { 4 } else { 0 };
        let mut ticket = Vec::new(alloc);
        ticket.extend_from_slice(self.front).ok()?;
        ticket
            .extend_from_slice(octets.get(from..).unwrap_or(&[]))
            .ok()?;
        ticket.extend_from_slice(self.back).ok()?;
        Some(ticket)
    }

    /// Prints the result of restoring an unpacker from the ticket with this number.
    fn print(self, out: &mut Answers, alloc: Global, limits: Limits, number: u64) {
        let Some(ticket) = self.with(alloc, number) else {
            out.lack_memory();
            return;
        };
        out.number("  ", number);
        out.put(" ");
        put_restored(out, alloc, limits, ticket.as_slice());
        out.end();
    }

    /// Prints the result of restoring an unpacker from the ticket with each of the remaining
    /// numbers.
    fn print_each(self, out: &mut Answers, alloc: Global, limits: Limits, words: &mut Words) {
        for _ in 0..MOST_ARGUMENTS {
            if !words.has_more() {
                break;
            }
            self.print(out, alloc, limits, words.number());
        }
    }
}

/// Prints the data in progress of a dataset.
fn print_data(out: &mut Answers, set: u8, count: u64, left: u64, taken: &[u8]) {
    out.number("  data ", u64::from(set));
    out.number(" count ", count);
    out.number(" left ", left);
    out.octets_line(" taken ", taken);
}

/// Prints what is in progress.
fn print_phase(out: &mut Answers, phase: &TicketPhase) {
    match phase {
        TicketPhase::Tag(held) => out.octets_line("  tag ", held),
        TicketPhase::Data {
            set,
            count,
            left,
            taken,
        } => print_data(out, *set, *count, *left, taken),
        TicketPhase::Ended => out.line("ended"),
    }
}

/// Prints the numbers of record 7, and the numbers of octets and of heads of the object that were
/// received.
fn print_object(out: &mut Answers, numbers: [Option<u64>; 4], taken: u64, heads: u64) {
    out.put("  numbers");
    for number in numbers {
        out.number_or_dash(" ", number);
    }
    out.number("\n  object ", taken);
    out.number(" octets, ", heads);
    out.put(" heads\n");
}

/// Prints the state of the message.
fn print_message(out: &mut Answers, part: u8, counter: u8, flag: u8, texts: [&[u8]; 7]) {
    out.number("  message part ", u64::from(part));
    out.number(" counter ", u64::from(counter));
    out.number(" flag ", u64::from(flag));
    out.put("\n  texts");
    out.each(&texts);
    out.end();
}

/// Prints the datasets of a ticket of `len` octets.
fn print_fields(out: &mut Answers, fields: &mut TicketFields, len: usize) {
    for _ in 0..len {
        let Some((rec, set, octets)) = fields.next() else {
            break;
        };
        out.field_line("  field ", rec, set, octets);
    }
}

/// Prints the parts of a ticket of `len` octets.
fn print_all(out: &mut Answers, mut parts: TicketParts, len: usize) {
    out.number("  version ", u64::from(parts.version));
    out.number_line(" section ", u64::from(parts.section));
    print_phase(out, &parts.phase);
    print_fields(out, &mut parts.fields, len);
    print_object(out, parts.numbers, parts.taken, parts.heads);
    print_message(out, parts.part, parts.counter, parts.flag, parts.texts)
}

/// Prints the parts of a ticket, or the error.
fn print_parts(out: &mut Answers, ticket: &[u8]) {
    match split_ticket(ticket) {
        Ok(parts) => print_all(out, parts, ticket.len()),
        Err(fault) => print_fault(out, fault),
    }
}

/// Prints for which numbers of octets of the object an unpacker can be restored from a ticket.
fn print_counts(out: &mut Answers, alloc: Global, names: &Names, words: &mut Words) {
    let limits = limits_of(words);
    let front = words.octets(names);
    let back = words.octets(names);
    let ticket = OpenTicket {
        front: front.as_slice(),
        back: back.as_slice(),
    };
    ticket.print_each(out, alloc, limits, words)
}

/// Restores an unpacker from a ticket, and saves it again. The expected ticket is the next argument
/// or, without an argument, the same ticket.
fn print_next(out: &mut Answers, alloc: Global, names: &Names, words: &mut Words) {
    let limits = limits_of(words);
    let ticket = words.octets(names);
    if words.has_more() {
        let wanted = words.octets(names);
        print_restored(out, alloc, limits, ticket.as_slice(), wanted.as_slice());
    } else {
        print_restored(out, alloc, limits, ticket.as_slice(), ticket.as_slice());
    }
}

/// Replies to a question about tickets alone. Returns `false` if `word` is not the name of such a
/// question.
pub(crate) fn answer(
    out: &mut Answers,
    alloc: Global,
    names: &Names,
    word: &str,
    words: &mut Words,
) -> bool {
    match word {
        "ticket" => print_next(out, alloc, names, words),
        "counts" => print_counts(out, alloc, names, words),
        "parts" => print_parts(out, words.octets(names).as_slice()),
        _ => return false,
    }
    true
}
