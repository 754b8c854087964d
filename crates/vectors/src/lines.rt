//! Prints the lines of a story.

use vectors_layers::Answers;
use wire_story::Lines;

/// The greatest length of a line of equal octets that is printed in full.
const LONG: usize = 100;

/// Checks whether all octets of a line are equal.
fn are_alike(line: &[u8]) -> bool {
    let [first, others @ ..] = line else {
        return true;
    };
    for octet in others {
        if *octet != *first {
            return false;
        }
    }
    true
}

/// Prints a line of one repeated octet in the notation of questions: `("a")*101`.
fn print_repeated(out: &mut Answers, line: &[u8]) {
    out.put("(");
    out.octets(line.get(..1).unwrap_or(&[]));
    out.number(")*", line.len() as u64);
}

/// Prints a line.
pub(crate) fn print_line(out: &mut Answers, line: &[u8]) {
    out.put("  line ");
    if line.len() > LONG && are_alike(line) {
        print_repeated(out, line);
    } else {
        out.octets(line);
    }
    out.end();
}

/// Prints the lines.
pub(crate) fn print_lines(out: &mut Answers, lines: &Lines) {
    for line in lines.iter() {
        print_line(out, line);
    }
}
