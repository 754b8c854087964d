//! Parses limits, and prints the contents of an envelope.

use iim_fields::Limits;
use iim_unpack::Unpacked;
use vectors_layers::{Answers, Words, print_sizes, tell_header};
use wire_message::MessageHead;

/// Parses limits from the next word, such as `65536/512`.
pub(crate) fn limits_of(words: &mut Words) -> Limits {
    let (octets, fields) = words.pair();
    Limits { octets, fields }
}

/// Prints that an envelope is complete, and prints its length.
pub(crate) fn print_done(out: &mut Answers, octets: u64) {
    out.number_line("  done ", octets);
}

/// Prints the datasets, the message's header and trailer, and the sizes of the object.
pub(crate) fn print_value(out: &mut Answers, got: &Unpacked) {
    for (rec, set, octets) in got.envelope.fields() {
        out.field_line("  field ", rec, set, octets);
    }
    tell_header(out, "message", &got.head);
    out.octets_line("  trailer ", got.trailer.as_slice());
    print_sizes(out, &got.sizes)
}

/// Checks whether two headers have the same parts.
fn are_same_headers(one: &MessageHead, other: &MessageHead) -> bool {
    one.source() == other.source()
        && one.number() == other.number()
        && one.priority() == other.priority()
        && one.category() == other.category()
        && one.words() == other.words()
        && one.info() == other.info()
}

/// Checks whether two envelopes have the same datasets, header, trailer and sizes.
pub(crate) fn are_same(one: &Unpacked, other: &Unpacked) -> bool {
    one.envelope.same(&other.envelope)
        && are_same_headers(&one.head, &other.head)
        && one.trailer.as_slice() == other.trailer.as_slice()
        && one.sizes == other.sizes
}
