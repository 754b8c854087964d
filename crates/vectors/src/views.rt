//! Prints the fields of an envelope by the methods of the library.

use iim_fields::{DataIter, Envelope, FieldIter};
use jiff::Timestamp;
use vectors_layers::Answers;

/// Prints the octets of a field.
fn print_octets(out: &mut Answers, name: &str, octets: &[u8]) {
    out.put("  ");
    out.put(name);
    out.each(&[octets]);
    out.end();
}

/// Prints that a field is missing.
fn print_none(out: &mut Answers, name: &str) {
    out.put("  ");
    out.put(name);
    out.put(" none\n");
}

/// Prints the octets of a field, which may be missing.
fn print_some(out: &mut Answers, name: &str, octets: Option<&[u8]>) {
    match octets {
        Some(octets) => print_octets(out, name, octets),
        None => print_none(out, name),
    }
}

/// Prints an instant, which may be missing.
fn print_instant(out: &mut Answers, name: &str, instant: Option<Timestamp>) {
    match instant {
        Some(instant) => {
            out.put("  ");
            out.put(name);
            out.put(" ");
            out.show(&instant);
            out.end();
        }
        None => print_none(out, name),
    }
}

/// Prints the items of an iterator, in order.
pub(crate) fn print_walk(out: &mut Answers, name: &str, walk: DataIter<'_>) {
    let mut is_none = true;
    out.put("  ");
    out.put(name);
    for octets in walk {
        out.each(&[octets]);
        is_none = false;
    }
    if is_none {
        out.put(" none");
    }
    out.end();
}

/// Prints the mandatory fields.
fn print_mandatory(out: &mut Answers, envelope: &Envelope) {
    print_octets(out, "service", envelope.service());
    print_octets(out, "number", envelope.number());
    print_octets(out, "date_sent_text", envelope.date_sent_text());
    print_octets(out, "model_version", envelope.model_version());
    print_octets(out, "format_version", envelope.format_version());
    print_octets(out, "record_version", envelope.record_version());
    out.put("  date_sent ");
    out.show(&envelope.date_sent());
    out.end();
}

/// Prints the optional fields.
fn print_optional(out: &mut Answers, envelope: &Envelope) {
    print_instant(out, "sent", envelope.sent());
    print_instant(out, "release", envelope.release());
    print_instant(out, "expires", envelope.expires());
    match envelope.priority() {
        Some(digit) => print_octets(out, "priority", &[digit]),
        None => print_some(out, "priority", None),
    }
    print_some(out, "time_sent", envelope.time_sent());
    print_some(out, "object_name", envelope.object_name());
    print_some(out, "urgency", envelope.urgency());
    print_some(out, "category", envelope.category());
    print_some(out, "headline", envelope.headline())
}

/// Prints the fields that may be repeated.
fn print_repeated(out: &mut Answers, envelope: &Envelope) {
    print_walk(out, "destinations", envelope.destinations());
    print_walk(out, "products", envelope.products());
    print_walk(out, "supplementals", envelope.supplementals());
    print_walk(out, "keywords", envelope.keywords());
    print_walk(out, "bylines", envelope.bylines());
    print_walk(out, "byline_titles", envelope.byline_titles());
    print_walk(out, "writers", envelope.writers())
}

/// Prints each field of an envelope that has a method.
pub(crate) fn print_views(out: &mut Answers, envelope: &Envelope) {
    print_mandatory(out, envelope);
    print_optional(out, envelope);
    print_repeated(out, envelope)
}

/// Prints datasets, in order.
pub(crate) fn print_fields(out: &mut Answers, fields: FieldIter<'_>) {
    for (rec, set, octets) in fields {
        out.field_line("  ", rec, set, octets);
    }
}
