//! Questions about records that are checked, and about envelopes that are read and built.

ghost use Rattle.std.specs.Prelude.{◌≢◌, length, OnOk};
ghost use Rattle.iim_fields.specs.States.Standing.{IsBetweenDatasets, IsInsideDataset, AcceptsHead};

use crate::values::limits_of;
use crate::views::{print_fields, print_views, print_walk};
use iim_dataset::Head;
use iim_fields::{Envelope, EnvelopeBuilder, EnvelopeId, FieldFault, Fields, Limits, RecordCheck};
use std::alloc::Global;
use std::cmp::Ordering;
use vectors_layers::{Answers, Names, Words};

/// A dataset at the beginning of octets, and the octets after that dataset. Its data may be
/// incomplete.
#[derive(Clone, Copy)]
struct Front<'o> {
    head: Head,
    data: &'o [u8],
    rest: &'o [u8],
}

impl Front<'_> {
    /// Checks whether the data are complete.
    fn is_whole(&self) -> bool {
        self.head.rec == 8 || self.data.len() as u64 == self.head.count
    }
}

/// Parses a tag with a count of two octets. Returns its head and the remaining octets.
fn split_head(octets: &[u8]) -> Option<(Head, &[u8])> {
    let [0x1c, rec, set, high, low, after @ ..] = octets else {
        return None;
    };
    let head = Head {
        rec: *rec,
        set: *set,
        count: u64::from(u16::from_be_bytes([*high, *low])),
    };
    Some((head, after))
}

/// Parses the first dataset. Returns `None` if there are no octets, or if they do not begin with a
/// tag. The data of a subfile are left out of the octets.
fn split_front<'o>(text: &mut Answers, octets: &'o [u8]) -> Option<Front<'o>> {
    if octets.is_empty() {
        return None;
    }
    let Some((head, after)) = split_head(octets) else {
        text.fail("no tag of a dataset");
        return None;
    };
    let end = if head.rec == 8 {
        0
    } else {
        head.count as usize
    };
    let (data, rest) = after.split_at(end.min(after.len()));
    Some(Front { head, data, rest })
}

/// Parses the first dataset, whose data must be complete. Returns `None` if there are too few
/// octets.
fn split_whole<'o>(text: &mut Answers, octets: &'o [u8]) -> Option<Front<'o>> {
    let front = split_front(text, octets)?;
    if front.is_whole() {
        return Some(front);
    }
    text.fail("the data of a dataset are cut short");
    None
}

/// Prints an error.
fn tell_fault(text: &mut Answers, fault: FieldFault) {
    text.dataset("  refused ", fault.rec, fault.set);
    text.put(" ");
    text.name(&fault.cause);
    text.end();
}

/// Prints the number that a dataset encodes.
fn tell_number(text: &mut Answers, head: Head, number: u64) {
    text.dataset("  ", head.rec, head.set);
    text.number_line(" is ", number);
}

/// Passes all octets of the dataset in progress, in one chunk or one by one.
fn give(fields: &mut Fields, head: Head, octets: &[u8], one_by_one: bool)
    requires inside { IsInsideDataset fields.old head (length octets.now) }
    requires value { head.rec ≢ 8 }
    ensures { IsInsideDataset fields.new head 0 }
{
    if !one_by_one {
        fields.bytes(octets);
        return;
    }
    for octet in octets {
        fields.bytes(&[*octet]);
    }
}

/// Passes a dataset with these data. Returns the number that the dataset encodes.
fn pass(
    fields: &mut Fields,
    head: Head,
    data: &[u8],
    one_by_one: bool,
) -> Result<Option<u64>, FieldFault>
    requires between { IsBetweenDatasets fields.old }
    ensures { OnOk result (IsBetweenDatasets fields.new) }
{
    if head.rec == 8 {
        fields.begin(head)?;
        return fields.close();
    }
    let count = data.len() as u64;
    let head = Head { count, ..head };
    fields.begin(head)?;
    give(fields, head, data, one_by_one);
    fields.close()
}

/// Passes octets of the dataset in progress, if the head allows that many.
fn give_some(fields: &mut Fields, head: Head, octets: &[u8])
    requires inside { IsInsideDataset fields.old head head.count }
    requires value { head.rec ≢ 8 }
{
    if octets.len() as u64 <= head.count {
        fields.bytes(octets);
    }
}

/// Begins a dataset, of which only these data were received. Returns the error, or `None`.
fn begin(fields: &mut Fields, head: Head, data: &[u8]) -> Option<FieldFault>
    requires { IsBetweenDatasets fields.old }
{
    if let Err(fault) = fields.begin(head) {
        return Some(fault);
    }
    if head.rec != 8 {
        give_some(fields, head, data);
    }
    None
}

/// Passes the datasets that the octets encode, up to the first error, and prints the numbers that
/// the datasets encode.
fn pass_datasets(text: &mut Answers, fields: &mut Fields, octets: &[u8], one_by_one: bool)
    requires { IsBetweenDatasets fields.old }
{
    let mut rest = octets;
    for _ in 0..octets.len() {
        let Some(front) = split_front(text, rest) else {
            break;
        };
        if !front.is_whole() {
            if let Some(fault) = begin(fields, front.head, front.data) {
                tell_fault(text, fault);
            }
            break;
        }
        let Front {
            head,
            data,
            rest: after,
        } = front;
        match pass(fields, head, data, one_by_one) {
            Ok(Some(number)) => tell_number(text, head, number),
            Ok(None) => {}
            Err(fault) => {
                tell_fault(text, fault);
                break;
            }
        }
        rest = after;
    }
}

/// Prints the head of a partial dataset, and its data so far.
fn tell_begun(text: &mut Answers, head: Head, data: &[u8]) {
    text.dataset(", in ", head.rec, head.set);
    text.number(" of ", head.count);
    text.each(&[data]);
}

/// Prints the state of a reader of records.
fn tell_place(text: &mut Answers, fields: &Fields) {
    text.put("  record ");
    text.show(&fields.section());
    if fields.is_failed() {
        text.put(", failed");
    } else if let Some(head) = fields.current_head() {
        tell_begun(text, head, fields.begun());
    }
    text.end();
}

/// Reads these datasets, and prints the state of the reader. Returns `None` if an allocation
/// failed.
fn read_fields(
    text: &mut Answers,
    alloc: Global,
    limits: Limits,
    octets: &[u8],
    one_by_one: bool,
) -> Option<Fields> {
    let Ok(mut fields) = Fields::new(alloc, limits) else {
        text.lack_memory();
        return None;
    };
    pass_datasets(text, &mut fields, octets, one_by_one);
    tell_place(text, &fields);
    Some(fields)
}

/// Checks a dataset with these data. Returns the number that the dataset encodes.
fn check(check: &mut RecordCheck, head: Head, data: &[u8]) -> Result<Option<u64>, FieldFault>
    requires { AcceptsHead check.old }
    ensures { OnOk result (AcceptsHead check.new) }
{
    if head.rec == 8 {
        check.head(head)?;
        return Ok(None);
    }
    let count = data.len() as u64;
    check.head(Head { count, ..head })?;
    check.value(data)
}

/// Checks the datasets that the octets encode, up to the first error, and prints the numbers that
/// the datasets encode.
fn check_datasets(text: &mut Answers, records: &mut RecordCheck, octets: &[u8])
    requires { AcceptsHead records.old }
{
    let mut rest = octets;
    for _ in 0..octets.len() {
        let Some(
            Front {
                head,
                data,
                rest: after,
            },
        ) = split_whole(text, rest)
        else {
            break;
        };
        match check(records, head, data) {
            Ok(Some(number)) => tell_number(text, head, number),
            Ok(None) => {}
            Err(fault) => {
                tell_fault(text, fault);
                break;
            }
        }
        rest = after;
    }
}

/// Prints the result of checking these datasets without a reader.
fn print_check(out: &mut Answers, octets: &[u8]) {
    let mut records = RecordCheck::new();
    check_datasets(out, &mut records, octets);
    out.put("  record ");
    out.show(&records.section());
    out.put(if records.is_failed() {
        ", failed\n"
    } else {
        "\n"
    });
}

/// Adds the datasets that the octets encode, and prints the first error.
fn add_datasets(text: &mut Answers, builder: &mut EnvelopeBuilder, octets: &[u8]) {
    let mut rest = octets;
    for _ in 0..octets.len() {
        let Some(
            Front {
                head,
                data,
                rest: after,
            },
        ) = split_whole(text, rest)
        else {
            break;
        };
        if let Err(fault) = builder.add(head.rec, head.set, data) {
            tell_fault(text, fault);
            return;
        }
        rest = after;
    }
    text.line("added");
}

/// Prints the limit that these numbers of octets and datasets exceed, or `none`.
fn print_passed(out: &mut Answers, words: &mut Words) {
    let limits = limits_of(words);
    let octets = words.number();
    let fields = words.number();
    out.put("  ");
    match limits.passed(octets, fields) {
        Some(cause) => out.name(&cause),
        None => out.put("none"),
    }
    out.end();
}

/// Envelopes that are read and built.
#[derive(Drop)]
pub(crate) struct Envelopes {
    alloc: Global,
    builder: Option<EnvelopeBuilder>,
    fields: Option<Fields>,
    /// The envelopes. Questions refer to the last one.
    envelopes: Vec<Envelope>,
}

impl Envelopes {
    /// Creates the value without envelopes.
    pub(crate) fn new(alloc: Global) -> Envelopes {
        Envelopes {
            alloc,
            builder: None,
            fields: None,
            envelopes: Vec::new(alloc),
        }
    }

    /// Reads datasets twice, in one chunk for each and octet by octet, and stores the reader.
    fn read(&mut self, out: &mut Answers, limits: Limits, octets: &[u8]) {
        let mut each = Answers::new(self.alloc);
        let _ = read_fields(&mut each, self.alloc, limits, octets, true);
        let mut whole = Answers::new(self.alloc);
        self.fields = read_fields(&mut whole, self.alloc, limits, octets, false);
        out.join(&whole);
        if !each.are(&whole) {
            out.line("but octet by octet");
            out.join(&each);
        }
    }

    /// Prints the datasets that the reader has stored.
    fn print_kept(&self, out: &mut Answers) {
        match &self.fields {
            Some(fields) => print_fields(out, fields.kept()),
            None => out.fail("nothing is read"),
        }
    }

    /// Stores an envelope, and prints `said`.
    fn keep(&mut self, out: &mut Answers, envelope: Envelope, said: &str) {
        if self.envelopes.push(envelope).is_ok() {
            out.line(said);
        } else {
            out.lack_memory();
        }
    }

    /// Takes the envelope out of the reader. Prints whether there is one.
    fn take_envelope(&mut self, out: &mut Answers) {
        let Some(fields) = self.fields.take() else {
            out.fail("nothing is read");
            return;
        };
        match fields.into_envelope() {
            Ok(envelope) => self.keep(out, envelope, "yes"),
            Err(fields) => {
                self.fields = Some(fields);
                out.truth(false);
            }
        }
    }

    /// Adds datasets to the builder.
    fn add(&mut self, out: &mut Answers, octets: &[u8]) {
        match &mut self.builder {
            Some(builder) => add_datasets(out, builder, octets),
            None => out.fail("nothing is built"),
        }
    }

    /// Takes the envelope out of the builder, or prints which dataset is missing.
    fn finish(&mut self, out: &mut Answers) {
        let Some(builder) = self.builder.take() else {
            out.fail("nothing is built");
            return;
        };
        match builder.finish() {
            Ok(envelope) => self.keep(out, envelope, "finished"),
            Err((builder, fault)) => {
                self.builder = Some(builder);
                tell_fault(out, fault);
            }
        }
    }

    /// Returns the last envelope. Returns `None` and reports an error if there is none.
    fn last(&self, out: &mut Answers) -> Option<&Envelope> {
        let last = self.envelopes.last();
        if last.is_none() {
            out.fail("there is no envelope");
        }
        last
    }

    /// Reads the datasets in the next words.
    fn read_next(&mut self, out: &mut Answers, names: &Names, words: &mut Words) {
        let limits = limits_of(words);
        let octets = words.octets(names);
        self.read(out, limits, octets.as_slice())
    }

    /// Creates a builder, which replaces the previous builder.
    fn build(&mut self, out: &mut Answers, words: &mut Words) {
        match EnvelopeBuilder::new(self.alloc, limits_of(words)) {
            Ok(builder) => self.builder = Some(builder),
            Err(_) => out.lack_memory(),
        }
    }

    /// Prints the first dataset with a number in the last envelope, or `none`.
    fn print_first(&self, out: &mut Answers, words: &mut Words) {
        let rec = words.octet();
        let set = words.octet();
        let Some(envelope) = self.last(out) else {
            return;
        };
        match envelope.first(rec, set) {
            Some(octets) => out.octets_line("  ", octets),
            None => out.line("none"),
        }
    }

    /// Prints all datasets with a number in the last envelope.
    fn print_all(&self, out: &mut Answers, words: &mut Words) {
        let rec = words.octet();
        let set = words.octet();
        if let Some(envelope) = self.last(out) {
            print_walk(out, "all", envelope.all(rec, set));
        }
    }

    /// Prints the views of the last envelope.
    fn print_views(&self, out: &mut Answers) {
        if let Some(envelope) = self.last(out) {
            print_views(out, envelope);
        }
    }

    /// Prints the datasets of the last envelope.
    fn print_listed(&self, out: &mut Answers) {
        if let Some(envelope) = self.last(out) {
            print_fields(out, envelope.fields());
        }
    }

    /// Drops all envelopes.
    fn forget(&mut self) {
        self.envelopes = Vec::new(self.alloc);
    }

    /// Replies to a question about readers and builders. Returns false if the word is not one of
    /// them.
    pub(crate) fn answer(
        &mut self,
        out: &mut Answers,
        names: &Names,
        word: &str,
        words: &mut Words,
    ) -> bool {
        match word {
            "fields" => self.read_next(out, names, words),
            "kept" => self.print_kept(out),
            "envelope" => self.take_envelope(out),
            "check" => print_check(out, words.octets(names).as_slice()),
            "passed" => print_passed(out, words),
            "builder" => self.build(out, words),
            "add" => self.add(out, words.octets(names).as_slice()),
            "finish" => self.finish(out),
            _ => return self.answer_views(out, word, words),
        }
        true
    }

    /// Replies to a question about envelopes. Returns `false` if `word` is not the name of such a
    /// question.
    fn answer_views(&mut self, out: &mut Answers, word: &str, words: &mut Words) -> bool {
        match word {
            "views" => self.print_views(out),
            "listed" => self.print_listed(out),
            "first" => self.print_first(out, words),
            "all" => self.print_all(out, words),
            "forget" => self.forget(),
            "ids" => print_ids(out, self.envelopes.as_slice()),
            "same" => print_same(out, self.envelopes.as_slice()),
            _ => return false,
        }
        true
    }
}

/// Returns the result of comparing two ids: less, equal or greater.
fn order_sign(id: &EnvelopeId, other: &EnvelopeId) -> &'static str {
    let order = id.cmp(other);
    if id.partial_cmp(other) != Some(order) || (id == other) != order.is_eq() {
        return "?";
    }
    match order {
        Ordering::Less => "<",
        Ordering::Equal => "=",
        Ordering::Greater => ">",
    }
}

/// Prints how an id compares to the ids of the envelopes.
fn print_order(out: &mut Answers, id: &EnvelopeId, envelopes: &[Envelope]) {
    out.put(" ");
    for other in envelopes {
        out.put(order_sign(id, &other.id()));
    }
    out.end();
}

/// Prints an id, and how it compares to the ids of the envelopes.
fn print_id(out: &mut Answers, envelope: &Envelope, envelopes: &[Envelope]) {
    let Ok(id) = envelope.id().clone() else {
        out.lack_memory();
        return;
    };
    out.put(" ");
    out.each(&[id.service(), id.number(), id.date_sent()]);
    print_order(out, &id, envelopes);
}

/// Prints the id of each envelope, and how it compares to the ids of all envelopes.
fn print_ids(out: &mut Answers, envelopes: &[Envelope]) {
    for envelope in envelopes {
        print_id(out, envelope, envelopes);
    }
}

/// Prints which of the envelopes are equal to this one.
fn print_sames(out: &mut Answers, envelope: &Envelope, envelopes: &[Envelope]) {
    out.put("  ");
    for other in envelopes {
        out.put(if envelope.same(other) { "=" } else { "." });
    }
    out.end();
}

/// Prints for each envelope which of the envelopes are equal to it.
fn print_same(out: &mut Answers, envelopes: &[Envelope]) {
    for envelope in envelopes {
        print_sames(out, envelope, envelopes);
    }
}
