//! Questions about objects that are read token by token, planned and written.

ghost use Rattle.std.specs.Prelude.{⊤};

use crate::answers::Answers;
use crate::octets::{Names, Words};
use iim_dataset::{FromWrite, Stop};
use iim_object::{
    ObjectFault, ObjectReader, ObjectSink, PackCause, Plan, Size, SizeCause, Sizes, SubfileBuffer,
    SubfileWriter,
};
use std::alloc::Global;

/// A sink that collects the octets of an object.
#[derive(Drop)]
struct Joined {
    octets: Vec<u8>,
    ended: bool,
}

impl ObjectSink for Joined {
    ghost goes = { λ old events new. ⊤ };

    ghost stops = { λ old events refused new. ⊤ };

    ghost stands = { λ sink. ⊤ };

    ghost nothing = { λ sink. tt };

    ghost joined = { λ a b c xs ys first then. tt };

    ghost joined_stop = { λ a b c xs ys refused first then. tt };

    fn run(&mut self, run: &[u8]) -> Result<(), Stop> {
        if run.is_empty() {
            return Ok(());
        }
        match self.octets.extend_from_slice(run) {
            Ok(()) => Ok(()),
            Err(_) => Err(Stop { taken: 0 }),
        }
    }

    fn close(&mut self) -> Result<(), Stop> {
        self.ended = true;
        Ok(())
    }
}

/// Returns the number of the dataset of record 7 that a word names.
fn set_of(word: &str) -> Option<u8> {
    match word {
        "7:10" => Some(10),
        "7:20" => Some(20),
        "7:90" => Some(90),
        "7:95" => Some(95),
        _ => None,
    }
}

/// Passes the number of a dataset of record 7. `word` names the dataset, and the next word is its
/// value.
fn take_number(
    reader: &mut ObjectReader,
    word: &str,
    words: &mut Words,
) -> Result<(), ObjectFault> {
    if reader.is_failed() {
        words.refuse();
        return Ok(());
    }
    match set_of(word) {
        Some(set) => reader.value(7, set, words.number()),
        None => {
            words.refuse();
            Ok(())
        }
    }
}

/// Passes the token that this word and the next one specify.
fn take(
    reader: &mut ObjectReader,
    sink: &mut Joined,
    names: &Names,
    word: &str,
    words: &mut Words,
) -> Result<(), ObjectFault> {
    if reader.is_failed() {
        words.refuse();
        return Ok(());
    }
    match word {
        "8:10" => reader.head(8, 10, words.number(), sink),
        "run" => reader.run(words.octets(names).as_slice(), sink),
        "end" => reader.head(9, 10, 4, sink),
        "9:10" => reader.value(9, 10, words.number()),
        _ => take_number(reader, word, words),
    }
}

/// Prints the state of a reader of objects.
fn print_numbers(out: &mut Answers, reader: &ObjectReader) {
    if reader.is_failed() {
        out.line("failed");
        return;
    }
    out.put("  numbers");
    for number in reader.numbers() {
        out.number_or_dash(" ", number);
    }
    out.number(", subfiles ", reader.subfiles());
    out.number_line(", total ", reader.total());
}

/// Prints the sizes of a complete object, from records 7 to 9.
pub fn print_sizes(out: &mut Answers, sizes: &Sizes) {
    out.holds("  sizes known ", sizes.known);
    out.number(" subfile ", sizes.subfile);
    out.number_or_dash(" announced ", sizes.announced);
    out.number_or_dash(" maximum ", sizes.maximum);
    out.number(" subfiles ", sizes.subfiles);
    out.number_line(" total ", sizes.total);
}

/// Prints the octets of an object, if it is non-empty.
fn print_joined(out: &mut Answers, sink: &Joined) {
    if sink.octets.is_empty() {
        return;
    }
    out.put("  object ");
    out.octets(sink.octets.as_slice());
    out.put(if sink.ended { ", ended\n" } else { "\n" });
}

/// Prints why a token is rejected, and the number of tokens before it.
fn print_refused(out: &mut Answers, taken: u64, cause: SizeCause) {
    out.number("  refused after ", taken);
    out.put(": ");
    out.show(&cause);
    out.end();
}

/// Prints the error of a token, and the number of tokens before it. The sink stops only if an
/// allocation fails.
fn print_fault(out: &mut Answers, taken: u64, fault: ObjectFault) {
    match fault {
        ObjectFault::Size { cause } => print_refused(out, taken, cause),
        ObjectFault::Stopped(_) => out.lack_memory(),
    }
}

/// Reads tokens, up to the first refusal, and prints that refusal. Returns whether the last token
/// was the number of 9:10.
fn read_tokens(
    out: &mut Answers,
    names: &Names,
    words: &mut Words,
    reader: &mut ObjectReader,
    sink: &mut Joined,
) -> bool {
    let mut is_confirmed = false;
    for taken in 0..u64::MAX {
        if !words.has_more() {
            break;
        }
        let word = words.text();
        is_confirmed = matches!(word, "9:10");
        if let Err(fault) = take(reader, sink, names, word, words) {
            print_fault(out, taken, fault);
            break;
        }
    }
    is_confirmed
}

/// Reads tokens, and prints the first refusal and the state of the reader.
fn print_tokens(
    out: &mut Answers,
    alloc: Global,
    names: &Names,
    words: &mut Words,
    mut reader: ObjectReader,
) {
    let mut sink = Joined {
        octets: Vec::new(alloc),
        ended: false,
    };
    let is_confirmed = read_tokens(out, names, words, &mut reader, &mut sink);
    print_numbers(out, &reader);
    if is_confirmed && !reader.is_failed() {
        print_sizes(out, &reader.sizes());
    }
    print_joined(out, &sink)
}

/// Creates a reader in the state that the next words specify: the numbers of 7:10, 7:20, 7:90 and
/// 7:95, the octets received, the count of a partial subfile and its remaining octets, and the
/// number of subfiles. Returns `None` if no tokens reach that state.
fn reader_at(words: &mut Words) -> Option<ObjectReader> {
    let mode = words.number_or_none();
    let subfile = words.number_or_none();
    let announced = words.number_or_none();
    let maximum = words.number_or_none();
    let taken = words.number();
    let count = words.number_or_none();
    let left = words.number_or_none();
    let heads = words.number();
    let begun = match (count, left) {
        (Some(count), Some(left)) => Some((count, left)),
        _ => None,
    };
    let numbers = [mode, subfile, announced, maximum];
    ObjectReader::at(numbers, taken, begun, heads)
}

/// Reads tokens, starting in the state that the next words specify.
fn print_tokens_at(out: &mut Answers, alloc: Global, names: &Names, words: &mut Words) {
    match reader_at(words) {
        Some(reader) => print_tokens(out, alloc, names, words, reader),
        None => out.line("none"),
    }
}

/// Parses the size of a plan from the next two words.
fn size_of(words: &mut Words) -> Size {
    let word = words.text();
    let number = words.number_or_none();
    match (word, number) {
        ("known", Some(number)) => Size::Known(number),
        ("unknown", number) => Size::Unknown(number),
        _ => {
            words.refuse();
            Size::Unknown(None)
        }
    }
}

/// Parses a plan from the next three words.
fn plan_of(words: &mut Words) -> Option<Plan> {
    let subfile = words.number();
    Plan::new(subfile, size_of(words))
}

/// Prints the bound of the plan in the next words, or that it is invalid.
fn print_plan(out: &mut Answers, words: &mut Words) {
    match plan_of(words) {
        Some(plan) => out.tell(&plan.bound()),
        None => out.line("none"),
    }
}

/// A writer of an object into memory.
type MemoryWriter = SubfileWriter<FromWrite<Vec<u8>>>;

/// Creates a writer, or returns `None` if an allocation failed.
fn writer_of(alloc: Global, plan: Plan) -> Option<MemoryWriter> {
    let buffer = SubfileBuffer::reserve(alloc, plan).ok()?;
    SubfileWriter::start(buffer, FromWrite::new(Vec::new(alloc))).ok()
}

/// Prints why the chunk after `at` octets is rejected.
fn tell_unwritten(text: &mut Answers, at: usize, cause: PackCause, is_same: bool) {
    text.number("  after ", at as u64);
    text.put(": ");
    text.show(&cause);
    tell_unchanged(text, is_same);
}

/// Writes the chunk after `at` octets, with an empty chunk before it. Returns whether it was
/// accepted; if not, prints the cause.
fn write_piece(text: &mut Answers, writer: &mut MemoryWriter, at: usize, piece: &[u8]) -> bool {
    let before = writer.written();
    if writer.write(&[]).is_err() {
        text.fail("no octets are refused");
    }
    match writer.write(piece) {
        Ok(()) => true,
        Err(cause) => {
            tell_unwritten(text, at, cause, writer.written() == before);
            false
        }
    }
}

/// Writes an object in chunks of `cut` octets, up to a refusal.
fn write_pieces(text: &mut Answers, writer: &mut MemoryWriter, object: &[u8], cut: usize) {
    let mut at = 0usize;
    for piece in object.chunks(cut.max(1)) {
        if !write_piece(text, writer, at, piece) {
            break;
        }
        at = at.saturating_add(piece.len());
    }
}

/// Writes an object under a plan in chunks of `cut` octets. Returns the octets or the refusal.
fn written(alloc: Global, plan: Plan, object: &[u8], cut: usize) -> Answers {
    let mut text = Answers::new(alloc);
    match writer_of(alloc, plan) {
        Some(mut writer) => {
            write_pieces(&mut text, &mut writer, object, cut);
            tell_end(&mut text, writer);
        }
        None => text.lack_memory(),
    }
    text
}

/// Ends a line with whether a rejected call changed nothing.
fn tell_unchanged(text: &mut Answers, is_same: bool) {
    text.holds(", unchanged ", is_same);
    text.end();
}

/// Prints the octets of a complete object.
fn tell_whole(text: &mut Answers, octets: &[u8], total: u64) {
    text.put("  ");
    text.octets(octets);
    text.number("\n  total ", total);
    text.number(", ", octets.len() as u64);
    text.put(" octets\n");
}

/// Prints why the end of an object of `total` octets is rejected.
fn tell_unended(text: &mut Answers, writer: &MemoryWriter, cause: PackCause, total: u64) {
    text.put("  end: ");
    text.show(&cause);
    text.holds(", failed ", writer.is_failed());
    tell_unchanged(text, writer.total() == total);
}

/// Ends an object. Prints its octets, or why the end is rejected.
fn tell_end(text: &mut Answers, writer: MemoryWriter) {
    let total = writer.total();
    match writer.finish() {
        Ok(target) => tell_whole(text, target.into_inner().as_slice(), total),
        Err((writer, cause)) => tell_unended(text, &writer, cause, total),
    }
}

/// Prints the octets of an object that is written in one call. If they differ when the object is
/// written in chunks, prints those octets too.
fn print_written(out: &mut Answers, alloc: Global, plan: Plan, object: &[u8]) {
    let whole = written(alloc, plan, object, usize::MAX);
    out.join(&whole);
    for cut in 1..object.len() {
        let other = written(alloc, plan, object, cut);
        if !other.are(&whole) {
            out.number_line("  but in pieces of ", cut as u64);
            out.join(&other);
        }
    }
}

/// Prints the octets that are written for the plan and the object in the next words.
fn print_subfiles(out: &mut Answers, alloc: Global, names: &Names, words: &mut Words) {
    let plan = plan_of(words);
    let object = words.octets(names);
    match plan {
        Some(plan) => print_written(out, alloc, plan, object.as_slice()),
        None => words.refuse(),
    }
}

/// All causes of the sizes of an object.
const SIZE_CAUSES: [SizeCause; 6] = [
    SizeCause::ModeClash,
    SizeCause::SizeClash,
    SizeCause::SubfileTooLong,
    SizeCause::PastSize,
    SizeCause::Short,
    SizeCause::ConfirmedWrong,
];

/// All causes of a packer.
const PACK_CAUSES: [PackCause; 7] = [
    PackCause::OutOfMemory,
    PackCause::PastAnnounced,
    PackCause::ShortOfAnnounced,
    PackCause::BadTextOctet,
    PackCause::BadTrailer,
    PackCause::Write,
    PackCause::Failed,
];

/// Prints the number and the name of each cause of the sizes of an object.
fn print_size_causes(out: &mut Answers) {
    for cause in SIZE_CAUSES {
        out.tell(&cause);
    }
}

/// Prints the number and the name of each cause of a packer.
fn print_pack_causes(out: &mut Answers) {
    for cause in PACK_CAUSES {
        out.tell(&cause);
    }
}

/// Replies to a question about objects. Returns `false` if `word` is not the name of such a
/// question.
pub(crate) fn answer(
    out: &mut Answers,
    alloc: Global,
    names: &Names,
    word: &str,
    words: &mut Words,
) -> bool {
    match word {
        "object" => print_tokens(out, alloc, names, words, ObjectReader::new()),
        "object_at" => print_tokens_at(out, alloc, names, words),
        "plan" => print_plan(out, words),
        "subfiles" => print_subfiles(out, alloc, names, words),
        "size_causes" => print_size_causes(out),
        "pack_causes" => print_pack_causes(out),
        _ => return false,
    }
    true
}
