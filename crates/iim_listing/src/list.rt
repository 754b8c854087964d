//! Lists an input: a text for each envelope, and a last line.

ghost use Rattle.std.specs.Prelude.{◌≡◌, ◌<◌, ◌≤◌, ◌++◌, ℕ, List, length, None, Ok, Err, IfOk, IfErr, OnOk};
ghost use Rattle.iim_unpack.specs.States.Intakes.{input_of};
ghost use Rattle.iim_unpack.specs.Format.Pieces.{HasBorrowedParts};
ghost use Rattle.iim_places.specs.Format.Admitted.{Admits};
ghost use Rattle.iim_unpack.specs.States.Unpacking.{IsDone, IsDoneWith, limits_in};
ghost use Rattle.iim_output.specs.Format.{limits};
ghost use Rattle.iim_places.specs.Format.Streams.{Listed, max_envelopes};
ghost use Rattle.iim_listing.specs.Format.{told, WritesListing, ListingFails};
ghost use Rattle.iim_output.specs.States.Holding.{HasEmptyBuffer, KeepsWriter, device_of};
ghost use Rattle.iim_listing.specs.Steps.{BufferedListingFails, FlushesAfterFailure, ListsNextItem};

use crate::coming::{LIMITS, Next, next_item};
use crate::input::Input;
use iim_dataset::device_laws::{reads_join, writes_join};
use iim_dataset::{Source, Target};
use iim_output::block_writer::BlockWriter;
use iim_output::fault::CommandFault;
use iim_output::lines::{TOO_MANY, append, append_and_flush, push_refused};
use iim_output::null_sink::NullSink;
use iim_output::status::{ACCEPTED, REFUSED};
use iim_unpack::{MAX_ENVELOPES, UnpackedRef, Unpacker};
use std::alloc::{AllocError, Global};

/// Appends the text of the envelope that an unpacker has completed.
#[inline]
fn push_envelope<P: EnvelopeLines>(
    texts: &P,
    text: &mut Vec<u8>,
    unpacker: &Unpacker,
    number: u64,
    octets: u64,
) -> Result<(), AllocError>
    requires { IsDone unpacker.now }
    ensures { (e : Listed) → IsDoneWith unpacker.now e.octets octets → Admits e.octets e.value
        → octets ≡ told (length e.octets) → OnOk result (text.new.items ≡ text.old.items ++ P.written number e) }
{
    let Some(got) = unpacker.unpacked() else {
        unreachable!()
    };
    texts.push_text(text, number, octets, &got)
}

/// Lists the next item of an input, after `count` envelopes. Returns the exit status if this item
/// is the last. `text` is a buffer for the text of the item. If an allocation fails, part of the
/// listing may still be buffered.
#[inline]
fn list_next<P: EnvelopeLines, R: Source, W: Target>(
    texts: &P,
    intake: &mut Input<R>,
    unpacker: &mut Unpacker,
    null_sink: &mut NullSink<'_, W>,
    text: &mut Vec<u8>,
    count: u64,
) -> Result<Option<u8>, CommandFault>
    requires alive { intake.old.failed ≡ None }
    requires limits { limits_in unpacker.old ≡ limits }
    requires few { count ≤ max_envelopes }
    ensures ok { IfOk result (λ next.
        (next ≡ None → (intake.new.failed ≡ None) × (limits_in unpacker.new ≡ limits) × (count < max_envelopes))
        × ListsNextItem W.state P.written (input_of R.state intake.old)
        (input_of R.state intake.new) null_sink.old.output
        null_sink.new.output count (Ok next)) }
    ensures err { IfErr result (λ fault. ListsNextItem W.state P.written
        (input_of R.state intake.old) (input_of R.state intake.new)
        null_sink.old.output null_sink.new.output count (Err fault)) }
    ensures leads { R.leads intake.old.reader intake.new.reader }
{
    reads_join();
    writes_join();
    text.clear();
    match next_item(intake, unpacker, null_sink)? {
        Next::Envelope(octets) => {
            if count == MAX_ENVELOPES {
                append_and_flush(&mut null_sink.output, TOO_MANY.as_bytes())?;
                return Ok(Some(REFUSED));
            }
            push_envelope(texts, text, unpacker, count + 1, octets)?;
            append(&mut null_sink.output, text.as_slice())?;
            Ok(None)
        }
        Next::End => Ok(Some(ACCEPTED)),
        Next::Refused(refusal) => {
            push_refused(text, count + 1, refusal)?;
            append_and_flush(&mut null_sink.output, text.as_slice())?;
            Ok(Some(REFUSED))
        }
    }
}

/// Lists the envelopes of an input, and returns the exit status. If an allocation fails, part of
/// the listing may still be buffered.
fn list_texts<P: EnvelopeLines, R: Source, W: Target>(
    alloc: Global,
    texts: &P,
    intake: &mut Input<R>,
    null_sink: &mut NullSink<'_, W>,
) -> Result<u8, CommandFault>
    requires alive { intake.old.failed ≡ None }
    requires pending { HasEmptyBuffer null_sink.old.output }
    ensures ok { IfOk result (WritesListing P.written (input_of R.state intake.old) (input_of R.state intake.new)
        (device_of W.state null_sink.old.output) (device_of W.state null_sink.new.output)) }
    ensures err { IfErr result (BufferedListingFails W.state P.written (input_of R.state intake.old)
        (input_of R.state intake.new)
        null_sink.old.output null_sink.new.output) }
    ensures same { KeepsWriter null_sink.old.output null_sink.new.output }
    ensures leads { R.leads intake.old.reader intake.new.reader }
{
    reads_join();
    let mut count = 0;
    let mut unpacker = Unpacker::new(alloc, LIMITS)?;
    let mut text = Vec::new(alloc);
    'listing: loop {
        match list_next(texts, intake, &mut unpacker, null_sink, &mut text, count) {
            Ok(None) => count += 1,
            Ok(Some(status)) => return Ok(status),
            Err(fault) => return Err(fault),
        }
    }
}

/// Flushes the output if an allocation failed, and returns the result.
fn flush_after_failure<W: Target>(
    output: &mut BlockWriter<'_, W>,
    answer: Result<u8, CommandFault>,
) -> Result<u8, CommandFault>
    ensures settles { FlushesAfterFailure W.state output.old output.new answer result }
    ensures same { KeepsWriter output.old output.new }
{
    match answer {
        Err(CommandFault::OutOfMemory) => match output.flush() {
            Ok(()) => Err(CommandFault::OutOfMemory),
            Err(_) => Err(CommandFault::CannotWrite),
        },
        answer => answer,
    }
}

/// Lists an input: each envelope, up to the end of the input, to the first refusal or to the first
/// envelope over the limit. Returns the exit status.
///
/// The texts of the envelopes read so far are written before the input is read again. They are also
/// written if an allocation or a read fails. If a write fails, the rest of the listing is lost.
pub fn list<P: EnvelopeLines, R: Source, W: Target>(
    alloc: Global,
    texts: &P,
    intake: &mut Input<R>,
    output: &mut W,
) -> Result<u8, CommandFault>
    requires { intake.old.failed ≡ None }
    ensures ok { IfOk result
        (WritesListing P.written (input_of R.state intake.old) (input_of R.state intake.new) (W.state output.old)
        (W.state output.new)) }
    ensures err { IfErr result
        (ListingFails P.written (input_of R.state intake.old) (input_of R.state intake.new) (W.state output.old)
        (W.state output.new)) }
    ensures leads { R.leads intake.old.reader intake.new.reader }
{
    reads_join();
    writes_join();
    match BlockWriter::new(alloc, output) {
        Ok(made) => {
            let mut null_sink = NullSink { output: made };
            let answer = list_texts(alloc, texts, intake, &mut null_sink);
            let NullSink { mut output } = null_sink;
            let answer = flush_after_failure(&mut output, answer);
            // This line has no effect at run time. The proof needs this use of the returned target
            // to know its contents.
            let _ = &*output.into_writer();
            answer
        }
        Err(same) => {
            // As above, for the target that is returned if the allocation fails.
            let _ = &*same;
            Err(CommandFault::OutOfMemory)
        }
    }
}

/// The text that a command prints for each envelope.
pub trait EnvelopeLines {
    /// The text of the envelope with this number.
    ghost written: { ℕ → Listed → List ℕ };

    /// Appends the text of an envelope. `number` is the number of the envelope, from 1, and
    /// `octets` is its length.
    fn push_text(
        &self,
        text: &mut Vec<u8>,
        number: u64,
        octets: u64,
        got: &UnpackedRef<'_>,
    ) -> Result<(), AllocError>
        ensures { (e : Listed) → octets ≡ told (length e.octets) → HasBorrowedParts got.now e.value
            → OnOk result (text.new.items ≡ text.old.items ++ written number e) };
}
