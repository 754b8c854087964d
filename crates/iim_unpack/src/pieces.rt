//! Parses a stream that is split into chunks.

ghost use Rattle.std.specs.Prelude.{◌≡◌, ◌≢◌, [], IfOk, IfErr, OnOk};
ghost use Rattle.iim_unpack.specs.States.Unpacking.{CountsSinkFailure, HasRead, limits_in};
ghost use Rattle.iim_unpack.specs.Steps.{HasFedChunks};
ghost use Rattle.iim_unpack.specs.Format.Pieces.{RepresentsResult, IsRejected, IsUnpacked, stream_of};
ghost use Rattle.iim_places.specs.Format.Streams.{Answer, Answers};
ghost use Rattle.iim_places.specs.declared.refusal.Cause.TheVariants.{Message};
ghost use Rattle.wire_message.specs.declared.fault.MessageCause.TheVariants.{Sink};

use crate::unpacker::{Unpacked, Unpacker};
use iim_places::Refusal;
use iim_places::laws::{layer_lemmas, place_laws};
use wire_story::StorySink;
use wire_story::laws::{delivery_of_chunks_joins, texts_are_delivered_as_lines};

/// Feeds the chunks, one after another.
fn feed_pieces<S: StorySink>(
    unpacker: &mut Unpacker,
    pieces: &[&[u8]],
    sink: &mut S,
) -> Result<(), Refusal>
    requires fresh { HasRead unpacker.old [] 0 }
    ensures fed { OnOk result (HasFedChunks S.goes (limits_in unpacker.old) unpacker.new sink.old sink.new
        (stream_of pieces.now)) }
    ensures no_failure { OnOk result (S.failures sink.new ≡ S.failures sink.old) }
    ensures refused { IfErr result (IsRejected S.goes (limits_in unpacker.old) (stream_of pieces.now) sink.old
        sink.new) }
    ensures counted { IfErr result (λ e. CountsSinkFailure e.cause (S.failures sink.old) (S.failures sink.new)) }
{
    layer_lemmas();
    delivery_of_chunks_joins();
    place_laws();
    unpacker.is_reachable();
    for piece in pieces {
        unpacker.feed(piece, sink)?;
    }
    Ok(())
}

/// Parses the envelope at the start of a stream, in chunks of any size. Returns the envelope and
/// its length in octets. The unpacker must not have consumed any octet before.
///
/// **Errors:** the refusal of the first octet that some layer cannot accept; the refusal of the end
/// of a truncated stream; or the stop of the sink ([`crate::Cause::SINK`]). A stream has exactly
/// one of these results.
pub fn unpack_pieces<S: StorySink>(
    unpacker: Unpacker,
    pieces: &[&[u8]],
    sink: &mut S,
) -> Result<(Unpacked, u64), Refusal>
    requires fresh { HasRead unpacker [] 0 }
    ensures finished { IfOk result (λ got.
        IsUnpacked S.goes (limits_in unpacker) (stream_of pieces.now) sink.old sink.new got.0 got.1) }
    ensures refused { IfErr result (IsRejected S.goes (limits_in unpacker) (stream_of pieces.now) sink.old sink.new) }

    // The call returns the result of the stream, unless the sink stopped.
    ensures only { (answer : Answer) → Answers (limits_in unpacker) (stream_of pieces.now) answer
        → IfErr result (λ e. e.cause ≢ Message Sink) → RepresentsResult result answer }
    ensures no_failure { OnOk result (S.failures sink.new ≡ S.failures sink.old) }
    ensures counted { IfErr result (λ e. CountsSinkFailure e.cause (S.failures sink.old) (S.failures sink.new)) }
{
    layer_lemmas();
    texts_are_delivered_as_lines();
    place_laws();
    let mut unpacker = unpacker;
    feed_pieces(&mut unpacker, pieces, sink)?;
    if let Some(refusal) = unpacker.end_of_input() {
        return Err(refusal);
    }
    let used = unpacker.octets();
    match unpacker.into_unpacked() {
        Ok(got) => Ok((got, used)),
        Err(_) => unreachable!(),
    }
}
