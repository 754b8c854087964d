//! Unpacks a stream that is split into chunks. If the stream begins with packed octets, returns
//! what was packed; otherwise returns the result that the format defines for the stream.

ghost use Rattle.std.specs.Prelude.{◌≡◌, IfOk, IfErr, OnOk};
ghost use Rattle.iim_unpack.specs.Format.Pieces.{IsUnpacked, stream_of};
ghost use Rattle.iim_places.specs.Format.Streams.{Answer, Answers};
ghost use Rattle.iim_round_trip.specs.Format.RoundTrip.{UnpacksPacked, BeginsWithPacked, IsNotFromStream, RepresentsUnpackResult, IsRejectedUnpacking, CountsFailureOfSink};
ghost use Rattle.iim_round_trip.specs.Format.Stories.{ReturnsPackedStory, IsStoryOfStream, RepresentsStoryResult, dropped_events};

use crate::laws::packed_stream_has_one_result;
use iim_fields::Limits;
use iim_unpack::laws::place_laws;
use iim_unpack::{Refusal, Unpacked, Unpacker, unpack_pieces};
use std::alloc::Global;
use std::error::Error;
use std::fmt;
use std::fmt::{Display, Formatter};
use wire_story::laws::{story_laws, texts_are_delivered_as_lines};
use wire_story::{Lines, StorySink};

/// Why nothing was unpacked.
#[derive(Debug, Drop)]
pub enum UnpackFault {
    /// Memory allocation failed when the unpacker was created.
    OutOfMemory,
    /// The stream is rejected, or the sink stopped ([`iim_unpack::Cause::SINK`]).
    Refused(Refusal),
}

impl UnpackFault {
    ghost use Rattle.iim_round_trip.specs.Format.Faults.{unpack_fault_number, unpack_fault_name};

    /// Returns the number of the cause, as it is printed. For a refusal, it is the number of the
    /// refusal's cause.
    pub fn number(&self) -> u8
        ensures { result ≡ unpack_fault_number self.now }
    {
        match self {
            UnpackFault::OutOfMemory => 70,
            UnpackFault::Refused(refusal) => refusal.cause.number(),
        }
    }

    /// Returns the name of the cause, as it is printed. For a refusal, it is the name of the
    /// refusal's cause.
    pub fn name(&self) -> &'static str
        ensures { result.now ≡ unpack_fault_name self.now }
    {
        match self {
            UnpackFault::OutOfMemory => "OutOfMemory",
            UnpackFault::Refused(refusal) => refusal.cause.name(),
        }
    }
}

/// Writes the refusal, or `out of memory`.
impl Display for UnpackFault {
    ghost use Rattle.std.specs.Prelude.{Some};
    ghost use Rattle.iim_round_trip.specs.Format.Faults.{unpack_fault_text};

    ghost output = { λ fault. Some (unpack_fault_text fault) };

    fn fmt<W: fmt::Write>(&self, f: &mut Formatter<W>) -> fmt::Result {
        match self {
            UnpackFault::OutOfMemory => f.write_str("out of memory"),
            UnpackFault::Refused(refusal) => write!(f, "{refusal}"),
        }
    }
}

impl Error for UnpackFault {}

/// Unpacks the envelope at the start of a stream, in chunks of any size. Returns the envelope and
/// its length in octets. Allocates exactly the memory that the limits require.
///
/// If the stream begins with octets that were packed from an envelope, a header, lines and a
/// trailer, then exactly these octets are consumed, the same envelope, header and trailer are
/// returned, and the sink receives the same lines. This holds for every plan, and for anything that
/// follows.
///
/// The call succeeds if and only if the stream begins with a valid envelope within the limits.
///
/// **Errors:** the refusal of the first octet that some layer cannot accept, or of the end of a
/// truncated stream. A stream has exactly one of these results, unless the sink stopped or the
/// allocation failed.
pub fn unpack_packed<S: StorySink>(
    alloc: Global,
    limits: Limits,
    pieces: &[&[u8]],
    sink: &mut S,
) -> Result<(Unpacked, u64), UnpackFault>
    // If the stream begins with packed octets, what was packed is returned.
    ensures returns_packed { IfOk result (λ got.
        UnpacksPacked S.goes limits (stream_of pieces.now) sink.old sink.new got.0 got.1) }
    ensures refused { BeginsWithPacked limits (stream_of pieces.now) → IfErr result IsNotFromStream }

    // For any stream, the result is the one that the format defines.
    ensures finished { IfOk result (λ got.
        IsUnpacked S.goes limits (stream_of pieces.now) sink.old sink.new got.0 got.1) }
    ensures rejected { IfErr result (IsRejectedUnpacking S.goes limits (stream_of pieces.now) sink.old sink.new) }
    ensures only { (answer : Answer) → Answers limits (stream_of pieces.now) answer
        → IfErr result (λ fault. IsNotFromStream fault → ⊥) → RepresentsUnpackResult result answer }

    // If the call succeeds, the sink has not failed.
    ensures no_failure { OnOk result (S.failures sink.new ≡ S.failures sink.old) }
    ensures counted { IfErr result (λ fault. CountsFailureOfSink fault (S.failures sink.old) (S.failures sink.new)) }
{
    packed_stream_has_one_result();
    let Ok(unpacker) = Unpacker::new(alloc, limits) else {
        return Err(UnpackFault::OutOfMemory);
    };
    match unpack_pieces(unpacker, pieces, sink) {
        Ok(got) => Ok(got),
        Err(refusal) => Err(UnpackFault::Refused(refusal)),
    }
}

/// An envelope with its lines and its length.
#[derive(Drop)]
pub struct Story {
    /// The envelope, except its lines.
    pub unpacked: Unpacked,
    /// The lines of its story.
    pub lines: Lines,
    /// The length of the envelope in octets.
    pub used: u64,
}

/// Unpacks the envelope at the start of a stream, and collects its lines.
///
/// If the stream begins with octets that were packed within the limits, then the same envelope,
/// header, lines, trailer and sizes are returned, from exactly these octets. For any other stream,
/// the result is that of [`unpack_packed`].
///
/// **Errors:** those of [`unpack_packed`]. If the allocation of a line fails, the cause is
/// [`iim_unpack::Cause::SINK`].
pub fn unpack_story(alloc: Global, limits: Limits, pieces: &[&[u8]]) -> Result<Story, UnpackFault>
    // If the stream begins with packed octets, what was packed is returned.
    ensures story { IfOk result (ReturnsPackedStory limits (stream_of pieces.now)) }
    ensures fault { BeginsWithPacked limits (stream_of pieces.now) → IfErr result IsNotFromStream }

    // For any stream, the result is the one that the format defines.
    ensures finished { IfOk result (IsStoryOfStream limits (stream_of pieces.now)) }
    ensures rejected { IfErr result (IsRejectedUnpacking dropped_events limits (stream_of pieces.now) tt tt) }
    ensures only { (answer : Answer) → Answers limits (stream_of pieces.now) answer
        → IfErr result (λ fault. IsNotFromStream fault → ⊥) → RepresentsStoryResult result answer }
{
    texts_are_delivered_as_lines();
    story_laws();
    place_laws();
    let mut lines = Lines::new(alloc);
    match unpack_packed(alloc, limits, pieces, &mut lines) {
        Ok((unpacked, used)) => Ok(Story {
            unpacked,
            lines,
            used,
        }),
        Err(fault) => Err(fault),
    }
}
