//! Splits octets into chunks.

use iim_unpack::{Progress, Refusal, Unpacker};
use wire_story::StorySink;

/// The length of the longest chunk.
pub(crate) const LONGEST: usize = 64;

/// The lengths of chunks, which are all equal or pseudo-random. The generator is linear
/// congruential modulo 2^64, with Knuth's multiplier.
#[derive(Clone, Copy)]
pub(crate) struct Cuts {
    least: usize,
    span: u64,
    state: u64,
}

impl Cuts {
    /// Returns chunks of `size` octets.
    pub(crate) fn of(size: usize) -> Cuts {
        Cuts {
            least: size,
            span: 1,
            state: 0,
        }
    }

    /// Returns chunks of 1 to 64 octets, which depend only on the seed.
    pub(crate) fn random(seed: u64) -> Cuts {
        Cuts {
            least: 1,
            span: LONGEST as u64,
            state: seed,
        }
    }

    /// Returns the length of the next chunk.
    fn next(&mut self) -> usize {
        let next = self.state.wrapping_mul(6_364_136_223_846_793_005);
        self.state = next.wrapping_add(1_442_695_040_888_963_407);
        let more = (self.state >> 33) % self.span.max(1);
        self.least.saturating_add(more as usize)
    }
}

/// Feeds an empty chunk and then, unless that ends the envelope, this chunk.
fn feed_piece<S: StorySink>(
    unpacker: &mut Unpacker,
    piece: &[u8],
    sink: &mut S,
) -> Result<Progress, Refusal> {
    match unpacker.feed(&[], sink)? {
        Progress::More => unpacker.feed(piece, sink),
        done => Ok(done),
    }
}

/// Feeds octets in chunks, with an empty chunk before each, up to the first result other than
/// `More`. Returns `Done` with the total number of octets consumed.
pub(crate) fn feed_cut<S: StorySink>(
    unpacker: &mut Unpacker,
    octets: &[u8],
    mut cuts: Cuts,
    sink: &mut S,
) -> Result<Progress, Refusal> {
    let mut sum = 0usize;
    let mut rest = octets;
    for _ in 0..=octets.len() {
        let (piece, more) = rest.split_at(rest.len().min(cuts.next()));
        if let Progress::Done { used } = feed_piece(unpacker, piece, sink)? {
            return Ok(Progress::Done {
                used: sum.saturating_add(used),
            });
        }
        if more.is_empty() {
            break;
        }
        sum = sum.saturating_add(piece.len());
        rest = more;
    }
    Ok(Progress::More)
}
