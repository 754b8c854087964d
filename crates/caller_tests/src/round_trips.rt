//! An example caller of `iim_round_trip`.

ghost use Rattle.std.specs.Prelude.{IfSome};
ghost use Rattle.iim_round_trip.specs.Format.Stories.{ReturnsPackedStory};
ghost use Rattle.iim_unpack.specs.Format.Pieces.{stream_of};

use iim_fields::Limits;
use iim_round_trip::{Story, unpack_story};
use std::alloc::Global;

/// Unpacks the envelope at the start of the chunks. Returns it with its lines, its sizes and its
/// length, or `None` if it is rejected.
pub fn unpacked(alloc: Global, limits: Limits, pieces: &[&[u8]]) -> Option<Story>
    ensures { IfSome result (ReturnsPackedStory limits (stream_of pieces.now)) }
{
    match unpack_story(alloc, limits, pieces) {
        Ok(story) => Some(story),
        Err(_) => None,
    }
}
