//! States of the reader of datasets, and parsing a tag that is split across chunks.

ghost use Rattle.std.specs.Prelude.{◌≡◌, ◌↔◌, ◌+◌, ◌≤◌, ◌++◌, ℕ, List, length, take, IsTrue, IfOk, IfErr, MatchOption};
ghost use Rattle.arrayvec.specs.ArrayVec.{array_vec_len};
ghost use Rattle.iim_dataset.specs.Format.Datasets.{EncodesTag, count_octets, BeginsTag, HasTag, HasNoTag};
ghost use Rattle.iim_dataset.specs.States.Reading.{IsDatasetState};

use crate::head::{Head, HeadFault, TAG_OCTETS, read_head};
use crate::laws::dataset_laws;
use arrayvec::ArrayVec;

/// The greatest number of octets of a partial tag.
pub const PARTIAL_TAG_OCTETS: usize = TAG_OCTETS - 1;

/// The state of a reader of datasets: where in a dataset the next octet is.
#[derive(Debug, Drop)]
pub enum DatasetPlace {
    /// In a tag, of which these octets were received. Empty between datasets.
    Tag(ArrayVec<u8, PARTIAL_TAG_OCTETS>),
    /// In the data of a dataset.
    Inside {
        /// The decoded tag of the dataset.
        head: Head,
        /// The number of octets of data that remain.
        left: u64,
    },
}

/// Appends octets, for which the vector must have capacity.
pub(crate) fn lengthen<const ROOM: usize>(held: &mut ArrayVec<u8, ROOM>, octets: &[u8])
    requires { array_vec_len held.old + length octets.now ≤ ROOM }
    ensures { held.new.items ≡ held.old.items ++ octets.now }
{
    held.try_extend_from_slice(octets).unwrap();
}

/// Concatenates two slices, and cuts the result at the greatest length of a tag.
fn joined_tag(held: &[u8], next: &[u8]) -> ArrayVec<u8, TAG_OCTETS>
    requires { length held.now ≤ PARTIAL_TAG_OCTETS }
    ensures { result.items ≡ take TAG_OCTETS (held.now ++ next.now) }
{
    let mut tag = ArrayVec::new();
    lengthen(&mut tag, held);
    let room = TAG_OCTETS - held.len();
    lengthen(&mut tag, &next[..room.min(next.len())]);
    tag
}

/// Parses the tag that begins with the octets `held` and continues with the octets `next`, as
/// [`read_head`] does.
pub(crate) fn read_tag(held: &[u8], next: &[u8]) -> Result<Option<(Head, usize)>, HeadFault>
    requires { length held.now ≤ PARTIAL_TAG_OCTETS }
    ensures found { IfOk result (λ found.
        MatchOption found (BeginsTag count_octets (held.now ++ next.now))
        (λ f. HasTag (held.now ++ next.now) f.0 f.1)) }
    ensures fault { IfErr result (HasNoTag (held.now ++ next.now)) }
{
    if held.is_empty() {
        return read_head(next);
    }
    read_head(joined_tag(held, next).as_slice())
}

/// Checks whether the octets are a proper prefix of some tag.
fn begins_tag(octets: &[u8]) -> bool
    ensures { IsTrue result ↔ BeginsTag count_octets octets.now }
{
    dataset_laws();
    matches!(read_head(octets), Ok(None))
}

/// Checks whether at least one octet of data remains, and no more than the count of the head.
fn has_data_remaining(head: Head, left: u64) -> bool
    ensures { IsTrue result ↔ IsDatasetState (DatasetPlace.Inside head left) }
{
    0 < left && left <= head.count
}

/// Checks whether some octets reach the state.
pub(crate) fn is_place(place: &DatasetPlace) -> bool
    ensures { IsTrue result ↔ IsDatasetState place.now }
{
    match place {
        DatasetPlace::Tag(held) => begins_tag(held.as_slice()),
        DatasetPlace::Inside { head, left } => has_data_remaining(*head, *left),
    }
}
