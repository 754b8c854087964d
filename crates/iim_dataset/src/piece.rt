//! Consumes octets in a given state: complete tags, and the longest slices that belong to one
//! dataset.
//!
//! An error comes with a state. If the rejected octet cannot be part of a tag, it is the state
//! before that octet. If the sink stopped, it is the state between datasets.

ghost use Rattle.std.specs.Prelude.{◌≡◌, ◌==◌, if◌then◌else◌, ◌<◌, ◌⊎◌, [], ◌∷◌, length, Some, None, IfSome, IfOk, IfErr, OnOk, OnErr};
ghost use Rattle.iim_dataset.specs.Format.Datasets.{count_octets, BeginsTag};
ghost use Rattle.iim_dataset.specs.States.Reading.{IsDatasetState, between, to_come, DatasetReaderConsumes, DatasetReaderRejects, DatasetSinkStopsAt, HeadRead, DatasetEnd};
ghost use Rattle.iim_dataset.specs.Steps.{SinkGoesOn, ConsumesDatasetPrefix, HasWholeDataset, head_events};

use crate::fault::{Fault, FaultCause, tag_fault};
use crate::head::{EXTENDED, Head, TAG_LENGTH, TAG_MARKER};
use crate::place::{DatasetPlace, PARTIAL_TAG_OCTETS, lengthen, read_tag};
use crate::sink::{DatasetSink, Step};
use crate::stop::Stop;
use arrayvec::ArrayVec;

/// The result of consuming a prefix of the octets: the new state, whether more datasets may follow,
/// and the length of the prefix.
#[derive(Drop)]
pub(crate) struct Front {
    pub(crate) place: DatasetPlace,
    pub(crate) step: Step,
    pub(crate) used: usize,
}

/// Returns the state between datasets.
pub(crate) fn start() -> DatasetPlace
    ensures place { result ≡ between }
    ensures is_place { IsDatasetState result }
{
    DatasetPlace::Tag(ArrayVec::new())
}

/// Returns the state and the fault for a stop of the sink at octet `used`.
fn stopped(used: usize) -> (DatasetPlace, Fault)
    ensures place { result.0 ≡ between }
    ensures is_place { IsDatasetState result.0 }
    ensures fault { result.1 ≡ record { cause = FaultCause.Stopped; used = used } }
{
    let cause = FaultCause::Stopped;
    (start(), Fault { cause, used })
}

/// Passes to the sink what the last octet of a tag completes: the head and, if the dataset has no
/// data, the end of the dataset.
fn begin<D: DatasetSink>(head: Head, sink: &mut D) -> Result<(DatasetPlace, Step), Stop>
    requires { D.stands sink.old None }
    ensures place { IfOk result (λ next. next.0
        ≡ (if head.count == 0 then between else DatasetPlace.Inside head head.count)) }
    ensures told { OnOk result (D.goes sink.old (head_events head) sink.new) }
    ensures onward { IfOk result (λ next. SinkGoesOn D.stands D.ends next.1 next.0 sink.new) }
    ensures stopped { OnErr result (D.stops sink.old [] (HeadRead head) sink.new
        ⊎ ((head.count ≡ 0) × D.stops sink.old (HeadRead head ∷ []) DatasetEnd sink.new)) }
{
    sink.head(head)?;
    if head.count > 0 {
        let left = head.count;
        return Ok((DatasetPlace::Inside { head, left }, Step::More));
    }
    let step = sink.close()?;
    Ok((start(), step))
}

/// Consumes octets up to the end of a tag, or all of them. `held` has the buffered octets at the
/// start of this tag.
fn consume_tag<D: DatasetSink>(
    held: ArrayVec<u8, PARTIAL_TAG_OCTETS>,
    rest: &[u8],
    sink: &mut D,
) -> Result<Front, (DatasetPlace, Fault)>
    requires held { BeginsTag count_octets held.items }
    requires stands { D.stands sink.old None }
    requires some { 0 < length rest.now }
    ensures front { IfOk result (λ front.
        ConsumesDatasetPrefix D.goes D.stands D.ends (DatasetPlace.Tag held, sink.old) rest.now front sink.new) }
    ensures refused { IfErr result (λ given.
        DatasetReaderRejects D.goes D.stops D.stands (DatasetPlace.Tag held, sink.old) rest.now given.1
        (given.0, sink.new)) }
{
    let mut held = held;
    match read_tag(held.as_slice(), rest) {
        Ok(Some((head, length))) => {
            let used = length - held.len();
            match begin(head, sink) {
                Ok((place, step)) => Ok(Front { place, step, used }),
                Err(_) => Err(stopped(used - 1)),
            }
        }
        Ok(None) => {
            lengthen(&mut held, rest);
            Ok(Front {
                place: DatasetPlace::Tag(held),
                step: Step::More,
                used: rest.len(),
            })
        }
        Err(fault) => {
            let used = fault.taken - held.len();
            let cause = tag_fault(fault.cause);
            lengthen(&mut held, &rest[..used]);
            Err((DatasetPlace::Tag(held), Fault { cause, used }))
        }
    }
}

/// Consumes octets up to the end of the data, or all of them. `left` is the number of octets of
/// data that remain.
fn consume_data<D: DatasetSink>(
    head: Head,
    left: u64,
    rest: &[u8],
    sink: &mut D,
) -> Result<Front, (DatasetPlace, Fault)>
    requires place { IsDatasetState (DatasetPlace.Inside head left) }
    requires stands { D.stands sink.old (Some left) }
    requires some { 0 < length rest.now }
    ensures front { IfOk result (λ front.
        ConsumesDatasetPrefix D.goes D.stands D.ends (DatasetPlace.Inside head left, sink.old) rest.now front
        sink.new) }
    ensures refused { IfErr result (λ given.
        DatasetReaderRejects D.goes D.stops D.stands (DatasetPlace.Inside head left, sink.old) rest.now given.1
        (given.0, sink.new)) }
{
    if (rest.len() as u64) < left {
        let left = left - rest.len() as u64;
        return match sink.run(rest) {
            Ok(()) => Ok(Front {
                place: DatasetPlace::Inside { head, left },
                step: Step::More,
                used: rest.len(),
            }),
            Err(stop) => Err(stopped(stop.taken)),
        };
    }
    let used = left as usize;
    match sink.run(&rest[..used]) {
        Ok(()) => match sink.close() {
            Ok(step) => Ok(Front {
                place: start(),
                step,
                used,
            }),
            Err(_) => Err(stopped(used - 1)),
        },
        Err(stop) => Err(stopped(stop.taken)),
    }
}

/// Returns the complete dataset at the start of the octets, if its count is a standard count: its
/// head, its data, and its length in octets. A dataset with an extended count is passed to the sink
/// as a head, data and an end instead.
#[inline(always)]
fn whole_dataset(rest: &[u8]) -> Option<(Head, &[u8], usize)>
    ensures { IfSome result (λ front. HasWholeDataset rest.now front.0 front.1.now front.2) }
{
    match rest {
        [marker, rec, set, high, low, after @ ..] if *marker == TAG_MARKER && *high < EXTENDED => {
            let count = usize::from(*high) * 256 + usize::from(*low);
            if after.len() < count {
                return None;
            }
            let (data, _) = after.split_at(count);
            let head = Head {
                rec: *rec,
                set: *set,
                count: count as u64,
            };
            Some((head, data, TAG_LENGTH + count))
        }
        _ => None,
    }
}

/// Consumes complete datasets at the start of the octets, as long as the sink accepts each of them
/// in one call. Returns the last result of the sink, and the number of octets consumed. If the sink
/// calls a dataset the last one, consumes nothing after it.
///
/// **Errors:** the number of octets before the one that the sink rejects.
#[inline(always)]
fn consume_whole_datasets<D: DatasetSink>(rest: &[u8], sink: &mut D) -> Result<(Step, usize), usize>
    requires stands { D.stands sink.old None }
    ensures wholes { IfOk result (λ front. 0 < front.1 → ConsumesDatasetPrefix D.goes D.stands D.ends
        (between, sink.old)
        rest.now record { place = between; step = front.0; used = front.1 } sink.new) }
    ensures none { IfOk result (λ front. front.1 ≡ 0 → sink.new ≡ sink.old) }
    ensures before { IfErr result (λ used. used < length rest.now) }
    ensures stopped { IfErr result (λ used. DatasetSinkStopsAt D.stops between rest.now used sink.old sink.new) }
{
    let mut at = 0;
    while let Some((head, data, used)) = whole_dataset(&rest[at..]) {
        match sink.whole(head, data) {
            Ok(None) => return Ok((Step::More, at)),
            Ok(Some(Step::More)) => at += used,
            Ok(Some(Step::Last)) => return Ok((Step::Last, at + used)),
            Err(stop) => return Err(at + (used - data.len()) + stop.taken),
        }
    }
    Ok((Step::More, at))
}

/// Consumes complete datasets, if no tag is in progress, as long as the sink accepts each of them
/// in one call.
#[inline(always)]
fn consume_whole_datasets_between<D: DatasetSink>(
    held: &ArrayVec<u8, PARTIAL_TAG_OCTETS>,
    rest: &[u8],
    sink: &mut D,
) -> Result<(Step, usize), usize>
    requires stands { D.stands sink.old None }
    ensures wholes { IfOk result (λ front. 0 < front.1 → ConsumesDatasetPrefix D.goes D.stands D.ends
        (between, sink.old)
        rest.now record { place = between; step = front.0; used = front.1 } sink.new) }
    ensures none { IfOk result (λ front. front.1 ≡ 0 → sink.new ≡ sink.old) }
    ensures between { IfOk result (λ front. 0 < front.1 → held.now.items ≡ []) }
    ensures before { IfErr result (λ used. used < length rest.now) }
    ensures stopped { IfErr result (λ used. (held.now.items ≡ [])
        × DatasetSinkStopsAt D.stops between rest.now used sink.old sink.new) }
{
    if !held.is_empty() || !sink.prefers_whole_datasets() {
        return Ok((Step::More, 0));
    }
    consume_whole_datasets(rest, sink)
}

/// Consumes a prefix of the octets: complete datasets, or otherwise the longest prefix that is
/// within one tag or within the data of one dataset.
fn consume_prefix<D: DatasetSink>(
    place: DatasetPlace,
    rest: &[u8],
    sink: &mut D,
) -> Result<Front, (DatasetPlace, Fault)>
    requires place { IsDatasetState place }
    requires stands { D.stands sink.old (to_come place) }
    requires some { 0 < length rest.now }
    ensures front { IfOk result (λ front.
        ConsumesDatasetPrefix D.goes D.stands D.ends (place, sink.old) rest.now front sink.new) }
    ensures refused { IfErr result (λ given.
        DatasetReaderRejects D.goes D.stops D.stands (place, sink.old) rest.now given.1 (given.0, sink.new)) }
{
    match place {
        DatasetPlace::Tag(held) => match consume_whole_datasets_between(&held, rest, sink) {
            Ok((step, used)) => {
                if used > 0 {
                    return Ok(Front {
                        place: start(),
                        step,
                        used,
                    });
                }
                consume_tag(held, rest, sink)
            }
            Err(used) => Err(stopped(used)),
        },
        DatasetPlace::Inside { head, left } => consume_data(head, left, rest, sink),
    }
}

/// Consumes octets in a given state: all of them, or those up to the end of the dataset that the
/// sink calls the last one. Returns the new state and the number of octets consumed.
pub(crate) fn consume_chunk<D: DatasetSink>(
    place: DatasetPlace,
    octets: &[u8],
    sink: &mut D,
) -> Result<(DatasetPlace, usize), (DatasetPlace, Fault)>
    requires place { IsDatasetState place }
    requires stands { D.stands sink.old (to_come place) }
    ensures piece { IfOk result (λ front.
        DatasetReaderConsumes D.goes D.stands D.ends (place, sink.old) octets.now (front.0, sink.new) front.1) }
    ensures refused { IfErr result (λ given.
        DatasetReaderRejects D.goes D.stops D.stands (place, sink.old) octets.now given.1 (given.0, sink.new)) }
{
    let mut now = place;
    let mut at = 0;
    while at < octets.len() {
        match consume_prefix(now, &octets[at..], sink) {
            Ok(front) => {
                now = front.place;
                at += front.used;
                match front.step {
                    Step::More => {}
                    Step::Last => return Ok((now, at)),
                }
            }
            Err((place, fault)) => {
                let used = at + fault.used;
                let cause = fault.cause;
                return Err((place, Fault { cause, used }));
            }
        }
    }
    Ok((now, at))
}
