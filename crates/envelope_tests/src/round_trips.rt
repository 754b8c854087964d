//! Tests round trips: envelopes are packed, split at any index, and unpacked. The expected values
//! follow from the format.

ghost use Rattle.std.specs.Prelude.{◌<◌};

use crate::given::{LIMITS, joined};
use crate::outcome::{Trouble, right, right_at};
use crate::told::Told;
use iim_dataset::FromWrite;
use iim_object::{Plan, Size, SizeCause, Sizes};
use iim_pack::{pack, packed_size};
use iim_round_trip::{Story, UnpackFault, unpack_packed, unpack_story};
use iim_unpack::{Cause, Unpacked};
use std::alloc::Global;
use std::io;
use wire_message::MessageHead;
use wire_story::{Lines, StorySink};
use worked::{FIRST_LINE, LAST_LINE, SMALLEST, STORY};

/// An envelope that was unpacked, and its lines.
#[derive(Drop)]
struct Got {
    unpacked: Unpacked,
    lines: Lines,
    /// The number of octets of the stream that were consumed.
    used: u64,
}

impl Got {
    /// Unpacks the stream that these chunks form.
    fn of(alloc: Global, pieces: &[&[u8]]) -> Option<Got> {
        let mut lines = Lines::new(alloc);
        match unpack_packed(alloc, LIMITS, pieces, &mut lines) {
            Ok((unpacked, used)) => Some(Got {
                unpacked,
                lines,
                used,
            }),
            Err(_) => None,
        }
    }

    /// Packs the value in subfiles of up to `subfile` octets.
    fn packed(&self, alloc: Global, subfile: u64, size: Size) -> Option<Vec<u8>> {
        let plan = Plan::new(subfile, size)?;
        let Unpacked {
            envelope,
            head,
            trailer,
            ..
        } = &self.unpacked;
        let writer = FromWrite::new(Vec::new(alloc));
        match pack(alloc, envelope, head, &self.lines, trailer, plan, writer) {
            Ok(writer) => Some(writer.into_inner()),
            Err(_) => None,
        }
    }

    /// Checks whether another value has the same datasets, header, trailer and lines.
    fn is_same(&self, other: &Got) -> bool {
        let (one, other_one) = (&self.unpacked, &other.unpacked);
        one.envelope.same(&other_one.envelope)
            && parts_of(&one.head) == parts_of(&other_one.head)
            && one.trailer.as_slice() == other_one.trailer.as_slice()
            && self.lines.iter().eq(other.lines.iter())
    }

    /// Checks whether the octets unpack to the same value, if they are split at `cut` and followed
    /// by others. `object` has the expected length of the object and the expected number of
    /// subfiles.
    fn comes_back(&self, alloc: Global, octets: &[u8], cut: usize, object: (u64, u64)) -> bool {
        let (front, back) = octets.split_at(cut.min(octets.len()));
        match Got::of(alloc, &[front, b"", back, b"\x1d and more"]) {
            Some(got) => got.is_whole(octets.len(), object, self),
            None => false,
        }
    }

    /// Checks whether `octets` octets were consumed, the object has this length and this number of
    /// subfiles, and everything else is the same as in `other`.
    fn is_whole(&self, octets: usize, object: (u64, u64), other: &Got) -> bool {
        let sizes = self.unpacked.sizes;
        self.used == octets as u64 && (sizes.total, sizes.subfiles) == object && self.is_same(other)
    }

    /// Packs the value in subfiles of up to `subfile` octets, and checks whether the packed form
    /// unpacks to the same value. `object` is the length of the object.
    fn comes_back_from(&self, alloc: Global, subfile: u64, size: Size, object: u64) -> bool
        requires { 0 < subfile }
    {
        match self.packed(alloc, subfile, size) {
            Some(octets) => {
                let cut = (subfile as usize).saturating_mul(5);
                self.comes_back(alloc, &octets, cut, (object, object.div_ceil(subfile)))
            }
            None => false,
        }
    }

    /// Checks whether the object has `object` octets.
    fn has_size(&self, object: u64) -> bool {
        let Unpacked { head, trailer, .. } = &self.unpacked;
        packed_size(head, &self.lines, trailer) == Some(object)
    }

    /// Packs the value under every small plan, and unpacks it again. `object` is the length of the
    /// object.
    fn expect_each_plan(&self, alloc: Global, object: u64) -> Result<(), Trouble> {
        right(self.has_size(object))?;
        for subfile in 1..61 {
            for size in [
                Size::Known(object),
                Size::Unknown(None),
                Size::Unknown(Some(1000)),
            ] {
                let is_back = self.comes_back_from(alloc, subfile, size, object);
                right_at(subfile as usize, is_back)?;
            }
        }
        Ok(())
    }
}

/// Returns the parts of a message's header.
fn parts_of(head: &MessageHead) -> [&[u8]; 6] {
    [
        head.source(),
        head.number(),
        head.priority(),
        head.category(),
        head.words(),
        head.info(),
    ]
}

fn round_trips_every_small_plan(alloc: Global) -> Result<(), Trouble> {
    for (octets, object) in [(SMALLEST.as_slice(), 14), (STORY.as_slice(), 50)] {
        match Got::of(alloc, &[octets]) {
            Some(got) => got.expect_each_plan(alloc, object)?,
            None => return Err(Trouble::Wrong),
        }
    }
    Ok(())
}

/// Returns the first `count` octets of the sample envelope.
fn front(count: usize) -> &'static [u8] {
    STORY.get(..count).unwrap_or(&[])
}

/// Returns the cause and the octet of a refusal.
fn refusal_of<T: Drop>(answer: Result<T, UnpackFault>) -> Option<(Cause, u64)> {
    match answer {
        Err(UnpackFault::Refused(refusal)) => Some((refusal.cause, refusal.octet)),
        _ => None,
    }
}

/// Checks whether the first `count` octets of the sample envelope are reported as truncated.
fn is_truncated(alloc: Global, count: usize) -> bool {
    let mut lines = Lines::new(alloc);
    let answer = unpack_packed(alloc, LIMITS, &[front(count)], &mut lines);
    refusal_of(answer) == Some((Cause::Truncated, count as u64))
}

fn truncates_every_proper_prefix(alloc: Global) -> Result<(), Trouble> {
    for count in 0..246 {
        right_at(count, is_truncated(alloc, count))?;
    }
    Ok(())
}

/// The sizes of the sample envelope.
const SIZES: Sizes = Sizes {
    known: true,
    subfile: 1024,
    announced: Some(50),
    maximum: None,
    subfiles: 1,
    total: 50,
};

/// Checks whether a story is the sample story.
fn is_worked(story: &Story) -> bool {
    story.used == 246
        && story.unpacked.sizes == SIZES
        && story.unpacked.envelope.service() == b"TST".as_slice()
        && story.lines.iter().eq([FIRST_LINE, LAST_LINE])
}

fn unpacks_a_story_before_others(alloc: Global) -> Result<(), Trouble> {
    let (first, back) = STORY.split_at(200.min(STORY.len()));
    let is_back = match unpack_story(alloc, LIMITS, &[first, b"", back, SMALLEST]) {
        Ok(story) => is_worked(&story),
        Err(_) => false,
    };
    right(is_back)
}

/// The last octet of the first input is 49 hexadecimal instead of 50, so that the confirmed size is
/// wrong.
fn rejects_a_story_at_its_octet(alloc: Global) -> Result<(), Trouble> {
    let wrong = unpack_story(alloc, LIMITS, &[front(245), b"\x31"]);
    right(refusal_of(wrong) == Some((Cause::Size(SizeCause::ConfirmedWrong), 245)))?;
    let short = unpack_story(alloc, LIMITS, &[front(200)]);
    right(refusal_of(short) == Some((Cause::Truncated, 200)))
}

/// Returns the smallest envelope with an extended count in 1:30, which makes it 118 octets long.
fn extended(alloc: Global) -> Result<Vec<u8>, Trouble> {
    let (before, tagged) = SMALLEST.split_at(24.min(SMALLEST.len()));
    let (_count, after) = tagged.split_at(2.min(tagged.len()));
    Ok(joined(alloc, &[before, b"\x80\x04\x00\x00\x00\x03", after])?)
}

/// Checks that the value of these 118 octets is packed to the smallest envelope.
fn packs_a_value_read_from_extended_counts(alloc: Global) -> Result<(), Trouble> {
    let octets = extended(alloc)?;
    right(octets.len() == 118)?;
    let Some(got) = Got::of(alloc, &[&octets]) else {
        return Err(Trouble::Wrong);
    };
    right(got.used == 118)?;
    match got.packed(alloc, 1024, Size::Known(14)) {
        Some(packed) => right(packed.as_slice() == SMALLEST.as_slice()),
        None => Err(Trouble::Wrong),
    }
}

/// Packs the smallest envelope with one line of 32,754 octets `a`, and checks how the tags of its
/// subfiles begin. The packed form has 32,872 octets with one subfile of 32,768 octets, and 32,873
/// with subfiles of 32,767 octets and 1 octet.
fn packs_one_long_line_in_subfiles(alloc: Global) -> Result<(), Trouble> {
    let Some(mut got) = Got::of(alloc, &[SMALLEST.as_slice()]) else {
        return Err(Trouble::Wrong);
    };
    for _ in 0..32_754 {
        right(got.lines.text(b"a").is_ok())?;
    }
    let size = Size::Known(32_768);
    let (Some(one), Some(two)) = (
        got.packed(alloc, 32_768, size),
        got.packed(alloc, 32_767, size),
    ) else {
        return Err(Trouble::Wrong);
    };
    right(one.len() == 32_872 && has_at(&one, 86, b"\x1c\x08\x0a\x80\x04\x00\x00\x80\x00"))?;
    right(two.len() == 32_873 && has_at(&two, 86, b"\x1c\x08\x0a\x7f\xff"))?;
    right(has_at(&two, 32_858, b"\x1c\x08\x0a\x00\x01\x04"))
}

/// Checks whether `others` occur in the octets at the offset `at`.
fn has_at(octets: &[u8], at: usize, others: &[u8]) -> bool {
    octets
        .get(at..)
        .is_some_and(|rest| rest.starts_with(others))
}

/// Runs the tests of round trips.
pub(crate) fn tell(rt: &impl Print, told: &mut Told, alloc: Global) -> io::Result<()> {
    let plans = round_trips_every_small_plan(alloc);
    told.trial(rt, "round_trips_every_small_plan", plans)?;
    let fronts = truncates_every_proper_prefix(alloc);
    told.trial(rt, "truncates_every_proper_prefix", fronts)?;
    let before = unpacks_a_story_before_others(alloc);
    told.trial(rt, "unpacks_a_story_before_others", before)?;
    let refused = rejects_a_story_at_its_octet(alloc);
    told.trial(rt, "rejects_a_story_at_its_octet", refused)?;
    let extended = packs_a_value_read_from_extended_counts(alloc);
    told.trial(rt, "packs_a_value_read_from_extended_counts", extended)?;
    let line = packs_one_long_line_in_subfiles(alloc);
    told.trial(rt, "packs_one_long_line_in_subfiles", line)
}
