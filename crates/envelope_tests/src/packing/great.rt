//! Tests a packer with an object of more than 4,294,967,295 octets. The target only counts the
//! octets.

ghost use Rattle.std.specs.Prelude.{None};
ghost use Rattle.iim_dataset.specs.States.Devices.{unbroken};

use crate::given::{head, plan};
use crate::memory::records::built;
use crate::outcome::{Trouble, right};
use crate::told::Told;
use iim_dataset::{IoFault, Target};
use iim_object::{PackCause, Size};
use iim_pack::Packer;
use std::alloc::Global;
use std::io;

/// A target that counts octets.
#[derive(Drop)]
struct Count {
    octets: u64,
}

impl Target for Count {
    ghost state = { λ count. unbroken None };

    fn write(&mut self, piece: &[u8]) -> Result<usize, IoFault> {
        self.octets = self.octets.saturating_add(piece.len() as u64);
        Ok(piece.len())
    }
}

/// Returns the first `count` octets of a chunk.
fn front(piece: &[u8], count: usize) -> &[u8] {
    piece.get(..count).unwrap_or(&[])
}

/// Checks whether a packer accepts a chunk `count` times.
fn takes_pieces(packer: &mut Packer<Count>, piece: &[u8], count: usize) -> bool {
    for _ in 0..count {
        if packer.text(piece).is_err() {
            return false;
        }
    }
    true
}

/// Checks whether a packer accepts exactly 65,535 chunks and 65,513 more octets.
fn is_filled(packer: &mut Packer<Count>, piece: &[u8]) -> bool {
    let taken = takes_pieces(packer, piece, 65_535) && packer.written() == 4_295_491_761;
    let answers = [
        packer.text(front(piece, 65_514)),
        packer.text(front(piece, 65_513)),
        packer.line_end(),
    ];
    let past = Err(PackCause::PastAnnounced);
    taken && answers == [past, Ok(()), past]
}

/// Finishes a packer, and returns the number of octets written.
fn count_of(packer: Packer<Count>) -> Option<u64> {
    let Ok(writer) = packer.finish(b"") else {
        return None;
    };
    Some(writer.octets)
}

/// Checks that a packer can be filled after its start, and checks the number of octets of the
/// packed form.
fn expect_filled(mut packer: Packer<Count>, piece: &[u8]) -> Result<(), Trouble> {
    let is_filled = is_filled(&mut packer, piece);
    let count = count_of(packer);
    right(is_filled)?;
    right(count == Some(4_295_557_328))
}

/// Checks the length of the packed form of an object of 4,294,967,300 octets, whose text is passed
/// in chunks.
fn expect_great(alloc: Global, piece: &[u8]) -> Result<(), Trouble> {
    let plan = plan(65_536, Size::Known(4_294_967_300))?;
    let story = built(alloc)?;
    match Packer::start(alloc, &story, &head()?, plan, Count { octets: 0 }) {
        Ok(packer) => expect_filled(packer, piece),
        Err(_) => Err(Trouble::Wrong),
    }
}

/// The header has 25 octets and the shortest trailer has 2. After 65,535 chunks the text may have
/// 65,513 more octets. Records 1 and 2 have 158 octets, and record 7 has 28, since 7:90 has eight
/// octets of data. The tag of a full subfile has 9 octets, and the last subfile has 4 octets.
fn packs_an_object_above_4_gib(alloc: Global) -> Result<(), Trouble> {
    let piece = vec![in alloc; b'a'; 65_536]?;
    expect_great(alloc, &piece)
}

/// Runs the test.
pub(crate) fn tell(rt: &impl Print, told: &mut Told, alloc: Global) -> io::Result<()> {
    let came = packs_an_object_above_4_gib(alloc);
    told.trial(rt, "packs_an_object_above_4_gib", came)
}
