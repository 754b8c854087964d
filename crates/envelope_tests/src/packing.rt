//! Tests packing with writers that fail. The expected values follow from the format.

mod broken;
mod failing;
mod great;

use crate::told::Told;
use iim_object::{Plan, Size};
use iim_pack::laws::{
    packed_form_is_bounded, packed_form_is_unique, packed_octets_encode_the_value,
    packed_subfiles_are_bounded,
};
use std::alloc::{AllocError, Global};
use std::io;
use worked::{STORY_FRONT, STORY_OBJECT};

/// The record, the number and the data of a dataset.
type Field<'o> = (u8, u8, &'o [u8]);

/// Appends the encoding of a dataset with fewer than 256 octets of data.
fn put_dataset(all: &mut Vec<u8>, (rec, set, data): Field<'_>) -> Result<(), AllocError> {
    let count = u8::try_from(data.len()).unwrap_or(0);
    all.extend_from_slice(&[0x1c, rec, set, 0, count])?;
    all.extend_from_slice(data)
}

fn four_octets(number: u64) -> [u8; 4] {
    u32::try_from(number).unwrap_or(0).to_be_bytes()
}

/// Appends record 7 of a plan.
fn put_sizes(all: &mut Vec<u8>, plan: Plan) -> Result<(), AllocError> {
    let (is_known, set, octets) = match plan.size {
        Size::Known(octets) => (1, 90, octets),
        Size::Unknown(Some(most)) => (0, 95, most),
        Size::Unknown(None) => (0, 0, 0),
    };
    put_dataset(all, (7, 10, &[is_known]))?;
    put_dataset(all, (7, 20, &four_octets(plan.subfile)))?;
    if set == 0 {
        return Ok(());
    }
    put_dataset(all, (7, set, &four_octets(octets)))
}

/// Appends records 7, 8 and 9 of a plan.
fn put_object(all: &mut Vec<u8>, object: &[u8], plan: Plan) -> Result<(), AllocError> {
    put_sizes(all, plan)?;
    let most = (plan.subfile as usize).max(1);
    for part in object.chunks(most) {
        put_dataset(all, (8, 10, part))?;
    }
    put_dataset(all, (9, 10, &four_octets(object.len() as u64)))
}

/// Returns the expected packed form of the sample story under a plan.
fn expected(alloc: Global, plan: Plan) -> Result<Vec<u8>, AllocError> {
    let mut all = Vec::from_slice(alloc, STORY_FRONT)?;
    put_object(&mut all, STORY_OBJECT, plan)?;
    Ok(all)
}

fn lemmas_can_be_called() {
    packed_form_is_bounded();
    packed_form_is_unique();
    packed_octets_encode_the_value();
    packed_subfiles_are_bounded();
}

/// Runs the tests of the packer.
pub(crate) fn tell(rt: &impl Print, told: &mut Told, alloc: Global) -> io::Result<()> {
    lemmas_can_be_called();
    told.trial(rt, "lemmas_can_be_called of packing", Ok(()))?;
    broken::tell(rt, told, alloc)?;
    failing::tell(rt, told, alloc)?;
    great::tell(rt, told, alloc)
}
