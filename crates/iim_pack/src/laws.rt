//! Lemmas about all packed octets. The functions do nothing: their contracts are the lemmas.

ghost use Rattle.iim_pack.specs.Laws.{PackedFormIsBounded, PackedFormIsUnique, PackedOctetsEncodeTheValue, PackedSubfilesAreBounded};

use iim_dataset::laws::dataset_laws;
use iim_object::laws::{object_laws, objects_split_uniquely};

/// Proves that packed octets encode the fields, the object and the sizes of the plan.
pub fn packed_octets_encode_the_value()
    ensures { PackedOctetsEncodeTheValue }
{
    dataset_laws();
    object_laws();
}

/// Proves that the packed form is unique: it is determined by the envelope, the header, the lines,
/// the trailer and the plan.
pub fn packed_form_is_unique()
    ensures { PackedFormIsUnique }
{
    objects_split_uniquely();
}

/// Proves that a packed form has at most 4,294,967,295 subfiles, the maximum of one envelope.
pub fn packed_subfiles_are_bounded()
    ensures { PackedSubfilesAreBounded }
{
    object_laws();
}

/// Proves that a packed form is shorter than the greatest object plus 2 to the power of 40 octets,
/// if it has no more fields than limits can allow.
pub fn packed_form_is_bounded()
    ensures { PackedFormIsBounded }
{
    object_laws();
}
