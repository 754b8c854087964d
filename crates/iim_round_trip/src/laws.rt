//! Lemmas about packing and unpacking together.

ghost use Rattle.iim_round_trip.specs.Laws.{PackedOctetsAreValid, PackedEnvelopeIsFoundInStream, PackedOctetsAreWithinLimits, PackedStreamHasOneResult};

use iim_pack::laws::{packed_octets_encode_the_value, packed_subfiles_are_bounded};
use iim_unpack::laws::place_laws;

/// Proves that packed octets are a valid envelope, with the value that was packed and the sizes of
/// the plan.
pub fn packed_octets_are_valid()
    ensures { PackedOctetsAreValid }
{
    packed_octets_encode_the_value();
}

/// Proves that a stream that begins with packed octets begins with no other valid envelope, and
/// that this envelope has the value that was packed.
pub fn packed_envelope_is_found_in_stream()
    ensures { PackedEnvelopeIsFoundInStream }
{
    packed_octets_are_valid();
    place_laws();
}

/// Proves that packed octets are an envelope within the limits if their fields are within these
/// limits.
pub fn packed_octets_are_within_limits()
    ensures { PackedOctetsAreWithinLimits }
{
    packed_octets_are_valid();
    packed_subfiles_are_bounded();
}

/// Proves that a stream that begins with packed octets has exactly one result, regardless of what
/// follows: the packed octets, and the value that was packed.
pub fn packed_stream_has_one_result()
    ensures { PackedStreamHasOneResult }
{
    packed_octets_are_within_limits();
    place_laws();
}
