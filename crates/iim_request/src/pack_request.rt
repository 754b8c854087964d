//! Options for packing an envelope.

ghost use Rattle.std.specs.Prelude.{IsTrue};
ghost use Rattle.iim_object.specs.Format.Objects.{is_plan};
ghost use Rattle.iim_object.specs.declared.size.Size.TheVariants.{Unknown};

/// The options for packing an envelope.
#[derive(Clone, Copy, Debug, PartialEq, Eq)]
pub struct PackRequest {
    /// The number of octets of a full subfile, from 1 to the greatest size of an object.
    pub subfile: u64,
    /// Whether the envelope states that the size of its object is unknown.
    pub unknown: bool,
    /// The maximum size of an object of unknown size, at most the greatest size.
    pub max: Option<u64>,
    ghost valid: { IsTrue (is_plan subfile (Unknown max)) },
}
