//! Names of layers, and writing a name into a buffer.

ghost use Rattle.std.specs.Prelude.{◌≡◌, ◌+◌, Some, None, MatchOption};
ghost use Rattle.std.specs.Option.{option_map};
ghost use Rattle.iim_c.specs.Format.Tables.{WritesName, name_of_layer, name_or_none};

use crate::bytes::put_text;

/// Returns the name of a layer, or `None` if no layer has this number.
#[tactic(auto, unfolding(crate::specs::Format::Tables::name_of_layer, crate::specs::Format::Tables::layer_names))]
pub(crate) fn name_of_layer(number: u8) -> Option<&'static str>
    ensures { MatchOption result (name_of_layer number ≡ None) (λ name. name_of_layer number ≡ Some name.now) }
{
    match number {
        1 => Some("dataset"),
        2 => Some("record"),
        3 => Some("limits"),
        4 => Some("object"),
        5 => Some("message"),
        6 => Some("story"),
        7 => Some("outside"),
        _ => None,
    }
}

/// Writes a name and a NUL into `out`, if they fit. Returns the length of the name in octets,
/// without the NUL, or 0 if there is no name.
pub(crate) fn put_name(name: Option<&str>, out: &mut [u8]) -> usize
    ensures { WritesName (name_or_none (option_map (λ n. n.now) name.entry)) out.old out.new result }
{
    let name = name.unwrap_or("").as_bytes();
    if name.len() < out.len() {
        put_text(out, name);
    }
    name.len()
}

/// Writes the name of a layer and a NUL into `out`, if they fit. Returns the length of the name in
/// octets, without the NUL, or 0 if no layer has this number.
pub fn iim_layer_name(layer: u8, out: &mut [u8]) -> usize
    ensures { WritesName (name_or_none (name_of_layer layer)) out.old out.new result }
{
    put_name(name_of_layer(layer), out)
}
