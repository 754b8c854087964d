//! Lemmas about the output of the commands.

ghost use Rattle.iim_commands.specs.Laws.{ShownEnvelopesAreScripts};

pub use iim_listing::laws::envelopes_are_delivered_as_lines;
use iim_script::laws::script_laws;

/// Proves that the output of `show` and `story` for an envelope can be combined into a script: the
/// lines of `show` between its first and its last line, then the line `text`, then the output of
/// `story`. The script specifies exactly the values of the envelope, unless they are too long for a
/// script.
pub fn shown_envelopes_are_scripts()
    ensures { ShownEnvelopesAreScripts }
{
    script_laws();
}
