//! Parses scripts within the limits of the commands.

ghost use Rattle.std.specs.Prelude.{◌≡◌, length, IfOk, IfErr};
ghost use Rattle.iim_script.specs.Format.Causes.{IsScriptFault};
ghost use Rattle.iim_script.specs.Format.Scripts.{IsScript, text_lines};
ghost use Rattle.wire_story.specs.Format.Texts.{IsText, packed_text};
ghost use Rattle.iim_output.specs.Format.{limits};

use iim_output::limits::LIMITS;
use iim_script::{Script, ScriptFault};
use std::alloc::Global;

/// Parses a script whose datasets are within [`LIMITS`]. Returns its contents, or its first error
/// with the number of the line.
pub fn read_script<'a>(alloc: Global, octets: &'a [u8]) -> Result<Script<'a>, ScriptFault>
    ensures script { IfOk result (λ told. IsScript limits octets.now told.envelope told.head told.trailer.items
        (text_lines told.text.now) told.text_line) }
    ensures text { IfOk result (λ told. IsText told.text.now (text_lines told.text.now)) }
    ensures len { IfOk result (λ told. told.text_len ≡ length (packed_text (text_lines told.text.now))) }
    ensures fault { IfErr result (λ fault. IsScriptFault limits octets.now fault.line fault.cause) }
{
    iim_script::read_script(alloc, LIMITS, octets)
}
