//! Calls that parse scripts and allocate.

ghost use Rattle.iim_script.specs.Format.Scripts.{text_lines};
ghost use Rattle.wire_story.specs.Format.Texts.{IsText};

use crate::given::LIMITS;
use crate::outcome::Trouble;
use iim_fields::Envelope;
use iim_script::{Script, ScriptCause, ScriptFault, read_script};
use std::alloc::Global;
use wire_story::Lines;
use worked::{FIRST_LINE, LAST_LINE};

/// The script of the sample envelope.
pub(crate) const SCRIPT: &[u8] = b"1:00 \\x00\\x04
1:20 \\x00\\x02
1:22 \\x00\\x01
1:30 TST
1:40 00000002
1:70 20240301
2:00 \\x00\\x04
2:105 Rates held
2:80 A. Moor
2:85 Editor
2:80 B. Lund
2:85 Writer
2:25 rates
2:25 bank
2:25 euro
2:250 \\x00\\xFF
message TST 0007 4 ECO 5 rates
text
Rates stay.
No change.
";

/// Checks whether lines are those of the sample.
fn are_worked(lines: &Lines) -> bool {
    lines.iter().eq([FIRST_LINE, LAST_LINE])
}

/// Returns the lines of a script, if the script specifies this envelope and the sample lines.
fn lines_of(alloc: Global, script: Script<'_>, envelope: &Envelope) -> Result<Lines, Trouble>
    requires { IsText script.text.now (text_lines script.text.now) }
{
    let is_same = script.envelope.same(envelope) && script.text_line == 18;
    let lines = script.lines(alloc)?;
    if is_same && are_worked(&lines) {
        return Ok(lines);
    }
    Err(Trouble::Wrong)
}

/// Reads the script, and returns its lines.
pub(crate) fn told(alloc: Global, envelope: &Envelope) -> Result<Lines, Trouble> {
    match read_script(alloc, LIMITS, SCRIPT) {
        Ok(script) => lines_of(alloc, script, envelope),
        Err(
            ScriptFault {
                line: 0,
                cause: ScriptCause::OutOfMemory,
            },
        ) => Err(Trouble::OutOfMemory),
        Err(_) => Err(Trouble::Wrong),
    }
}
