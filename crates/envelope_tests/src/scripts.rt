//! Tests scripts that are parsed and packed, and calls lemmas about scripts.

ghost use Rattle.iim_script.specs.Format.Scripts.{text_lines};
ghost use Rattle.wire_story.specs.Format.Texts.{IsText};

use crate::given::{LIMITS, plan};
use crate::memory::scripts::SCRIPT;
use crate::outcome::{Trouble, right};
use crate::told::Told;
use iim_object::Size;
use iim_pack::{pack, packed_size};
use iim_pack_script::packing::{PackRequest, pack_script};
use iim_script::laws::script_laws;
use iim_script::{Script, read_script};
use std::alloc::Global;
use std::io;
use trials::{TrialReader, TrialWriter, Trouble as DeviceTrouble};
use worked::STORY;

/// The result of packing a script.
type Packed = Result<TrialWriter<256>, Trouble>;

/// Creates a writer that never fails.
fn writer() -> TrialWriter<256> {
    TrialWriter::new(0, DeviceTrouble::Interruptions(0))
}

/// Packs a script with the library's `pack`, from the lines that the script returns.
fn packed_by_lines(alloc: Global, script: &Script<'_>) -> Packed
    requires { IsText script.now.text.now (text_lines script.now.text.now) }
{
    let lines = script.lines(alloc)?;
    let trailer = script.trailer.as_slice();
    let size = packed_size(&script.head, &lines, trailer).ok_or(Trouble::Wrong)?;
    let plan = plan(1024, Size::Known(size))?;
    match pack(
        alloc,
        &script.envelope,
        &script.head,
        &lines,
        trailer,
        plan,
        writer(),
    ) {
        Ok(writer) => Ok(writer),
        Err(_) => Err(Trouble::Wrong),
    }
}

/// Packs a script with the command `pack`.
fn packed_by_command(alloc: Global, script: &[u8]) -> Packed {
    let request = PackRequest {
        subfile: 1024,
        unknown: false,
        max: None,
    };
    let mut reader = TrialReader::new(script, 0, DeviceTrouble::Interruptions(0));
    let (answer, output) = pack_script(alloc, request, &mut reader, writer(), &mut writer());
    match answer {
        Ok(0) => Ok(output),
        _ => Err(Trouble::Wrong),
    }
}

/// Checks that both ways write the same octets, which are those of the sample envelope.
fn packs_the_lines_of_a_script(alloc: Global) -> Result<(), Trouble> {
    let Ok(script) = read_script(alloc, LIMITS, SCRIPT) else {
        return Err(Trouble::Wrong);
    };
    let by_lines = packed_by_lines(alloc, &script)?;
    let by_command = packed_by_command(alloc, SCRIPT)?;
    right(by_lines.octets() == by_command.octets() && by_lines.octets() == STORY.as_slice())
}

/// Runs the tests of scripts.
pub(crate) fn tell(rt: &impl Print, told: &mut Told, alloc: Global) -> io::Result<()> {
    lemmas_can_be_called();
    told.trial(rt, "lemmas_can_be_called of scripts", Ok(()))?;
    let lines = packs_the_lines_of_a_script(alloc);
    told.trial(rt, "packs_the_lines_of_a_script", lines)
}

fn lemmas_can_be_called() {
    script_laws();
}
