//! Packs the lines of a story.

ghost use Rattle.std.specs.Prelude.{◌≡◌, ◌+◌, ◌≤◌, false, length, OnOk, OnErr, IfErr};
ghost use Rattle.iim_object.specs.States.Writing.{plan_bound, total_of};
ghost use Rattle.iim_object.specs.declared.writing.cause.PackCause.TheVariants as causes;
ghost use Rattle.wire_story.specs.Format.Texts.{IsLine, LinesMakeText, events_of_lines};
ghost use Rattle.wire_story.specs.Format.Packing.{packed_events};
ghost use Rattle.iim_pack.specs.States.Packing.{Lengthens, BreaksOff, ContinuesWith, least_ending};
ghost use Rattle.iim_pack.specs.Steps.{line_events};

use crate::packer::Packer;
use iim_dataset::Target;
use iim_dataset::device_laws::writes_join;
use iim_object::PackCause;
use wire_story::Lines;

/// Packs a line. Unless the line is the first one, writes the end of the previous line before it.
fn put_line<W: Target>(packer: &mut Packer<W>, line: &[u8], is_first: bool) -> Result<(), PackCause>
    requires line { IsLine line.now }
    requires unfailed { packer.old.object.failed ≡ false }
    requires fits { total_of packer.old.object + (length (packed_events (line_events is_first line.now)) + least_ending)
        ≤ plan_bound packer.old.object.plan }
    ensures ok { OnOk result (Lengthens W.state packer.old packer.new (line_events is_first line.now)) }
    ensures cause { IfErr result (λ cause. cause ≡ causes.Write) }
    ensures broke { OnErr result (BreaksOff W.state (ContinuesWith (line_events is_first line.now)) packer.old
        packer.new) }
{
    writes_join();
    if is_first {
        return packer.text_unchecked(line);
    }
    match packer.line_end() {
        Ok(()) => packer.text_unchecked(line),
        Err(cause) => Err(cause),
    }
}

/// Packs all lines.
pub(crate) fn put_lines<W: Target>(packer: &mut Packer<W>, lines: &Lines) -> Result<(), PackCause>
    requires unfailed { packer.old.object.failed ≡ false }
    requires fits { total_of packer.old.object
        + (length (packed_events (events_of_lines lines.now.lines)) + least_ending)
        ≤ plan_bound packer.old.object.plan }
    ensures ok { OnOk result (Lengthens W.state packer.old packer.new (events_of_lines lines.now.lines)) }
    ensures cause { IfErr result (λ cause. cause ≡ causes.Write) }
    ensures broke { OnErr result (BreaksOff W.state (ContinuesWith (events_of_lines lines.now.lines)) packer.old
        packer.new) }
    ensures made { LinesMakeText lines.now.lines }
{
    writes_join();
    let mut left = lines.iter();
    let mut is_first = true;
    while let Some(line) = left.next() {
        match put_line(packer, line, is_first) {
            Ok(()) => is_first = false,
            Err(cause) => return Err(cause),
        }
    }
    Ok(())
}
