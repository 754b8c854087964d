//! The command `story`: the text of each envelope, written while it is read.

ghost use Rattle.std.specs.Prelude.{◌≡◌, ◌<◌, ◌≤◌, None, Ok, Err, IfOk, IfErr};
ghost use Rattle.iim_unpack.specs.States.Intakes.{input_of};
ghost use Rattle.iim_listing.specs.Steps.{StoryWriterIsFlushed, KeepsTargets, errors_of, output_of, stops_of, WritesNextStory};
ghost use Rattle.iim_listing.specs.Format.{StoriesFail, WritesStories};
ghost use Rattle.iim_places.specs.Format.Streams.{max_envelopes};
ghost use Rattle.iim_unpack.specs.States.Unpacking.{limits_in};
ghost use Rattle.iim_output.specs.Format.{limits};

use crate::coming::{LIMITS, Next, next_item};
use crate::input::Input;
use crate::laws::envelopes_are_delivered_as_lines;
use crate::story_writer::StoryWriter;
use iim_dataset::device_laws::{reads_join, writes_join};
use iim_dataset::{Source, Target};
use iim_output::block_writer::BlockWriter;
use iim_output::fault::CommandFault;
use iim_output::lines::TOO_MANY;
use iim_output::status::{ACCEPTED, REFUSED};
use iim_unpack::{MAX_ENVELOPES, Unpacker};
use std::alloc::Global;
use wire_story::laws::story_laws;

/// Writes the story of the next envelope of an input, after `count` envelopes. Returns the exit
/// status if there is no further envelope.
#[inline]
fn write_next_story<R: Source, W: Target, E: Target>(
    intake: &mut Input<R>,
    unpacker: &mut Unpacker,
    story_writer: &mut StoryWriter<'_, '_, W, E>,
    count: u64,
) -> Result<Option<u8>, CommandFault>
    requires alive { intake.old.failed ≡ None }
    requires limits { limits_in unpacker.old ≡ limits }
    requires few { count ≤ max_envelopes }
    ensures ok { IfOk result (λ next.
        (next ≡ None → (intake.new.failed ≡ None) × (limits_in unpacker.new ≡ limits) × (count < max_envelopes))
        × WritesNextStory W.state E.state (input_of R.state intake.old)
        (input_of R.state intake.new) story_writer.old story_writer.new
        count (Ok next)) }
    ensures err { IfErr result (λ fault. WritesNextStory W.state E.state
        (input_of R.state intake.old) (input_of R.state intake.new) story_writer.old story_writer.new count
        (Err fault)) }
    ensures leads { R.leads intake.old.reader intake.new.reader }
{
    reads_join();
    writes_join();
    envelopes_are_delivered_as_lines();
    story_laws();
    match next_item(intake, unpacker, story_writer)? {
        Next::Envelope(octets) => {
            if count == MAX_ENVELOPES {
                story_writer.write_last_line(TOO_MANY.as_bytes())?;
                return Ok(Some(REFUSED));
            }
            story_writer.end_story(count + 1, octets)?;
            Ok(None)
        }
        Next::End => Ok(Some(ACCEPTED)),
        Next::Refused(refusal) => {
            story_writer.tell_refusal(count + 1, refusal)?;
            Ok(Some(REFUSED))
        }
    }
}

/// Writes the story and the line of each envelope while the envelope is read. The writer must have
/// nothing buffered at first. Unless a write fails, it has nothing buffered afterwards.
fn write_all_stories<R: Source, W: Target, E: Target>(
    alloc: Global,
    intake: &mut Input<R>,
    story_writer: &mut StoryWriter<'_, '_, W, E>,
) -> Result<u8, CommandFault>
    requires alive { intake.old.failed ≡ None }
    requires is_flushed { StoryWriterIsFlushed story_writer.old }
    requires unbroken { stops_of story_writer.old ≡ 0 }
    ensures ok { IfOk result (WritesStories (input_of R.state intake.old) (input_of R.state intake.new)
        (output_of W.state story_writer.old) (output_of W.state story_writer.new)
        (errors_of E.state story_writer.old) (errors_of E.state story_writer.new)) }
    ensures err { IfErr result (StoriesFail (input_of R.state intake.old) (input_of R.state intake.new)
        (output_of W.state story_writer.old) (output_of W.state story_writer.new)
        (errors_of E.state story_writer.old) (errors_of E.state story_writer.new)) }
    ensures same { KeepsTargets story_writer.old story_writer.new }
    ensures leads { R.leads intake.old.reader intake.new.reader }
{
    reads_join();
    writes_join();
    let mut count = 0;
    let mut unpacker = Unpacker::new(alloc, LIMITS)?;
    'telling: loop {
        match write_next_story(intake, &mut unpacker, story_writer, count) {
            Ok(None) => count += 1,
            Ok(Some(status)) => return Ok(status),
            Err(fault) => return Err(fault),
        }
    }
}

/// Writes the text of each envelope while the envelope is read, with its lines joined by LF, and an
/// LF after each envelope. Writes the lines of `check` to `errors`: one for each envelope, up to
/// the end of the input, to the first refusal or to the first envelope over the limit. Returns the
/// exit status.
///
/// All output for the octets read so far is written to both targets before the input is read again.
/// The line of an envelope is written after its text. If a write fails, the rest of the output is
/// lost on both targets.
pub fn write_stories<R: Source, W: Target, E: Target>(
    alloc: Global,
    intake: &mut Input<R>,
    output: &mut W,
    errors: &mut E,
) -> Result<u8, CommandFault>
    requires alive { intake.old.failed ≡ None }
    ensures ok { IfOk result (WritesStories (input_of R.state intake.old) (input_of R.state intake.new)
        (W.state output.old) (W.state output.new) (E.state errors.old) (E.state errors.new)) }
    ensures err { IfErr result (StoriesFail (input_of R.state intake.old) (input_of R.state intake.new)
        (W.state output.old) (W.state output.new) (E.state errors.old) (E.state errors.new)) }
    ensures leads { R.leads intake.old.reader intake.new.reader }
{
    reads_join();
    writes_join();
    match BlockWriter::new(alloc, output) {
        Ok(made) => {
            let mut story_writer = StoryWriter::new(alloc, made, errors);
            let answer = write_all_stories(alloc, intake, &mut story_writer);
            // This line has no effect at run time. The proof needs this use of the returned targets
            // to know their contents.
            let (output, errors) = story_writer.into_targets();
            let _ = &*output;
            let _ = &*errors;
            answer
        }
        Err(same) => {
            // As above, for the target that is returned if the allocation fails.
            let _ = &*same;
            Err(CommandFault::OutOfMemory)
        }
    }
}
