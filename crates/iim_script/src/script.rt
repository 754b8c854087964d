//! The contents of a script.

ghost use Rattle.std.specs.Prelude.{◌≡◌, IfOk};
ghost use Rattle.iim_script.specs.Format.Scripts.{text_lines};
ghost use Rattle.wire_story.specs.Format.Texts.{IsText};

use iim_fields::Envelope;
use std::alloc::{AllocError, Global};
use wire_message::MessageHead;
use wire_story::{Lines, TextCause, TextReader};

/// The contents of a script: everything that is needed to pack it, except the plan.
#[derive(Drop)]
pub struct Script<'a> {
    /// The datasets of records 1 and 2.
    pub envelope: Envelope,
    /// The header of the message.
    pub head: MessageHead,
    /// The text of the story: its lines, separated by LF or CR LF.
    pub text: &'a [u8],
    /// The length of the packed text, in octets.
    pub text_len: u64,
    /// The trailer of the message.
    pub trailer: Vec<u8>,
    /// The number of the line `text`, from 1.
    pub text_line: u64,
}

/// Converts the error of lines that could not be stored to an allocation error.
fn growth_error(cause: TextCause) -> AllocError
    requires { cause ≡ TextCause.Sink }
{
    match cause {
        TextCause::Sink => AllocError,
        TextCause::LoneReturn | TextCause::ControlOctet => unreachable!(),
    }
}

impl<'a> Script<'a> {
    /// Copies the lines of the story, in the form that `iim_pack::pack` expects. Every script that
    /// `read_script` returns meets the precondition. Returns an error if an allocation fails.
    pub fn lines(&self, alloc: Global) -> Result<Lines, AllocError>
        requires { IsText self.now.text.now (text_lines self.now.text.now) }
        ensures { IfOk result (λ lines. lines.lines ≡ text_lines self.now.text.now) }
    {
        let mut lines = Lines::new(alloc);
        match TextReader::new().run(self.text, &mut lines) {
            Ok(()) => Ok(lines),
            Err(fault) => Err(growth_error(fault.cause)),
        }
    }
}
