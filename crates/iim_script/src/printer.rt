//! Prints the lines of a script, in the form that `show` prints.

ghost use Rattle.std.specs.Prelude.{◌≡◌, ◌+◌, ◌*◌, ◌^◌, ◌<◌, ◌≤◌, ◌++◌, ◌∷◌, length, take, drop, vec_len, IfSome, OnOk, codes, decimal};
ghost use Rattle.std.specs.List.{flat_map};
ghost use Rattle.iim_dataset.specs.Format.Octets.{sp};
ghost use Rattle.iim_script.specs.Format.Scripts.{after_space, field_line, message_line, trailer_line};

use crate::places::put_field;
use iim_dataset::{DatasetName, push_with_escapes};
use iim_fields::EnvelopeRef;
use itoa::Buffer;
use std::alloc::AllocError;
use std::fmt::Display;
use std::io::Write;
use wire_message::MessageHead;

/// Appends the printed form of a value. Returns an error if an allocation fails.
pub fn push_display<D: Display + Drop>(text: &mut Vec<u8>, value: D) -> Result<(), AllocError>
    ensures { OnOk result (IfSome (D.output value) (λ words. text.new.items ≡ text.old.items ++ words)) }
{
    match text.write_fmt(value) {
        Ok(()) => Ok(()),
        Err(_) => Err(AllocError),
    }
}

/// Appends a number in decimal. Returns an error if an allocation fails.
pub fn push_decimal(text: &mut Vec<u8>, number: u64) -> Result<(), AllocError>
    ensures { OnOk result (text.new.items ≡ text.old.items ++ decimal number) }
{
    text.extend_from_slice(Buffer::new().format(number).as_bytes())
}

/// Writes a word so that it ends just before the index `end`. Returns the index at which the word
/// begins.
#[inline(always)]
pub fn write_word(word: &[u8], line: &mut [u8], end: usize) -> usize
    requires { length word.now ≤ end × end ≤ length line.old }
    ensures start { result + length word.now ≡ end }
    ensures written { drop result line.new ≡ word.now ++ drop end line.old }
{
    let start = end - word.len();
    line[start..end].copy_from_slice(word);
    start
}

/// Appends a space and the octets, escaped if necessary. Appends nothing if there are no octets.
fn push_after_space(text: &mut Vec<u8>, octets: &[u8]) -> Result<(), AllocError>
    ensures { OnOk result (text.new.items ≡ text.old.items ++ after_space octets.now) }
{
    if octets.is_empty() {
        return Ok(());
    }
    text.push(b' ')?;
    push_with_escapes(text, octets)
}

/// Extends a text with zeros to the length `places`. Returns an error if an allocation fails.
#[inline(never)]
fn lengthen(text: &mut Vec<u8>, places: usize) -> Result<(), AllocError>
    requires { vec_len text.old ≤ places }
    ensures same { OnOk result (take (vec_len text.old) text.new.items ≡ text.old.items) }
    ensures room { OnOk result (vec_len text.new ≡ places) }
{
    text.resize(places, 0)
}

/// The number of octets by which a text is extended beyond what is needed.
const MORE_PLACES: usize = 1024;

/// Extends the text, if necessary, so that the line of a dataset of `octets` octets fits at the
/// index `at`. Returns an error if an allocation fails.
#[inline(always)]
fn make_room(text: &mut Vec<u8>, at: usize, octets: usize) -> Result<(), AllocError>
    requires within { at ≤ vec_len text.old }
    requires few { octets < 2 ^ 32 }
    ensures same { OnOk result (take at text.new.items ≡ take at text.old.items) }
    ensures room { OnOk result (at + (10 + 4 * octets) ≤ vec_len text.new) }
{
    let places = 10 + 4 * octets;
    if places <= text.len() - at {
        return Ok(());
    }
    lengthen(text, at + places + MORE_PLACES)
}

/// Appends the lines of all datasets of an envelope. Returns an error if an allocation fails.
pub fn push_fields(text: &mut Vec<u8>, envelope: &EnvelopeRef<'_>) -> Result<(), AllocError>
    ensures { OnOk result (text.new.items ≡ text.old.items ++ flat_map field_line envelope.now) }
{
    let mut end = text.len();
    let mut fields = envelope.fields();
    while let Some((rec, set, octets)) = fields.next() {
        make_room(text, end, octets.len())?;
        end = put_field(text, end, DatasetName { rec, set }, octets);
    }
    text.truncate(end);
    Ok(())
}

/// Appends a space and a field of the header.
fn push_word(text: &mut Vec<u8>, word: &[u8]) -> Result<(), AllocError>
    ensures { OnOk result (text.new.items ≡ text.old.items ++ sp ∷ word.now) }
{
    text.push(b' ')?;
    text.extend_from_slice(word)
}

/// Appends the first fields of the message's header.
fn push_first_words(text: &mut Vec<u8>, head: &MessageHead) -> Result<(), AllocError>
    ensures { OnOk result (text.new.items ≡ text.old.items
        ++ (codes "message" ++ (sp ∷ head.now.source ++ (sp ∷ head.now.number ++ sp ∷ head.now.priority)))) }
{
    text.extend_from_slice(b"message")?;
    push_word(text, head.source())?;
    push_word(text, head.number())?;
    push_word(text, head.priority())
}

/// Appends the last fields of the message's header, its info, and the end of the line.
fn push_last_words(text: &mut Vec<u8>, head: &MessageHead) -> Result<(), AllocError>
    ensures { OnOk result (text.new.items ≡ text.old.items
        ++ (sp ∷ head.now.category ++ (sp ∷ head.now.words ++ (after_space head.now.info ++ codes "\n")))) }
{
    push_word(text, head.category())?;
    push_word(text, head.words())?;
    push_after_space(text, head.info())?;
    text.push(b'\n')?;
    Ok(())
}

/// Appends the line of the message's header. Returns an error if an allocation fails.
pub fn push_message(text: &mut Vec<u8>, head: &MessageHead) -> Result<(), AllocError>
    ensures { OnOk result (text.new.items ≡ text.old.items ++ message_line head.now) }
{
    push_first_words(text, head)?;
    push_last_words(text, head)
}

/// Appends the line of the message's trailer. Returns an error if an allocation fails.
pub fn push_trailer(text: &mut Vec<u8>, trailer: &[u8]) -> Result<(), AllocError>
    ensures { OnOk result (text.new.items ≡ text.old.items ++ trailer_line trailer.now) }
{
    text.extend_from_slice(b"trailer")?;
    push_after_space(text, trailer)?;
    text.push(b'\n')?;
    Ok(())
}
