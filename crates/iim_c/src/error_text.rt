//! The line that reports a refusal.

ghost use Rattle.std.specs.Prelude.{◌≡◌, ◌+◌, ◌++◌, ◌∷◌, [], decimal};
ghost use Rattle.iim_dataset.specs.Format.Datasets.{dataset_name, padding};
ghost use Rattle.iim_c.specs.Format.Answers.{HasTaken, WritesOctets};
ghost use Rattle.iim_c.specs.Format.ErrorTexts.{HasNumbersOf, IsLineOfCommand, error_text, has_refusal, place_text, reason_text};
ghost use Rattle.iim_c.specs.Format.Tables.{name_for_cause, name_of_layer, name_or_none};
ghost use Rattle.iim_c.specs.Format.Statuses as status;
ghost use Rattle.iim_places.specs.declared.refusal.Refusal.{Refusal};

use crate::answer::IimAnswer;
use crate::causes::name_for_cause;
use crate::feed::end_borrow;
use crate::names::name_of_layer;
use crate::status::{REFUSED, TRUNCATED};
use crate::text_out::TextOut;
use itoa::Buffer;

/// Writes a number in decimal digits.
fn put_number(text: &mut TextOut<'_>, number: u64)
    ensures { WritesOctets text.old (decimal number) text.new }
{
    text.put(Buffer::new().format(number).as_bytes());
}

/// Writes the octets of a string.
fn put_words(text: &mut TextOut<'_>, words: &str)
    ensures { WritesOctets text.old words.now text.new }
{
    text.put(words.as_bytes());
}

/// Writes the zero before a number of one digit, or nothing.
fn put_padding(text: &mut TextOut<'_>, number: u8)
    ensures { WritesOctets text.old (padding number) text.new }
{
    put_words(text, if number < 10 { "0" } else { "" });
}

/// Writes the name of a layer, or nothing if no layer has this number.
fn put_layer(text: &mut TextOut<'_>, layer: u8)
    ensures { WritesOctets text.old (name_or_none (name_of_layer layer)) text.new }
{
    if let Some(name) = name_of_layer(layer) {
        put_words(text, name);
    }
}

/// Writes the name of a cause, or nothing if no cause has this number.
fn put_cause(text: &mut TextOut<'_>, cause: u8)
    ensures { WritesOctets text.old (name_or_none (name_for_cause cause)) text.new }
{
    if let Some(name) = name_for_cause(cause) {
        put_words(text, name);
    }
}

/// Writes the record, a colon and the number of a dataset, which has at least two digits.
fn put_dataset(text: &mut TextOut<'_>, rec: u8, set: u8)
    ensures { WritesOctets text.old (dataset_name rec set) text.new }
{
    put_number(text, u64::from(rec));
    put_words(text, ":");
    put_padding(text, set);
    put_number(text, u64::from(set));
}

/// Writes the number of the envelope, and the octet and the layer of a refusal.
fn put_place(text: &mut TextOut<'_>, number: u64, octet: u64, layer: u8)
    ensures { WritesOctets text.old (place_text number octet layer) text.new }
{
    put_number(text, number);
    put_words(text, " refused at octet ");
    put_number(text, octet);
    put_words(text, " by layer ");
    put_layer(text, layer);
}

/// Writes the dataset and the cause of a refusal.
fn put_reason(text: &mut TextOut<'_>, rec: u8, set: u8, cause: u8)
    ensures { WritesOctets text.old (reason_text rec set cause) text.new }
{
    put_words(text, " on ");
    put_dataset(text, rec, set);
    put_words(text, ", cause ");
    put_number(text, u64::from(cause));
    put_words(text, " ");
    put_cause(text, cause);
}

/// Checks whether an answer is that of a refusal or of a truncation.
fn has_refusal(answer: &IimAnswer) -> bool
    ensures { result ≡ has_refusal answer.now }
{
    answer.status == REFUSED || answer.status == TRUNCATED
}

/// Writes the line of a refusal, without its line end, or nothing if the answer has no refusal.
fn put_refusal(text: &mut TextOut<'_>, number: u64, answer: &IimAnswer)
    ensures { WritesOctets text.old (error_text number answer.now) text.new }
{
    if has_refusal(answer) {
        put_place(text, number, answer.octet, answer.layer);
        put_reason(text, answer.rec, answer.set, answer.cause);
    }
}

/// Writes the line of a refusal and a NUL to an empty sink. The sink refers to the same buffer
/// afterwards.
fn put_line(text: &mut TextOut<'_>, number: u64, answer: &IimAnswer)
    requires { text.old.count ≡ 0 }
    ensures same { text.new.out.ghost_name ≡ text.old.out.ghost_name }
    ensures line { HasTaken text.new.out.now text.new.count (error_text number answer.now ++ 0 ∷ []) }
{
    put_refusal(text, number, answer);
    text.put_octet(0);
}

/// Writes the line that the command `check` prints for a refusal, and a NUL, into `out`, if they fit.
/// `number` is the number of the envelope in its input, from 1. Returns the number of octets of the
/// line: 0 if the answer is neither that of a refusal nor that of a truncation.
pub fn iim_error_text(number: u64, answer: &IimAnswer, out: &mut [u8]) -> usize
    ensures text { HasTaken out.new (result + 1) (error_text number answer.now ++ 0 ∷ []) }
    ensures line { (e : Refusal) → answer.now.status ≡ status.refused → HasNumbersOf answer.now e
        → IsLineOfCommand number e (error_text number answer.now) }
{
    let mut text = TextOut { out, count: 0 };
    put_line(&mut text, number, answer);
    let TextOut { out: same, count } = text;
    end_borrow(same);
    count.saturating_sub(1)
}
