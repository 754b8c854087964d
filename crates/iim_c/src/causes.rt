//! The names and the meanings of causes, by their numbers.

ghost use Rattle.std.specs.Prelude.{◌≡◌, Some, None, MatchOption};
ghost use Rattle.iim_c.specs.Format.Tables.{name_for_cause, cause_text, cause_entry, WritesName, name_or_none};

use crate::names::put_name;

/// The name of a cause, and its meaning.
#[derive(Clone, Copy)]
struct CauseText {
    name: &'static str,
    text: &'static str,
}

/// Expands to a match on a number. Each line is an arm: number, name and sentence.
macro_rules! words_by {
    ($number:expr; $($of:literal $name:literal $text:literal)*) => {
        match $number {
            $($of => Some(CauseText { name: $name, text: $text }),)*
            _ => None,
        }
    };
}

/// Matches the number of a cause with the causes of `docs/reference/causes.md`.
macro_rules! cause_in_table {
    ($number:expr) => {
        words_by! { $number;
            // Causes that concern octets of an envelope
            1 "Marker" "a tag doesn't begin with 1C"
            2 "CountForm" "octet 4 of a tag is above 80, or it is 80 and octet 5 is not 1 to 8"
            3 "Truncated" "the input ends inside an envelope; the octet is how many there were"
            10 "RecordOrder" "the record is neither the present one nor the next"
            11 "UnknownDataset" "record 7, 8 or 9 has no dataset of this number"
            12 "Repeated" "a dataset that doesn't repeat comes a second time"
            13 "CountRange" "the dataset has fewer or more octets than its row allows; a subfile, 8:10, more than 9,223,372,036,854,775,807"
            14 "Missing" "the next record begins, and a mandatory dataset is absent"
            15 "BadValue" "the octets are not of the dataset's kind"
            16 "FileFormat" "1:20 is not 2"
            20 "ModeClash" "mode 0 and 7:90, at the later value; mode 1 without 7:90, at the first head of 8:10"
            21 "SizeClash" "announced above maximum, at the later value"
            22 "SubfileTooLong" "a subfile has more octets than 7:20 allows"
            23 "PastSize" "with this subfile's count the object is longer than announced, than the maximum, or than 9,223,372,036,854,775,807 octets"
            24 "Short" "the total is below announced, at the head of 9:10"
            25 "ConfirmedWrong" "9:10 is not the total"
            30 "BadOctet" "no message can continue with the octet"
            32 "Unfinished" "the object ends before the message does"
            40 "LoneReturn" "after held CR comes an octet of the text that is neither LF nor the second CR, or ETX"
            41 "ControlOctet" "01, 02 or 04 stands in the text, with no CR held"
            50 "HeaderFull" "with the head's count the data of records 1 and 2 pass the limit on octets"
            51 "TooManyFields" "with the head the datasets of records 1 and 2 pass the limit on their number"
            52 "TooManySubfiles" "a head of 8:10 after 4,294,967,295 others"
            60 "Sink" "the sink of the story refused what it was told; the dataset is 8:10"
            61 "Failed" "something was refused before, and the reader was called again; the octet is that of the first refusal, the dataset 0:00"

            // Memory and readers
            70 "OutOfMemory" "memory was refused; no refusal's line has it"
            71 "Read" "a read failed"
            72 "Interrupted" "a read was interrupted 1,000,000 times in a row"

            // Causes of packing
            80 "PastAnnounced" "the object is longer than its announced size or its maximum, or than 4,294,967,295 subfiles hold"
            81 "ShortOfAnnounced" "the object is shorter than its announced size"
            82 "BadTextOctet" "a line of the story has 01, 02, 03, 04, CR or LF in it"
            83 "BadTrailer" "the trailer has more than 64 octets, or one that may not stand there"
            84 "Write" "a write failed; what is out begins the packed form"
            85 "Failed" "a write failed before, and the packer was called again"

            // Causes of audits and scripts
            90 "TooManyEnvelopes" "an input has more than 1,000,000 envelopes; the command prints `too many envelopes`"
            91 "ScriptLine" "a line has no form that may stand there, or a line is missing"
            92 "ScriptTooLong" "the script has more than 16,777,216 octets; it is told of line 0"

            // Causes of invalid tickets
            100 "TicketForm" "the octets have not the form of a ticket"
            101 "TicketVersion" "the ticket is of a version other than 1 and 2"
            102 "Impossible" "no envelope can be at the place that the ticket tells; of version 1, none by the sizes of that version"
        }
    };
}

/// Returns the name and the meaning of a cause, or `None` if no cause has this number.
#[tactic(auto, unfolding(crate::specs::Format::Tables::cause_entry, crate::specs::Format::Tables::cause_table))]
fn cause_entry(number: u8) -> Option<CauseText>
    ensures { MatchOption result (cause_entry number ≡ None) (λ words.
        cause_entry number ≡ Some (record { number = number; name = words.name.now; text = words.text.now })) }
{
    cause_in_table!(number)
}

/// Returns the name of a cause, or `None` if no cause has this number.
pub(crate) fn name_for_cause(number: u8) -> Option<&'static str>
    ensures { MatchOption result (name_for_cause number ≡ None) (λ name. name_for_cause number ≡ Some name.now) }
{
    let words = cause_entry(number)?;
    Some(words.name)
}

/// Returns the meaning of a cause, or `None` if no cause has this number.
fn cause_text(number: u8) -> Option<&'static str>
    ensures { MatchOption result (cause_text number ≡ None) (λ text. cause_text number ≡ Some text.now) }
{
    let words = cause_entry(number)?;
    Some(words.text)
}

/// Writes the name of a cause and a NUL into `out`, if they fit. Returns the length of the name in
/// octets, without the NUL, or 0 if no cause has this number.
pub fn iim_cause_name(cause: u8, out: &mut [u8]) -> usize
    ensures { WritesName (name_or_none (name_for_cause cause)) out.old out.new result }
{
    put_name(name_for_cause(cause), out)
}

/// Writes the meaning of a cause and a NUL into `out`, if they fit. Returns the length of the
/// sentence in octets, without the NUL, or 0 if no cause has this number.
pub fn iim_cause_text(cause: u8, out: &mut [u8]) -> usize
    ensures { WritesName (name_or_none (cause_text cause)) out.old out.new result }
{
    put_name(cause_text(cause), out)
}
