//! Why input is rejected.

ghost use Rattle.std.specs.Prelude.{◌≡◌, Some};
ghost use Rattle.iim_places.specs.Format.Causes.{layer_name, cause_number, cause_name, cause_text, refusal_text};

use iim_dataset::DatasetName;
use iim_fields::FieldCause;
use iim_object::SizeCause;
use std::error::Error;
use std::fmt;
use std::fmt::{Display, Formatter};
use wire_message::MessageCause;

/// The layer that rejects a token, in the order in which the layers examine it.
#[derive(Clone, Copy, Debug, PartialEq, Eq)]
pub enum Layer {
    /// Tags, octet by octet.
    Dataset,
    /// Heads, and the values of records 1, 2, 7 and 9: which datasets may follow, and their
    /// contents.
    Record,
    /// Heads: the total size of records 1 and 2, and the number of subfiles.
    Limits,
    /// The sizes of the object: the numbers of record 7, the counts of subfiles, the head of 9:10
    /// and its number.
    Object,
    /// The octets of the object and its end: header, text and trailer of the message.
    Message,
    /// The octets of the text and its end: lines and line ends.
    Story,
    /// Not the input itself, but the caller: its sink, or a call after an error.
    Outside,
}

impl Layer {
    /// Returns the name as it is printed.
    pub fn name(self) -> &'static str
        ensures { result.now ≡ layer_name self }
    {
        match self {
            Layer::Dataset => "dataset",
            Layer::Record => "record",
            Layer::Limits => "limits",
            Layer::Object => "object",
            Layer::Message => "message",
            Layer::Story => "story",
            Layer::Outside => "outside",
        }
    }
}

/// The cause of a rejection, with its number. If several causes of a layer hold, the one with the
/// lowest number is reported. The types of the variants list the causes of their layer.
#[derive(Clone, Copy, Debug, PartialEq, Eq)]
pub enum Cause {
    /// The first octet of a tag is not 1C hexadecimal.
    Marker,
    /// The count of a tag has neither the standard nor the extended form.
    CountForm,
    /// The input ends inside an envelope.
    Truncated,
    /// A head or a value breaks a rule of the records, or records 1 and 2 exceed a limit.
    Field(FieldCause),
    /// The sizes of the object are inconsistent.
    Size(SizeCause),
    /// The octet cannot be part of any message, or no message can end here, or the sink of the
    /// caller stopped ([`Cause::SINK`]).
    Message(MessageCause),
    /// The number of subfiles exceeds 4,294,967,295.
    TooManySubfiles,
    /// An earlier call returned an error.
    Failed,
}

impl Cause {
    /// The sink of the caller stopped.
    pub const SINK: Cause = Cause::Message(MessageCause::Sink);

    /// Returns the number as it is printed.
    pub fn number(self) -> u8
        ensures { result ≡ cause_number self }
    {
        match self {
            Cause::Marker => 1,
            Cause::CountForm => 2,
            Cause::Truncated => 3,
            Cause::Field(cause) => cause.number(),
            Cause::Size(cause) => cause.number(),
            Cause::Message(cause) => cause.number(),
            Cause::TooManySubfiles => 52,
            Cause::Failed => 61,
        }
    }

    /// Returns the name as it is printed.
    pub fn name(self) -> &'static str
        ensures { result.now ≡ cause_name self }
    {
        match self {
            Cause::Marker => "Marker",
            Cause::CountForm => "CountForm",
            Cause::Truncated => "Truncated",
            Cause::Field(cause) => cause.name(),
            Cause::Size(cause) => cause.name(),
            Cause::Message(cause) => cause.name(),
            Cause::TooManySubfiles => "TooManySubfiles",
            Cause::Failed => "Failed",
        }
    }
}

/// A rejection of input: the layer, the dataset, the offset and the cause.
///
/// `octet` is the offset of the octet that completes the rejected token, from the first octet of
/// the envelope. For [`Cause::Truncated`] it is the length of the input.
///
/// `rec` and `set` name the dataset in progress. Numbers of its tag that were not read yet are 0,
/// and both are 0 between datasets. For [`FieldCause::Missing`] they name the missing dataset with
/// the lowest number.
#[derive(Clone, Copy, Debug, PartialEq, Eq)]
pub struct Refusal {
    /// The layer that rejects the token.
    pub layer: Layer,
    /// The record of the dataset, or 0.
    pub rec: u8,
    /// The number of the dataset within its record, or 0.
    pub set: u8,
    /// The offset in octets from the first octet of the envelope.
    pub octet: u64,
    /// Why the token is rejected.
    pub cause: Cause,
}

impl Display for Layer {
    ghost output = { λ layer. Some (layer_name layer) };

    fn fmt<W: fmt::Write>(&self, f: &mut Formatter<W>) -> fmt::Result {
        f.write_str(self.name())
    }
}

/// Writes the number and the name.
impl Display for Cause {
    ghost output = { λ cause. Some (cause_text cause) };

    fn fmt<W: fmt::Write>(&self, f: &mut Formatter<W>) -> fmt::Result {
        let number = self.number();
        let name = self.name();
        write!(f, "{number} {name}")
    }
}

impl Error for Cause {}

/// Writes a line such as `refused at octet 46 by layer record on 1:70, cause 14 Missing`.
impl Display for Refusal {
    ghost output = { λ refusal. Some (refusal_text refusal) };

    fn fmt<W: fmt::Write>(&self, f: &mut Formatter<W>) -> fmt::Result {
        let octet = self.octet;
        let layer = self.layer;
        let dataset = DatasetName {
            rec: self.rec,
            set: self.set,
        };
        let cause = self.cause;
        write!(
            f,
            "refused at octet {octet} by layer {layer} on {dataset}, cause {cause}"
        )
    }
}

impl Error for Refusal {}
