//! The error type of a rejected token.

ghost use Rattle.std.specs.Prelude.{◌≡◌, Some};
ghost use Rattle.iim_places.specs.Format.Faults.{token_text};
ghost use Rattle.iim_places.specs.Format.Causes.{fault_of_record, size_fault_on, count_fault_on, message_fault_on, layer_of, layer_of_message};

use crate::refusal::{Cause, Layer};
use iim_dataset::{DatasetName, Head};
use iim_fields::{FieldCause, FieldFault};
use iim_object::SizeCause;
use std::error::Error;
use std::fmt;
use std::fmt::{Display, Formatter};
use wire_message::MessageCause;

/// A rejected token: the layer that rejects it, the dataset that the error names, and the cause.
#[derive(Clone, Copy, Debug, PartialEq, Eq)]
pub struct TokenFault {
    /// The layer that rejects the token.
    pub layer: Layer,
    /// The record of the dataset.
    pub rec: u8,
    /// The number of the dataset within its record.
    pub set: u8,
    /// Why the token is rejected.
    pub cause: Cause,
}

/// Writes the layer, the dataset and the cause, for example `refused by layer record on 1:70, cause
/// 14 Missing`.
impl Display for TokenFault {
    ghost output = { λ fault. Some (token_text fault) };

    fn fmt<W: fmt::Write>(&self, f: &mut Formatter<W>) -> fmt::Result {
        let layer = self.layer;
        let dataset = DatasetName {
            rec: self.rec,
            set: self.set,
        };
        let cause = self.cause;
        write!(f, "refused by layer {layer} on {dataset}, cause {cause}")
    }
}

impl Error for TokenFault {}

fn field_layer(cause: FieldCause) -> Layer
    ensures { result ≡ layer_of cause }
{
    match cause {
        FieldCause::HeaderFull | FieldCause::TooManyFields => Layer::Limits,
        _ => Layer::Record,
    }
}

/// Converts an error of the record layer or the limits.
pub fn fault_of_record(fault: FieldFault) -> TokenFault
    ensures { result ≡ fault_of_record fault }
{
    TokenFault {
        layer: field_layer(fault.cause),
        rec: fault.rec,
        set: fault.set,
        cause: Cause::Field(fault.cause),
    }
}

/// Returns the error of the object layer for a cause. It names the dataset of `head`.
pub fn size_fault_on(head: Head, cause: SizeCause) -> TokenFault
    ensures { result ≡ size_fault_on head cause }
{
    TokenFault {
        layer: Layer::Object,
        rec: head.rec,
        set: head.set,
        cause: Cause::Size(cause),
    }
}

/// Returns the error for a head that begins more subfiles than the limit allows.
pub fn count_fault_on(head: Head) -> TokenFault
    ensures { result ≡ count_fault_on head }
{
    TokenFault {
        layer: Layer::Limits,
        rec: head.rec,
        set: head.set,
        cause: Cause::TooManySubfiles,
    }
}

fn message_layer(cause: MessageCause) -> Layer
    ensures { result ≡ layer_of_message cause }
{
    match cause {
        MessageCause::BadOctet | MessageCause::Unfinished => Layer::Message,
        MessageCause::LoneReturn | MessageCause::ControlOctet => Layer::Story,
        MessageCause::Sink => Layer::Outside,
    }
}

/// Returns the error of the message, the story or the sink for a cause. It names the dataset of
/// `head`.
pub fn message_fault_on(head: Head, cause: MessageCause) -> TokenFault
    ensures { result ≡ message_fault_on head cause }
{
    TokenFault {
        layer: message_layer(cause),
        rec: head.rec,
        set: head.set,
        cause: Cause::Message(cause),
    }
}
