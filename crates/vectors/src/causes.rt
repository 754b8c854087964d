//! Prints the layers and the causes.

use iim_fields::FieldCause;
use iim_object::SizeCause;
use iim_unpack::{Cause, Layer};
use vectors_layers::Answers;
use wire_message::MessageCause;

const LAYERS: [Layer; 7] = [
    Layer::Dataset,
    Layer::Record,
    Layer::Limits,
    Layer::Object,
    Layer::Message,
    Layer::Story,
    Layer::Outside,
];

const CAUSES: [Cause; 25] = [
    Cause::Marker,
    Cause::CountForm,
    Cause::Truncated,
    Cause::Field(FieldCause::RecordOrder),
    Cause::Field(FieldCause::UnknownDataset),
    Cause::Field(FieldCause::Repeated),
    Cause::Field(FieldCause::CountRange),
    Cause::Field(FieldCause::Missing),
    Cause::Field(FieldCause::BadValue),
    Cause::Field(FieldCause::FileFormat),
    Cause::Size(SizeCause::ModeClash),
    Cause::Size(SizeCause::SizeClash),
    Cause::Size(SizeCause::SubfileTooLong),
    Cause::Size(SizeCause::PastSize),
    Cause::Size(SizeCause::Short),
    Cause::Size(SizeCause::ConfirmedWrong),
    Cause::Message(MessageCause::BadOctet),
    Cause::Message(MessageCause::Unfinished),
    Cause::Message(MessageCause::LoneReturn),
    Cause::Message(MessageCause::ControlOctet),
    Cause::Field(FieldCause::HeaderFull),
    Cause::Field(FieldCause::TooManyFields),
    Cause::TooManySubfiles,
    Cause::Message(MessageCause::Sink),
    Cause::Failed,
];

/// Prints each layer.
pub(crate) fn print_layers(out: &mut Answers) {
    for layer in LAYERS {
        out.line(layer.name());
    }
}

/// Prints the number and the name of each cause, and its printed form.
pub(crate) fn print_causes(out: &mut Answers) {
    for cause in CAUSES {
        out.put("  ");
        out.show(&cause.number());
        out.put(" ");
        out.put(cause.name());
        out.put(": ");
        show_of_layer(out, cause);
        out.end();
    }
}

/// Appends the printed form of a cause.
fn show_of_layer(out: &mut Answers, cause: Cause) {
    match cause {
        Cause::Field(cause) => out.show(&cause),
        Cause::Size(cause) => out.show(&cause),
        Cause::Message(cause) => out.show(&cause),
        _ => out.show(&cause),
    }
}
