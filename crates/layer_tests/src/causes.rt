//! Tests the limits of wire copy, and the printed form of causes and faults.

use crate::told::TestLog;
use iim_dataset::{Fault, FaultCause, IoFault, Stop};
use iim_fields::laws::wire_limits_are_stated;
use iim_fields::{CopyFault, FieldCause, FieldFault, Limits};
use iim_object::{ObjectFault, PackCause, SizeCause, StartFault};
use std::error::Error;
use wire_message::{MessageCause, MessageFault};
use wire_story::{TextCause, TextFault};

/// All causes of the text layer.
const TEXT_CAUSES: [TextCause; 3] = [
    TextCause::LoneReturn,
    TextCause::ControlOctet,
    TextCause::Sink,
];

pub(crate) fn tell(told: &mut TestLog) {
    limits_of_wire_copy(told);
    causes_of_texts_are_printed(told);
    faults_of_records_are_printed(told);
    faults_of_objects_are_printed(told);
    faults_of_datasets_are_printed(told);
    faults_of_texts_are_printed(told);
    a_fault_of_a_writer_is_printed(told);
}

fn limits_of_wire_copy(told: &mut TestLog) {
    wire_limits_are_stated();
    let Limits { octets, fields } = Limits::WIRE;
    told.begin("limits_of_wire_copy", " ", &octets);
    told.answer(" octets, ", &fields);
    told.end_words(" fields");
}

/// Logs each value by its name and as it is printed.
fn log_printed<T: Error>(told: &mut TestLog, trial: &str, values: &[T]) {
    for value in values {
        told.begin(trial, " ", value);
        told.end_shown(": ", value);
    }
}

fn causes_of_texts_are_printed(told: &mut TestLog) {
    log_printed(told, "causes_of_texts_are_printed", &TEXT_CAUSES);
}

/// The name of the tests of faults.
const FAULTS: &str = "faults_are_printed";

fn faults_of_records_are_printed(told: &mut TestLog) {
    let missing = FieldFault {
        rec: 1,
        set: 70,
        cause: FieldCause::Missing,
    };
    let record = FieldFault {
        rec: 2,
        set: 0,
        cause: FieldCause::Repeated,
    };
    log_printed(told, FAULTS, &[missing, record]);
    let full = CopyFault::Passed(FieldCause::HeaderFull);
    log_printed(told, FAULTS, &[full, CopyFault::OutOfMemory]);
}

fn faults_of_objects_are_printed(told: &mut TestLog) {
    let short = ObjectFault::Size {
        cause: SizeCause::Short,
    };
    let stopped = ObjectFault::Stopped(Stop { taken: 0 });
    log_printed(told, FAULTS, &[short, stopped]);
    log_printed(told, FAULTS, &[PackCause::BadTrailer]);
    log_printed(told, FAULTS, &[SizeCause::ModeClash]);
    log_printed(told, FAULTS, &[IoFault::Interrupted, IoFault::Failed]);
}

fn faults_of_datasets_are_printed(told: &mut TestLog) {
    let causes = [
        FaultCause::Marker,
        FaultCause::CountForm,
        FaultCause::Stopped,
    ];
    log_printed(told, FAULTS, &causes);
    let form = Fault {
        cause: FaultCause::CountForm,
        used: 4,
    };
    log_printed(told, FAULTS, &[form]);
    log_printed(told, FAULTS, &[Stop { taken: 3 }]);
}

fn faults_of_texts_are_printed(told: &mut TestLog) {
    let text = TextFault {
        taken: 5,
        cause: TextCause::LoneReturn,
    };
    log_printed(told, FAULTS, &[text]);
    let message = MessageFault {
        taken: 6,
        cause: MessageCause::BadOctet,
    };
    log_printed(told, FAULTS, &[message]);
}

fn a_fault_of_a_writer_is_printed(told: &mut TestLog) {
    let fault = StartFault {
        cause: PackCause::Write,
        writer: 7u8,
        written: 10,
    };
    log_printed(told, FAULTS, &[fault]);
}
