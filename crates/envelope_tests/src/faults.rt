//! Tests the errors of the upper layers: each implements the `Error` of std, has a number and a
//! name, and can be printed.

use iim_audit::{AuditCause, AuditFault};
use iim_fields::FieldCause;
use iim_output::fault::CommandFault;
use iim_pack_script::packing::PackFault;
use iim_round_trip::UnpackFault;
use iim_script::ScriptCause;
use iim_unpack::{Cause, IntakeFault, Layer, Refusal, SaveFault};
use std::error::Error;
use std::io;

/// The refusal of an envelope without 1:70 Date Sent.
const MISSING: Refusal = Refusal {
    layer: Layer::Record,
    rec: 1,
    set: 70,
    octet: 46,
    cause: Cause::Field(FieldCause::Missing),
};

/// Prints a number, a name and the error that has them.
fn print_cause<E: Error>(
    rt: &impl Print,
    number: u8,
    name: &'static str,
    error: &E,
) -> io::Result<()> {
    println!(rt; "prints_errors_of_the_upper_layers: {number} {name}: {error}")
}

/// Prints an error.
fn print_error<E: Error>(rt: &impl Print, error: &E) -> io::Result<()> {
    println!(rt; "prints_errors_of_the_upper_layers: {error}")
}

fn print_unpacker_faults(rt: &impl Print) -> io::Result<()> {
    let faults = [
        IntakeFault::Refused(MISSING),
        IntakeFault::Read,
        IntakeFault::Interrupted,
    ];
    for fault in faults {
        print_cause(rt, fault.number(), fault.name(), &fault)?;
    }
    for fault in [SaveFault::Failed, SaveFault::OutOfMemory] {
        print_cause(rt, fault.number(), fault.name(), &fault)?;
    }
    Ok(())
}

fn print_audit_faults(rt: &impl Print) -> io::Result<()> {
    let causes = [
        AuditCause::Refused(MISSING),
        AuditCause::Read,
        AuditCause::Interrupted,
        AuditCause::OutOfMemory,
        AuditCause::TooManyEnvelopes,
    ];
    for cause in causes {
        let fault = AuditFault { envelope: 1, cause };
        print_cause(rt, cause.number(), cause.name(), &fault)?;
    }
    Ok(())
}

fn print_round_trip_faults(rt: &impl Print) -> io::Result<()> {
    let refused = UnpackFault::Refused(MISSING);
    print_cause(rt, refused.number(), refused.name(), &refused)?;
    let memory = UnpackFault::OutOfMemory;
    print_cause(rt, memory.number(), memory.name(), &memory)
}

fn print_script_causes(rt: &impl Print) -> io::Result<()> {
    let causes = [
        ScriptCause::ScriptLine,
        ScriptCause::Field(FieldCause::Missing),
    ];
    for cause in causes {
        print_cause(rt, cause.number(), cause.name(), &cause)?;
    }
    Ok(())
}

fn print_command_faults(rt: &impl Print) -> io::Result<()> {
    let faults = [
        CommandFault::CannotRead,
        CommandFault::CannotWrite,
        CommandFault::OutOfMemory,
    ];
    for fault in faults {
        print_error(rt, &fault)?;
    }
    let refused = PackFault::Refused {
        line: 4,
        number: 91,
        name: "ScriptLine",
    };
    print_error(rt, &refused)?;
    print_error(rt, &PackFault::Around(CommandFault::CannotWrite))
}

/// Prints each error.
pub(crate) fn tell(rt: &impl Print) -> io::Result<()> {
    print_unpacker_faults(rt)?;
    print_audit_faults(rt)?;
    print_round_trip_faults(rt)?;
    print_script_causes(rt)?;
    print_command_faults(rt)
}
