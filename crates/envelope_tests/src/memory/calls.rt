//! The calls that are tested, in order, and their results.

use super::{auditing, lines, objects, packing, records, scripts, unpacking};
use crate::outcome::{End, Trouble};
use iim_audit::Report;
use iim_fields::Envelope;
use std::alloc::Global;
use std::io;
use wire_story::Lines;

/// A call that allocates.
#[derive(Clone, Copy)]
pub enum Call {
    Fields,
    Subfile,
    /// Writing an object in subfiles of up to the first number of octets. The second number is the
    /// expected length of all records.
    Subfiles(u64, usize),
    Grow,
    Feed,
    Save,
    Restore,
    TakeIn,
    FeedIntoLines,
    Audit,
    Report,
    Build,
    Copy,
    Script,
    Start,
    /// A packer with subfiles of up to the first number of octets. The second number is the
    /// expected length of its output.
    StartSubfiles(u64, usize),
    Pack,
}

/// The calls with their names. Calls that unpack come before those that build envelopes.
const CALLS: [(&str, Call); 19] = [
    ("Fields::new", Call::Fields),
    ("SubfileBuffer::reserve", Call::Subfile),
    ("SubfileBuffer::reserve of 7", Call::Subfiles(7, 123)),
    ("SubfileBuffer::reserve of 1", Call::Subfiles(1, 333)),
    ("Lines::text and line_end", Call::Grow),
    ("Unpacker::new and feed", Call::Feed),
    ("Unpacker::new and save", Call::Save),
    ("Unpacker::save and restore", Call::Restore),
    ("Unpacker::new and next_envelope", Call::TakeIn),
    ("Unpacker::new and feed into Lines", Call::FeedIntoLines),
    ("audit", Call::Audit),
    ("report_text", Call::Report),
    ("EnvelopeBuilder::new", Call::Build),
    ("EnvelopeBuilder::from", Call::Copy),
    ("read_script", Call::Script),
    ("Packer::start", Call::Start),
    ("Packer::start, subfiles of 7", Call::StartSubfiles(7, 281)),
    ("Packer::start, subfiles of 1", Call::StartSubfiles(1, 491)),
    ("pack", Call::Pack),
];

/// The results of calls that are needed by later calls.
#[derive(Drop)]
pub struct Made {
    report: Option<Report>,
    envelope: Option<Envelope>,
    lines: Option<Lines>,
}

impl Made {
    /// Creates the value without any result.
    pub(crate) fn new() -> Made {
        Made {
            report: None,
            envelope: None,
            lines: None,
        }
    }

    /// Makes a call.
    fn make(&mut self, call: Call, alloc: Global) -> Result<(), Trouble> {
        match call {
            Call::Fields => records::fields(alloc),
            Call::Subfile => objects::one_subfile(alloc),
            Call::Subfiles(subfile, octets) => objects::subfiles(alloc, subfile, octets),
            Call::Grow => lines::grown(alloc),
            Call::Feed => unpacking::fed(alloc),
            Call::Save => unpacking::saved(alloc),
            Call::Restore => unpacking::restored(alloc),
            Call::TakeIn => unpacking::taken_in(alloc),
            Call::FeedIntoLines => unpacking::fed_into_lines(alloc),
            Call::Audit => self.audit(alloc),
            Call::Report => self.write_report(alloc),
            Call::Build => self.build(alloc),
            Call::Script => self.read_script(alloc),
            Call::Pack => self.pack(alloc),
            Call::Copy | Call::Start | Call::StartSubfiles(..) => match &self.envelope {
                Some(envelope) => make_of(call, alloc, envelope),
                None => Err(Trouble::Wrong),
            },
        }
    }

    fn audit(&mut self, alloc: Global) -> Result<(), Trouble> {
        self.report = Some(auditing::audited(alloc)?);
        Ok(())
    }

    fn write_report(&self, alloc: Global) -> Result<(), Trouble> {
        match &self.report {
            Some(report) => auditing::written(alloc, report),
            None => Err(Trouble::Wrong),
        }
    }

    fn build(&mut self, alloc: Global) -> Result<(), Trouble> {
        self.envelope = Some(records::built(alloc)?);
        Ok(())
    }

    fn read_script(&mut self, alloc: Global) -> Result<(), Trouble> {
        match &self.envelope {
            Some(envelope) => {
                self.lines = Some(scripts::told(alloc, envelope)?);
                Ok(())
            }
            None => Err(Trouble::Wrong),
        }
    }

    fn pack(&self, alloc: Global) -> Result<(), Trouble> {
        match (&self.envelope, &self.lines) {
            (Some(envelope), Some(lines)) => packing::at_once(alloc, envelope, lines),
            _ => Err(Trouble::Wrong),
        }
    }
}

/// Makes a call that needs only an envelope.
fn make_of(call: Call, alloc: Global, envelope: &Envelope) -> Result<(), Trouble> {
    match call {
        Call::Copy => records::copied(alloc, envelope),
        Call::Start => packing::call_by_call(alloc, envelope),
        Call::StartSubfiles(subfile, octets) => {
            packing::in_subfiles(alloc, envelope, subfile, octets)
        }
        _ => Err(Trouble::Wrong),
    }
}

/// Prints the result of a call that failed in this way and was then repeated.
fn tell_again(
    rt: &impl Print,
    name: &str,
    first: Trouble,
    again: Result<(), Trouble>,
) -> io::Result<()> {
    match again {
        Ok(()) => println!(rt; "{name}: {first}, then as worked"),
        Err(second) => println!(rt; "{name}: {first}, then {second}"),
    }
}

/// Makes a call, repeats the call if it failed, and prints the result.
fn tell<R: Print + AllocGlobal>(
    rt: &R,
    made: &mut Made,
    name: &str,
    call: Call,
) -> Result<(), End> {
    let Err(first) = made.make(call, rt.alloc()) else {
        println!(rt; "{name}: as worked")?;
        return Ok(());
    };
    let again = made.make(call, rt.alloc());
    tell_again(rt, name, first, again)?;
    again.map_err(|_| End::Refused)
}

/// Makes all calls, up to the first call that fails twice.
pub(crate) fn tell_all<R: Print + AllocGlobal>(rt: &R) -> Result<(), End> {
    let mut made = Made::new();
    for (name, call) in &CALLS {
        tell(rt, &mut made, name, *call)?;
    }
    Ok(())
}
