//! Packs scripts into envelopes.

ghost use Rattle.std.specs.Prelude.{◌≡◌, ◌<◌, ◌≤◌, ◌++◌, ◌⊎◌, [], length, drop, IfOk, IfErr};
ghost use Rattle.iim_c.specs.Format.Answers.{status_answer};
ghost use Rattle.iim_c.specs.Format.Packing.{ReturnsPacked, IsPackOutcome, ReturnsPackedSize, PackOutcome, Packed, form_of, pack_answer};
ghost use Rattle.iim_c.specs.Format.Statuses as status;
ghost use Rattle.iim_c.specs.Steps.{outcome_of};

use crate::answer::{IimAnswer, status_answer};
use crate::bytes::put_front;
use crate::packing::{IimPacking, request_for};
use crate::status::{BAD_PACKING, DONE, NO_MEMORY, REFUSED, SHORT};
use iim_dataset::FromWrite;
use iim_pack_script::packing::{PackFault, pack_octets};
use std::alloc::Global;

/// Returns the answer for an error of packing. Writing into memory fails only if an allocation
/// fails.
fn fault_answer(fault: PackFault) -> IimAnswer
    ensures { result ≡ pack_answer (outcome_of fault) }
{
    match fault {
        PackFault::Refused { line, number, .. } => IimAnswer {
            octet: line,
            cause: number,
            ..status_answer(REFUSED)
        },
        PackFault::Around(_) => status_answer(NO_MEMORY),
    }
}

/// Packs the envelope that a script specifies. Returns its packed form, or the answer with the
/// reason why it cannot be packed.
fn packed_form(alloc: Global, packing: IimPacking, script: &[u8]) -> Result<Vec<u8>, IimAnswer>
    ensures packed { IfOk result (λ form. IsPackOutcome packing script.now (Packed form.items)) }
    ensures unpacked { IfErr result (λ told. (o : PackOutcome) × IsPackOutcome packing script.now o × (form_of o ≡ [])
        × (told ≡ pack_answer o)) }
{
    let Some(request) = request_for(packing) else {
        return Err(status_answer(BAD_PACKING));
    };
    let output = FromWrite::new(Vec::new(alloc));
    match pack_octets(alloc, request, script, output) {
        Ok(output) => Ok(output.into_inner()),
        Err((fault, _)) => Err(fault_answer(fault)),
    }
}

/// Returns the answer for a packed form of `written` octets.
fn length_answer(status: u8, written: usize) -> IimAnswer
    ensures { result ≡ record (status_answer status) { written = written } }
{
    IimAnswer {
        written,
        ..status_answer(status)
    }
}

/// Writes a packed form into a buffer, if it fits, and returns the answer.
fn put_form(form: &[u8], out: &mut [u8]) -> IimAnswer
    ensures { ((length form.now ≤ length out.old) × (out.new ≡ form.now ++ drop (length form.now) out.old)
        × (result ≡ pack_answer (Packed form.now)))
        ⊎ ((length out.old < length form.now) × (out.new ≡ out.old)
        × (result ≡ record (status_answer status.short) { written = length form.now })) }
{
    if form.len() > out.len() {
        return length_answer(SHORT, form.len());
    }
    put_front(out, form);
    length_answer(DONE, form.len())
}

/// Packs the envelope that a script specifies into a buffer, if it fits.
pub fn iim_pack(
    alloc: Global,
    packing: IimPacking,
    script: &[u8],
    out: &mut [u8],
    answer: &mut IimAnswer,
)
    ensures { ReturnsPacked packing script.now out.old out.new answer.new }
{
    match packed_form(alloc, packing, script) {
        Ok(form) => *answer = put_form(form.as_slice(), out),
        Err(told) => *answer = told,
    }
}

/// Computes the number of octets that [`iim_pack`] would write.
pub fn iim_pack_size(alloc: Global, packing: IimPacking, script: &[u8], answer: &mut IimAnswer)
    ensures { ReturnsPackedSize packing script.now answer.new }
{
    match packed_form(alloc, packing, script) {
        Ok(form) => {
            let form = form.as_slice();
            *answer = length_answer(DONE, form.len());
        }
        Err(told) => *answer = told,
    }
}
