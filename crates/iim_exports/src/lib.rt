//! The C interface: a static library, whose header is `bindings/c/iim.h`.
//!
//! Each export calls the function of `iim_c` with the same name, and has the same contract. The
//! toolchain exports only the functions of a static library, and no crate can depend on a static
//! library. So the implementation is in `iim_c`, an ordinary library.
#![tactic(auto)]

ghost use Rattle.std.specs.Prelude.{◌≡◌, ◌↔◌, ◌+◌, ◌++◌, ◌∷◌, [], ℕ, List, IsTrue, is_some, None, pos};
ghost use Rattle.iim_places.specs.Format.Tickets.{ReachesPlace, Place};
ghost use Rattle.iim_places.specs.States.Restored.{EncodesPlace};
ghost use Rattle.iim_tables.specs.Format.Rows.{OctetsMeetRow, row_of};
ghost use Rattle.iim_c.specs.Format.Auditing.{IsAudited};
ghost use Rattle.iim_c.specs.Format.Tickets.{ReturnsProgress, HasProgressOf, HasTokenOf, ReturnsNext, ReturnsSizes, ReturnsField, ReturnsHeader, ReturnsFields};
ghost use Rattle.iim_c.specs.Format.Checking.{ReturnsChecked, IsOnlyAnswer, limits_for};
ghost use Rattle.iim_c.specs.Format.Feeding.{ReturnsEnd, ReturnsFed};
ghost use Rattle.iim_c.specs.Format.Tables.{WritesName, dataset_name_of, name_of_layer, name_or_none, rule_for, name_for_cause, cause_text};
ghost use Rattle.iim_c.specs.Format.Answers.{HasTaken};
ghost use Rattle.iim_c.specs.Format.ErrorTexts.{HasNumbersOf, IsLineOfCommand, error_text};
ghost use Rattle.iim_c.specs.Format.Statuses as status;
ghost use Rattle.iim_places.specs.declared.refusal.Refusal.{Refusal};
ghost use Rattle.iim_c.specs.Format.Packing.{ReturnsPacked, ReturnsPackedSize};
ghost use Rattle.iim_handle.specs.Format.{HandleHasEnd, HandleIsFed, HandleIsOpened, HandleIsReset, HandleIsRestored, HandleIsSaved};
ghost use Rattle.iim_handle.specs.States.Reading.{HandleHasCount, HandleHasField, HandleHasFields, HandleHasHeader, HandleHasSizes};

use iim_c::{
    IimAnswer, IimAuditRow, IimBegun, IimDataset, IimInstant, IimLimits, IimMessage, IimObject,
    IimOctetSet, IimPacking, IimRule, IimSoFar, VERSION,
};
use iim_handle::IimUnpacker;
use std::alloc::Global;

/// Checks the envelope at the beginning of a buffer.
#[unsafe(no_mangle)]
pub extern "C" fn iim_check(alloc: Global, limits: IimLimits, octets: &[u8], answer: &mut IimAnswer)
    ensures answer { ReturnsChecked (limits_for limits) octets.now answer.new }
    ensures only { IsOnlyAnswer (limits_for limits) octets.now answer.new }
{
    iim_c::iim_check(alloc, limits, octets, answer);
}

/// Reads the next chunk of an envelope, starting in the state of a ticket, or at the beginning of
/// an envelope if the ticket is empty.
///
/// Writes the text of the story in the chunk and the next ticket, and returns the number of octets
/// consumed. The ticket of a complete envelope still has its fields. If a buffer is too short, the
/// answer has the lengths that are needed, and the same call can be repeated with longer buffers.
#[unsafe(no_mangle)]
pub extern "C" fn iim_feed(
    alloc: Global,
    limits: IimLimits,
    ticket: &[u8],
    at: u64,
    piece: &[u8],
    text_out: &mut [u8],
    ticket_out: &mut [u8],
    answer: &mut IimAnswer,
)
    ensures { ReturnsFed (limits_for limits) ticket.now at piece.now text_out.new ticket_out.new answer.new }
{
    iim_c::iim_feed(
        alloc, limits, ticket, at, piece, text_out, ticket_out, answer,
    );
}

/// Checks whether an input may end in the state of a ticket. The answer is that the envelope is
/// complete, or that it is truncated.
#[unsafe(no_mangle)]
pub extern "C" fn iim_end(
    alloc: Global,
    limits: IimLimits,
    ticket: &[u8],
    at: u64,
    answer: &mut IimAnswer,
)
    ensures { ReturnsEnd (limits_for limits) ticket.now at answer.new }
{
    iim_c::iim_end(alloc, limits, ticket, at, answer);
}

/// Looks up the dataset with the index `n` among those of records 1 and 2 in a ticket.
#[unsafe(no_mangle)]
pub extern "C" fn iim_field(
    ticket: &[u8],
    n: usize,
    dataset: &mut IimDataset,
    answer: &mut IimAnswer,
)
    ensures { ReturnsField ticket.now n dataset.new answer.new }
{
    iim_c::iim_field(ticket, n, dataset, answer);
}

/// Copies the complete datasets of records 1 and 2 with the index `from` and above into an array.
/// Reads the ticket once.
#[unsafe(no_mangle)]
pub extern "C" fn iim_fields(
    ticket: &[u8],
    from: usize,
    datasets: &mut [IimDataset],
    answer: &mut IimAnswer,
)
    ensures { ReturnsFields ticket.now from datasets.old datasets.new answer.new }
{
    iim_c::iim_fields(ticket, from, datasets, answer);
}

/// Looks up the header and the trailer of the message, as far as they were received.
#[unsafe(no_mangle)]
pub extern "C" fn iim_header(ticket: &[u8], message: &mut IimMessage, answer: &mut IimAnswer)
    ensures { ReturnsHeader ticket.now message.new answer.new }
{
    iim_c::iim_header(ticket, message, answer);
}

/// Looks up the sizes of the object, as far as they were received.
#[unsafe(no_mangle)]
pub extern "C" fn iim_sizes(ticket: &[u8], object: &mut IimObject, answer: &mut IimAnswer)
    ensures { ReturnsSizes ticket.now object.new answer.new }
{
    iim_c::iim_sizes(ticket, object, answer);
}

/// Finds the octets that every layer accepts next in the state of a ticket, or at the beginning of
/// an envelope if the ticket is empty.
#[unsafe(no_mangle)]
pub extern "C" fn iim_next(
    alloc: Global,
    limits: IimLimits,
    ticket: &[u8],
    next: &mut IimOctetSet,
    answer: &mut IimAnswer,
)
    ensures { ReturnsNext (limits_for limits) ticket.now next.new.bits answer.new }
{
    iim_c::iim_next(alloc, limits, ticket, next, answer);
}

/// Decodes what is in progress in the state of a ticket, and the part of the message that the input
/// has reached. `at` is the number of octets of the envelope that were consumed.
#[unsafe(no_mangle)]
pub extern "C" fn iim_place(ticket: &[u8], at: u64, begun: &mut IimBegun, answer: &mut IimAnswer)
    ensures told { ReturnsProgress ticket.now at begun.new answer.new }
    ensures octets { (p : List ℕ) (place : Place) → EncodesPlace ticket.now place → ReachesPlace p place
        → HasProgressOf p at begun.new }
    ensures token { (p : List ℕ) (place : Place) → EncodesPlace ticket.now place → ReachesPlace p place
        → HasTokenOf p at begun.new }
{
    iim_c::iim_place(ticket, at, begun, answer);
}

/// Writes a row for each envelope that ends in a chunk of an input, at the instant `now`. The audit
/// starts in the state of `ticket`, or at the beginning of an envelope if `ticket` is empty.
///
/// Also writes the next ticket, and the values of `so_far` that belong to it. Stops when `rows` is
/// full, and returns the number of octets consumed. If an octet is rejected, the rows of the
/// earlier envelopes are still written. If `ticket_out` is too short, `so_far` is unchanged, and
/// the same call can be repeated with a longer buffer.
#[unsafe(no_mangle)]
pub extern "C" fn iim_audit(
    alloc: Global,
    limits: IimLimits,
    ticket: &[u8],
    so_far: &mut IimSoFar,
    piece: &[u8],
    now: IimInstant,
    rows: &mut [IimAuditRow],
    ticket_out: &mut [u8],
    answer: &mut IimAnswer,
)
    ensures { IsAudited (limits_for limits) ticket.now so_far.old piece.now now rows.old rows.new ticket_out.new
        so_far.new answer.new }
{
    iim_c::iim_audit(
        alloc, limits, ticket, so_far, piece, now, rows, ticket_out, answer,
    );
}

/// Packs the envelope that a script specifies into a buffer, if it fits.
#[unsafe(no_mangle)]
pub extern "C" fn iim_pack(
    alloc: Global,
    packing: IimPacking,
    script: &[u8],
    out: &mut [u8],
    answer: &mut IimAnswer,
)
    ensures { ReturnsPacked packing script.now out.old out.new answer.new }
{
    iim_c::iim_pack(alloc, packing, script, out, answer);
}

/// Computes the number of octets that [`iim_pack`] would write.
#[unsafe(no_mangle)]
pub extern "C" fn iim_pack_size(
    alloc: Global,
    packing: IimPacking,
    script: &[u8],
    answer: &mut IimAnswer,
)
    ensures { ReturnsPackedSize packing script.now answer.new }
{
    iim_c::iim_pack_size(alloc, packing, script, answer);
}

/// Looks up the row of the dataset `rec`:`set`. Returns whether the tables have such a row.
#[unsafe(no_mangle)]
pub extern "C" fn iim_row(rec: u8, set: u8, rule: &mut IimRule) -> bool
    ensures has { result ≡ is_some (row_of rec set) }
    ensures rule { rule.new ≡ rule_for (row_of rec set) }
{
    iim_c::iim_row(rec, set, rule)
}

/// Checks whether octets are a valid value of the dataset `rec`:`set`: the tables have a row for
/// it, and the octets meet the requirements of that row.
#[unsafe(no_mangle)]
pub extern "C" fn iim_admits(rec: u8, set: u8, octets: &[u8]) -> bool
    ensures { IsTrue result ↔ OctetsMeetRow rec set octets.now }
{
    iim_c::iim_admits(rec, set, octets)
}

/// Writes the name of a cause and a NUL into `out`, if they fit. Returns the length of the name in
/// octets, without the NUL, or 0 if no cause has this number.
#[unsafe(no_mangle)]
pub extern "C" fn iim_cause_name(cause: u8, out: &mut [u8]) -> usize
    ensures { WritesName (name_or_none (name_for_cause cause)) out.old out.new result }
{
    iim_c::iim_cause_name(cause, out)
}

/// Writes the meaning of a cause and a NUL into `out`, if they fit. Returns the length of the
/// sentence in octets, without the NUL, or 0 if no cause has this number.
#[unsafe(no_mangle)]
pub extern "C" fn iim_cause_text(cause: u8, out: &mut [u8]) -> usize
    ensures { WritesName (name_or_none (cause_text cause)) out.old out.new result }
{
    iim_c::iim_cause_text(cause, out)
}

/// Writes the name of a layer and a NUL into `out`, if they fit. Returns the length of the name in
/// octets, without the NUL, or 0 if no layer has this number.
#[unsafe(no_mangle)]
pub extern "C" fn iim_layer_name(layer: u8, out: &mut [u8]) -> usize
    ensures { WritesName (name_or_none (name_of_layer layer)) out.old out.new result }
{
    iim_c::iim_layer_name(layer, out)
}

/// Writes the line that the command `check` prints for a refusal, and a NUL, into `out`, if they fit.
/// Returns the length of the line in octets, without the NUL, or 0 if the answer reports neither a
/// refusal nor a truncation.
#[unsafe(no_mangle)]
pub extern "C" fn iim_error_text(number: u64, answer: &IimAnswer, out: &mut [u8]) -> usize
    ensures text { HasTaken out.new (result + 1) (error_text number answer.now ++ 0 ∷ []) }
    ensures line { (e : Refusal) → answer.now.status ≡ status.refused → HasNumbersOf answer.now e
        → IsLineOfCommand number e (error_text number answer.now) }
{
    iim_c::iim_error_text(number, answer, out)
}

/// Writes the name of a dataset and a NUL into `out`, if they fit. Returns the length of the name
/// in octets, without the NUL, or 0 if the dataset is not in the tables.
#[unsafe(no_mangle)]
pub extern "C" fn iim_dataset_name(rec: u8, set: u8, out: &mut [u8]) -> usize
    ensures { WritesName (name_or_none (dataset_name_of rec set)) out.old out.new result }
{
    iim_c::iim_dataset_name(rec, set, out)
}

/// Returns the version of the interface that the library implements.
#[unsafe(no_mangle)]
pub extern "C" fn iim_version() -> u32
    ensures { result ≡ VERSION }
{
    iim_c::iim_version()
}

/// Opens a closed handle at the beginning of an envelope.
#[unsafe(no_mangle)]
pub extern "C" fn iim_unpacker_open(
    alloc: Global,
    limits: IimLimits,
    handle: &mut IimUnpacker,
) -> u8
    ensures { HandleIsOpened (limits_for limits) handle.old.owner.home handle.new.owner.home result }
{
    iim_handle::iim_unpacker_open(alloc, limits, handle)
}

/// Resets a handle to the beginning of a new envelope, with the same limits and memory.
#[unsafe(no_mangle)]
pub extern "C" fn iim_unpacker_reset(alloc: Global, handle: &mut IimUnpacker) -> u8
    ensures { HandleIsReset handle.old.owner.home handle.new.owner.home result }
{
    iim_handle::iim_unpacker_reset(alloc, handle)
}

/// Feeds the next octets of the envelope, up to its end, and writes the text of the story in them.
#[unsafe(no_mangle)]
pub extern "C" fn iim_unpacker_feed(
    alloc: Global,
    handle: &mut IimUnpacker,
    piece: &[u8],
    text_out: &mut [u8],
    answer: &mut IimAnswer,
)
    ensures { HandleIsFed handle.old.owner.home piece.now text_out.old text_out.new handle.new.owner.home answer.new }
{
    iim_handle::iim_unpacker_feed(alloc, handle, piece, text_out, answer);
}

/// Checks whether the input may end here.
#[unsafe(no_mangle)]
pub extern "C" fn iim_unpacker_end(alloc: Global, handle: &mut IimUnpacker, answer: &mut IimAnswer)
    ensures { HandleHasEnd handle.old.owner.home handle.new.owner.home answer.new }
{
    iim_handle::iim_unpacker_end(alloc, handle, answer);
}

/// Writes the ticket of the current state.
#[unsafe(no_mangle)]
pub extern "C" fn iim_unpacker_save(
    alloc: Global,
    handle: &mut IimUnpacker,
    ticket_out: &mut [u8],
    answer: &mut IimAnswer,
)
    ensures { HandleIsSaved handle.old.owner.home handle.new.owner.home ticket_out.old ticket_out.new answer.new }
{
    iim_handle::iim_unpacker_save(alloc, handle, ticket_out, answer);
}

/// Opens a closed handle in the state of a ticket. `at` is the number of octets of the envelope
/// that were consumed before.
#[unsafe(no_mangle)]
pub extern "C" fn iim_unpacker_restore(
    alloc: Global,
    limits: IimLimits,
    handle: &mut IimUnpacker,
    ticket: &[u8],
    at: u64,
    answer: &mut IimAnswer,
)
    ensures { HandleIsRestored (limits_for limits) ticket.now at handle.old.owner.home handle.new.owner.home
        answer.new }
{
    iim_handle::iim_unpacker_restore(alloc, limits, handle, ticket, at, answer);
}

/// Closes a handle, and frees its memory. Closing a closed handle has no effect.
#[unsafe(no_mangle)]
pub extern "C" fn iim_unpacker_close(alloc: Global, handle: &mut IimUnpacker)
    ensures { handle.new.owner.home ≡ None }
{
    iim_handle::iim_unpacker_close(alloc, handle);
}

/// Writes the ticket of the present state into a buffer, and the datasets of records 1 and 2 so far
/// into an array, whose slices are those of that buffer. Returns the status.
#[unsafe(no_mangle)]
pub extern "C" fn iim_unpacker_fields(
    alloc: Global,
    handle: &mut IimUnpacker,
    ticket_out: &mut [u8],
    datasets: &mut [IimDataset],
    answer: &mut IimAnswer,
) -> i32
    ensures fields { HandleHasFields handle.old.owner.home handle.new.owner.home ticket_out.old ticket_out.new
        datasets.old datasets.new answer.new }
    ensures code { result ≡ pos answer.new.status }
{
    iim_handle::iim_unpacker_fields(alloc, handle, ticket_out, datasets, answer);
    i32::from(answer.status)
}

/// Writes the ticket of the present state into a buffer, and returns the header and the trailer of
/// the message so far, whose slices are those of that buffer. Returns the status.
#[unsafe(no_mangle)]
pub extern "C" fn iim_unpacker_header(
    alloc: Global,
    handle: &mut IimUnpacker,
    ticket_out: &mut [u8],
    message: &mut IimMessage,
    answer: &mut IimAnswer,
) -> i32
    ensures header { HandleHasHeader handle.old.owner.home handle.new.owner.home ticket_out.old ticket_out.new
        message.old message.new answer.new }
    ensures code { result ≡ pos answer.new.status }
{
    iim_handle::iim_unpacker_header(alloc, handle, ticket_out, message, answer);
    i32::from(answer.status)
}

/// Writes the ticket of the present state into a buffer, and returns the sizes of the object so far.
/// Returns the status.
#[unsafe(no_mangle)]
pub extern "C" fn iim_unpacker_sizes(
    alloc: Global,
    handle: &mut IimUnpacker,
    ticket_out: &mut [u8],
    object: &mut IimObject,
    answer: &mut IimAnswer,
) -> i32
    ensures sizes { HandleHasSizes handle.old.owner.home handle.new.owner.home ticket_out.old ticket_out.new
        object.old object.new answer.new }
    ensures code { result ≡ pos answer.new.status }
{
    iim_handle::iim_unpacker_sizes(alloc, handle, ticket_out, object, answer);
    i32::from(answer.status)
}

/// Writes the data of the dataset with the index `n` of those with this record and number into a
/// buffer, once the envelope is complete. Returns the status.
#[unsafe(no_mangle)]
pub extern "C" fn iim_unpacker_field(
    alloc: Global,
    handle: &mut IimUnpacker,
    rec: u8,
    set: u8,
    n: usize,
    out: &mut [u8],
    answer: &mut IimAnswer,
) -> i32
    ensures field { HandleHasField handle.old.owner.home handle.new.owner.home rec set n out.old out.new answer.new }
    ensures code { result ≡ pos answer.new.status }
{
    iim_handle::iim_unpacker_field(alloc, handle, rec, set, n, out, answer);
    i32::from(answer.status)
}

/// Counts the datasets with this record and number, once the envelope is complete. Returns the
/// status.
#[unsafe(no_mangle)]
pub extern "C" fn iim_unpacker_count(
    alloc: Global,
    handle: &mut IimUnpacker,
    rec: u8,
    set: u8,
    answer: &mut IimAnswer,
) -> i32
    ensures count { HandleHasCount handle.old.owner.home handle.new.owner.home rec set answer.new }
    ensures code { result ≡ pos answer.new.status }
{
    iim_handle::iim_unpacker_count(alloc, handle, rec, set, answer);
    i32::from(answer.status)
}
