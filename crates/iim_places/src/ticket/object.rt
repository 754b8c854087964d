//! Restores the object reader at the position of a ticket.

ghost use Rattle.std.specs.Prelude.{◌≡◌, Some, None, IsSome, IfSome, IfNone};
ghost use Rattle.iim_object.specs.Format.Objects.{ObjectEnded, Confirmed, Place, MayFollow, place_after};
ghost use Rattle.iim_object.specs.States.Reading.{ObjectReaderStandsAt, PlaceHasNumbers, IsPossible};
ghost use Rattle.iim_places.specs.States.Possible.{partial_subfile_of, object_after};
ghost use Rattle.iim_places.specs.NullObjectSink.{null_sink_accepts, null_sink_stops};
ghost use Rattle.iim_places.specs.States.Restored.{phase_of_ticket};

use crate::laws::layer_lemmas;
use crate::ticket::split::TicketPhase;
use iim_dataset::Stop;
use iim_object::{ObjectReader, ObjectSink};
use iim_tables::records::{CONFIRMED_SIZE, OBJECT, POST_OBJECT};

/// An object sink that accepts everything and stores nothing.
#[derive(Drop)]
struct NullObjectSink;

impl ObjectSink for NullObjectSink {
    ghost goes = { null_sink_accepts };

    ghost stops = { null_sink_stops };

    ghost stands = { λ _. Unit {0} };

    ghost nothing = { λ _. tt };

    ghost joined = { λ a b c xs ys first then. tt };

    ghost joined_stop = { λ a b c xs ys refused first then. then };

    fn run(&mut self, _run: &[u8]) -> Result<(), Stop> {
        Ok(())
    }

    fn close(&mut self) -> Result<(), Stop> {
        Ok(())
    }
}

/// Returns the count of the subfile in progress and the number of its octets that remain, or `None`
/// if no subfile is in progress.
fn partial_subfile(section: u8, phase: &TicketPhase<'_>) -> Option<(u64, u64)>
    ensures { result ≡ partial_subfile_of section (phase_of_ticket phase.now) }
{
    match phase {
        TicketPhase::Data { count, left, .. } if section == OBJECT => Some((*count, *left)),
        _ => None,
    }
}

/// Returns the reader after the end of the object, or `None` if the object layer rejects the end.
fn ended(object: ObjectReader) -> Option<ObjectReader>
    requires { IsSome object }
    ensures calls { IfSome result IsSome }
    ensures stands { IfSome result (λ r. (p : Place) → ObjectReaderStandsAt object p → MayFollow p ObjectEnded
        → ObjectReaderStandsAt r (place_after p ObjectEnded)) }
    ensures none { IfNone result ((p : Place) → ObjectReaderStandsAt object p → MayFollow p ObjectEnded
        → IsPossible (place_after p ObjectEnded) → ⊥) }
{
    layer_lemmas();
    let mut object = object;
    match object.head(POST_OBJECT, CONFIRMED_SIZE, 0, &mut NullObjectSink) {
        Ok(()) => Some(object),
        Err(_) => None,
    }
}

/// Returns the reader after the confirmed size, or `None` if the object layer rejects that size.
fn confirmed(object: ObjectReader, size: u64) -> Option<ObjectReader>
    requires { IsSome object }
    ensures calls { IfSome result IsSome }
    ensures stands { IfSome result (λ r. (p : Place) → ObjectReaderStandsAt object p → MayFollow p (Confirmed size)
        → ObjectReaderStandsAt r (place_after p (Confirmed size))) }
    ensures none { IfNone result ((p : Place) → ObjectReaderStandsAt object p → MayFollow p (Confirmed size)
        → IsPossible (place_after p (Confirmed size)) → ⊥) }
{
    layer_lemmas();
    let mut object = object;
    match object.value(POST_OBJECT, CONFIRMED_SIZE, size) {
        Ok(()) => Some(object),
        Err(_) => None,
    }
}

/// Returns the reader of an object that has ended, after these numbers of record 7, `taken` octets
/// and `heads` heads of subfiles. Returns `None` if no input reaches that state.
fn ended_at(numbers: [Option<u64>; 4], taken: u64, heads: u64) -> Option<ObjectReader>
    ensures calls { IfSome result IsSome }
    ensures leads { IfSome result (λ r. (p : Place) × PlaceHasNumbers numbers taken None heads p
        × IsPossible (place_after p ObjectEnded)) }
    ensures stands { IfSome result (λ r. (p : Place) → PlaceHasNumbers numbers taken None heads p
        → IsPossible (place_after p ObjectEnded) → ObjectReaderStandsAt r (place_after p ObjectEnded)) }
    ensures none { IfNone result ((p : Place) → PlaceHasNumbers numbers taken None heads p → IsPossible
        (place_after p ObjectEnded)
        → ⊥) }
{
    layer_lemmas();
    let object = ObjectReader::at(numbers, taken, None, heads)?;
    if heads == 0 {
        return None;
    }
    ended(object)
}

/// Returns the reader of an object whose size is confirmed, after these numbers of record 7,
/// `taken` octets and `heads` heads of subfiles. Returns `None` if no input reaches that state.
fn confirmed_at(numbers: [Option<u64>; 4], taken: u64, heads: u64) -> Option<ObjectReader>
    ensures calls { IfSome result IsSome }
    ensures leads { IfSome result (λ r. (p : Place) × PlaceHasNumbers numbers taken None heads p
        × IsPossible (place_after (place_after p ObjectEnded) (Confirmed taken))) }
    ensures stands { IfSome result (λ r. (p : Place) → PlaceHasNumbers numbers taken None heads p
        → IsPossible (place_after (place_after p ObjectEnded) (Confirmed taken))
        → ObjectReaderStandsAt r (place_after (place_after p ObjectEnded) (Confirmed taken))) }
    ensures none { IfNone result ((p : Place) → PlaceHasNumbers numbers taken None heads p
        → IsPossible (place_after (place_after p ObjectEnded) (Confirmed taken)) → ⊥) }
{
    layer_lemmas();
    let object = ended_at(numbers, taken, heads)?;
    confirmed(object, taken)
}

/// Returns the reader of the object after these numbers of record 7, `taken` octets, `heads` heads
/// of subfiles, and what `phase` has in progress in record `section`. Returns `None` if no input
/// reaches that state.
pub(crate) fn object_at(
    section: u8,
    phase: &TicketPhase<'_>,
    numbers: [Option<u64>; 4],
    taken: u64,
    heads: u64,
) -> Option<ObjectReader>
    ensures calls { IfSome result IsSome }
    ensures leads { IfSome result (λ r. (p : Place)
        × PlaceHasNumbers numbers taken (partial_subfile_of section (phase_of_ticket phase.now)) heads p
        × IsPossible (object_after section (phase_of_ticket phase.now) taken p)) }
    ensures stands { IfSome result (λ r. (p : Place)
        → PlaceHasNumbers numbers taken (partial_subfile_of section (phase_of_ticket phase.now)) heads p
        → IsPossible (object_after section (phase_of_ticket phase.now) taken p)
        → ObjectReaderStandsAt r (object_after section (phase_of_ticket phase.now) taken p)) }
    ensures none { IfNone result ((p : Place)
        → PlaceHasNumbers numbers taken (partial_subfile_of section (phase_of_ticket phase.now)) heads p
        → IsPossible (object_after section (phase_of_ticket phase.now) taken p) → ⊥) }
{
    match phase {
        TicketPhase::Data { .. } if section == POST_OBJECT => ended_at(numbers, taken, heads),
        TicketPhase::Ended => confirmed_at(numbers, taken, heads),
        _ => ObjectReader::at(numbers, taken, partial_subfile(section, phase), heads),
    }
}
