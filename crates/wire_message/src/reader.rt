//! The push parser of a message, which accepts any split of the octets into chunks.

ghost use Rattle.std.specs.Prelude.{◌≡◌, ◌↔◌, ◌<◌, [], List, ℕ, Option, false, is_none, length, Some, None, IsTrue, IsSome, IsOk, IfSome, IfErr, OnOk, OnErr};
ghost use Rattle.std.specs.Option.{option_map};
ghost use Rattle.wire_story.specs.Format.Texts.{End};
ghost use Rattle.wire_message.specs.Format.Messages.{EndsViableMessage};
ghost use Rattle.wire_message.specs.States.Reading.{ReaderHasSavedState, ReachesSavedState, IsReachedByLength, IsPossibleLength, least_of, greatest_of};

use crate::fault::{MessageCause, MessageFault};
use crate::head::MessageHead;
use crate::laws::{
    message_states_are_reached, readers_consume_viable_octets, saved_states_are_distinct,
};
use crate::piece::consume_chunk;
use crate::place::Place;
use crate::restore::restore;
use crate::save::save;
use crate::saved::MessagePlace;
use crate::span::lengths_to;
use std::fmt;
use std::marker::Model;
use wire_story::StorySink;

/// A push parser of a message. It stores the octets received of the header and the trailer, at most
/// 163, and a few counters. Of the text it stores only the number of CR at the end of the octets so
/// far. No call allocates.
///
/// Its model in contracts is the state that the octets so far reach, or `None` after an error.
#[derive(Drop)]
pub struct MessageReader {
    place: Option<Place>,
}

impl fmt::Debug for MessageReader {
    /// Writes only the name of the type. [`MessageReader::place`] returns the state.
    fn fmt<W: fmt::Write>(&self, f: &mut fmt::Formatter<W>) -> fmt::Result {
        f.write_str("MessageReader")
    }
}

impl Model for MessageReader {
    ghost use Rattle.std.specs.Prelude.{Option};
    ghost use Rattle.std.specs.Option.{ForSome};
    ghost use Rattle.wire_message.specs.declared.place.Place.{Place};

    ghost Value = { Option Place };

    ghost use Rattle.wire_message.specs.States.Reading.{IsMessageState};

    ghost view = { λ reader. reader.place };

    ghost invariant = { λ reader. ForSome reader.place IsMessageState };
}

ghost use Rattle.wire_message.specs.States.Reading.{MessageReaderHasRead, MessageReaderConsumes, MessageReaderRejects, head_read, trailer_read, is_ended, IsCompleteMessage};

impl MessageReader {
    /// Creates a reader at the start of an object.
    pub fn new() -> MessageReader
        ensures takes_calls { IsSome result }
        ensures stands { MessageReaderHasRead result [] [] }
    {
        MessageReader {
            place: Some(Place::Filler { count: 0 }),
        }
    }

    /// Returns whether a call has returned an error.
    pub fn is_failed(&self) -> bool
        ensures { result ≡ is_none self.now }
    {
        self.place.is_none()
    }

    /// Returns the saved state of the reader, from which [`MessageReader::at`] restores it. The
    /// reader must not have failed.
    pub fn place(&self) -> MessagePlace
        requires { IsSome self.now }
        ensures { ReaderHasSavedState self.now result }
    {
        match &self.place {
            Some(place) => save(place),
            None => unreachable!(),
        }
    }

    /// Restores a reader from a saved state. Returns `None` if and only if no octets reach that
    /// state.
    pub fn at(place: MessagePlace) -> Option<MessageReader>
        ensures place { IfSome result (λ reader. ReaderHasSavedState reader place) }
        ensures stands { IfSome result (λ reader.
            (octets text : List ℕ) → ReachesSavedState octets text place → MessageReaderHasRead reader octets text) }
        ensures exactly { IsSome result ↔ ((octets : List ℕ) × (text : List ℕ) × ReachesSavedState octets text place) }
    {
        message_states_are_reached();
        saved_states_are_distinct();
        let place = restore(&place)?;
        Some(MessageReader { place: Some(place) })
    }

    /// Returns the minimum and the maximum number of octets that reach the state of the reader. The
    /// maximum is `None` if there is none. Every number between them is the length of some octets
    /// that reach the state. The reader must not have failed.
    pub fn lengths(&self) -> (u64, Option<u64>)
        requires { IsSome self.now }
        ensures exactly { (count : ℕ) → IsReachedByLength self.now count ↔ IsPossibleLength result.0 result.1 count }
        ensures least { IfSome self.now (λ place. result.0 ≡ least_of place) }
        ensures greatest { IfSome self.now (λ place. result.1 ≡ greatest_of place) }
    {
        match &self.place {
            Some(place) => lengths_to(place),
            None => unreachable!(),
        }
    }

    /// Feeds the next octets of the object, and passes their text to the sink. On an error, passes
    /// the text of the octets before the rejected one.
    ///
    /// **Errors:** the first octet with which the octets so far are no longer a viable prefix of a
    /// message, or their text is no longer a viable prefix of a story, or at which the sink
    /// stopped. The reader has then failed ([`MessageReader::is_failed`]), and must not be called
    /// again.
    pub fn feed<S: StorySink>(&mut self, piece: &[u8], sink: &mut S) -> Result<(), MessageFault>
        requires { IsSome self.old }

        // The octets so far, including the chunk, are a viable prefix of a message, and their text
        // is a viable prefix of a story.
        ensures takes_calls { OnOk result (IsSome self.new) }
        ensures taken { OnOk result (MessageReaderConsumes S.goes S.failures self.old piece.now self.new sink.old
            sink.new) }

        // An empty chunk is accepted, and changes nothing.
        ensures takes_nothing { length piece.now ≡ 0 → IsOk result }
        ensures nothing { length piece.now ≡ 0 → (self.new ≡ self.old) × (sink.new ≡ sink.old) }

        // With the rejected octet, the octets are no longer a viable prefix of a message, or their
        // text is no longer a viable prefix of a story, or the sink stopped. Before that octet both
        // were viable.
        ensures failed { OnErr result (self.new ≡ None) }
        ensures refused { IfErr result (λ fault.
            MessageReaderRejects S.goes S.failures self.old piece.now fault sink.old sink.new) }
    {
        readers_consume_viable_octets();
        match &mut self.place {
            Some(place) => match consume_chunk(place, piece, sink) {
                Ok(()) => Ok(()),
                Err(fault) => {
                    self.place = None;
                    Err(fault)
                }
            },
            None => unreachable!(),
        }
    }

    /// Checks whether the octets so far are a complete message, so that the object may end here.
    #[inline(always)]
    pub fn is_whole(&self) -> bool
        ensures whole { IsTrue result → IsCompleteMessage self.now }
        ensures unfinished { result ≡ false → (octets text : List ℕ) → MessageReaderHasRead self.now octets text
            → EndsViableMessage octets End }
    {
        has_ended(&self.place)
    }

    /// Ends the object.
    ///
    /// **Errors:** `Unfinished`, with `taken` 0, if EOT has not been received. The reader has then
    /// failed.
    pub fn close(&mut self) -> Result<(), MessageFault>
        requires { IsSome self.old }

        // The octets so far are a message with a text, and with the header and the trailer that
        // were received.
        ensures unchanged { OnOk result (self.new ≡ self.old) }
        ensures whole { OnOk result (IsCompleteMessage self.old) }

        // No message can end here.
        ensures failed { OnErr result (self.new ≡ None) }
        ensures fault { IfErr result (λ fault. (fault.taken ≡ 0) × (fault.cause ≡ MessageCause.Unfinished)) }
        ensures refused { OnErr result ((octets text : List ℕ) → MessageReaderHasRead self.old octets text
            → EndsViableMessage octets End) }
    {
        if has_ended(&self.place) {
            return Ok(());
        }
        self.place = None;
        Err(MessageFault {
            taken: 0,
            cause: MessageCause::Unfinished,
        })
    }

    /// Returns the header, after STX was received.
    pub fn head(&self) -> Option<&MessageHead>
        ensures { option_map (λ head. head.now) result ≡ head_read self.now }
    {
        match &self.place {
            Some(Place::Text { head, .. }) => Some(head),
            Some(Place::Trailer { head, .. }) => Some(head),
            Some(Place::AfterEnd { head, .. }) => Some(head),
            _ => None,
        }
    }

    /// Returns the octets received of the trailer. They are empty before ETX, and complete after
    /// EOT.
    pub fn trailer(&self) -> &[u8]
        ensures { result.now ≡ trailer_read self.now }
    {
        match &self.place {
            Some(Place::Trailer { trailer, .. }) => trailer.as_slice(),
            Some(Place::AfterEnd { trailer, .. }) => trailer.as_slice(),
            _ => &[],
        }
    }
}

/// Checks whether the message has ended, except for filler.
fn has_ended(place: &Option<Place>) -> bool
    ensures { result ≡ is_ended place.now }
{
    matches!(place, Some(Place::AfterEnd { .. }))
}
