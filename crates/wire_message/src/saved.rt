//! The saved form of a reader's state.

ghost use Rattle.std.specs.Prelude.{◌≡◌, ◌↔◌, [], IsTrue};
ghost use Rattle.wire_message.specs.States.Reading.{place_from};

use crate::lengths::MAX_SAVED;
use arrayvec::ArrayVec;

/// The part of a message that is in progress.
#[derive(Clone, Copy, Debug, PartialEq, Eq)]
pub enum MessagePart {
    /// Filler before SOH.
    Filler,
    /// The source, after SOH.
    Source,
    /// The number, after its first digit.
    Number,
    /// The priority, after the SP before it.
    Priority,
    /// The priority, after its digit.
    PriorityRead,
    /// The category, after the SP before it.
    Category,
    /// The words, after the SP before them.
    Words,
    /// The info, after the SP before it.
    Info,
    /// The gap, after its first octet.
    Gap,
    /// The text, after STX.
    Text,
    /// The trailer, after ETX.
    Trailer,
    /// Filler after EOT.
    AfterEnd,
}

/// The saved state of a reader of messages: everything that it stores about the octets so far.
/// Parts after the one in progress are empty.
#[derive(Debug, Drop)]
pub struct MessagePlace {
    /// The part in progress.
    pub part: MessagePart,
    /// The number of octets of the filler before SOH or after EOT, or of the gap; 0 in other parts.
    pub counter: u8,
    /// In the gap, 1 if it has an LF. In the text, the number of CR at the end of the octets so
    /// far. In other parts 0.
    pub flag: u8,
    /// The source so far.
    pub source: ArrayVec<u8, MAX_SAVED>,
    /// The number so far.
    pub number: ArrayVec<u8, MAX_SAVED>,
    /// The priority, once it was received.
    pub priority: ArrayVec<u8, MAX_SAVED>,
    /// The category so far.
    pub category: ArrayVec<u8, MAX_SAVED>,
    /// The words so far.
    pub words: ArrayVec<u8, MAX_SAVED>,
    /// The info so far.
    pub info: ArrayVec<u8, MAX_SAVED>,
    /// The trailer so far.
    pub trailer: ArrayVec<u8, MAX_SAVED>,
}

/// Checks whether two parts have equal octets.
fn is_same(part: &ArrayVec<u8, MAX_SAVED>, other: &ArrayVec<u8, MAX_SAVED>) -> bool
    ensures { IsTrue result ↔ (part.now ≡ other.now) }
{
    part.as_slice() == other.as_slice()
}

impl MessagePlace {
    /// Creates a saved state in a part, without octets and with counters of 0.
    pub(crate) fn bare(part: MessagePart) -> MessagePlace
        ensures { result ≡ place_from part 0 0 [] [] [] [] [] [] [] }
    {
        MessagePlace {
            part,
            counter: 0,
            flag: 0,
            source: ArrayVec::new(),
            number: ArrayVec::new(),
            priority: ArrayVec::new(),
            category: ArrayVec::new(),
            words: ArrayVec::new(),
            info: ArrayVec::new(),
            trailer: ArrayVec::new(),
        }
    }

    /// Checks whether the parts in progress and the counters are equal.
    fn has_counters_of(&self, other: &MessagePlace) -> bool
        ensures { IsTrue result ↔
            (self.now.part ≡ other.now.part) × (self.now.counter ≡ other.now.counter)
            × (self.now.flag ≡ other.now.flag) }
    {
        self.part == other.part && self.counter == other.counter && self.flag == other.flag
    }

    /// Checks whether two saved states are equal.
    pub(crate) fn is(&self, other: &MessagePlace) -> bool
        ensures { IsTrue result ↔ (self.now ≡ other.now) }
    {
        self.has_counters_of(other)
            && is_same(&self.source, &other.source)
            && is_same(&self.number, &other.number)
            && is_same(&self.priority, &other.priority)
            && is_same(&self.category, &other.category)
            && is_same(&self.words, &other.words)
            && is_same(&self.info, &other.info)
            && is_same(&self.trailer, &other.trailer)
    }
}
