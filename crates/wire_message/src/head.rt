//! The header of a message.

ghost use Rattle.std.specs.Prelude.{◌≡◌, ◌↔◌, ◌≤◌, ◌<◌, ◌+◌, ◌++◌, [], false, length, take, slice_index, IsTrue, IsSome, IfSome};

use crate::class::Class;
use crate::ends::Ends;
use crate::field::{append, append_part, is_field, kept, prefix_len};
use crate::lengths::{
    MAX_CATEGORY, MAX_INFO, MAX_KEPT, MAX_NUMBER, MAX_PRIORITY, MAX_SOURCE, MAX_WORDS,
};
use crate::part::HeaderTexts;
use arrayvec::ArrayVec;
use std::marker::Model;

/// The header of a message. Each part has a length and octets that the format allows. The parts are
/// stored joined, with one octet between two of them, in at most 99 octets, without allocation.
///
/// Its model in contracts is the six parts.
#[derive(Debug, Drop)]
pub struct MessageHead {
    octets: ArrayVec<u8, MAX_KEPT>,
    ends: Ends,
}

impl Model for MessageHead {
    ghost use Rattle.wire_message.specs.Format.Messages.{Header};

    ghost Value = { Header };

    ghost use Rattle.wire_message.specs.Kept.{parts_in, IsKept};

    ghost view = { λ head. parts_in head.octets.items head.ends };

    ghost invariant = { λ head. IsKept head.octets.items head.ends };
}

ghost use Rattle.wire_message.specs.Format.Messages.{header_of, IsHeader, is_alphanumeric, is_info_octet, Are, IsField, max_source, max_number, max_priority, max_category, max_words, max_info};
ghost use Rattle.iim_dataset.specs.Format.Octets.{is_letter, is_digit};
ghost use Rattle.wire_message.specs.Kept.{parts_in, IsKept};
ghost use Rattle.wire_message.specs.Steps.{begun};

/// Checks whether these parts form a valid header.
fn is_header(
    source: &[u8],
    number: &[u8],
    priority: &[u8],
    category: &[u8],
    words: &[u8],
    info: &[u8],
) -> bool
    ensures { IsTrue result ↔ IsHeader (header_of source.now number.now priority.now category.now words.now info.now) }
{
    is_field(Class::Letter, 1, MAX_SOURCE, source)
        && is_field(Class::Digit, 1, MAX_NUMBER, number)
        && is_field(Class::Digit, 1, MAX_PRIORITY, priority)
        && is_field(Class::Alphanumeric, 1, MAX_CATEGORY, category)
        && is_field(Class::Digit, 1, MAX_WORDS, words)
        && is_field(Class::Info, 0, MAX_INFO, info)
}

impl MessageHead {
    /// Creates a header of these parts. Returns `None` if one of them has an invalid length or
    /// octet.
    pub fn new(
        source: &[u8],
        number: &[u8],
        priority: &[u8],
        category: &[u8],
        words: &[u8],
        info: &[u8],
    ) -> Option<MessageHead>
        ensures admitted { IsSome result ↔
            IsHeader (header_of source.now number.now priority.now category.now words.now info.now) }
        ensures parts { IfSome result (λ head.
            head ≡ header_of source.now number.now priority.now category.now words.now info.now) }
    {
        if !is_header(source, number, priority, category, words, info) {
            return None;
        }
        Some(MessageHead::of_parts(source, number, priority, category, words, info))
    }

    /// Creates the header of these parts, which must be valid.
    pub(crate) fn of_parts(
        source: &[u8],
        number: &[u8],
        priority: &[u8],
        category: &[u8],
        words: &[u8],
        info: &[u8],
    ) -> MessageHead
        requires { IsHeader (header_of source.now number.now priority.now category.now words.now info.now) }
        ensures parts { result ≡ header_of source.now number.now priority.now category.now words.now info.now }
    {
        let mut octets = kept(source);
        append(&mut octets, number);
        append_part(&mut octets, priority);
        append_part(&mut octets, category);
        append_part(&mut octets, words);
        append_part(&mut octets, info);
        MessageHead {
            octets,
            ends: Ends::of(source, number, category, words),
        }
    }

    /// Creates the header whose joined parts are `octets`. `ends` has the offsets at which the
    /// parts end.
    #[inline(always)]
    pub(crate) fn of_octets(octets: &[u8], ends: Ends) -> MessageHead
        requires { IsKept octets.now ends }
        ensures { result ≡ parts_in octets.now ends }
    {
        MessageHead {
            octets: kept(octets),
            ends,
        }
    }

    /// Creates the header of these parts, with an empty info.
    pub(crate) fn begun(texts: &HeaderTexts) -> MessageHead
        requires { IsHeader (begun texts.now) }
        ensures { result ≡ begun texts.now }
    {
        MessageHead::of_parts(
            &texts.source,
            &texts.number,
            &texts.priority,
            &texts.category,
            &texts.words,
            &[],
        )
    }

    /// Appends octets from the start of a slice to the info, as long as the info may have them.
    /// Returns their number.
    pub(crate) fn take_info(&mut self, octets: &[u8]) -> usize
        ensures within { result ≤ length octets.now }
        ensures class { Are is_info_octet (take result octets.now) }
        ensures lengthened { self.new ≡ record self.old { info = self.old.info ++ take result octets.now } }
        ensures fits { length self.old.info + result ≤ max_info }
        ensures is_header { IsHeader self.new }
        ensures longest { result < length octets.now → length self.old.info + result < max_info →
            is_info_octet (slice_index octets.now result) ≡ false }
    {
        let run = prefix_len(Class::Info, MAX_INFO - self.info().len(), octets);
        append(&mut self.octets, &octets[..run]);
        run
    }

    /// Returns a copy of the header.
    pub fn copied(&self) -> MessageHead
        ensures { result ≡ self.now }
    {
        MessageHead::of_octets(&self.octets, self.ends)
    }

    /// Returns the source: 1 to 8 letters.
    pub fn source(&self) -> &[u8]
        ensures part { result.now ≡ self.now.source }
        ensures letters { IsField is_letter 1 max_source result.now }
    {
        &self.octets[..usize::from(self.ends.source)]
    }

    /// Returns the number: 1 to 8 digits.
    pub fn number(&self) -> &[u8]
        ensures part { result.now ≡ self.now.number }
        ensures digits { IsField is_digit 1 max_number result.now }
    {
        &self.octets[usize::from(self.ends.source)..usize::from(self.ends.number)]
    }

    /// Returns the priority: one digit.
    pub fn priority(&self) -> &[u8]
        ensures part { result.now ≡ self.now.priority }
        ensures digit { IsField is_digit 1 max_priority result.now }
    {
        let number = usize::from(self.ends.number);
        &self.octets[number + 1..number + 2]
    }

    /// Returns the category: 1 to 8 letters or digits.
    pub fn category(&self) -> &[u8]
        ensures part { result.now ≡ self.now.category }
        ensures octets { IsField is_alphanumeric 1 max_category result.now }
    {
        &self.octets[usize::from(self.ends.number) + 3..usize::from(self.ends.category)]
    }

    /// Returns the announced number of words: 1 to 6 digits.
    pub fn words(&self) -> &[u8]
        ensures part { result.now ≡ self.now.words }
        ensures digits { IsField is_digit 1 max_words result.now }
    {
        &self.octets[usize::from(self.ends.category) + 1..usize::from(self.ends.words)]
    }

    /// Returns the info: up to 64 octets.
    pub fn info(&self) -> &[u8]
        ensures part { result.now ≡ self.now.info }
        ensures octets { IsField is_info_octet 0 max_info result.now }
    {
        &self.octets[usize::from(self.ends.words) + 1..]
    }
}
