//! The offsets at which the parts of a header end.

ghost use Rattle.std.specs.Prelude.{◌≡◌, ◌≤◌, length};
ghost use Rattle.wire_message.specs.Format.Messages.{max_source, max_number, max_category, max_words};
ghost use Rattle.wire_message.specs.Kept.{ends_of};

/// The offsets at which the parts of a header end. The number directly follows the source; other
/// parts are separated by one octet. The priority has one octet, and the info ends with the header.
#[derive(Clone, Copy, Debug, Drop)]
pub(crate) struct Ends {
    pub(crate) source: u8,
    pub(crate) number: u8,
    pub(crate) category: u8,
    pub(crate) words: u8,
}

impl Ends {
    /// Returns the offsets for these parts.
    #[inline(always)]
    pub(crate) fn of(source: &[u8], number: &[u8], category: &[u8], words: &[u8]) -> Ends
        requires source { length source.now ≤ max_source }
        requires number { length number.now ≤ max_number }
        requires category { length category.now ≤ max_category }
        requires words { length words.now ≤ max_words }
        ensures { result ≡ ends_of source.now number.now category.now words.now }
    {
        let number_end = source.len() + number.len();
        let category_end = number_end + 3 + category.len();
        let words_end = category_end + 1 + words.len();
        Ends {
            source: source.len() as u8,
            number: number_end as u8,
            category: category_end as u8,
            words: words_end as u8,
        }
    }
}
