//! A store of datasets: their octets in one buffer, and an entry for each dataset.

ghost use Rattle.std.specs.Prelude.{◌≡◌, ◌+◌, ◌≤◌, ◌<◌, ◌++◌, ◌∷◌, [], IfOk, length, vec_len, vec_capacity};
ghost use Rattle.iim_fields.specs.StoreLayout.{ends_at, current_octets};

use iim_dataset::internals::ReservedOctets;
use std::alloc::{AllocError, Global};

/// A stored dataset: its record, its number, and the offset at which its octets end in the buffer.
/// The octets begin where those of the previous entry end.
#[derive(Clone, Copy, Debug, PartialEq, Eq)]
pub(crate) struct Entry {
    /// The number of the record.
    pub rec: u8,
    /// The number of the dataset within its record.
    pub set: u8,
    /// The offset at which the octets of the dataset end in the buffer.
    pub end: usize,
}

/// A store of datasets. The buffer has the octets of the stored datasets, followed by those of the
/// dataset in progress.
#[derive(Drop)]
pub(crate) struct Store {
    /// The octets of the stored datasets, followed by those of the dataset in progress.
    pub octets: ReservedOctets,
    /// An entry for each stored dataset.
    pub entries: Vec<Entry>,
}

impl Store {
    /// Allocates an empty store with capacity for exactly `octets` octets and `entries` entries.
    pub(crate) fn new(alloc: Global, octets: usize, entries: usize) -> Result<Store, AllocError>
        ensures octets { IfOk result (λ store. store.octets.items ≡ []) }
        ensures entries { IfOk result (λ store. store.entries.items ≡ []) }
        ensures octets_room { IfOk result (λ store. store.octets.room ≡ octets) }
        ensures entries_room { IfOk result (λ store. vec_capacity store.entries ≡ entries) }
    {
        let store = Store {
            octets: ReservedOctets::new(alloc, octets)?,
            entries: Vec::with_capacity(alloc, entries)?,
        };
        Ok(store)
    }

    /// Removes all datasets and octets. The capacity is unchanged.
    pub(crate) fn empty(&mut self)
        ensures octets { self.new.octets.items ≡ [] }
        ensures entries { self.new.entries.items ≡ [] }
        ensures octets_room { self.new.octets.room ≡ self.old.octets.room }
        ensures entries_room { vec_capacity self.new.entries ≡ vec_capacity self.old.entries }
    {
        self.octets.clear();
        self.entries.clear();
    }

    /// Appends octets to the dataset in progress. The buffer must have capacity for them.
    #[inline(always)]
    pub(crate) fn take(&mut self, octets: &[u8])
        requires { length self.old.octets.items + length octets.now ≤ self.old.octets.room }
        ensures octets { self.new.octets.items ≡ self.old.octets.items ++ octets.now }
        ensures entries { self.new.entries ≡ self.old.entries }
        ensures capacity { self.new.octets.room ≡ self.old.octets.room }
    {
        self.octets.take(octets);
    }

    /// Returns the offset at which the octets of the stored datasets end and those of the dataset
    /// in progress begin.
    #[inline(always)]
    fn end(&self) -> usize
        ensures { result ≡ ends_at 0 self.now.entries.items }
    {
        match self.entries.last() {
            Some(entry) => entry.end,
            None => 0,
        }
    }

    /// Returns the octets of the dataset in progress.
    #[inline(always)]
    pub(crate) fn begun(&self) -> &[u8]
        requires { ends_at 0 self.now.entries.items ≤ length self.now.octets.items }
        ensures { result.now ≡ current_octets self.now }
    {
        &self.octets.as_slice()[self.end()..]
    }

    /// Stores the dataset in progress, whose octets have all been appended.
    #[inline(always)]
    pub(crate) fn keep(&mut self, rec: u8, set: u8)
        requires { vec_len self.old.entries < vec_capacity self.old.entries }
        ensures octets { self.new.octets ≡ self.old.octets }
        ensures entries { self.new.entries.items ≡ self.old.entries.items
            ++ record { rec = rec; set = set; end = length self.old.octets.items } ∷ [] }
        ensures len { vec_len self.new.entries ≡ vec_len self.old.entries + 1 }
        ensures capacity { vec_capacity self.new.entries ≡ vec_capacity self.old.entries }
    {
        let end = self.octets.len();
        self.entries.push_reserved(Entry { rec, set, end });
    }
}
