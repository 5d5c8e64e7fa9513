//! Entries that count how often one of them is looked at. No other module sees the entries or sets the count.

ghost use Rattle.std.specs.Prelude.{◌≡◌, ◌+◌, ◌<◌, ◌^◌, length, slice_index_or};

use crate::placed::Placed;

/// Entries, and how often one of them was looked at.
#[derive(Drop)]
pub(crate) struct Counted<'a, T: Placed> {
    entries: &'a [T],
    looks: u64,
}

impl<'a, T: Placed> Counted<'a, T> {
    /// Entries of which none was looked at yet.
    #[inline(always)]
    pub(crate) fn new(entries: &'a [T]) -> Counted<'a, T>
        ensures same { result.entries.now ≡ entries.now }
        ensures count { result.looks ≡ 0 }
    {
        Counted { entries, looks: 0 }
    }

    /// The number of entries.
    #[inline(always)]
    pub(crate) fn len(&self) -> usize
        ensures { result ≡ length self.now.entries.now }
    {
        self.entries.len()
    }

    /// How often an entry was looked at.
    #[inline(always)]
    pub(crate) fn looks(&self) -> u64
        ensures { result ≡ self.now.looks }
    {
        self.looks
    }

    /// The entry at an index, which counts as one look.
    #[inline(always)]
    pub(crate) fn item(&mut self, i: usize) -> T
        requires inside { i < length self.old.entries.now }
        requires few { self.old.looks + 1 < 2 ^ 64 }
        ensures value { result ≡ slice_index_or self.old.entries.now i result }
        ensures counted { self.new.looks ≡ self.old.looks + 1 }
        ensures kept { self.new.entries.now ≡ self.old.entries.now }
    {
        self.looks += 1;
        self.entries[i]
    }
}
