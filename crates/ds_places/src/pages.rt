//! A list in the order of places whose edits move few entries, in whatever order they come.

ghost use Rattle.std.specs.Prelude.{◌≡◌, ◌≤◌, ◌<◌, ◌+◌, ◌==◌, ◌&&◌, ℕ, [], length, map, nat_le, nat_lt, if◌then◌else◌, Some, None, IfOk, slice_get};
ghost use Rattle.ds_places.specs.Places.{IsRising, IsWithin, at_place, is_round};
ghost use Rattle.ds_places.specs.Nearest.{IsLastBelow, IsFirstFrom, AreFew};

use crate::blocks::{
    block, can_hold, change_blocks, clear_blocks, copy_blocks, cut_places, note, reserved, store_in,
};
use crate::change::Change;
use crate::edits::cut;
use crate::placed::Placed;
use crate::search::{first_from, first_near, held, last_below, last_in};
use std::alloc::{AllocError, Global};
use std::marker::Model;

/// What a search for the last entry up to a place found, and how often it looked at an entry and at a block or the number
/// of one.
#[derive(Drop)]
pub struct Nearest<T> {
    pub entry: Option<T>,
    pub looks: u64,
    pub blocks: u64,
}

/// Entries in the rising order of their places, which are below a number that is set once. They are kept in blocks
/// of 512 places, so an entry that is put in or taken out moves no more than those of its block; the numbers of the
/// blocks that hold entries are listed. Only `reserved` takes memory.
#[derive(Drop)]
pub struct Pages<T: Placed> {
    blocks: Vec<Vec<T>>,
    used: Vec<u32>,
    room: u32,
}

impl<T: Placed> Model for Pages<T> {
    ghost use Rattle.std.specs.Prelude.{◌≤◌, length, vec_capacity};
    ghost use Rattle.ds_places.specs.Pages.{Paged, paged_code, entries_in, lists_of, rooms_of, AreBlocks};

    ghost Value = { Paged T };

    ghost coded = { paged_code T.code };

    ghost view = { λ s. record { entries = entries_in (lists_of s.blocks.items); room = s.room } };

    ghost invariant = { λ s. AreBlocks T.place_of s.room (lists_of s.blocks.items) (rooms_of s.blocks.items) s.used.items
        × (length (lists_of s.blocks.items) ≤ vec_capacity s.used) };
}

impl<T: Placed> Pages<T> {
    /// No entry, and room for one at each place below this.
    ///
    /// # Errors
    ///
    /// Where a request for memory was refused.
    pub fn reserved(alloc: Global, room: u32) -> Result<Pages<T>, AllocError>
        ensures empty { IfOk result (λ pages. pages.entries ≡ []) }
        ensures room { IfOk result (λ pages. pages.room ≡ room) }
    {
        let count = room / 512 + 1;
        let blocks = reserved(alloc, count)?;
        let used = Vec::with_capacity(alloc, count as usize)?;
        Ok(Pages { blocks, used, room })
    }

    /// The number below which the places of its entries are to be.
    pub fn room(&self) -> u32
        ensures { result ≡ self.now.room }
    {
        self.room
    }

    /// The number of entries.
    pub fn len(&self) -> usize
        ensures { result ≡ length self.now.entries }
    {
        let _room = self.room;
        let mut total = 0;
        'blocks: for i in 0..self.blocks.len() {
            total += self.blocks[i].len();
        }
        total
    }

    /// The entry at an index of the list, if there is one. It counts from block to block.
    pub fn get(&self, index: usize) -> Option<T>
        ensures { result ≡ slice_get self.now.entries index }
    {
        let mut left = index;
        'blocks: for i in 0..self.blocks.len() {
            let entries = &self.blocks[i];
            if left < entries.len() {
                return Some(entries[left]);
            }
            left -= entries.len();
        }
        None
    }

    /// The entry at a place.
    pub fn held(&self, place: u32) -> Option<T>
        ensures { result ≡ at_place T.place_of self.now.entries place }
    {
        held(block(&self.blocks, place / 512), place)
    }

    /// The entry at the greatest place up to this one: in the block of the place, or else the last of the nearest block
    /// before it that holds entries.
    #[inline(always)]
    pub fn last_to(&self, place: u32) -> Nearest<T>
        ensures nearest { IsLastBelow T.place_of self.now.entries (place + 1) result.entry }
        ensures looks { AreFew self.now.entries 1 result.looks }
        ensures blocks { AreFew self.now.entries 3 result.blocks }
        ensures missed { result.entry ≡ None → AreFew self.now.entries 0 result.looks
            × AreFew self.now.entries 1 result.blocks }
    {
        let number = place / 512;
        let own = last_below(block(&self.blocks, number), u64::from(place) + 1);
        if let Some(entry) = own.entry {
            return Nearest {
                entry: Some(entry),
                looks: own.looks,
                blocks: 1,
            };
        }
        let earlier = last_below(&self.used, u64::from(number));
        let Some(used) = earlier.entry else {
            return Nearest {
                entry: None,
                looks: own.looks,
                blocks: earlier.looks + 1,
            };
        };
        Nearest {
            entry: Some(last_in(block(&self.blocks, used))),
            looks: own.looks + 1,
            blocks: earlier.looks + 2,
        }
    }

    /// The entry at the greatest place of all, for one look at an entry, one at a number of a block and one at the block.
    #[inline(always)]
    pub fn last(&self) -> Option<T>
        ensures { (q : ℕ) → IsWithin T.place_of q self.now.entries
            → IsLastBelow T.place_of self.now.entries q result }
    {
        let many = self.used.len();
        if many == 0 {
            return None;
        }
        Some(last_in(block(&self.blocks, self.used[many - 1])))
    }

    /// The entry at the least place from this one on.
    #[inline(always)]
    pub fn first_from(&self, place: u32) -> Option<T>
        ensures { IsFirstFrom T.place_of self.now.entries place result }
    {
        let mut guess = usize::MAX;
        self.first_near(place, &mut guess)
    }

    /// The same, for one that asks for the entries in turn: `guess` is what the search before left there, and any number
    /// at first. It spares the search inside a block where the entry is the next one, and changes nothing of what is found.
    #[inline(always)]
    pub fn first_near(&self, place: u32, guess: &mut usize) -> Option<T>
        ensures { IsFirstFrom T.place_of self.now.entries place result }
    {
        let number = place / 512;
        if let Some(entry) = first_near(block(&self.blocks, number), place, guess) {
            return Some(entry);
        }
        let Some(later) = first_from(&self.used, number + 1) else {
            return None;
        };
        Some(block(&self.blocks, later)[0])
    }

    /// Stores an entry at its place, over the one that it held.
    #[inline(always)]
    pub fn store(&mut self, entry: T)
        requires below { T.place_of entry < self.old.room }
        ensures stored { (q : ℕ) → at_place T.place_of self.new.entries q
            ≡ (if T.place_of entry == q then Some entry else at_place T.place_of self.old.entries q) }
        ensures rising { IsRising T.place_of self.new.entries }
        ensures inside { (places : ℕ) → T.place_of entry < places
            → IsWithin T.place_of places self.old.entries → IsWithin T.place_of places self.new.entries }
        ensures room { self.new.room ≡ self.old.room }
    {
        let number = entry.place() / 512;
        note(&mut self.used, number, block(&self.blocks, number));
        store_in(&mut self.blocks, entry);
    }

    /// Takes out the entries from a place on, up to another, which is none of them.
    #[inline(always)]
    pub fn cut(&mut self, from: u32, to: u32)
        requires { from ≤ to }
        ensures cut { (q : ℕ) → at_place T.place_of self.new.entries q
            ≡ (if nat_le from q && nat_lt q to then None else at_place T.place_of self.old.entries q) }
        ensures rising { IsRising T.place_of self.new.entries }
        ensures inside { (places : ℕ) → IsWithin T.place_of places self.old.entries
            → IsWithin T.place_of places self.new.entries }
        ensures room { self.new.room ≡ self.old.room }
    {
        if can_hold(&self.blocks, from, to) {
            self.cut_held(from, to);
        }
    }

    /// The same, from block to block.
    fn cut_held(&mut self, from: u32, to: u32)
        requires { from < to }
        ensures cut { (q : ℕ) → at_place T.place_of self.new.entries q
            ≡ (if nat_le from q && nat_lt q to then None else at_place T.place_of self.old.entries q) }
        ensures rising { IsRising T.place_of self.new.entries }
        ensures inside { (places : ℕ) → IsWithin T.place_of places self.old.entries
            → IsWithin T.place_of places self.new.entries }
        ensures room { self.new.room ≡ self.old.room }
    {
        cut_places(&mut self.blocks, &self.used, from, to);
        let first = from / 512;
        let last = (to - 1) / 512;
        let low = if block(&self.blocks, first).is_empty() {
            first
        } else {
            first + 1
        };
        let high = if block(&self.blocks, last).is_empty() {
            last + 1
        } else {
            last
        };
        if low < high {
            cut(&mut self.used, low, high);
        }
    }

    /// Takes out the entries at so many places from one on, round a ring of places.
    #[inline(always)]
    pub fn cut_round(&mut self, places: u32, from: u32, steps: u32)
        requires inside { IsWithin T.place_of places self.old.entries }
        requires below { from < places }
        requires few { steps ≤ places }
        ensures cut { (q : ℕ) → at_place T.place_of self.new.entries q
            ≡ (if is_round places from steps q then None else at_place T.place_of self.old.entries q) }
        ensures rising { IsRising T.place_of self.new.entries }
        ensures inside { IsWithin T.place_of places self.new.entries }
        ensures room { self.new.room ≡ self.old.room }
    {
        let left = places - from;
        if steps <= left {
            self.cut(from, from + steps);
        } else {
            self.cut(from, places);
            self.cut(0, steps - left);
        }
    }

    /// Takes out all entries.
    pub fn clear(&mut self)
        ensures empty { self.new.entries ≡ [] }
        ensures room { self.new.room ≡ self.old.room }
    {
        clear_blocks(&mut self.blocks, &self.used);
        self.used.clear();
    }

    /// Makes it hold what another list holds, for which it has room.
    pub fn copy_from(&mut self, other: &Pages<T>)
        requires { IsWithin T.place_of self.old.room other.now.entries }
        ensures copied { (q : ℕ) → at_place T.place_of self.new.entries q
            ≡ at_place T.place_of other.now.entries q }
        ensures rising { IsRising T.place_of self.new.entries }
        ensures room { self.new.room ≡ self.old.room }
    {
        clear_blocks(&mut self.blocks, &self.used);
        copy_blocks(&mut self.blocks, &other.blocks, &other.used);
        self.used.clear();
        self.used.extend_from_slice(&other.used).unwrap();
    }

    /// Changes each entry, and moves none.
    pub fn change_each<C: Change<T>>(&mut self, change: &C)
        requires { (x : T) → T.place_of (C.changed change.now x) ≡ T.place_of x }
        ensures changed { self.new.entries ≡ map (C.changed change.now) self.old.entries }
        ensures room { self.new.room ≡ self.old.room }
    {
        change_blocks(&mut self.blocks, &self.used, change);
    }
}
