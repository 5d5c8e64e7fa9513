//! An index that counts how often it is looked at. No other module sees the positions or sets the counts.

use ds_places::Pages;
use std::marker::Model;

/// The positions of a buffer's attributes in rising order, and how often it was looked at one of them, and at one of the
/// blocks of 64 positions in which they are kept.
#[derive(Drop)]
pub struct Probed<'a> {
    index: &'a Pages<u32>,
    probes: u64,
    blocks: u64,
}

impl<'a> Model for Probed<'a> {
    ghost use Rattle.std.specs.Prelude.{◌<◌, ◌+◌, ◌/◌, ◌^◌, length};
    ghost use Rattle.ds_screen.specs.Planes.{Probing};

    ghost Value = { Probing };

    ghost view = { λ s. record { positions = s.index.now.entries; size = s.index.now.room / 64 + 1; probes = s.probes; blocks = s.blocks } };

    ghost invariant = { λ s. length s.index.now.entries < 2 ^ 32 };
}

impl<'a> Probed<'a> {
    ghost use Rattle.std.specs.Prelude.{◌≡◌, ◌≤◌, ◌+◌, ◌/◌, ◌<◌, ◌^◌, ℕ, None, IfSome, length, slice_index};
    ghost use Rattle.ds_places.specs.Places.{IsWithin};
    ghost use Rattle.ds_places.specs.Nearest.{IsLastBelow};
    ghost use Rattle.ds_screen.specs.Planes.{itself, looked, LooksFew};

    /// An index that was not looked at yet.
    pub(crate) fn new(index: &'a Pages<u32>) -> Probed<'a>
        requires { length index.now.entries < 2 ^ 32 }
        ensures positions { result.positions ≡ index.now.entries }
        ensures probes { result.probes ≡ 0 }
        ensures blocks { result.blocks ≡ 0 }
    {
        Probed {
            index,
            probes: 0,
            blocks: 0,
        }
    }

    /// The number of positions, which takes a look at each block.
    pub fn len(&mut self) -> u32
        ensures count { result ≡ length self.old.positions }
        ensures counted { self.new ≡ looked self.old 0 self.old.size }
    {
        let index = self.index;
        self.count(0, u64::from(index.room() / 64) + 1);
        index.len() as u32
    }

    /// How often it was looked at a position.
    pub fn probes(&self) -> u64
        ensures { result ≡ self.now.probes }
    {
        self.probes
    }

    /// How often it was looked at a block, or at the number of one; 2^64 - 1 stands for that many or more.
    pub fn blocks(&self) -> u64
        ensures { result ≡ self.now.blocks }
    {
        self.blocks
    }

    /// The position at an index, which takes one look at it, and one at each block up to its own.
    pub fn item(&mut self, i: u32) -> u32
        requires inside { i < length self.old.positions }
        requires few { self.old.probes + 1 < 2 ^ 64 }
        ensures value { result ≡ slice_index self.old.positions i }
        ensures counted { self.new
            ≡ looked self.old 1 (slice_index self.old.positions i / 64 + 1) }
    {
        let position = self.index.get(i as usize).unwrap_or(0);
        self.count(1, u64::from(position / 64) + 1);
        position
    }

    /// The last position up to this one.
    #[inline(always)]
    pub(crate) fn last_to(&mut self, p: u32) -> Option<u32>
        requires few { self.old.probes + 64 < 2 ^ 64 }
        ensures nearest { IsLastBelow itself self.old.positions (p + 1) result }
        ensures looks { LooksFew self.old self.new 1 3 }
        ensures missed { result ≡ None → LooksFew self.old self.new 0 1 }
        ensures few { self.new.probes ≤ self.old.probes + 33 }
    {
        let found = self.index.last_to(p);
        self.count(found.looks, found.blocks);
        found.entry
    }

    /// The last position of all.
    #[inline(always)]
    pub(crate) fn last(&mut self) -> Option<u32>
        requires few { self.old.probes + 1 < 2 ^ 64 }
        ensures last { (q : ℕ) → IsWithin itself q self.old.positions
            → IsLastBelow itself self.old.positions q result }
        ensures found { IfSome result (λ _. self.new ≡ looked self.old 1 2) }
        ensures none { result ≡ None → self.new ≡ self.old }
    {
        let Some(position) = self.index.last() else {
            return None;
        };
        self.count(1, 2);
        Some(position)
    }

    /// Counts so many more looks at positions and at blocks.
    #[inline(always)]
    fn count(&mut self, probes: u64, blocks: u64)
        requires { self.old.probes + probes < 2 ^ 64 }
        ensures { self.new ≡ looked self.old probes blocks }
    {
        *self = Probed {
            index: self.index,
            probes: self.probes + probes,
            blocks: self.blocks.saturating_add(blocks),
        };
    }
}
