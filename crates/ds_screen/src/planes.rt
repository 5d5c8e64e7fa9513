//! The cells of a buffer in two planes: a code for each position, and what the code is.

ghost use Rattle.std.specs.Prelude.{◌≡◌, ◌==◌, ◌≤◌, ◌+◌, ◌-◌, ◌&&◌, ℕ, length, slice_index, slice_index_or, nat_le, nat_lt, true, if◌then◌else◌};
ghost use Rattle.std.specs.List.{list_all};
ghost use Rattle.ds_screen.specs.Planes.{AreAllPlain};

use crate::shown::printed_stored;
use crate::stored::{
    Kind, Stored, attribute_of, cell_of, cell_stored, character_stored, is_plain, ruled_by,
};
use ds_codec::{Attr, Cell, Char};
use std::alloc::{AllocError, Global};
use std::marker::Model;

/// A plane of codes and a plane of kinds, with room for so many positions.
#[derive(Drop)]
pub(crate) struct Planes {
    codes: Vec<u8>,
    kinds: Vec<Kind>,
    limit: u32,
    /// Every kind is plain, so that plain characters are stored by their codes alone.
    plain: bool,
}

impl Model for Planes {
    ghost use Rattle.std.specs.Prelude.{◌≡◌, ◌≤◌, length, true, vec_capacity};
    ghost use Rattle.ds_screen.specs.Planes.{Held, AreAllPlain, ArePlanes, held_cells};

    ghost Value = { Held };

    ghost view = { λ s. held_cells s.codes.items s.kinds.items s.limit };

    ghost invariant = { λ s. ArePlanes s.codes.items s.kinds.items
        × (length s.codes.items ≤ s.limit)
        × (s.limit ≤ vec_capacity s.codes)
        × (s.limit ≤ vec_capacity s.kinds)
        × ((s.plain ≡ true) → AreAllPlain s.kinds.items) };
}

/// Stores a value from one index up to another.
fn fill_part<T: Copy>(items: &mut [T], from: usize, to: usize, value: T)
    requires order { from ≤ to }
    requires inside { to ≤ length items.old }
    ensures each { (p : ℕ) (d : T) → slice_index_or items.new p d
        ≡ (if nat_le from p && nat_lt p to then value else slice_index_or items.old p d) }
    ensures whole { length items.new ≡ length items.old }
{
    if to - from == 1 {
        items[from] = value;
        return;
    }
    'indexes: for i in from..to {
        items[i] = value;
    }
}

/// Stores a kind from one index up to another, and tells whether all kinds are plain. Where they were and this one is, nothing
/// has to be stored.
#[inline(always)]
fn fill_kinds(kinds: &mut [Kind], plain: bool, from: usize, to: usize, kind: Kind) -> bool
    requires order { from ≤ to }
    requires inside { to ≤ length kinds.old }
    requires plain { (plain ≡ true) → AreAllPlain kinds.old }
    ensures each { (p : ℕ) (d : Kind) → slice_index_or kinds.new p d
        ≡ (if nat_le from p && nat_lt p to then kind else slice_index_or kinds.old p d) }
    ensures whole { length kinds.new ≡ length kinds.old }
    ensures plain { (result ≡ true) → AreAllPlain kinds.new }
{
    if plain && is_plain(kind) {
        return true;
    }
    fill_part(kinds, from, to, kind);
    false
}

/// Stores so many bytes of a run, from one of its indexes on, in order.
#[inline(always)]
fn copy_part(items: &mut [u8], at: usize, run: &[u8], from: usize, count: usize)
    requires inside { at + count ≤ length items.old }
    requires within { from + count ≤ length run.now }
    ensures each { (p : ℕ) (d : ℕ) → slice_index_or items.new p d
        ≡ (if nat_le at p && nat_lt p (at + count) then slice_index run.now (from + (p - at)) else slice_index_or items.old p d) }
    ensures whole { length items.new ≡ length items.old }
{
    if count == 1 {
        items[at] = run[from];
        return;
    }
    items[at..at + count].copy_from_slice(&run[from..from + count]);
}

/// Whether all codes are 0.
fn are_zeros(codes: &[u8]) -> bool
    ensures { result ≡ list_all (λ code. code == 0) codes.now }
{
    let Some((first, others)) = codes.split_first() else {
        return true;
    };
    // Each of the others is the one before it: slices are compared many bytes at a time.
    *first == 0 && others == &codes[..others.len()]
}

impl Planes {
    ghost use Rattle.std.specs.Prelude.{◌≡◌, ◌≤◌, ◌<◌, ◌+◌, [], IfOk, true, length, replicate, slice_set};
    ghost use Rattle.ds_screen.specs.Picture.{blank, cell_at, ruled};
    ghost use Rattle.ds_screen.specs.Fields.{is_attribute, attribute_of, ruling_after};
    ghost use Rattle.ds_screen.specs.Shown.{are_nulls, printed_under};
    ghost use Rattle.std.specs.List.{list_all};
    ghost use Rattle.ds_codec.specs.Character.{is_text};
    ghost use Rattle.ds_screen.specs.Planes.{filled_cell, written_cell};

    /// No position, and room for as many as this.
    pub(crate) fn reserved(alloc: Global, most: u32) -> Result<Planes, AllocError>
        ensures empty { IfOk result (λ planes. planes.cells ≡ []) }
        ensures room { IfOk result (λ planes. planes.room ≡ most) }
    {
        let codes = Vec::with_capacity(alloc, most as usize)?;
        let kinds = Vec::with_capacity(alloc, most as usize)?;
        Ok(Planes {
            codes,
            kinds,
            limit: most,
            plain: true,
        })
    }

    /// The number of positions.
    pub(crate) fn len(&self) -> u32
        ensures count { result ≡ length self.now.cells }
        ensures within { result ≤ self.now.room }
    {
        let _limit = self.limit;
        self.codes.len() as u32
    }

    /// Makes it this many nulls.
    pub(crate) fn clear(&mut self, n: u32)
        requires { n ≤ self.old.room }
        ensures nulls { self.new ≡ record self.old { cells = replicate n blank } }
    {
        self.codes.clear();
        self.codes.resize(n as usize, 0).unwrap();
        self.kinds.clear();
        self.kinds.resize(n as usize, Kind::Plain).unwrap();
        self.plain = true;
    }

    /// Whether a position holds an attribute.
    pub(crate) fn has_attribute(&self, p: u32) -> bool
        requires { p < length self.now.cells }
        ensures { result ≡ is_attribute (cell_at self.now.cells p) }
    {
        self.kinds[p as usize] == Kind::Attribute
    }

    /// The attribute at a position, if it holds one.
    #[inline(always)]
    pub(crate) fn attribute(&self, p: u32) -> Option<Attr>
        requires { p < length self.now.cells }
        ensures { result ≡ attribute_of (cell_at self.now.cells p) }
    {
        let stored = Stored {
            kind: self.kinds[p as usize],
            code: self.codes[p as usize],
        };
        attribute_of(stored)
    }

    /// The cell at a position.
    pub(crate) fn cell(&self, p: u32) -> Cell
        requires { p < length self.now.cells }
        ensures { result ≡ cell_at self.now.cells p }
    {
        let stored = Stored {
            kind: self.kinds[p as usize],
            code: self.codes[p as usize],
        };
        cell_of(stored)
    }

    /// What rules a position, by what rules the one before it, and what is printed there.
    #[inline(always)]
    pub(crate) fn print(&self, p: u32, ruling: Attr) -> (Attr, u8)
        requires { p < length self.now.cells }
        ensures ruled { result.0 ≡ ruling_after ruling (cell_at self.now.cells p) }
        ensures printed { result.1 ≡ printed_under result.0 (cell_at self.now.cells p) }
        ensures ascii { result.1 < 128 }
    {
        let stored = Stored {
            kind: self.kinds[p as usize],
            code: self.codes[p as usize],
        };
        let ruled = ruled_by(ruling, stored);
        (ruled, printed_stored(ruled, stored))
    }

    /// Whether so many positions from one on hold nulls alone.
    pub(crate) fn are_nulls(&self, from: u32, count: u32) -> bool
        requires { from + count ≤ length self.now.cells }
        ensures { result ≡ are_nulls self.now.cells from count }
    {
        let (from, to) = (from as usize, from as usize + count as usize);
        are_zeros(&self.codes[from..to]) && !self.kinds[from..to].contains(&Kind::Attribute)
    }

    /// Stores a cell at a position.
    pub(crate) fn put(&mut self, p: u32, cell: Cell)
        requires { p < length self.old.cells }
        ensures stored { self.new ≡ record self.old { cells = slice_set self.old.cells p cell } }
    {
        let stored = cell_stored(cell);
        self.codes[p as usize] = stored.code;
        self.kinds[p as usize] = stored.kind;
        self.plain = self.plain && is_plain(stored.kind);
    }

    /// Stores a character in each position from one up to another.
    pub(crate) fn fill(&mut self, from: u32, to: u32, character: Char)
        requires order { from ≤ to }
        requires inside { to ≤ length self.old.cells }
        ensures filled { self.new ≡ record self.old {
          cells = ruled (length self.old.cells)
              (filled_cell self.old.cells from to character);
        } }
    {
        let stored = character_stored(character);
        fill_part(&mut self.codes, from as usize, to as usize, stored.code);
        let plain = fill_kinds(
            &mut self.kinds,
            self.plain,
            from as usize,
            to as usize,
            stored.kind,
        );
        self.plain = plain;
    }

    /// Stores so many characters of a run of text from a position on, never round the end.
    #[inline(always)]
    pub(crate) fn write(&mut self, at: u32, run: &[u8], from: usize, count: u32)
        requires inside { at + count ≤ length self.old.cells }
        requires within { from + count ≤ length run.now }
        requires characters { list_all is_text run.now ≡ true }
        ensures written { self.new ≡ record self.old {
          cells = ruled (length self.old.cells)
              (written_cell self.old.cells at run.now from count);
        } }
    {
        copy_part(&mut self.codes, at as usize, run, from, count as usize);
        let plain = fill_kinds(
            &mut self.kinds,
            self.plain,
            at as usize,
            (at + count) as usize,
            Kind::Plain,
        );
        self.plain = plain;
    }

    /// Makes the cells those of other planes.
    pub(crate) fn copy_from(&mut self, other: &Planes)
        requires { length other.now.cells ≤ self.old.room }
        ensures copied { self.new ≡ record self.old { cells = other.now.cells } }
    {
        self.codes.clear();
        self.codes
            .extend_from_slice(other.codes.as_slice())
            .unwrap();
        self.kinds.clear();
        self.kinds
            .extend_from_slice(other.kinds.as_slice())
            .unwrap();
        self.plain = other.plain;
    }
}
