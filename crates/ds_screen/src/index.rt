//! Where the attributes of a buffer stand, and in which stretches of it unprotected ones may stand.

ghost use Rattle.std.specs.Prelude.{◌≡◌, ◌<◌, ℕ, ◌==◌, if◌then◌else◌, false, length, slice_index_or};
ghost use Rattle.ds_places.specs.Places.{IsRising, at_place};
ghost use Rattle.ds_screen.specs.Planes.{itself, spot_if};
ghost use Rattle.ds_screen.specs.Listed.{is_any, is_free};

use ds_codec::Attr;
use ds_places::Pages;
use std::alloc::{AllocError, Global};
use std::marker::Model;

/// The positions of all attributes in rising order; and for each stretch of 256 positions whether an unprotected one was put
/// there since the buffer was cleared.
#[derive(Drop)]
pub(crate) struct Index {
    all: Pages<u32>,
    marks: Vec<bool>,
}

impl Model for Index {
    ghost use Rattle.std.specs.Prelude.{◌≡◌, ◌+◌, ◌/◌, length};
    ghost use Rattle.ds_screen.specs.Listed.{Listing, listing};

    ghost Value = { Listing };

    ghost view = { λ s. listing s.all.entries s.marks.items s.all.room };

    ghost invariant = { λ s. length s.marks.items ≡ s.all.room / 256 + 1 };
}

/// Whether there is an attribute.
#[inline(always)]
fn is_any(attribute: &Option<Attr>) -> bool
    ensures { result ≡ is_any attribute.now }
{
    match attribute {
        Some(_bits) => true,
        None => false,
    }
}

/// Whether there is an attribute that doesn't protect.
#[inline(always)]
pub(crate) fn is_free(attribute: &Option<Attr>) -> bool
    ensures { result ≡ is_free attribute.now }
{
    match attribute {
        Some(bits) => !bits.protected(),
        None => false,
    }
}

/// Notes whether a list holds a position from now on, where it is known whether it held it.
#[inline(always)]
fn note(list: &mut Pages<u32>, p: u32, was: bool, is: bool)
    requires rising { IsRising itself list.old.entries }
    requires below { p < list.old.room }
    requires known { at_place itself list.old.entries p ≡ spot_if p was }
    ensures noted { (q : ℕ) → at_place itself list.new.entries q
        ≡ (if p == q then spot_if p is else at_place itself list.old.entries q) }
    ensures rising { IsRising itself list.new.entries }
    ensures room { list.new.room ≡ list.old.room }
{
    let _room = list.room();
    if is && !was {
        list.store(p);
    } else if was && !is {
        list.cut(p, p + 1);
    }
}

/// Makes marks those of others, with none where these end.
fn copy_marks(marks: &mut [bool], others: &[bool])
    ensures each { (k : ℕ) → k < length marks.old → slice_index_or marks.new k false
        ≡ slice_index_or others.now k false }
    ensures whole { length marks.new ≡ length marks.old }
{
    'stretches: for i in 0..marks.len() {
        marks[i] = if i < others.len() { others[i] } else { false };
    }
}

impl Index {
    ghost use Rattle.std.specs.Prelude.{◌≡◌, ◌<◌, ◌≤◌, ℕ, List, [], IfOk, length, replicate, slice_set};
    ghost use Rattle.ds_codec.specs.declared.cell.Cell.{Cell};
    ghost use Rattle.ds_places.specs.Nearest.{IsFirstFrom};
    ghost use Rattle.ds_screen.specs.Picture.{blank, cell_at};
    ghost use Rattle.ds_screen.specs.Fields.{attribute_of};
    ghost use Rattle.ds_screen.specs.Planes.{itself};
    ghost use Rattle.ds_screen.specs.Listed.{AreListed, LoseRound, is_marked};

    /// No attribute, and room for one at each position below this.
    pub(crate) fn reserved(alloc: Global, most: u32) -> Result<Index, AllocError>
        ensures empty { IfOk result (λ index. AreListed index []) }
        ensures room { IfOk result (λ index. index.room ≡ most) }
    {
        let all = Pages::reserved(alloc, most)?;
        let mut marks = Vec::new(alloc);
        marks.resize((most / 256 + 1) as usize, false)?;
        Ok(Index { all, marks })
    }

    /// The positions of all attributes.
    #[inline(always)]
    pub(crate) fn all(&self) -> &Pages<u32>
        ensures { result.now.entries ≡ self.now.all }
    {
        &self.all
    }

    /// The first attribute from a position on, for one that asks for the attributes in turn.
    #[inline(always)]
    pub(crate) fn first_near(&self, p: u32, guess: &mut usize) -> Option<u32>
        ensures { IsFirstFrom itself self.now.all p result }
    {
        self.all.first_near(p, guess)
    }

    /// Whether an unprotected attribute may stand in the stretch of a position.
    #[inline(always)]
    pub(crate) fn is_marked(&self, p: u32) -> bool
        ensures { result ≡ is_marked self.now p }
    {
        let stretch = (p / 256) as usize;
        if stretch < self.marks.len() {
            self.marks[stretch]
        } else {
            false
        }
    }

    /// Takes out all positions, for a buffer of nulls.
    pub(crate) fn clear(&mut self)
        ensures empty { (n : ℕ) → AreListed self.new (replicate n blank) }
        ensures room { self.new.room ≡ self.old.room }
    {
        self.all.clear();
        self.marks.fill(false);
    }

    /// Notes the attribute that a position holds from now on, where it is known which one it held.
    #[inline(always)]
    pub(crate) fn note(&mut self, p: u32, was: Option<Attr>, is: Option<Attr>)
        requires known { (cells : List Cell) × AreListed self.old cells
            × (was ≡ attribute_of (cell_at cells p)) }
        requires below { p < self.old.room }
        ensures noted { (cells : List Cell) (cell : Cell) → AreListed self.old cells
            → p < length cells → is ≡ attribute_of cell
            → AreListed self.new (slice_set cells p cell) }
        ensures room { self.new.room ≡ self.old.room }
    {
        note(&mut self.all, p, is_any(&was), is_any(&is));
        if is_free(&is) {
            self.marks[(p / 256) as usize] = true;
        }
    }

    /// Takes out so many positions from one on, round a buffer of `n`.
    #[inline(always)]
    pub(crate) fn cut_round(&mut self, n: u32, b: u32, steps: u32)
        requires listed { (cells : List Cell) × AreListed self.old cells × (length cells ≡ n) }
        requires inside { b < n }
        requires few { steps ≤ n }
        ensures cut { (old new : List Cell) → AreListed self.old old → LoseRound n b steps old new
            → AreListed self.new new }
        ensures room { self.new.room ≡ self.old.room }
    {
        self.all.cut_round(n, b, steps);
    }

    /// Makes it hold what another index holds, for which it has room.
    pub(crate) fn copy_from(&mut self, other: &Index)
        requires { (cells : List Cell) × AreListed other.now cells
            × (length cells ≤ self.old.room) }
        ensures copied { (cells : List Cell) → AreListed other.now cells
            → AreListed self.new cells }
        ensures room { self.new.room ≡ self.old.room }
    {
        self.all.copy_from(&other.all);
        copy_marks(&mut self.marks, &other.marks);
    }
}
