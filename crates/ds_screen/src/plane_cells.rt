//! A buffer kept in planes, with a sorted index of its attributes.

ghost use Rattle.std.specs.Prelude.{◌≡◌, ◌≤◌, ◌<◌, ◌+◌, ◌%◌, true, if◌then◌else◌, length};
ghost use Rattle.std.specs.List.{list_all};
ghost use Rattle.ds_codec.specs.declared.cell.Cell.{Cell};
ghost use Rattle.ds_codec.specs.Character.{is_text};
ghost use Rattle.ds_places.specs.Places.{is_round};
ghost use Rattle.ds_screen.specs.Picture.{cell_at, ruled};
ghost use Rattle.ds_screen.specs.Orders.{text_cell};
ghost use Rattle.ds_screen.specs.Reset.{after_reset};
ghost use Rattle.ds_screen.specs.Planes.{IsIndex};

use crate::cells::{Cells, attribute_in};
use crate::counted::attr_before_counted;
use crate::index::{Index, is_free};
use crate::planes::Planes;
use crate::probed::Probed;
use crate::ranges::reach;
use crate::records::{Reset, reset_cell};
use crate::ring::{distance, forward, next, previous};
use crate::ruling::{is_open_cell, ruled_on};
use ds_codec::{Attr, Cell, Char};
use std::alloc::{AllocError, Global};
use std::marker::Model;

/// A code and its kind for each position, the positions of the attributes in rising order, and marks of the stretches in which
/// unprotected ones may stand. It costs what it looks at: a search goes over the attributes, by halving.
#[derive(Drop)]
pub struct PlaneCells {
    planes: Planes,
    index: Index,
}

impl Model for PlaneCells {
    ghost use Rattle.std.specs.Prelude.{◌≤◌};
    ghost use Rattle.ds_screen.specs.Planes.{Held};
    ghost use Rattle.ds_screen.specs.Listed.{AreListed};

    ghost Value = { Held };

    ghost view = { λ s. s.planes };

    ghost invariant = { λ s. AreListed s.index s.planes.cells
        × (s.planes.room ≤ s.index.room) };
}

/// Stores a character in so many positions from one on, round the buffer.
fn fill_round(planes: &mut Planes, b: u32, steps: u32, character: Char)
    requires inside { b < length planes.old.cells }
    requires few { steps ≤ length planes.old.cells }
    ensures filled { planes.new ≡ record planes.old {
      cells = ruled (length planes.old.cells)
          (λ p. if is_round (length planes.old.cells) b steps p then Cell.Char character else cell_at planes.old.cells p);
    } }
{
    let left = planes.len() - b;
    if steps <= left {
        planes.fill(b, b + steps, character);
    } else {
        planes.fill(b, b + left, character);
        planes.fill(0, steps - left, character);
    }
}

/// Stores a run of text round the buffer, and gives the position after it.
#[inline(always)]
fn write_round(planes: &mut Planes, b: u32, run: &[u8]) -> u32
    requires inside { b < length planes.old.cells }
    requires characters { list_all is_text run.now ≡ true }
    ensures written { planes.new ≡ record planes.old {
      cells = ruled (length planes.old.cells)
          (text_cell planes.old.cells b run.now);
    } }
    ensures after { result ≡ (b + length run.now) % length planes.old.cells }
    ensures inside { result < length planes.old.cells }
{
    let n = planes.len();
    let mut at = b;
    let mut done = 0;
    'parts: while done < run.len() {
        let count = (run.len() - done).min((n - at) as usize) as u32;
        planes.write(at, run, done, count);
        done += count as usize;
        at = if at + count < n { at + count } else { 0 };
    }
    at
}

/// Resets the modified data tags of the attributes that are listed.
fn reset_listed(planes: &mut Planes, index: &Index, which: Reset)
    requires { IsIndex index.now.all planes.old.cells }
    ensures reset { planes.new ≡ record planes.old {
      cells = ruled (length planes.old.cells)
          (λ p. after_reset which (cell_at planes.old.cells p));
    } }
{
    let _places = planes.len();
    let mut guess = 0;
    let mut at = 0;
    'listed: while let Some(q) = index.first_near(at, &mut guess) {
        let cell = reset_cell(which, &planes.cell(q));
        planes.put(q, cell);
        at = q + 1;
    }
}

impl PlaneCells {
    ghost use Rattle.std.specs.Prelude.{◌≡◌, ◌<◌, ◌≤◌, true, not, length};
    ghost use Rattle.ds_codec.specs.Attribute.{is_protected};
    ghost use Rattle.ds_screen.specs.Ring.{ring_on};
    ghost use Rattle.ds_screen.specs.Picture.{cell_at, ruled};
    ghost use Rattle.ds_screen.specs.Fields.{is_attribute, ruling_bits, first_open};
    ghost use Rattle.ds_screen.specs.Planes.{IsIndex, HasNone, stretch_cell, erased_for};
    ghost use Rattle.ds_screen.specs.Starts.{start_ahead};
    ghost use Rattle.ds_screen.specs.Listed.{IsFirstFree, IsFirstOpening};

    /// The index of the attributes, with counts of looks that begin at 0.
    #[inline(always)]
    pub fn probed(&self) -> Probed<'_>
        ensures index { IsIndex result.positions self.now.cells }
        ensures count { result.probes ≡ 0 }
        ensures blocks { result.blocks ≡ 0 }
    {
        let _places = self.planes.len();
        Probed::new(self.index.all())
    }

    /// The attribute that rules a position; 00, an unprotected one, in a buffer without attributes.
    fn ruling_at(&self, p: u32) -> Attr
        requires { p < length self.now.cells }
        ensures { result ≡ ruling_bits self.now.cells p }
    {
        match self.attr_before(p) {
            Some(q) => ruled_on(Attr::new(0), &self.planes.cell(q)),
            None => Attr::new(0),
        }
    }

    /// How many characters stand from a position on before the next attribute round the buffer, at most so many.
    fn characters_from(&self, at: u32, most: u32) -> u32
        requires inside { at < length self.now.cells }
        requires few { most ≤ length self.now.cells }
        ensures within { result ≤ most }
        ensures characters { HasNone self.now.cells at result }
        ensures ends { result < most → is_attribute
            (cell_at self.now.cells (ring_on (length self.now.cells) at result)) ≡ true }
    {
        match self.attr_from(at) {
            Some(q) => distance(self.planes.len(), at, q).min(most),
            None => most,
        }
    }

    /// The first unprotected attribute from a position on, never round the buffer. It passes over the stretches in which none
    /// stands.
    fn unprotected_from(&self, from: u32) -> Option<u32>
        ensures { IsFirstFree self.now.cells from result }
    {
        let n = self.planes.len();
        let mut at = from;
        'places: while at < n {
            let steps = if self.index.is_marked(at) {
                if is_free(&self.planes.attribute(at)) {
                    return Some(at);
                }
                1
            } else {
                256 - at % 256
            };
            at += steps.min(n - at);
        }
        None
    }

    /// The first unprotected attribute from a position on, never round the buffer, that a character follows.
    fn opening_from(&self, from: u32) -> Option<u32>
        ensures { IsFirstOpening self.now.cells from result }
    {
        let n = self.planes.len();
        let mut at = from;
        'openings: while let Some(q) = self.unprotected_from(at) {
            if !self.planes.has_attribute(next(n, q)) {
                return Some(q);
            }
            at = q + 1;
        }
        None
    }

    /// The first position of a field that may be typed into, at the least positive distance going on, `from` itself last; 0
    /// where there is none.
    fn start_from(&self, from: u32) -> u32
        requires { from < length self.now.cells }
        ensures start { result ≡ start_ahead self.now.cells from }
        ensures inside { result < length self.now.cells }
    {
        let n = self.planes.len();
        if let Some(q) = self.opening_from(from) {
            return next(n, q);
        }
        match self.opening_from(0) {
            Some(q) => next(n, q),
            None => 0,
        }
    }

    /// The open position at the least distance going on, `from` itself first; 0 where there is none.
    fn open_from(&self, from: u32) -> u32
        requires { from < length self.now.cells }
        ensures first { result ≡ first_open self.now.cells from }
        ensures inside { result < length self.now.cells }
    {
        if is_open_cell(self.ruling_at(from), &self.planes.cell(from)) {
            from
        } else {
            self.start_from(from)
        }
    }

    /// Nulls a stretch of characters that an attribute rules, unless it protects.
    fn null_stretch(&mut self, at: u32, run: u32, bits: Attr)
        requires inside { at < length self.old.cells }
        requires few { run ≤ length self.old.cells }
        requires characters { HasNone self.old.cells at run }
        ensures nulled { self.new ≡ record self.old {
          cells = ruled (length self.old.cells)
              (stretch_cell self.old.cells at run (not (is_protected bits)));
        } }
    {
        if !bits.protected() {
            fill_round(&mut self.planes, at, run, Char::null());
        }
    }

    /// Nulls what is open of so many positions from one on, round the buffer.
    fn erase_for(&mut self, b: u32, steps: u32)
        requires inside { b < length self.old.cells }
        requires few { steps ≤ length self.old.cells }
        ensures erased { self.new ≡ record self.old {
          cells = ruled (length self.old.cells)
              (erased_for self.old.cells b steps);
        } }
    {
        let n = self.planes.len();
        let mut bits = self.ruling_at(previous(n, b));
        let mut at = b;
        let mut gone = 0;
        'runs: while gone < steps {
            let run = self.characters_from(at, steps - gone);
            self.null_stretch(at, run, bits);
            gone += run;
            if gone == steps {
                return;
            }
            let stop = forward(n, at, run);
            bits = ruled_on(bits, &self.cell(stop));
            gone += 1;
            at = next(n, stop);
        }
    }
}

impl Cells for PlaneCells {
    ghost content = { λ s. s.cells };

    ghost capacity = { λ s. s.room };

    fn reserved(alloc: Global, most: u32) -> Result<PlaneCells, AllocError> {
        let planes = Planes::reserved(alloc, most)?;
        let index = Index::reserved(alloc, most)?;
        Ok(PlaneCells { planes, index })
    }

    fn len(&self) -> u32 {
        self.planes.len()
    }

    fn clear(&mut self, n: u32) {
        self.index.clear();
        self.planes.clear(n);
    }

    fn cell(&self, p: u32) -> Cell {
        self.planes.cell(p)
    }

    #[inline(always)]
    fn put(&mut self, p: u32, cell: Cell) {
        let _places = self.planes.len();
        let was = self.planes.attribute(p);
        let is = attribute_in(&cell);
        self.planes.put(p, cell);
        self.index.note(p, was, is);
    }

    #[inline(always)]
    fn attr_before(&self, p: u32) -> Option<u32> {
        attr_before_counted(&mut self.probed(), p)
    }

    fn attr_from(&self, p: u32) -> Option<u32> {
        let mut guess = usize::MAX;
        self.attr_near(p, &mut guess)
    }

    fn attr_near(&self, p: u32, guess: &mut usize) -> Option<u32> {
        if let Some(q) = self.index.first_near(p, guess) {
            return Some(q);
        }
        self.index.all().first_from(0)
    }

    fn copy_from(&mut self, other: &PlaneCells) {
        self.index.copy_from(&other.index);
        self.planes.copy_from(&other.planes);
    }

    #[inline(always)]
    fn print(&self, p: u32, ruling: Attr) -> (Attr, u8) {
        self.planes.print(p, ruling)
    }

    fn are_nulls(&self, from: u32, count: u32) -> bool {
        self.planes.are_nulls(from, count)
    }

    #[inline(always)]
    fn put_text(&mut self, b: u32, run: &[u8]) -> u32 {
        let n = self.planes.len();
        let steps = run.len().min(n as usize) as u32;
        self.index.cut_round(n, b, steps);
        write_round(&mut self.planes, b, run)
    }

    fn repeat(&mut self, b: u32, stop: u32, character: Char) {
        let n = self.planes.len();
        let steps = reach(n, b, stop);
        fill_round(&mut self.planes, b, steps, character);
        self.index.cut_round(n, b, steps);
    }

    fn erase(&mut self, b: u32, stop: u32) {
        let steps = reach(self.planes.len(), b, stop);
        self.erase_for(b, steps);
    }

    fn null_to_attribute(&mut self, b: u32) -> u32 {
        let n = self.planes.len();
        let stop = self.index.all().first_from(b).unwrap_or(n);
        self.planes.fill(b, stop, Char::null());
        stop
    }

    fn stop_from(&self, from: u32) -> u32 {
        match self.unprotected_from(from) {
            Some(q) => next(self.planes.len(), q),
            None => 0,
        }
    }

    fn reset_modified(&mut self, which: Reset) {
        reset_listed(&mut self.planes, &self.index, which);
    }

    fn first_open(&self, from: u32) -> u32 {
        self.open_from(from)
    }

    fn start_ahead(&self, from: u32) -> u32 {
        self.start_from(from)
    }
}
