//! What orders work on: all cells of a buffer, or only so much of them as its user needs.

ghost use Rattle.std.specs.Prelude.{◌≡◌, ◌<◌, ◌≤◌, ◌+◌, ◌%◌, ℕ, List, true, length, replicate, unwrap_or};
ghost use Rattle.std.specs.List.{list_all};
ghost use Rattle.std.proofs.Common.{ap, sym};
ghost use Rattle.ds_codec.specs.declared.cell.Cell.{Cell};
ghost use Rattle.ds_codec.specs.Character.{is_text};
ghost use Rattle.ds_screen.specs.Picture.{blank, cell_at};
ghost use Rattle.ds_screen.specs.Fields.{is_attribute, attribute_of, first_open};
ghost use Rattle.ds_screen.specs.Orders.{single_cell, text_cell, repeated_cell, erased_cell, nulled_cell, first_from, tab_stop};
ghost use Rattle.ds_screen.specs.Reset.{after_reset};
ghost use Rattle.ds_screen.specs.Surface.{Becomes, Tells};

use crate::cells::Cells;
use crate::ranges;
use crate::records::Reset;
use ds_codec::{Attr, Cell, Char};

/// What orders work on. No method takes memory.
pub(crate) trait Surface: Drop {
    /// It shows these cells.
    ghost shows: { Self → List Cell → Type 0 };

    /// How many positions it has.
    ghost size: { Self → ℕ };

    /// How many positions there is room for.
    ghost room: { Self → ℕ };

    /// The number of positions.
    fn positions(&self) -> u32
        ensures { result ≡ size self.now };

    /// Makes it this many nulls.
    fn make_blank(&mut self, n: u32)
        requires { n ≤ room self.old }
        ensures shown { shows self.new (replicate n blank) }
        ensures whole { size self.new ≡ n }
        ensures room { room self.new ≡ room self.old };

    /// Makes it the same as another.
    fn make_copy(&mut self, other: &Self)
        requires { size other.now ≤ room self.old }
        ensures shown { Tells shows other.now (shows self.new) }
        ensures whole { size self.new ≡ size other.now }
        ensures room { room self.new ≡ room self.old };

    /// The attribute at a position.
    fn attribute_at(&self, p: u32) -> Option<Attr>
        requires { p < size self.now }
        ensures { Tells shows self.now (λ cells. result ≡ attribute_of (cell_at cells p)) };

    /// Stores a cell at a position.
    fn store(&mut self, p: u32, cell: Cell)
        requires { p < size self.old }
        ensures shown { Becomes shows self.old self.new (λ cells. single_cell cells p cell) }
        ensures whole { size self.new ≡ size self.old }
        ensures room { room self.new ≡ room self.old };

    /// Stores text round the buffer, and gives the position after it.
    fn store_text(&mut self, b: u32, run: &[u8]) -> u32
        requires inside { b < size self.old }
        requires characters { list_all is_text run.now ≡ true }
        ensures shown { Becomes shows self.old self.new (λ cells. text_cell cells b run.now) }
        ensures after { result ≡ (b + length run.now) % size self.old }
        ensures inside { result < size self.old }
        ensures whole { size self.new ≡ size self.old }
        ensures room { room self.new ≡ room self.old };

    /// Stores a character in each position from `b` up to the stop.
    fn repeat(&mut self, b: u32, stop: u32, character: Char)
        requires inside { b < size self.old }
        requires stop_inside { stop < size self.old }
        ensures shown { Becomes shows self.old self.new
            (λ cells. repeated_cell cells b stop character) }
        ensures whole { size self.new ≡ size self.old }
        ensures room { room self.new ≡ room self.old };

    /// Nulls the open characters from `b` up to the stop.
    fn erase(&mut self, b: u32, stop: u32)
        requires inside { b < size self.old }
        requires stop_inside { stop < size self.old }
        ensures shown { Becomes shows self.old self.new (λ cells. erased_cell cells b stop) }
        ensures whole { size self.new ≡ size self.old }
        ensures room { room self.new ≡ room self.old };

    /// Nulls the positions from `b` on up to the first attribute, or to the end, and gives that place.
    fn null_to_attribute(&mut self, b: u32) -> u32
        requires inside { b < size self.old }
        ensures place { Tells shows self.old
            (λ cells. result ≡ unwrap_or (first_from is_attribute cells b) (length cells)) }
        ensures shown { Becomes shows self.old self.new (λ cells. nulled_cell cells b result) }
        ensures whole { size self.new ≡ size self.old }
        ensures room { room self.new ≡ room self.old };

    /// The position after the first unprotected attribute from here on, never round the buffer; 0 where
    /// there is none.
    fn stop_from(&self, from: u32) -> u32
        requires inside { from < size self.now }
        ensures stop { Tells shows self.now (λ cells. result ≡ tab_stop cells from) }
        ensures inside { result < size self.now };

    /// Resets modified data tags.
    fn reset_modified(&mut self, which: Reset)
        ensures shown { Becomes shows self.old self.new
            (λ cells p. after_reset which (cell_at cells p)) }
        ensures whole { size self.new ≡ size self.old }
        ensures room { room self.new ≡ room self.old };

    /// The least open position; 0 where there is none.
    fn first_open(&self) -> u32
        requires { 0 < size self.now }
        ensures first { Tells shows self.now (λ cells. result ≡ first_open cells 0) }
        ensures inside { result < size self.now };

    /// The cells that it shows are as many as its positions.
    ghost sized: { (s : Self) (cells : List Cell) → shows s cells → length cells ≡ size s };
}

impl<C: Cells> Surface for C {
    ghost shows = { λ s cells. C.content s ≡ cells };

    ghost size = { λ s. length (C.content s) };

    ghost room = { C.capacity };

    ghost sized = { λ s cells same. ap length (sym same) };

    fn positions(&self) -> u32 {
        self.len()
    }

    fn make_blank(&mut self, n: u32) {
        self.clear(n);
    }

    fn make_copy(&mut self, other: &C) {
        self.copy_from(other);
    }

    fn attribute_at(&self, p: u32) -> Option<Attr> {
        match self.cell(p) {
            Cell::Field(attribute) => Some(attribute),
            Cell::Char(_) => None,
        }
    }

    fn store(&mut self, p: u32, cell: Cell) {
        ranges::store(self, p, cell);
    }

    fn store_text(&mut self, b: u32, run: &[u8]) -> u32 {
        C::put_text(self, b, run)
    }

    fn repeat(&mut self, b: u32, stop: u32, character: Char) {
        C::repeat(self, b, stop, character);
    }

    fn erase(&mut self, b: u32, stop: u32) {
        C::erase(self, b, stop);
    }

    fn null_to_attribute(&mut self, b: u32) -> u32 {
        C::null_to_attribute(self, b)
    }

    fn stop_from(&self, from: u32) -> u32 {
        C::stop_from(self, from)
    }

    fn reset_modified(&mut self, which: Reset) {
        C::reset_modified(self, which);
    }

    fn first_open(&self) -> u32 {
        C::first_open(self, 0)
    }
}
