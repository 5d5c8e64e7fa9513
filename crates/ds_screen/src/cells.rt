//! A buffer of cells, however it is kept.

ghost use Rattle.std.specs.Prelude.{◌≡◌, ℕ, ◌<◌, ◌≤◌, ◌^◌, ◌+◌, ◌%◌, List, [], IfOk, IfSome, true, length, replicate, slice_set, unwrap_or};
ghost use Rattle.std.specs.List.{list_all};
ghost use Rattle.ds_codec.specs.declared.cell.Cell.{Cell};
ghost use Rattle.ds_codec.specs.Character.{is_text};
ghost use Rattle.ds_screen.specs.Picture.{blank, cell_at, ruled};
ghost use Rattle.ds_screen.specs.Fields.{is_attribute, attribute_of, attribute_before, attribute_from, ruling_bits, ruling_after, first_open};
ghost use Rattle.ds_screen.specs.Shown.{are_nulls, printed_under};
ghost use Rattle.ds_screen.specs.Orders.{text_cell, repeated_cell, erased_cell, nulled_cell, first_from, tab_stop};
ghost use Rattle.ds_screen.specs.Reset.{after_reset};
ghost use Rattle.ds_screen.specs.Starts.{start_ahead};

use crate::ranges::reach;
use crate::records::{Reset, reset_cell};
use crate::ring::{next, previous};
use crate::ruling::{is_open_cell, ruled_on};
use crate::shown::{is_null, printed_under};
use crate::tab::{is_unprotected_field, starts_field};
use ds_codec::{Attr, Cell, Char};
use std::alloc::{AllocError, Global};

/// The cells of a character buffer (GA23-0059, "Character buffer"), by their positions from 0 on. Only
/// `reserved` takes memory.
pub trait Cells: Drop {
    /// The cells, in the order of their positions.
    ghost content: { Self → List Cell };

    /// How many cells there is room for.
    ghost capacity: { Self → ℕ };

    /// No cell, and room for `most`.
    fn reserved(alloc: Global, most: u32) -> Result<Self, AllocError>
    where
        Self: Sized,
        ensures empty { IfOk result (λ cells. content cells ≡ []) }
        ensures room { IfOk result (λ cells. most ≤ capacity cells) };

    /// The number of cells.
    fn len(&self) -> u32
        ensures { result ≡ length (content self.now) };

    /// Makes it this many nulls.
    fn clear(&mut self, n: u32)
        requires { n ≤ capacity self.old }
        ensures nulls { content self.new ≡ replicate n blank }
        ensures room { capacity self.new ≡ capacity self.old };

    /// The cell at a position.
    fn cell(&self, p: u32) -> Cell
        requires { p < length (content self.now) }
        ensures { result ≡ cell_at (content self.now) p };

    /// Stores a cell at a position.
    fn put(&mut self, p: u32, cell: Cell)
        requires { p < length (content self.old) }
        ensures stored { content self.new ≡ slice_set (content self.old) p cell }
        ensures room { capacity self.new ≡ capacity self.old };

    /// The position of the attribute at the least distance going back round the buffer, `p` itself
    /// first; `None` where there is no attribute.
    fn attr_before(&self, p: u32) -> Option<u32>
        requires { p < length (content self.now) }
        ensures nearest { result ≡ attribute_before (content self.now) p }
        ensures inside { IfSome result (λ q. q < length (content self.now)) };

    /// The position of the attribute at the least distance going on round the buffer, `p` itself
    /// first; `None` where there is no attribute.
    fn attr_from(&self, p: u32) -> Option<u32>
        requires { p < length (content self.now) }
        ensures nearest { result ≡ attribute_from (content self.now) p }
        ensures inside { IfSome result (λ q. q < length (content self.now)) };

    /// The same, for one that asks for the attributes in turn: `guess` is what the search before left there, and any number
    /// at first. It may spare a search, and changes nothing of what is found.
    fn attr_near(&self, p: u32, guess: &mut usize) -> Option<u32>
        requires { p < length (content self.now) }
        ensures nearest { result ≡ attribute_from (content self.now) p }
        ensures inside { IfSome result (λ q. q < length (content self.now)) }
    {
        let _unused = guess;
        self.attr_from(p)
    }

    /// Makes the cells those of another buffer.
    fn copy_from(&mut self, other: &Self)
        requires { length (content other.now) ≤ capacity self.old }
        ensures copied { content self.new ≡ content other.now }
        ensures room { capacity self.new ≡ capacity self.old };

    /// The attribute that rules a position; 00, an unprotected one, in a buffer without attributes.
    fn ruling(&self, p: u32) -> Attr
        requires { p < length (content self.now) }
        ensures { result ≡ ruling_bits (content self.now) p }
    {
        match self.attr_before(p) {
            Some(q) => ruled_on(Attr::new(0), &self.cell(q)),
            None => Attr::new(0),
        }
    }

    /// What rules a position, by what rules the one before it, and what is printed there.
    fn print(&self, p: u32, ruling: Attr) -> (Attr, u8)
        requires { p < length (content self.now) }
        ensures ruled { result.0 ≡ ruling_after ruling (cell_at (content self.now) p) }
        ensures printed { result.1 ≡ printed_under result.0 (cell_at (content self.now) p) }
        ensures ascii { result.1 < 128 }
    {
        let cell = self.cell(p);
        let ruled = ruled_on(ruling, &cell);
        (ruled, printed_under(ruled, &cell))
    }

    /// Whether so many positions from one on, never round the buffer, hold nulls alone.
    fn are_nulls(&self, from: u32, count: u32) -> bool
        requires { from + count ≤ length (content self.now) }
        ensures { result ≡ are_nulls (content self.now) from count }
    {
        let _places = self.len();
        'places: for p in from..from + count {
            if !is_null(&self.cell(p)) {
                return false;
            }
        }
        true
    }

    /// Stores a run of text round the buffer, and gives the position after it.
    fn put_text(&mut self, b: u32, run: &[u8]) -> u32
        requires inside { b < length (content self.old) }
        requires characters { list_all is_text run.now ≡ true }
        ensures stored { content self.new
            ≡ ruled (length (content self.old)) (text_cell (content self.old) b run.now) }
        ensures after { result ≡ (b + length run.now) % length (content self.old) }
        ensures inside { result < length (content self.old) }
        ensures whole { length (content self.new) ≡ length (content self.old) }
        ensures room { capacity self.new ≡ capacity self.old }
    {
        let n = self.len();
        let mut at = b;
        'bytes: for byte in run {
            let character = Char::new(*byte, false).unwrap();
            self.put(at, Cell::Char(character));
            at = next(n, at);
        }
        at
    }

    /// Stores a character in each position from `b` up to the stop.
    fn repeat(&mut self, b: u32, stop: u32, character: Char)
        requires inside { b < length (content self.old) }
        requires stop_inside { stop < length (content self.old) }
        ensures stored { content self.new
            ≡ ruled (length (content self.old)) (repeated_cell (content self.old) b stop character) }
        ensures whole { length (content self.new) ≡ length (content self.old) }
        ensures room { capacity self.new ≡ capacity self.old }
    {
        let n = self.len();
        let mut at = b;
        'steps: for steps in 0..reach(n, b, stop) {
            self.put(at, Cell::Char(character));
            at = next(n, at);
        }
    }

    /// Nulls the open characters from `b` up to the stop.
    fn erase(&mut self, b: u32, stop: u32)
        requires inside { b < length (content self.old) }
        requires stop_inside { stop < length (content self.old) }
        ensures stored { content self.new
            ≡ ruled (length (content self.old)) (erased_cell (content self.old) b stop) }
        ensures whole { length (content self.new) ≡ length (content self.old) }
        ensures room { capacity self.new ≡ capacity self.old }
    {
        let n = self.len();
        let mut bits = self.ruling(previous(n, b));
        let mut at = b;
        'steps: for steps in 0..reach(n, b, stop) {
            let cell = self.cell(at);
            bits = ruled_on(bits, &cell);
            if is_open_cell(bits, &cell) {
                self.put(at, Cell::Char(Char::null()));
            }
            at = next(n, at);
        }
    }

    /// Nulls the positions from `b` on up to the first attribute, or to the end, and gives that place.
    fn null_to_attribute(&mut self, b: u32) -> u32
        requires inside { b < length (content self.old) }
        ensures place { result ≡ unwrap_or (first_from is_attribute (content self.old) b)
            (length (content self.old)) }
        ensures nulled { content self.new
            ≡ ruled (length (content self.old)) (nulled_cell (content self.old) b result) }
        ensures whole { length (content self.new) ≡ length (content self.old) }
        ensures room { capacity self.new ≡ capacity self.old }
    {
        let n = self.len();
        'places: for p in b..n {
            if is_field(self.cell(p)) {
                return p;
            }
            self.put(p, Cell::Char(Char::null()));
        }
        n
    }

    /// The position after the first unprotected attribute from here on, never round the buffer; 0 where
    /// there is none.
    fn stop_from(&self, from: u32) -> u32
        requires inside { from < length (content self.now) }
        ensures stop { result ≡ tab_stop (content self.now) from }
        ensures inside { result < length (content self.now) }
    {
        let n = self.len();
        'places: for p in from..n {
            if is_unprotected_field(self.cell(p)) {
                return next(n, p);
            }
        }
        0
    }

    /// Resets modified data tags.
    fn reset_modified(&mut self, which: Reset)
        ensures stored { content self.new
            ≡ ruled (length (content self.old)) (λ p. after_reset which (cell_at (content self.old) p)) }
        ensures whole { length (content self.new) ≡ length (content self.old) }
        ensures room { capacity self.new ≡ capacity self.old }
    {
        'places: for p in 0..self.len() {
            let cell = reset_cell(which, &self.cell(p));
            self.put(p, cell);
        }
    }

    /// The open character at the least distance going on, `from` itself first; 0 where there is none.
    fn first_open(&self, from: u32) -> u32
        requires { from < length (content self.now) }
        ensures first { result ≡ first_open (content self.now) from }
        ensures inside { result < length (content self.now) }
    {
        let n = self.len();
        let mut bits = self.ruling(previous(n, from));
        let mut at = from;
        'steps: for steps in 0..n {
            let cell = self.cell(at);
            bits = ruled_on(bits, &cell);
            if is_open_cell(bits, &cell) {
                return at;
            }
            at = next(n, at);
        }
        0
    }

    /// The first position of a field that may be typed into, at the least positive distance going on, `from` itself last; 0
    /// where there is none.
    fn start_ahead(&self, from: u32) -> u32
        requires { from < length (content self.now) }
        ensures start { result ≡ start_ahead (content self.now) from }
        ensures inside { result < length (content self.now) }
    {
        let n = self.len();
        let mut place = from;
        'steps: for steps in 0..n {
            let before = self.cell(place);
            place = next(n, place);
            if starts_field(&before, &self.cell(place)) {
                return place;
            }
        }
        0
    }
}

/// Whether a cell holds an attribute.
pub(crate) fn is_field(cell: Cell) -> bool
    ensures { result ≡ is_attribute cell }
{
    match cell {
        Cell::Field(_) => true,
        Cell::Char(_) => false,
    }
}

/// The attribute that a cell holds, if it holds one.
pub(crate) fn attribute_in(cell: &Cell) -> Option<Attr>
    ensures { result ≡ attribute_of cell.now }
{
    match cell {
        Cell::Field(attribute) => Some(*attribute),
        Cell::Char(_) => None,
    }
}
