//! The attributes of a buffer without its cells: what orders leave of them.

pub(crate) mod worst;

ghost use Rattle.std.specs.Prelude.{◌≡◌, ◌≤◌, ◌<◌, ◌+◌, ◌%◌};
ghost use Rattle.ds_screen.specs.Marks.{reset_mark};

use crate::field::FieldAt;
use crate::mark::Mark;
use crate::ranges::reach;
use crate::records::{Reset, reset_attribute};
use crate::ring::{distance, forward, next};
use crate::surface::Surface;
use ds_codec::{Attr, Cell, Char};
use ds_places::{Change, Pages};
use std::alloc::{AllocError, Global};
use std::marker::Model;

/// The attributes of a buffer, and how many positions it has.
#[derive(Drop)]
pub(crate) struct Marks {
    marks: Pages<Mark>,
    size: u32,
    limit: u32,
}

/// A field, and the first attribute behind its own.
#[derive(Clone, Copy)]
pub(crate) struct NextField {
    pub field: FieldAt,
    pub later: Option<Mark>,
}

impl Model for Marks {
    ghost use Rattle.std.specs.Prelude.{◌≤◌};
    ghost use Rattle.ds_screen.specs.Marks.{Marked, IsKept, marked};

    ghost Value = { Marked };

    ghost view = { λ s. marked s.marks.entries s.size s.limit };

    ghost invariant = { λ s. IsKept (marked s.marks.entries s.size s.limit)
        × (s.limit ≤ s.marks.room) };
}

impl Change<Mark> for Reset {
    ghost changed = { reset_mark };

    fn change(&self, entry: Mark) -> Mark {
        Mark {
            at: entry.at,
            attribute: reset_attribute(*self, entry.attribute),
        }
    }
}

/// The position behind text of this length, which may go round more than once. Short text is spared the division.
fn behind(n: u32, b: u32, length: usize) -> u32
    requires { b < n }
    ensures value { result ≡ (b + length) % n }
    ensures inside { result < n }
{
    if length < n as usize {
        forward(n, b, length as u32)
    } else {
        forward(n, b, (length % n as usize) as u32)
    }
}

impl Marks {
    ghost use Rattle.std.specs.Prelude.{◌≡◌, ◌≤◌, ◌<◌, [], length, IfOk};
    ghost use Rattle.ds_screen.specs.Ring.{ring_back};
    ghost use Rattle.ds_screen.specs.Fields.{ruling_bits};
    ghost use Rattle.ds_screen.specs.Surface.{Tells};
    ghost use Rattle.ds_screen.specs.Marks.{IsMarked};

    /// No attribute and no position, and room for as many attributes as this.
    pub(crate) fn reserved(alloc: Global, most: u32) -> Result<Marks, AllocError>
        ensures empty { IfOk result (λ marks. (marks.marks ≡ []) × (marks.size ≡ 0)) }
        ensures room { IfOk result (λ marks. most ≤ marks.room) }
    {
        let marks = Pages::reserved(alloc, most)?;
        Ok(Marks {
            marks,
            size: 0,
            limit: most,
        })
    }

    /// The attribute that rules the last position; 00 where there is none.
    fn last_ruling(&self) -> Attr
        requires { 0 < self.now.size }
        ensures { Tells IsMarked self.now
            (λ cells. result ≡ ruling_bits cells (ring_back (length cells) 0 1)) }
    {
        match self.marks.last() {
            Some(mark) => mark.attribute,
            None => Attr::new(0),
        }
    }
}

impl Marks {
    ghost use Rattle.std.specs.Prelude.{◌≡◌, ◌<◌, ◌+◌, ◌^◌, true, [], ◌∷◌, length, IfSome, MatchOption};
    ghost use Rattle.ds_codec.specs.declared.cell.Cell.TheVariants.{Field};
    ghost use Rattle.ds_places.specs.Nearest.{IsFirstFrom};
    ghost use Rattle.ds_screen.specs.Ring.{ring_on};
    ghost use Rattle.ds_screen.specs.Picture.{cell_at};
    ghost use Rattle.ds_screen.specs.Fields.{is_attribute, attribute_from, span_of, attributes_from, field_at, field_there};
    ghost use Rattle.ds_screen.specs.Surface.{Tells};
    ghost use Rattle.ds_screen.specs.Marks.{place_of, IsMarked, bare_cells};

    /// The first attribute that stands at a position or after it.
    pub(crate) fn next_mark(&self, from: u32) -> Option<Mark>
        ensures first { IsFirstFrom place_of self.now.marks from result }
        ensures inside { IfSome result (λ mark. mark.at < self.now.size) }
        ensures small { IfSome result (λ mark. mark.at + 1 < 2 ^ 32) }
    {
        let _positions = self.size;
        self.marks.first_from(from)
    }

    /// The same, for one that asks for the attributes in turn.
    fn mark_near(&self, from: u32, guess: &mut usize) -> Option<Mark>
        ensures first { IsFirstFrom place_of self.now.marks from result }
        ensures inside { IfSome result (λ mark. mark.at < self.now.size) }
        ensures small { IfSome result (λ mark. mark.at + 1 < 2 ^ 32) }
    {
        let _positions = self.size;
        self.marks.first_near(from, guess)
    }

    /// The position of the attribute at the least distance going on round the buffer from behind a position, where
    /// `later` is the first that stands behind it.
    fn stop_after(&self, at: u32, later: Option<Mark>) -> Option<u32>
        requires inside { at < self.now.size }
        requires later { IsFirstFrom place_of self.now.marks (at + 1) later }
        ensures nearest { Tells IsMarked self.now
            (λ cells. result ≡ attribute_from cells (ring_on (length cells) at 1)) }
        ensures inside { IfSome result (λ q. q < self.now.size) }
    {
        let _positions = self.size;
        if let Some(mark) = later {
            return Some(mark.at);
        }
        match self.next_mark(0) {
            Some(mark) => Some(mark.at),
            None => None,
        }
    }

    /// How many positions the attribute at one governs: up to the next attribute round the buffer.
    fn length_before(&self, at: u32, later: Option<Mark>) -> u32
        requires inside { at < self.now.size }
        requires later { IsFirstFrom place_of self.now.marks (at + 1) later }
        ensures { Tells IsMarked self.now (λ cells. is_attribute (cell_at cells at) ≡ true
            → result ≡ length (span_of cells at)) }
    {
        let n = self.size;
        match self.stop_after(at, later) {
            Some(stop) => distance(n, next(n, at), stop),
            None => 0,
        }
    }

    /// The field of an attribute that is there, where `later` is the first attribute behind it.
    fn field_of(&self, mark: Mark, later: &Option<Mark>) -> FieldAt
        requires inside { mark.at < self.now.size }
        requires later { IsFirstFrom place_of self.now.marks (mark.at + 1) later.now }
        ensures field { Tells IsMarked self.now
            (λ cells. cell_at cells mark.at ≡ Field mark.attribute
            → result ≡ field_at cells mark.at) }
        ensures at { result.at ≡ mark.at }
        ensures small { result.at + 1 < 2 ^ 32 }
    {
        FieldAt {
            at: mark.at,
            attr: mark.attribute,
            place: next(self.size, mark.at),
            length: self.length_before(mark.at, *later),
        }
    }

    /// Whether an attribute stands at a position.
    pub(crate) fn is_marked(&self, p: u32) -> bool
        ensures { Tells IsMarked self.now (λ cells. result ≡ is_attribute (cell_at cells p)) }
    {
        match self.marks.held(p) {
            Some(_mark) => true,
            None => false,
        }
    }

    /// The same, for one that asks for positions in turn.
    pub(crate) fn is_marked_near(&self, p: u32, guess: &mut usize) -> bool
        ensures { Tells IsMarked self.now (λ cells. result ≡ is_attribute (cell_at cells p)) }
    {
        match self.marks.first_near(p, guess) {
            Some(mark) => mark.at == p,
            None => false,
        }
    }

    /// The field whose attribute stands at a position.
    pub(crate) fn field_held(&self, p: u32) -> Option<FieldAt>
        ensures { Tells IsMarked self.now (λ cells. result ≡ field_there cells p) }
    {
        let _positions = self.size;
        match self.marks.held(p) {
            Some(mark) => Some(self.field_of(mark, &self.next_mark(mark.at + 1))),
            None => None,
        }
    }

    /// The field of the first attribute from a position on, which is found already, and the attribute behind it.
    pub(crate) fn next_field(
        &self,
        from: u32,
        first: Option<Mark>,
        guess: &mut usize,
    ) -> Option<NextField>
        requires { IsFirstFrom place_of self.now.marks from first }
        ensures first { MatchOption result (attributes_from (bare_cells self.now) from ≡ [])
            (λ next. (attributes_from (bare_cells self.now) from
            ≡ next.field.at ∷ attributes_from (bare_cells self.now) (next.field.at + 1))
            × (next.field ≡ field_at (bare_cells self.now) next.field.at)) }
        ensures later { IfSome result
            (λ next. IsFirstFrom place_of self.now.marks (next.field.at + 1) next.later) }
        ensures small { IfSome result (λ next. next.field.at + 1 < 2 ^ 32) }
    {
        let _positions = self.size;
        let Some(mark) = first else {
            return None;
        };
        let later = self.mark_near(mark.at + 1, guess);
        let field = self.field_of(mark, &later);
        Some(NextField { field, later })
    }
}

impl Surface for Marks {
    ghost use Rattle.ds_screen.specs.Marks.{IsMarked};

    ghost shows = { IsMarked };

    ghost size = { λ v. v.size };

    ghost room = { λ v. v.room };

    ghost sized = { λ v cells shown. shown.sized };

    fn positions(&self) -> u32 {
        self.size
    }

    fn make_blank(&mut self, n: u32) {
        self.marks.clear();
        self.size = n;
    }

    fn make_copy(&mut self, other: &Marks) {
        self.marks.copy_from(&other.marks);
        self.size = other.size;
    }

    fn attribute_at(&self, p: u32) -> Option<Attr> {
        match self.marks.held(p) {
            Some(mark) => Some(mark.attribute),
            None => None,
        }
    }

    fn store(&mut self, p: u32, cell: Cell) {
        match cell {
            Cell::Field(attribute) => self.marks.store(Mark { at: p, attribute }),
            Cell::Char(_) => self.marks.cut(p, p + 1),
        }
    }

    fn store_text(&mut self, b: u32, run: &[u8]) -> u32 {
        let n = self.size;
        let steps = run.len().min(n as usize) as u32;
        self.marks.cut_round(n, b, steps);
        behind(n, b, run.len())
    }

    fn repeat(&mut self, b: u32, stop: u32, _character: Char) {
        let steps = reach(self.size, b, stop);
        self.marks.cut_round(self.size, b, steps);
    }

    fn erase(&mut self, _b: u32, _stop: u32) {}

    fn null_to_attribute(&mut self, b: u32) -> u32 {
        let Some(mark) = self.marks.first_from(b) else {
            return self.size;
        };
        mark.at
    }

    fn stop_from(&self, from: u32) -> u32 {
        let n = self.size;
        let mut guess = 0;
        let mut at = from;
        'marks: while let Some(mark) = self.marks.first_near(at, &mut guess) {
            if !mark.attribute.protected() {
                return next(n, mark.at);
            }
            at = mark.at + 1;
        }
        0
    }

    fn reset_modified(&mut self, which: Reset) {
        self.marks.change_each(&which);
    }

    fn first_open(&self) -> u32 {
        let n = self.size;
        let mut before = self.last_ruling();
        let mut guess = 0;
        let mut place = 0;
        'marks: while let Some(mark) = self.marks.first_near(place, &mut guess) {
            if place < mark.at && !before.protected() {
                return place;
            }
            before = mark.attribute;
            place = mark.at + 1;
        }
        if place < n && !before.protected() {
            place
        } else {
            0
        }
    }
}
