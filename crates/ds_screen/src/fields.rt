//! The fields of a buffer, one after the other.

ghost use Rattle.std.specs.Prelude.{◌≡◌, ◌<◌, ◌+◌, ◌^◌, true, [], ◌∷◌, length, MatchOption, IfSome};
ghost use Rattle.ds_screen.specs.Ring.{ring_on};
ghost use Rattle.ds_screen.specs.Picture.{cell_at};
ghost use Rattle.ds_screen.specs.Fields.{is_attribute, bits_of, attribute_from, field_at, attributes_from, span_of, IsAhead};

use crate::cells::Cells;
use crate::field::FieldAt;
use crate::ring::{distance, next};
use ds_codec::{Attr, Cell};
use std::marker::Model;

/// The fields of a screen that are still to come, in rising order of their attributes. Takes no memory. The first
/// attribute from `from` on round the buffer is known, so each field costs one search, for the attribute behind its own,
/// and none where that is the next one of its block.
#[derive(Drop)]
pub struct Fields<'a, C: Cells> {
    cells: &'a C,
    from: u32,
    ahead: Option<u32>,
    guess: usize,
}

/// A field, and the attribute behind its own round the buffer.
#[derive(Clone, Copy)]
struct Found {
    field: FieldAt,
    ahead: Option<u32>,
}

impl<'a, C: Cells> Model for Fields<'a, C> {
    ghost use Rattle.std.specs.Prelude.{List};
    ghost use Rattle.ds_screen.specs.declared.field.FieldAt.{FieldAt};
    ghost use Rattle.ds_screen.specs.Fields.{fields_from, IsAhead};

    ghost Value = { List FieldAt };

    ghost view = { λ s. fields_from (C.content s.cells.now) s.from };

    ghost invariant = { λ s. IsAhead (C.content s.cells.now) s.from s.ahead };
}

impl<'a, C: Cells> Fields<'a, C> {
    ghost use Rattle.ds_screen.specs.Fields.{fields_of};

    pub(crate) fn new(cells: &'a C) -> Fields<'a, C>
        ensures { result ≡ fields_of (C.content cells.now) }
    {
        let mut guess = 0;
        let ahead = first_ahead(cells, &mut guess);
        Fields {
            cells,
            from: 0,
            ahead,
            guess,
        }
    }
}

impl<'a, C: Cells> Iterator for Fields<'a, C> {
    type Item = FieldAt;

    ghost use Rattle.std.specs.Iterator.{YieldsFirst, item_count};

    ghost next_gives = { YieldsFirst (λ rest. rest) };

    ghost remaining = { item_count (λ rest. rest) };

    fn next(&mut self) -> Option<FieldAt> {
        let cells = self.cells;
        let found = next_field(cells, self.from, self.ahead, &mut self.guess)?;
        self.from = found.field.at + 1;
        self.ahead = found.ahead;
        Some(found.field)
    }
}

/// The first attribute of a buffer.
fn first_ahead<C: Cells>(cells: &C, guess: &mut usize) -> Option<u32>
    ensures { IsAhead (C.content cells.now) 0 result }
{
    if cells.len() == 0 {
        return None;
    }
    cells.attr_near(0, guess)
}

/// How many cells an attribute governs: up to the next attribute round the buffer.
fn length_to<C: Cells>(cells: &C, at: u32, ahead: Option<u32>) -> u32
    requires inside { at < length (C.content cells.now) }
    requires there { is_attribute (cell_at (C.content cells.now) at) ≡ true }
    requires ahead { ahead
        ≡ attribute_from (C.content cells.now) (ring_on (length (C.content cells.now)) at 1) }
    requires within { IfSome ahead (λ q. q < length (C.content cells.now)) }
    ensures { result ≡ length (span_of (C.content cells.now) at) }
{
    let n = cells.len();
    match ahead {
        Some(stop) => distance(n, next(n, at), stop),
        None => 0,
    }
}

/// The field whose attribute stands at a position, and the attribute behind it.
fn field_of<C: Cells>(cells: &C, at: u32, attr: Attr, guess: &mut usize) -> Found
    requires inside { at < length (C.content cells.now) }
    requires there { is_attribute (cell_at (C.content cells.now) at) ≡ true }
    requires bits { attr ≡ bits_of (cell_at (C.content cells.now) at) }
    ensures field { result.field ≡ field_at (C.content cells.now) at }
    ensures ahead { IsAhead (C.content cells.now) (at + 1) result.ahead }
{
    let place = next(cells.len(), at);
    let ahead = cells.attr_near(place, guess);
    let length = length_to(cells, at, ahead);
    let field = FieldAt {
        at,
        attr,
        place,
        length,
    };
    Found { field, ahead }
}

/// The first field whose attribute stands at a position or after it, where the first attribute from there on round the
/// buffer is found already.
fn next_field<C: Cells>(
    cells: &C,
    from: u32,
    ahead: Option<u32>,
    guess: &mut usize,
) -> Option<Found>
    requires { IsAhead (C.content cells.now) from ahead }
    ensures first { MatchOption result
        (attributes_from (C.content cells.now) from ≡ [])
        (λ found. (attributes_from (C.content cells.now) from
        ≡ found.field.at ∷ attributes_from (C.content cells.now) (found.field.at + 1))
        × (found.field ≡ field_at (C.content cells.now) found.field.at)) }
    ensures ahead { IfSome result
        (λ found. IsAhead (C.content cells.now) (found.field.at + 1) found.ahead) }
    ensures small { IfSome result (λ found. found.field.at + 1 < 2 ^ 32) }
{
    if from >= cells.len() {
        return None;
    }
    let at = match ahead {
        Some(at) => at,
        None => return None,
    };
    if at < from {
        return None;
    }
    match cells.cell(at) {
        Cell::Field(attr) => Some(field_of(cells, at, attr, guess)),
        Cell::Char(_) => None,
    }
}
