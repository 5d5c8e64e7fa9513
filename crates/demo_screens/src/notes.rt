//! Cells as they were, noted before keys change them.

ghost use Rattle.std.specs.Prelude.{◌≡◌, ◌<◌, ◌++◌, ◌∷◌, [], length, slice_set, OnOk, OnErr};
ghost use Rattle.ds_screen.specs.Picture.{cell_at};
ghost use Rattle.ds_screen.specs.Fields.{is_attribute};
ghost use Rattle.demo_screens.specs.Notes.{note_of, undone, AreAlike};

use ds_codec::Cell;
use ds_screen::{Cells, Screen};
use std::alloc::AllocError;

/// A position, and the cell that it held.
#[derive(Clone, Copy)]
pub(crate) struct Note {
    pub(crate) place: u32,
    pub(crate) cell: Cell,
}

/// Notes the cell at a position.
pub(crate) fn take_note<C: Cells>(
    screen: &Screen<C>,
    notes: &mut Vec<Note>,
    place: u32,
) -> Result<(), AllocError>
    requires { place < length screen.now.cells }
    ensures noted { OnOk result
        (notes.new.items ≡ notes.old.items ++ note_of screen.now.cells place ∷ []) }
    ensures unchanged { OnErr result (notes.new.items ≡ notes.old.items) }
{
    let cell = screen.cell(place);
    notes.push(Note { place, cell })?;
    Ok(())
}

/// Stores a cell where one of its kind stands.
fn put_cell<C: Cells>(screen: &mut Screen<C>, place: u32, cell: Cell)
    requires inside { place < length screen.old.cells }
    requires alike { is_attribute (cell_at screen.old.cells place) ≡ is_attribute cell }
    ensures { screen.new
        ≡ record screen.old { cells = slice_set screen.old.cells place cell } }
{
    match cell {
        Cell::Field(attribute) => screen.set_attr(place, attribute),
        Cell::Char(character) => screen.put_char(place, character),
    }
}

/// Puts the noted cells back, the last one first.
pub(crate) fn put_back<C: Cells>(screen: &mut Screen<C>, notes: &mut Vec<Note>)
    requires { AreAlike screen.old.cells notes.old.items }
    ensures { screen.new
        ≡ record screen.old { cells = undone screen.old.cells notes.old.items } }
{
    'notes: while let Some(note) = notes.pop() {
        let Note { place, cell } = note;
        put_cell(screen, place, cell);
    }
}
