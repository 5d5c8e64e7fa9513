//! Program Tab, and where fields start.

ghost use Rattle.std.specs.Prelude.{◌≡◌, ◌<◌, ◌&&◌};
ghost use Rattle.ds_screen.specs.Fields.{is_attribute, is_character};
ghost use Rattle.ds_screen.specs.Orders.{first_from, is_unprotected_attribute, tabbed};
ghost use Rattle.ds_screen.specs.State.{writing};
ghost use Rattle.ds_screen.specs.Surface.{Makes};

use crate::state::State;
use crate::surface::Surface;
use ds_codec::Cell;

/// Whether a cell holds an unprotected attribute.
pub(crate) fn is_unprotected_field(cell: Cell) -> bool
    ensures { result ≡ is_unprotected_attribute cell }
{
    match cell {
        Cell::Field(attribute) => !attribute.protected(),
        Cell::Char(_) => false,
    }
}

/// Whether a field that may be typed into starts at a cell, by the cell before it.
pub(crate) fn starts_field(before: &Cell, cell: &Cell) -> bool
    ensures { result ≡ (is_character cell.now && is_unprotected_attribute before.now) }
{
    match (cell, before) {
        (Cell::Char(_), Cell::Field(attribute)) => !attribute.protected(),
        _ => false,
    }
}

/// Goes to the first unprotected field from the buffer address on. Right behind text or a graphic escape,
/// or a tab that ran to the end, it first nulls up to the next attribute or the end (our own rule).
pub(crate) fn program_tab<S: Surface>(surface: &mut S, state: State) -> State
    requires inside { state.address < S.size surface.old }
    ensures tabs { Makes S.shows surface.old surface.new (λ cells later. writing later result
        ≡ tabbed (writing cells state) state.nulling
        (first_from is_attribute cells state.address)) }
    ensures cursor { result.cursor ≡ state.cursor }
    ensures inside { result.address < S.size surface.old }
    ensures whole { S.size surface.new ≡ S.size surface.old }
    ensures room { S.room surface.new ≡ S.room surface.old }
{
    if !state.nulling {
        return state.at(surface.stop_from(state.address));
    }
    let place = surface.null_to_attribute(state.address);
    if place < surface.positions() {
        state.at(surface.stop_from(place))
    } else {
        State {
            cursor: state.cursor,
            address: 0,
            nulling: true,
        }
    }
}
