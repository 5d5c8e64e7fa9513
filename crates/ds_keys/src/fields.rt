//! Where fields start.

ghost use Rattle.std.specs.Prelude.{◌≡◌, ◌&&◌};
ghost use Rattle.ds_screen.specs.Fields.{is_character};
ghost use Rattle.ds_screen.specs.Orders.{is_unprotected_attribute};

use ds_codec::Cell;

/// Whether a field starts at a cell, by the cell before it.
pub(crate) fn starts_field(before: Cell, cell: Cell) -> bool
    ensures { result ≡ (is_character cell && is_unprotected_attribute before) }
{
    match (cell, before) {
        (Cell::Char(_), Cell::Field(attribute)) => !attribute.protected(),
        _ => false,
    }
}
