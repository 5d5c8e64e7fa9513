//! What stands at a position of a screen.

ghost use Rattle.std.specs.Prelude.{◌≡◌};
ghost use Rattle.ds_screen.specs.Fields.{is_attribute};

use ds_codec::Cell;

/// Whether a cell holds an attribute.
pub(crate) fn is_field(cell: Cell) -> bool
    ensures { result ≡ is_attribute cell }
{
    match cell {
        Cell::Char(_) => false,
        Cell::Field(_) => true,
    }
}
