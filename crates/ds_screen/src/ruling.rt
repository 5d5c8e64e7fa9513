//! What rules a position: the attribute that stands there, or else the nearest one before it, round the
//! buffer (GA23-0059, "Fields").

ghost use Rattle.std.specs.Prelude.{◌≡◌, ◌<◌, length};
ghost use Rattle.ds_screen.specs.Ring.{ring_back};
ghost use Rattle.ds_screen.specs.Picture.{cell_at};
ghost use Rattle.ds_screen.specs.Fields.{ruling_bits, ruling_after, is_open_under, is_open};

use crate::cells::Cells;
use ds_codec::{Attr, Cell};

/// What rules a position that holds this cell, by what rules the position before it.
pub(crate) fn ruled_on(before: Attr, cell: &Cell) -> Attr
    ensures { result ≡ ruling_after before cell.now }
{
    match cell {
        Cell::Field(attribute) => *attribute,
        Cell::Char(_) => before,
    }
}

/// Whether a position may be typed over.
pub(crate) fn is_open_at<C: Cells>(cells: &C, p: u32) -> bool
    requires { p < length (C.content cells.now) }
    ensures { result ≡ is_open (C.content cells.now) p }
{
    is_open_cell(cells.ruling(p), &cells.cell(p))
}

/// Whether a cell may be typed over, by what rules it.
pub(crate) fn is_open_cell(ruling: Attr, cell: &Cell) -> bool
    ensures { result ≡ is_open_under ruling cell.now }
{
    match cell {
        Cell::Field(_) => false,
        Cell::Char(_) => !ruling.protected(),
    }
}
