//! One cell, and how far a range of cells goes.

ghost use Rattle.std.specs.Prelude.{◌≡◌, ◌<◌, ◌≤◌, length, ◌==◌, if◌then◌else◌};
ghost use Rattle.ds_screen.specs.Ring.{ring_distance};
ghost use Rattle.ds_screen.specs.Picture.{ruled};
ghost use Rattle.ds_screen.specs.Orders.{single_cell};

use crate::cells::Cells;
use crate::ring::distance;
use ds_codec::Cell;

/// Stores one cell.
pub(crate) fn store<C: Cells>(cells: &mut C, b: u32, cell: Cell)
    requires inside { b < length (C.content cells.old) }
    ensures stored { C.content cells.new
        ≡ ruled (length (C.content cells.old)) (single_cell (C.content cells.old) b cell) }
    ensures whole { length (C.content cells.new) ≡ length (C.content cells.old) }
    ensures room { C.capacity cells.new ≡ C.capacity cells.old }
{
    cells.put(b, cell);
}

/// How many positions lie from `b` up to the stop: all of them where the stop is `b`.
pub(crate) fn reach(n: u32, b: u32, stop: u32) -> u32
    requires from_inside { b < n }
    requires stop_inside { stop < n }
    ensures steps { result ≡ (if b == stop then n else ring_distance n b stop) }
    ensures within { result ≤ n }
{
    if b == stop { n } else { distance(n, b, stop) }
}
