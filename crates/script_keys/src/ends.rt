//! Ends of fields.

ghost use Rattle.std.specs.Prelude.{◌≡◌, ◌<◌, ◌≤◌, length, IfSome};
ghost use Rattle.ds_screen.specs.Ring.{greatest};
ghost use Rattle.script_keys.specs.Ends.{is_filled, field_length, is_filled_at, end_steps, field_end};

use ds_codec::Cell;
use ds_screen::ring::{distance, forward};
use ds_screen::{Cells, Screen};

/// Whether a cell holds neither a null nor a space.
fn is_filled(cell: Cell) -> bool
    ensures { result ≡ is_filled cell }
{
    match cell {
        Cell::Char(character) => !(character.code() == 0x00 || character.code() == 0x40),
        Cell::Field(_) => false,
    }
}

/// How many characters stand from a place on before the next attribute round the buffer; none where there is no attribute.
fn field_length<C: Cells>(screen: &Screen<C>, start: u32) -> u32
    requires { start < length screen.now.cells }
    ensures length { result ≡ field_length screen.now.cells start }
    ensures inside { result ≤ length screen.now.cells }
{
    match screen.attr_from(start) {
        Some(stop) => distance(screen.position_count(), start, stop),
        None => 0,
    }
}

/// The last of so many positions from a place on that is neither a null nor a space, by its distance.
fn last_filled<C: Cells>(screen: &Screen<C>, start: u32, count: u32) -> Option<u32>
    requires inside { start < length screen.now.cells }
    requires few { count ≤ length screen.now.cells }
    ensures last { result ≡ greatest count (is_filled_at screen.now.cells start) }
    ensures inside { IfSome result (λ d. d < count) }
{
    let n = screen.position_count();
    let mut left = count;
    'places: while 0 < left {
        let d = left - 1;
        if is_filled(screen.cell(forward(n, start, d))) {
            return Some(d);
        }
        left = d;
    }
    None
}

/// How far from the first position of a field the cursor goes, by its length and the last position that is filled.
fn end_steps(count: u32, last: Option<u32>) -> u32
    requires { IfSome last (λ d. d < count) }
    ensures steps { result ≡ end_steps count last }
    ensures few { result ≤ count }
{
    match last {
        None => 0,
        Some(d) => { if d + 1 < count { d + 1 } else { d } }
    }
}

/// Behind the last character of a field that is neither a null nor a space, by the field's first position; its last position
/// where that is full.
pub(crate) fn field_end<C: Cells>(screen: &Screen<C>, start: u32) -> u32
    requires { start < length screen.now.cells }
    ensures end { result ≡ field_end screen.now.cells start }
    ensures inside { result < length screen.now.cells }
{
    let count = field_length(screen, start);
    let last = last_filled(screen, start, count);
    forward(screen.position_count(), start, end_steps(count, last))
}
