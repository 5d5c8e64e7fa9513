//! Characters that are typed, and the nulls before them that become spaces.

ghost use Rattle.std.specs.Prelude.{◌≡◌, ◌+◌, ◌<◌, ◌≤◌, ◌++◌, length, IfOk, IfSome};
ghost use Rattle.ds_screen.specs.Ring.{greatest};
ghost use Rattle.ds_screen.specs.Picture.{cell_at};
ghost use Rattle.script_keys.specs.Fill.{is_null, is_null_back, is_empty_row, is_row_end, ends_fill, fill_reach, first_null, fill_key, filled_from, fill_to, is_in_field, fill_runs, typed_runs};

use crate::places::is_field;
use crate::run::{Run, once, repeated};
use ds_codec::Cell;
use ds_keys::Key;
use ds_screen::ring::{backward, forward};
use ds_screen::{Cells, Screen};
use std::alloc::{AllocError, Global};

/// The space's code.
const SPACE: u8 = 0x40;

fn is_null(cell: Cell) -> bool
    ensures { result ≡ is_null cell }
{
    match cell {
        Cell::Char(character) => character.code() == 0,
        Cell::Field(_) => false,
    }
}

/// Whether there are nulls alone, going back from a row's end up to its begin or to an attribute.
fn is_empty_row<C: Cells>(screen: &Screen<C>, columns: u32, end: u32) -> bool
    requires { end < length screen.now.cells }
    ensures { result ≡ is_empty_row screen.now.cells columns end }
{
    'places: for d in 0..columns {
        let place = end.saturating_sub(d);
        if !is_null(screen.cell(place)) {
            return is_field(screen.cell(place));
        }
    }
    true
}

/// Whether a position ends what is filled: an attribute, and the end of a row before that is empty.
fn ends_fill<C: Cells>(screen: &Screen<C>, columns: u32, place: u32) -> bool
    requires inside { place < length screen.now.cells }
    requires some { 0 < columns }
    ensures { result ≡ ends_fill screen.now.cells columns place }
{
    if is_field(screen.cell(place)) {
        return true;
    }
    place % columns + 1 == columns && is_empty_row(screen, columns, place)
}

/// How many positions before a place are filled where they hold nulls.
fn fill_reach<C: Cells>(screen: &Screen<C>, columns: u32, place: u32) -> u32
    requires inside { place < length screen.now.cells }
    requires some { 0 < columns }
    ensures reach { result ≡ fill_reach screen.now.cells columns place }
    ensures few { result ≤ length screen.now.cells }
{
    let n = screen.position_count();
    'steps: for steps in 0..n {
        if ends_fill(screen, columns, backward(n, place, steps + 1)) {
            return steps;
        }
    }
    0
}

/// The farthest null of so many positions before a place, by the positions between the two.
fn farthest_null<C: Cells>(screen: &Screen<C>, place: u32, count: u32) -> Option<u32>
    requires inside { place < length screen.now.cells }
    requires few { count ≤ length screen.now.cells }
    ensures farthest { result ≡ greatest count (is_null_back screen.now.cells place) }
    ensures inside { IfSome result (λ d. d < count) }
{
    let n = screen.position_count();
    let mut left = count;
    'places: while 0 < left {
        if is_null(screen.cell(backward(n, place, left))) {
            return Some(left - 1);
        }
        left -= 1;
    }
    None
}

fn fill_key(cell: Cell) -> Key
    ensures { result ≡ fill_key cell }
{
    if is_null(cell) {
        Key::Typed(SPACE)
    } else {
        Key::Right
    }
}

/// Adds a key for each of so many positions from a place on: a space for a null, a step over anything else.
fn push_filled<C: Cells>(
    runs: &mut Vec<Run>,
    screen: &Screen<C>,
    start: u32,
    count: u32,
) -> Result<(), AllocError>
    requires inside { start < length screen.now.cells }
    requires few { count ≤ length screen.now.cells }
    ensures { IfOk result (λ done. runs.new.items
        ≡ runs.old.items ++ filled_from screen.now.cells start count) }
{
    let n = screen.position_count();
    'places: for d in 0..count {
        runs.push(once(fill_key(screen.cell(forward(n, start, d)))))?;
    }
    Ok(())
}

/// Adds what fills the nulls before the cursor, and leaves it where it is.
fn push_fill<C: Cells>(runs: &mut Vec<Run>, screen: &Screen<C>) -> Result<(), AllocError>
    ensures { IfOk result (λ done. runs.new.items ≡ runs.old.items ++ fill_runs screen.now) }
{
    let n = screen.position_count();
    let cursor = screen.cursor();
    if !is_in_field(screen) {
        return Ok(());
    }
    let reach = fill_reach(screen, u32::from(screen.size().cols), cursor);
    match farthest_null(screen, cursor, reach) {
        None => Ok(()),
        Some(d) => {
            runs.push(repeated(Key::Left, d + 1))?;
            push_filled(runs, screen, backward(n, cursor, d + 1), d + 1)
        }
    }
}

/// Whether the cursor stands on a character of a field that may be typed over.
fn is_in_field<C: Cells>(screen: &Screen<C>) -> bool
    ensures { result ≡ is_in_field screen.now }
{
    let _count = screen.position_count();
    let cursor = screen.cursor();
    screen.is_open(cursor) && screen.attr_before(cursor).is_some()
}

/// The keys that type a code at the cursor. With `fills`, as s3270 does by default, the nulls before the cursor in its field become
/// spaces first: going back from the cursor to the field's attribute, and from a row into the one before it only where that has
/// a character that is no null. Takes memory for a run of keys, and one for each position up to the farthest null.
pub fn typed_runs<C: Cells>(
    alloc: Global,
    screen: &Screen<C>,
    fills: bool,
    code: u8,
) -> Result<Vec<Run>, AllocError>
    ensures { IfOk result (λ runs. runs.items ≡ typed_runs screen.now fills code) }
{
    let mut runs = Vec::new(alloc);
    if fills {
        push_fill(&mut runs, screen)?;
    }
    runs.push(once(Key::Typed(code)))?;
    Ok(runs)
}
