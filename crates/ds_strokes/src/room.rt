//! Room for a character at the cursor (GA23-0059, "Keyboard", insert mode).

ghost use Rattle.std.specs.Prelude.{◌≡◌, ◌+◌, ◌-◌, ◌<◌, ◌≤◌, true, false, length, IfSome};
ghost use Rattle.ds_codec.specs.declared.cell.Cell.{Cell};
ghost use Rattle.ds_screen.specs.Ring.{ring_on};
ghost use Rattle.ds_screen.specs.Picture.{cell_at};
ghost use Rattle.ds_screen.specs.Fields.{is_attribute, is_open};
ghost use Rattle.ds_keys.specs.Moves.{row_end};
ghost use Rattle.ds_strokes.specs.Room.{is_null, rest_of_field, before_null, shifted, readied};
ghost use Rattle.ds_strokes.specs.Kept.{AreCharactersOn, Readied};

use ds_codec::{Cell, Char};
use ds_keys::end_of_row;
use ds_screen::ring::{distance, forward};
use ds_screen::{Cells, Screen};

/// Whether a cell is a null.
fn is_null(cell: Cell) -> bool
    ensures { result ≡ is_null cell }
{
    match cell {
        Cell::Char(character) => character.code() == 0,
        Cell::Field(_) => false,
    }
}

/// How many positions from one on belong to the rest of its field: those up to the next attribute, round the buffer; without
/// attributes those up to the end of the row.
fn positions_in_rest<C: Cells>(screen: &Screen<C>, at: u32) -> u32
    requires { at < length screen.now.cells }
    ensures rest { result ≡ rest_of_field screen.now.cells screen.now.size.cols at }
    ensures within { result ≤ length screen.now.cells }
    ensures row { row_end screen.now.size.cols at ≤ length screen.now.cells }
{
    let n = screen.position_count();
    let end = end_of_row(screen, at);
    match screen.attr_from(at) {
        Some(stop) => distance(n, at, stop),
        None => end - at,
    }
}

/// How many characters stand from a position on before the first null of the rest of its field, where it has one.
fn characters_before_null<C: Cells>(screen: &Screen<C>, at: u32) -> Option<u32>
    requires { at < length screen.now.cells }
    ensures found { result ≡ before_null screen.now.cells screen.now.size.cols at }
    ensures row { row_end screen.now.size.cols at ≤ length screen.now.cells }
{
    let n = screen.position_count();
    let rest = positions_in_rest(screen, at);
    'places: for steps in 0..rest {
        if is_null(screen.cell(forward(n, at, steps))) {
            return Some(steps);
        }
    }
    None
}

/// The character at a position that holds one.
fn character_at<C: Cells>(screen: &Screen<C>, p: u32) -> Char
    requires inside { p < length screen.now.cells }
    requires character { is_attribute (cell_at screen.now.cells p) ≡ false }
    ensures { Cell.Char result ≡ cell_at screen.now.cells p }
{
    match screen.cell(p) {
        Cell::Char(character) => character,
        Cell::Field(_) => unreachable!(),
    }
}

/// Moves so many characters from the cursor's position on by one.
fn shift_on<C: Cells>(screen: &mut Screen<C>, count: u32)
    requires few { count < length screen.old.cells }
    requires characters { AreCharactersOn screen.old.cells screen.old.cursor (count + 1) }
    ensures { screen.new ≡ shifted screen.old count }
{
    let n = screen.position_count();
    let at = screen.cursor();
    let mut carried = character_at(screen, at);
    'places: for steps in 0..count {
        let place = forward(n, at, steps + 1);
        let next = character_at(screen, place);
        screen.put_char(place, carried);
        carried = next;
    }
}

/// Makes room for a character at the cursor, where one can be put there: at an open character, in insert mode in a field
/// whose rest has a null.
pub(crate) fn make_room<C: Cells>(screen: &mut Screen<C>, inserts: bool) -> bool
    ensures readied { Readied (readied inserts screen.old) screen.old result screen.new }
    ensures opens { result ≡ true → is_open screen.new.cells screen.new.cursor ≡ true }
    ensures lock { screen.new.lock ≡ screen.old.lock }
{
    let _count = screen.position_count();
    let cursor = screen.cursor();
    if !screen.is_open(cursor) {
        return false;
    }
    if !inserts {
        return true;
    }
    match characters_before_null(screen, cursor) {
        Some(count) => {
            shift_on(screen, count);
            true
        }
        None => false,
    }
}
