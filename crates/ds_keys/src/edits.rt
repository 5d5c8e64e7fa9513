//! Keys that change the field that the cursor stands in (GA23-0059, "Keyboard").

ghost use Rattle.std.specs.Prelude.{◌≡◌, ◌<◌, ◌≤◌, length};
ghost use Rattle.ds_screen.specs.Picture.{ruled};
ghost use Rattle.ds_keys.specs.KeyStep.{step, inhibited, marked_cell, typed_step, erase_eof_step, delete_step};

use crate::moves::settle;
use crate::pressed::Pressed;
use crate::runs::{end_of_run, null_on, positions_to_end, shift_back};
use ds_codec::{Cell, Char, is_graphic_code};
use ds_screen::ring::forward;
use ds_screen::{Cells, Lock, Screen};

/// Locks the keyboard: the key cannot act here.
fn inhibit<C: Cells>(screen: &mut Screen<C>) -> Pressed
    ensures { step screen.new result ≡ inhibited screen.old }
{
    screen.set_lock(Lock::Error);
    Pressed::Inhibited
}

/// Makes the attribute that governs a position's character modified.
fn mark<C: Cells>(screen: &mut Screen<C>, p: u32)
    requires { p < length screen.old.cells }
    ensures { screen.new ≡ record screen.old {
      cells = ruled (length screen.old.cells)
          (marked_cell screen.old.cells p);
    } }
{
    if let Some(q) = screen.attr_before(p) {
        if let Cell::Field(attribute) = screen.cell(q) {
            if !attribute.modified() {
                screen.set_attr(q, attribute.with_modified(true));
            }
        }
    }
}

/// Types a code, 40 to FE, where the cursor stands: the field becomes modified, and the cursor goes on by
/// one and settles.
pub(crate) fn type_code<C: Cells>(screen: &mut Screen<C>, code: u8) -> Pressed
    ensures { step screen.new result ≡ typed_step screen.old code }
{
    if !is_graphic_code(code) {
        return Pressed::Ignored;
    }
    let character = Char::new(code, false).unwrap();
    let n = screen.position_count();
    let cursor = screen.cursor();
    if !screen.is_open(cursor) {
        return inhibit(screen);
    }
    let next = settle(screen, forward(n, cursor, 1));
    mark(screen, cursor);
    screen.put_char(cursor, character);
    screen.move_cursor(next);
    Pressed::Done
}

/// Erases the rest of the field that the cursor stands in.
pub(crate) fn erase_eof<C: Cells>(screen: &mut Screen<C>) -> Pressed
    ensures { step screen.new result ≡ erase_eof_step screen.old }
{
    let n = screen.position_count();
    let cursor = screen.cursor();
    if !screen.is_open(cursor) {
        return inhibit(screen);
    }
    let count = positions_to_end(screen, n, cursor);
    mark(screen, cursor);
    null_on(screen, cursor, count);
    Pressed::Done
}

/// Takes the character at the cursor out of its run.
pub(crate) fn delete<C: Cells>(screen: &mut Screen<C>) -> Pressed
    ensures { step screen.new result ≡ delete_step screen.old }
{
    let cursor = screen.cursor();
    if !screen.is_open(cursor) {
        return inhibit(screen);
    }
    let end = end_of_run(screen, cursor);
    mark(screen, cursor);
    shift_back(screen, cursor, end);
    Pressed::Done
}
