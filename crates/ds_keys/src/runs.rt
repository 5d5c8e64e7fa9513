//! Runs of cells that keys erase or move.

ghost use Rattle.std.specs.Prelude.{◌≡◌, ◌+◌, ◌-◌, ◌<◌, ◌≤◌, true, false, length, slice_set};
ghost use Rattle.ds_codec.specs.declared.cell.Cell.{Cell};
ghost use Rattle.ds_screen.specs.Picture.{blank, cell_at, ruled};
ghost use Rattle.ds_screen.specs.Fields.{is_attribute, attribute_from};
ghost use Rattle.ds_keys.specs.Moves.{row_end};
ghost use Rattle.ds_keys.specs.KeyStep.{run_end};
ghost use Rattle.ds_keys.specs.Kept.{so_far, steps_to, moved_back, AreCharacters};

use ds_codec::{Cell, Char};
use ds_screen::ring::{distance, forward};
use ds_screen::{Cells, Screen};

/// How many positions lie from `p` up to the next attribute, round the ring; up to the last position where
/// there is none.
pub(crate) fn positions_to_end<C: Cells>(screen: &Screen<C>, n: u32, p: u32) -> u32
    requires count { n ≡ length screen.now.cells }
    requires inside { p < length screen.now.cells }
    ensures steps { result ≡ steps_to (length screen.now.cells) p
        (attribute_from screen.now.cells p) }
    ensures within { result ≤ length screen.now.cells }
{
    match screen.attr_from(p) {
        Some(stop) => distance(n, p, stop),
        None => n - p,
    }
}

/// Makes so many positions from `from` on nulls, round the ring.
pub(crate) fn null_on<C: Cells>(screen: &mut Screen<C>, from: u32, count: u32)
    requires inside { from < length screen.old.cells }
    requires few { count ≤ length screen.old.cells }
    ensures { screen.new ≡ record screen.old {
      cells = ruled (length screen.old.cells)
          (so_far screen.old.cells from count (λ p. blank));
    } }
{
    let n = screen.position_count();
    if count == 0 {
        return;
    }
    screen.repeat_char(from, forward(n, from, count), Char::null());
}

/// The position behind the last one of the row of a position; on the last row the number of positions.
pub fn end_of_row<C: Cells>(screen: &Screen<C>, p: u32) -> u32
    requires { p < length screen.now.cells }
    ensures end { result ≡ row_end screen.now.size.cols p }
    ensures within { result ≤ length screen.now.cells }
    ensures ahead { p < result }
{
    let _count = screen.position_count();
    let cols = u32::from(screen.size().cols);
    p - p % cols + cols
}

/// Where the run ends that Delete moves: before the next attribute in the row, else with the row.
pub(crate) fn end_of_run<C: Cells>(screen: &Screen<C>, from: u32) -> u32
    requires { from < length screen.now.cells }
    ensures end { result ≡ run_end screen.now.cells screen.now.size.cols from }
    ensures ahead { from ≤ result }
    ensures within { result ≤ length screen.now.cells }
    ensures characters { AreCharacters screen.now.cells from result }
{
    let end = end_of_row(screen, from);
    'places: for p in from..end {
        if let Cell::Field(_) = screen.cell(p) {
            return p;
        }
    }
    end
}

/// The character that comes to a position of a run that moves one place back: that of the next position, a
/// null at the run's last one.
fn character_behind<C: Cells>(screen: &Screen<C>, p: u32, end: u32) -> Char
    requires before_end { p < end }
    requires within { end ≤ length screen.now.cells }
    requires character { p + 1 < end → is_attribute (cell_at screen.now.cells (p + 1)) ≡ false }
    ensures { Cell.Char result ≡ moved_back screen.now.cells end p }
{
    if p + 1 == end {
        return Char::null();
    }
    match screen.cell(p + 1) {
        Cell::Char(character) => character,
        Cell::Field(_) => unreachable!(),
    }
}

/// Moves the characters behind `from` one place back, up to `end`, where a null takes the last place.
pub(crate) fn shift_back<C: Cells>(screen: &mut Screen<C>, from: u32, end: u32)
    requires ahead { from ≤ end }
    requires within { end ≤ length screen.old.cells }
    requires characters { AreCharacters screen.old.cells from end }
    ensures { screen.new ≡ record screen.old {
      cells = ruled (length screen.old.cells)
          (so_far screen.old.cells from (end - from) (moved_back screen.old.cells end));
    } }
{
    'places: for p in from..end {
        let character = character_behind(screen, p, end);
        screen.put_char(p, character);
    }
}
