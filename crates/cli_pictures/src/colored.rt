//! The text of `show` with the looks of its cells.

ghost use Rattle.std.specs.Prelude.{◌≡◌, ◌<◌, ◌*◌, ◌+◌, ◌++◌, length, OnOk, string_bytes};
ghost use Rattle.std.specs.List.{flat_map, range_with_len};
ghost use Rattle.ds_screen.specs.Fields.{is_character};
ghost use Rattle.ds_screen.specs.Shown.{printed_cell};
ghost use Rattle.cli_pictures.specs.Colored.{look_at, begins_run, ends_run, before_cell, behind_cell, colored_cell, colored_column, colored_row, colored_line, colored_text};

use crate::look::Look;
use crate::seen::ruling;
use cli_commands::{push_field_lines, push_screen_line};
use ds_codec::Cell;
use ds_screen::{PlaneCells, Screen, printed_under};
use std::alloc::AllocError;

/// Whether a cell holds a character.
pub(crate) fn is_character(cell: &Cell) -> bool
    ensures { result ≡ is_character cell.now }
{
    match cell {
        Cell::Field(_) => false,
        Cell::Char(_) => true,
    }
}

/// How the cell at a position looks.
fn look_at(screen: &Screen<PlaneCells>, p: u32) -> Look
    requires { p < length screen.now.cells }
    ensures { result ≡ look_at screen.now p }
{
    Look {
        bold: is_character(&screen.cell(p)) && ruling(screen, p).intensified(),
        underlined: screen.is_open(p),
        reversed: p == screen.cursor(),
    }
}

/// Whether a run of cells of one look begins at a position.
fn begins_run(screen: &Screen<PlaneCells>, p: u32) -> bool
    requires { p < length screen.now.cells }
    ensures { result ≡ begins_run screen.now p }
{
    let columns = u32::from(screen.size().cols);
    p % columns == 0 || !look_at(screen, p - 1).is_same(look_at(screen, p))
}

/// Whether a run of cells of one look ends at a position.
fn ends_run(screen: &Screen<PlaneCells>, p: u32) -> bool
    requires { p < length screen.now.cells }
    ensures { result ≡ ends_run screen.now p }
{
    let columns = u32::from(screen.size().cols);
    (p + 1) % columns == 0 || !look_at(screen, p + 1).is_same(look_at(screen, p))
}

/// What comes before the character of a position.
#[tactic(auto, unfolding(crate::specs::Colored::before_cell))]
fn push_before(out: &mut String, screen: &Screen<PlaneCells>, p: u32) -> Result<(), AllocError>
    requires { p < length screen.now.cells }
    ensures { OnOk result (string_bytes out.new
        ≡ string_bytes out.old ++ before_cell screen.now p) }
{
    let look = look_at(screen, p);
    if !look.is_plain() && begins_run(screen, p) {
        look.push_begin(out)
    } else {
        Ok(())
    }
}

/// What comes behind the character of a position.
#[tactic(auto, unfolding(crate::specs::Colored::end_look, crate::specs::Colored::behind_cell))]
fn push_behind(out: &mut String, screen: &Screen<PlaneCells>, p: u32) -> Result<(), AllocError>
    requires { p < length screen.now.cells }
    ensures { OnOk result (string_bytes out.new
        ≡ string_bytes out.old ++ behind_cell screen.now p) }
{
    if !look_at(screen, p).is_plain() && ends_run(screen, p) {
        out.push_str("\x1B[0m")
    } else {
        Ok(())
    }
}

/// The character of a position, between the sequences that begin and end a run there.
#[tactic(auto, unfolding(crate::specs::Colored::colored_cell))]
fn push_cell(out: &mut String, screen: &Screen<PlaneCells>, p: u32) -> Result<(), AllocError>
    requires { p < length screen.now.cells }
    ensures { OnOk result (string_bytes out.new
        ≡ string_bytes out.old ++ colored_cell screen.now p) }
{
    push_before(out, screen, p)?;
    let character = printed_under(ruling(screen, p), &screen.cell(p));
    out.push(char::from(character))?;
    push_behind(out, screen, p)
}

/// The cell of a row and a column.
#[tactic(auto, unfolding(crate::specs::Colored::colored_column))]
fn push_column(
    out: &mut String,
    screen: &Screen<PlaneCells>,
    row: u16,
    column: u16,
) -> Result<(), AllocError>
    requires row { row < screen.now.size.rows }
    requires column { column < screen.now.size.cols }
    ensures { OnOk result (string_bytes out.new
        ≡ string_bytes out.old ++ colored_column screen.now row column) }
{
    let columns = u32::from(screen.size().cols);
    push_cell(out, screen, u32::from(row) * columns + u32::from(column))
}

/// The cells of a row.
fn push_row(out: &mut String, screen: &Screen<PlaneCells>, row: u16) -> Result<(), AllocError>
    requires { row < screen.now.size.rows }
    ensures { OnOk result (string_bytes out.new
        ≡ string_bytes out.old ++ colored_row screen.now row) }
{
    let size = screen.size();
    for column in 0..size.cols {
        push_column(out, screen, row, column)?;
    }
    Ok(())
}

/// The line of a row.
fn push_line(out: &mut String, screen: &Screen<PlaneCells>, row: u16) -> Result<(), AllocError>
    requires { row < screen.now.size.rows }
    ensures { OnOk result (string_bytes out.new
        ≡ string_bytes out.old ++ colored_line screen.now row) }
{
    out.push_str("|")?;
    push_row(out, screen, row)?;
    out.push_str("|\n")
}

/// The lines of all rows.
fn push_lines(out: &mut String, screen: &Screen<PlaneCells>) -> Result<(), AllocError>
    ensures { OnOk result (string_bytes out.new ≡ string_bytes out.old
        ++ flat_map (colored_line screen.now) (range_with_len 0 screen.now.size.rows)) }
{
    let size = screen.size();
    for row in 0..size.rows {
        push_line(out, screen, row)?;
    }
    Ok(())
}

/// The text of `show` with looks.
pub(crate) fn push_colored(out: &mut String, screen: &Screen<PlaneCells>) -> Result<(), AllocError>
    ensures { OnOk result (string_bytes out.new ≡ string_bytes out.old ++ colored_text screen.now) }
{
    push_screen_line(out, screen)?;
    push_field_lines(out, screen)?;
    push_lines(out, screen)
}
