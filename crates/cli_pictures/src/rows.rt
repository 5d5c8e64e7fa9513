//! The rows of a screen alone, as an operator sees them.

ghost use Rattle.std.specs.Prelude.{◌≡◌, ◌<◌, ◌++◌, OnOk, string_bytes};
ghost use Rattle.std.specs.List.{flat_map, range_with_len};
ghost use Rattle.cli_pictures.specs.Rows.{seen_column, seen_row, screen_text};

use crate::seen::shown_at;
use ds_screen::{PlaneCells, Screen};
use std::alloc::AllocError;

/// What is seen of the cell of a row and a column.
fn push_column(
    out: &mut String,
    screen: &Screen<PlaneCells>,
    row: u16,
    column: u16,
) -> Result<(), AllocError>
    requires row { row < screen.now.size.rows }
    requires column { column < screen.now.size.cols }
    ensures { OnOk result (string_bytes out.new
        ≡ string_bytes out.old ++ seen_column screen.now row column) }
{
    let columns = u32::from(screen.size().cols);
    let character = shown_at(screen, u32::from(row) * columns + u32::from(column));
    out.push(char::from(character))
}

/// What is seen of a row.
fn push_cells(out: &mut String, screen: &Screen<PlaneCells>, row: u16) -> Result<(), AllocError>
    requires { row < screen.now.size.rows }
    ensures { OnOk result (string_bytes out.new ≡ string_bytes out.old
        ++ flat_map (seen_column screen.now row) (range_with_len 0 screen.now.size.cols)) }
{
    let size = screen.size();
    for column in 0..size.cols {
        push_column(out, screen, row, column)?;
    }
    Ok(())
}

/// The line of a row.
fn push_row(out: &mut String, screen: &Screen<PlaneCells>, row: u16) -> Result<(), AllocError>
    requires { row < screen.now.size.rows }
    ensures { OnOk result (string_bytes out.new ≡ string_bytes out.old ++ seen_row screen.now row) }
{
    push_cells(out, screen, row)?;
    out.push_str("\n")
}

/// The lines of all rows.
pub(crate) fn push_rows(out: &mut String, screen: &Screen<PlaneCells>) -> Result<(), AllocError>
    ensures { OnOk result (string_bytes out.new ≡ string_bytes out.old ++ screen_text screen.now) }
{
    let size = screen.size();
    for row in 0..size.rows {
        push_row(out, screen, row)?;
    }
    Ok(())
}
