//! Cells that are read, line by line.

ghost use Rattle.std.specs.Prelude.{◌≡◌, ◌≤◌, ◌<◌, ◌++◌, length, OnOk};
ghost use Rattle.ds_codec.specs.Geometry.{cells_of};
ghost use Rattle.ds_screen.specs.Picture.{IsSound};
ghost use Rattle.ds_screen.specs.Fields.{ruling_bits};
ghost use Rattle.script_screens.specs.Lines.{data_line, data_lines};
ghost use Rattle.script_screens.specs.Cells.{place_on, piece_text, line_text, line_of, region_texts};

use crate::code_page::CodePage;
use crate::lines::{begin_line, end_line};
use crate::region::{Region, Run, line_count, run_of};
use crate::shown::{Form, push_cell, push_separator};
use ds_codec::{Attr, Cell};
use ds_screen::{PlaneCells, Screen};
use std::alloc::AllocError;

/// How many columns a screen has.
pub(crate) fn columns(screen: &Screen<PlaneCells>) -> u16
    ensures value { result ≡ screen.now.size.cols }
    ensures some { 0 < result }
{
    screen.size().cols
}

/// How many cells a screen has.
pub(crate) fn cells(screen: &Screen<PlaneCells>) -> u32
    ensures value { result ≡ cells_of screen.now.size }
    ensures some { 0 < result }
{
    let cursor = screen.cursor();
    let cells = screen.size().cells();
    prove!(cursor < cells);
    cells
}

/// The attribute that rules a position; without one the bits of none.
pub(crate) fn ruling_at(screen: &Screen<PlaneCells>, p: u32) -> Attr
    requires { p < length screen.now.cells }
    ensures { result ≡ ruling_bits screen.now.cells p }
{
    let Some(place) = screen.attr_before(p) else {
        return Attr::new(0);
    };
    match screen.cell(place) {
        Cell::Field(attribute) => attribute,
        Cell::Char(_) => Attr::new(0),
    }
}

/// The position so many on, round the screen's end.
fn place_on(screen: &Screen<PlaneCells>, start: u32, steps: u32) -> u32
    ensures place { result ≡ place_on (length screen.now.cells) start steps }
    ensures inside { result < length screen.now.cells }
{
    let cells = u64::from(screen.size().cells());
    let place = (u64::from(start) + u64::from(steps)) % cells;
    place as u32
}

/// Adds a cell of a line, with what stands before it.
fn push_piece(
    out: &mut Vec<u8>,
    screen: &Screen<PlaneCells>,
    code_page: CodePage,
    form: Form,
    start: u32,
    steps: u32,
) -> Result<(), AllocError>
    ensures { OnOk result (out.new.items
        ≡ out.old.items ++ piece_text code_page form screen.now.cells start steps) }
{
    let place = place_on(screen, start, steps);
    if steps != 0 {
        push_separator(out, form)?;
    }
    push_cell(
        out,
        code_page,
        form,
        ruling_at(screen, place),
        screen.cell(place),
    )
}

/// Adds the cells of a line.
pub(crate) fn push_run(
    out: &mut Vec<u8>,
    screen: &Screen<PlaneCells>,
    code_page: CodePage,
    form: Form,
    run: Run,
) -> Result<(), AllocError>
    ensures { OnOk result (out.new.items
        ≡ out.old.items ++ line_text code_page form screen.now.cells run) }
{
    for steps in 0..run.length {
        push_piece(out, screen, code_page, form, run.start, steps)?;
    }
    Ok(())
}

/// Adds a data line of what is read.
fn push_line_of(
    out: &mut Vec<u8>,
    screen: &Screen<PlaneCells>,
    code_page: CodePage,
    form: Form,
    region: Region,
    line: u32,
) -> Result<(), AllocError>
    ensures { OnOk result (out.new.items
        ≡ out.old.items ++ data_line (line_of code_page form screen.now region line)) }
{
    let run = run_of(cells(screen), columns(screen), region, line);
    begin_line(out)?;
    push_run(out, screen, code_page, form, run)?;
    end_line(out)
}

/// Adds the data lines of what is read.
pub(crate) fn push_region(
    out: &mut Vec<u8>,
    screen: &Screen<PlaneCells>,
    code_page: CodePage,
    form: Form,
    region: Region,
) -> Result<(), AllocError>
    ensures { OnOk result (out.new.items
        ≡ out.old.items ++ data_lines (region_texts code_page form screen.now region)) }
{
    for line in 0..line_count(columns(screen), region) {
        push_line_of(out, screen, code_page, form, region, line)?;
    }
    Ok(())
}
