//! The record that leaves a screen.

ghost use Rattle.std.specs.Prelude.{◌≡◌, ◌++◌, ◌∷◌, [], ◌*◌, ◌<◌, ◌≤◌, IfOk, OnOk};
ghost use Rattle.std.specs.List.{flat_map};
ghost use Rattle.ds_codec.specs.Address.{written_address};
ghost use Rattle.ds_codec.specs.Geometry.{cells_of};
ghost use Rattle.buffer_lines.specs.Left.{AreHeld, IsHeld, LeaveWhole};
ghost use Rattle.buffer_lines.specs.Record.{cell_bytes, cursor_bytes, erase_code, is_usual, record_of};

use ds_codec::{Cell, Geometry, OrderCode, Size, encode_address, push_character, to_six_bit_code};
use std::alloc::{AllocError, Global};

/// The keyboard is restored; no MDT is reset, as there is none on a screen that was erased.
const RESTORES_KEYBOARD: u8 = 0xC2;

fn is_usual(size: Size) -> bool
    ensures { result ≡ is_usual size }
{
    size.rows == 24 && size.cols == 80
}

/// Erase/Write sets 24 rows of 80 columns, Erase/Write Alternate the other size.
fn erase_code(size: Size) -> u8
    ensures { result ≡ erase_code size }
{
    if is_usual(size) { 0xF5 } else { 0x7E }
}

/// Adds a cell as it is written: Start Field and the attribute, or the character, of the alternate set after Graphic Escape.
///
/// # Errors
///
/// Where a request for memory was refused.
pub fn push_cell(out: &mut Vec<u8>, cell: Cell) -> Result<(), AllocError>
    ensures written { OnOk result (out.new.items ≡ out.old.items ++ cell_bytes cell) }
    ensures held { OnOk result (IsHeld cell) }
{
    match cell {
        Cell::Field(attribute) => out.extend_from_slice(&[
            OrderCode::Sf.byte(),
            to_six_bit_code(attribute.bits()),
        ]),
        Cell::Char(character) => {
            let _code = character.code();
            push_character(out, character)
        }
    }
}

fn push_cells(out: &mut Vec<u8>, cells: &[Cell]) -> Result<(), AllocError>
    ensures written { OnOk result
        (out.new.items ≡ out.old.items ++ flat_map cell_bytes cells.now) }
    ensures held { OnOk result (AreHeld cells.now) }
{
    for cell in cells {
        push_cell(out, *cell)?;
    }
    Ok(())
}

/// Set Buffer Address and Insert Cursor.
fn push_cursor(out: &mut Vec<u8>, geometry: &Geometry, cursor: u32) -> Result<(), AllocError>
    requires { cursor < geometry.now.alternate.rows * geometry.now.alternate.cols }
    ensures { OnOk result (out.new.items ≡ out.old.items ++ cursor_bytes geometry.now cursor) }
{
    let cells = geometry.alternate_size().cells();
    out.push(OrderCode::Sba.byte())?;
    out.extend_from_slice(&encode_address(geometry.mode(), cells, cursor))?;
    out.push(OrderCode::Ic.byte())?;
    Ok(())
}

/// The record that leaves a screen of a terminal's alternate size: Erase/Write, or Erase/Write Alternate where that size isn't 24
/// rows of 80 columns, each cell from the first on, and the cursor.
///
/// # Errors
///
/// Where a request for memory was refused.
pub fn record_of(
    alloc: Global,
    geometry: &Geometry,
    cells: &[Cell],
    cursor: u32,
) -> Result<Vec<u8>, AllocError>
    requires { cursor < geometry.now.alternate.rows * geometry.now.alternate.cols }
    ensures exact { IfOk result
        (λ bytes. bytes.items ≡ record_of geometry.now cells.now cursor) }
    // On a terminal whose default size is 24x80, whatever it showed, it leaves exactly these cells.
    ensures leaves { IfOk result
        (λ bytes. LeaveWhole geometry.now cells.now cursor bytes.items) }
{
    let mut out = Vec::new(alloc);
    out.push(erase_code(geometry.alternate_size()))?;
    out.push(RESTORES_KEYBOARD)?;
    push_cells(&mut out, cells)?;
    push_cursor(&mut out, geometry, cursor)?;
    Ok(out)
}
