//! The bytes of a state.

ghost use Rattle.std.specs.Prelude.{◌≡◌, ◌++◌, ◌∷◌, [], ◌<◌, ◌≤◌, ◌^◌, ℕ, length, IfOk, OnOk};
ghost use Rattle.ds_codec.specs.Geometry.{cells_of};
ghost use Rattle.buffer_lines.specs.Left.{AreHeld};
ghost use Rattle.ds_state.specs.State.{cells_bytes, cursor_bytes, erase_code, lock_byte, mode_byte, most_bytes, header_of, record_of, state_of, IsWhole};

use buffer_lines::push_cell;
use ds_codec::{Geometry, Mode, OrderCode, encode_address};
use ds_screen::{Cells, Lock, Screen};
use std::alloc::{AllocError, Global};

/// The first byte of a state; it changes where the spelling does.
pub(crate) const VERSION: u8 = 1;

/// How many bytes stand before the record.
pub(crate) const HEADER: usize = 11;

/// The keyboard is restored; no modified data tag is reset.
const RESTORES_KEYBOARD: u8 = 0xC2;

/// How many bytes the state of a terminal with this geometry has: 17, and two for each position of the larger size.
pub fn state_length(geometry: &Geometry) -> usize
    ensures { result ≡ most_bytes geometry.now }
{
    let most = geometry
        .default_size()
        .cells()
        .max(geometry.alternate_size().cells());
    17 + 2 * most as usize
}

/// Erase/Write where the default size is in use, else Erase/Write Alternate.
fn erase_code<C: Cells>(screen: &Screen<C>) -> u8
    ensures { result ≡ erase_code screen.now }
{
    if screen.size() == screen.geometry().default_size() {
        0xF5
    } else {
        0x7E
    }
}

fn push_cells<C: Cells>(out: &mut Vec<u8>, screen: &Screen<C>) -> Result<(), AllocError>
    ensures written { OnOk result
        (out.new.items ≡ out.old.items ++ cells_bytes screen.now.cells) }
    ensures held { OnOk result (AreHeld screen.now.cells) }
{
    'places: for p in 0..screen.size().cells() {
        push_cell(out, screen.cell(p))?;
    }
    Ok(())
}

/// Set Buffer Address and Insert Cursor.
fn push_cursor<C: Cells>(out: &mut Vec<u8>, screen: &Screen<C>) -> Result<(), AllocError>
    ensures { OnOk result (out.new.items ≡ out.old.items ++ cursor_bytes screen.now) }
{
    let cells = screen.size().cells();
    out.push(OrderCode::Sba.byte())?;
    out.extend_from_slice(&encode_address(screen.geometry().mode(), cells, screen.cursor()))?;
    out.push(OrderCode::Ic.byte())?;
    Ok(())
}

/// The record that draws a screen: it erases, restores the keyboard, and writes each cell and the cursor. Takes memory for these bytes, and
/// time linear in the cells.
///
/// # Errors
///
/// Where a request for memory was refused.
pub fn record_of<C: Cells>(alloc: Global, screen: &Screen<C>) -> Result<Vec<u8>, AllocError>
    ensures written { IfOk result (λ bytes. bytes.items ≡ record_of screen.now) }
    ensures whole { OnOk result (IsWhole screen.now) }
{
    let cells = screen.size().cells();
    let mut out = Vec::with_capacity(alloc, 2 * cells as usize + 6)?;
    out.push(erase_code(screen))?;
    out.push(RESTORES_KEYBOARD)?;
    push_cells(&mut out, screen)?;
    push_cursor(&mut out, screen)?;
    Ok(out)
}

fn lock_byte(lock: Lock) -> u8
    ensures { result ≡ lock_byte lock }
{
    match lock {
        Lock::Free => 0,
        Lock::Waiting => 1,
        Lock::Error => 2,
    }
}

fn mode_byte(mode: Mode) -> u8
    ensures { result ≡ mode_byte mode }
{
    match mode {
        Mode::Bits14 => 0,
        Mode::Bits16 => 1,
    }
}

/// The bytes before the record, which has so many.
fn header_of<C: Cells>(screen: &Screen<C>, length: usize) -> [u8; 11]
    requires { length < 2 ^ 24 }
    ensures { result ≡ header_of screen.now length }
{
    let geometry = screen.geometry();
    let default = geometry.default_size();
    let alternate = geometry.alternate_size();
    [
        VERSION,
        mode_byte(geometry.mode()),
        default.rows as u8,
        default.cols as u8,
        alternate.rows as u8,
        alternate.cols as u8,
        lock_byte(screen.lock()),
        screen.aid().byte(),
        (length / 256 / 256) as u8,
        (length / 256 % 256) as u8,
        (length % 256) as u8,
    ]
}

/// The state that spells a screen: a header, the record that draws the screen, and zeros up to the length that a state of its
/// geometry has. Takes memory for these bytes, and time linear in the cells.
///
/// # Errors
///
/// Where a request for memory was refused.
pub fn state_of<C: Cells>(alloc: Global, screen: &Screen<C>) -> Result<Vec<u8>, AllocError>
    ensures written { IfOk result (λ bytes. bytes.items ≡ state_of screen.now) }
    ensures whole { OnOk result (IsWhole screen.now) }
{
    let drawing = record_of(alloc, screen)?;
    let record = drawing.as_slice();
    let length = state_length(&screen.geometry());
    let mut out = Vec::with_capacity(alloc, length)?;
    out.extend_from_slice(&header_of(screen, record.len()))?;
    out.extend_from_slice(record)?;
    out.resize(length, 0)?;
    Ok(out)
}
