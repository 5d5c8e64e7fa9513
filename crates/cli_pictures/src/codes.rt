//! What cells hold, with nothing left out: codes, and the characters of fields.

ghost use Rattle.std.specs.Prelude.{◌≡◌, ◌+◌, ◌%◌, ◌<◌, ◌++◌, [], ◌∷◌, map, length, IfOk, OnOk, string_bytes};
ghost use Rattle.std.specs.List.{flat_map, range_with_len};
ghost use Rattle.ds_screen.specs.Picture.{cell_at};
ghost use Rattle.order_lines.specs.Print.{hex_byte};
ghost use Rattle.cli_pictures.specs.Codes.{code_of, is_alternate, character_of, place_on, cell_on, code_on, character_on, codes_on, characters_on};

use ds_codec::Cell;
use ds_screen::{PlaneCells, Screen, text_of};
use order_lines::push_hex;
use std::alloc::{AllocError, Global};

/// The code of a cell's character: 1D where an attribute stands.
fn code_of(cell: &Cell) -> u8
    ensures { result ≡ code_of cell.now }
{
    match cell {
        Cell::Field(_) => 0x1D,
        Cell::Char(character) => character.code(),
    }
}

/// Whether a cell has a character of the alternate set.
pub(crate) fn is_alternate(cell: &Cell) -> bool
    ensures { result ≡ is_alternate cell.now }
{
    match cell {
        Cell::Field(_) => false,
        Cell::Char(character) => character.alt(),
    }
}

/// The character of a cell: a space for an attribute and for a null.
fn character_of(cell: &Cell) -> u8
    ensures value { result ≡ character_of cell.now }
    ensures ascii { result < 128 }
{
    match cell {
        Cell::Field(_) => b' ',
        Cell::Char(character) => {
            if character.code() == 0 {
                b' '
            } else {
                text_of(*character)
            }
        }
    }
}

/// The position so many on, round the screen's end.
pub(crate) fn place_on(screen: &Screen<PlaneCells>, start: u32, steps: u32) -> u32
    ensures place { result ≡ place_on (length screen.now.cells) start steps }
    ensures inside { result < length screen.now.cells }
{
    let cells = u64::from(screen.size().cells());
    let place = (u64::from(start) + u64::from(steps)) % cells;
    place as u32
}

/// Its cell.
pub(crate) fn cell_on(screen: &Screen<PlaneCells>, start: u32, steps: u32) -> Cell
    ensures { result ≡ cell_on screen.now.cells start steps }
{
    screen.cell(place_on(screen, start, steps))
}

fn push_code(
    out: &mut String,
    screen: &Screen<PlaneCells>,
    start: u32,
    steps: u32,
) -> Result<(), AllocError>
    ensures { OnOk result (string_bytes out.new
        ≡ string_bytes out.old ++ code_on screen.now.cells start steps) }
{
    push_hex(out, code_of(&cell_on(screen, start, steps)))
}

fn push_character(
    out: &mut String,
    screen: &Screen<PlaneCells>,
    start: u32,
    steps: u32,
) -> Result<(), AllocError>
    ensures { OnOk result (string_bytes out.new
        ≡ string_bytes out.old ++ character_on screen.now.cells start steps ∷ []) }
{
    let character = character_of(&cell_on(screen, start, steps));
    out.push(char::from(character))
}

/// The codes of so many cells from a position on, round the screen's end, two digits each.
pub(crate) fn codes_text(
    alloc: Global,
    screen: &Screen<PlaneCells>,
    start: u32,
    count: u32,
) -> Result<String, AllocError>
    ensures { IfOk result (λ text. string_bytes text ≡ codes_on screen.now.cells start count) }
{
    let mut text = String::new(alloc);
    for steps in 0..count {
        push_code(&mut text, screen, start, steps)?;
    }
    Ok(text)
}

/// The characters of so many cells from a position on, round the screen's end, also where the operator doesn't see them.
pub(crate) fn characters_text(
    alloc: Global,
    screen: &Screen<PlaneCells>,
    start: u32,
    count: u32,
) -> Result<String, AllocError>
    ensures { IfOk result (λ text. string_bytes text ≡ characters_on screen.now.cells start count) }
{
    let mut text = String::new(alloc);
    for steps in 0..count {
        push_character(&mut text, screen, start, steps)?;
    }
    Ok(text)
}
