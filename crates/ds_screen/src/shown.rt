//! The text of a row.

ghost use Rattle.std.specs.Prelude.{◌≡◌, ◌+◌, ◌<◌, ◌≤◌, All, map, length, IfOk, string_bytes};
ghost use Rattle.std.specs.List.{range_with_len};
ghost use Rattle.ds_screen.specs.Planes.{stored_cell};
ghost use Rattle.ds_screen.specs.declared.stored.Kind.TheVariants.{Plain, Alternate};
ghost use Rattle.ds_screen.specs.Shown.{printed_code, text_of, is_null, printed_under, printed_cell};

use crate::cells::Cells;
use crate::ring::previous;
use crate::stored::{Kind, Stored};
use ds_codec::{Attr, Cell, Char};
use std::alloc::{AllocError, Global};

/// The characters that are printed for the codes, `?` where a code has none.
const PRINTED: [u8; 256] = [
    b'?', b'?', b'?', b'?', b'?', b'?', b'?', b'?', b'?', b'?', b'?', b'?', b'?', b'?', b'?', b'?', //
    b'?', b'?', b'?', b'?', b'?', b'?', b'?', b'?', b'?', b'?', b'?', b'?', b'?', b'?', b'?', b'?', //
    b'?', b'?', b'?', b'?', b'?', b'?', b'?', b'?', b'?', b'?', b'?', b'?', b'?', b'?', b'?', b'?', //
    b'?', b'?', b'?', b'?', b'?', b'?', b'?', b'?', b'?', b'?', b'?', b'?', b'?', b'?', b'?', b'?', //
    b' ', b'?', b'?', b'?', b'?', b'?', b'?', b'?', b'?', b'?', b'?', b'.', b'<', b'(', b'+', b'|', //
    b'&', b'?', b'?', b'?', b'?', b'?', b'?', b'?', b'?', b'?', b'!', b'$', b'*', b')', b';', b'?', //
    b'-', b'/', b'?', b'?', b'?', b'?', b'?', b'?', b'?', b'?', b'?', b',', b'%', b'_', b'>', b'?', //
    b'?', b'?', b'?', b'?', b'?', b'?', b'?', b'?', b'?', b'`', b':', b'#', b'@', b'\'', b'=',
    b'"', //
    b'?', b'a', b'b', b'c', b'd', b'e', b'f', b'g', b'h', b'i', b'?', b'?', b'?', b'?', b'?', b'?', //
    b'?', b'j', b'k', b'l', b'm', b'n', b'o', b'p', b'q', b'r', b'?', b'?', b'?', b'?', b'?', b'?', //
    b'?', b'~', b's', b't', b'u', b'v', b'w', b'x', b'y', b'z', b'?', b'?', b'?', b'?', b'?', b'?', //
    b'^', b'?', b'?', b'?', b'?', b'?', b'?', b'?', b'?', b'?', b'[', b']', b'?', b'?', b'?', b'?', //
    b'{', b'A', b'B', b'C', b'D', b'E', b'F', b'G', b'H', b'I', b'?', b'?', b'?', b'?', b'?', b'?', //
    b'}', b'J', b'K', b'L', b'M', b'N', b'O', b'P', b'Q', b'R', b'?', b'?', b'?', b'?', b'?', b'?', //
    b'\\', b'?', b'S', b'T', b'U', b'V', b'W', b'X', b'Y', b'Z', b'?', b'?', b'?', b'?', b'?',
    b'?', //
    b'0', b'1', b'2', b'3', b'4', b'5', b'6', b'7', b'8', b'9', b'?', b'?', b'?', b'?', b'?', b'?', //
];

/// The character of a code.
fn printed(code: u8) -> u8
    ensures value { result ≡ printed_code code }
    ensures ascii { result < 128 }
{
    PRINTED[usize::from(code)]
}

/// What is printed for a character: one of 95 for its code, `?` where that has none and for one of the alternate set.
pub fn text_of(character: Char) -> u8
    ensures value { result ≡ text_of character }
    ensures ascii { result < 128 }
{
    if character.alt() {
        b'?'
    } else {
        printed(character.code())
    }
}

/// Whether a cell holds a null, of which a full stop is printed whatever rules it.
pub(crate) fn is_null(cell: &Cell) -> bool
    ensures { result ≡ is_null cell.now }
{
    match cell {
        Cell::Field(_) => false,
        Cell::Char(character) => character.code() == 0,
    }
}

/// What is printed of a cell, by what rules it.
pub fn printed_under(ruling: Attr, cell: &Cell) -> u8
    ensures value { result ≡ printed_under ruling cell.now }
    ensures ascii { result < 128 }
{
    match cell {
        Cell::Field(_) => b'@',
        Cell::Char(character) => {
            if character.code() == 0 {
                b'.'
            } else if ruling.hidden() {
                b'*'
            } else {
                text_of(*character)
            }
        }
    }
}

#[inline(always)]
fn printed_plain(ruling: Attr, code: u8) -> u8
    ensures value { result ≡ printed_under ruling (stored_cell Plain code) }
    ensures ascii { result < 128 }
{
    if code == 0 {
        b'.'
    } else if ruling.hidden() {
        b'*'
    } else {
        printed(code)
    }
}

fn printed_alternate(ruling: Attr, code: u8) -> u8
    ensures value { result ≡ printed_under ruling (stored_cell Alternate code) }
    ensures ascii { result < 128 }
{
    if code == 0 {
        b'.'
    } else if ruling.hidden() {
        b'*'
    } else {
        b'?'
    }
}

/// What is printed of a kind and a code, by what rules them.
#[inline(always)]
pub(crate) fn printed_stored(ruling: Attr, stored: Stored) -> u8
    ensures value { result ≡ printed_under ruling (stored_cell stored.kind stored.code) }
    ensures ascii { result < 128 }
{
    match stored.kind {
        Kind::Attribute => b'@',
        Kind::Plain => printed_plain(ruling, stored.code),
        Kind::Alternate => printed_alternate(ruling, stored.code),
    }
}

/// What is printed of the cells from a position on, of one row.
fn row_bytes<C: Cells>(
    alloc: Global,
    cells: &C,
    start: u32,
    columns: u32,
) -> Result<Vec<u8>, AllocError>
    requires some { 0 < columns }
    requires inside { start + columns ≤ length (C.content cells.now) }
    ensures printed { IfOk result (λ bytes. bytes.items
        ≡ map (printed_cell (C.content cells.now)) (range_with_len start columns)) }
    ensures ascii { IfOk result (λ bytes. All (λ byte. byte < 128) bytes.items) }
{
    let mut bytes = Vec::new(alloc);
    bytes.resize(columns as usize, b'.')?;
    if cells.are_nulls(start, columns) {
        return Ok(bytes);
    }
    let mut ruling = cells.ruling(previous(cells.len(), start));
    'places: for at in start..start + columns {
        let (ruled, byte) = cells.print(at, ruling);
        ruling = ruled;
        if byte != b'.' {
            bytes[(at - start) as usize] = byte;
        }
    }
    Ok(bytes)
}

/// The text of the cells from a position on, of one row.
pub(crate) fn row_text<C: Cells>(
    alloc: Global,
    cells: &C,
    start: u32,
    columns: u32,
) -> Result<String, AllocError>
    requires some { 0 < columns }
    requires inside { start + columns ≤ length (C.content cells.now) }
    ensures { IfOk result (λ text. string_bytes text
        ≡ map (printed_cell (C.content cells.now)) (range_with_len start columns)) }
{
    let bytes = row_bytes(alloc, cells, start, columns)?;
    Ok(String::from_utf8(bytes).unwrap())
}
