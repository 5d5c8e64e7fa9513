//! What an operator sees of a screen.

ghost use Rattle.std.specs.Prelude.{◌≡◌, ◌<◌, ◌≤◌, ◌+◌, length, IfSome};
ghost use Rattle.ds_screen.specs.Fields.{ruling_bits};
ghost use Rattle.cli_pictures.specs.Seen.{inked, seen_under, seen_at, shown_at, open_length};

use ds_codec::{Attr, Cell};
use ds_screen::{PlaneCells, Screen, text_of};

/// The attribute that rules a position; 00 where there is none.
pub(crate) fn ruling(screen: &Screen<PlaneCells>, p: u32) -> Attr
    requires { p < length screen.now.cells }
    ensures { result ≡ ruling_bits screen.now.cells p }
{
    match screen.attr_before(p) {
        Some(at) => match screen.cell(at) {
            Cell::Field(attr) => attr,
            Cell::Char(_) => Attr::new(0),
        },
        None => Attr::new(0),
    }
}

/// What is seen of a character.
fn inked(character: u8) -> Option<u8>
    requires { character < 128 }
    ensures value { result ≡ inked character }
    ensures ascii { IfSome result (λ seen. seen < 128) }
{
    if character == b' ' {
        None
    } else {
        Some(character)
    }
}

/// What is seen of a cell, by what rules it.
fn seen_under(ruling: Attr, cell: &Cell) -> Option<u8>
    ensures value { result ≡ seen_under ruling cell.now }
    ensures ascii { IfSome result (λ seen. seen < 128) }
{
    match cell {
        Cell::Field(_) => None,
        Cell::Char(character) => {
            if character.code() == 0 || ruling.hidden() {
                None
            } else {
                inked(text_of(*character))
            }
        }
    }
}

/// The character that is seen at a position, in ASCII: none of an attribute, a null, a space or a hidden character.
pub fn seen_at(screen: &Screen<PlaneCells>, p: u32) -> Option<u8>
    requires { p < length screen.now.cells }
    ensures value { result ≡ seen_at screen.now.cells p }
    ensures ascii { IfSome result (λ seen. seen < 128) }
{
    seen_under(ruling(screen, p), &screen.cell(p))
}

/// What is seen at a position, in ASCII: a space where nothing is.
pub fn shown_at(screen: &Screen<PlaneCells>, p: u32) -> u8
    requires { p < length screen.now.cells }
    ensures value { result ≡ shown_at screen.now.cells p }
    ensures ascii { result < 128 }
{
    match seen_at(screen, p) {
        Some(character) => character,
        None => b' ',
    }
}

/// How many of so many positions may be typed over, up to the first that may not.
pub(crate) fn open_length(screen: &Screen<PlaneCells>, p: u32, most: u32) -> u32
    requires inside { p + most ≤ length screen.now.cells }
    requires small { p + most ≤ 65025 }
    ensures length { result ≡ open_length screen.now.cells p most }
    ensures few { result ≤ most }
{
    for count in 0..most {
        if !screen.is_open(p + count) {
            return count;
        }
    }
    most
}
