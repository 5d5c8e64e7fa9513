//! What stands at a position of the text around fields.

ghost use Rattle.std.specs.Prelude.{◌≡◌, ◌<◌, length};
ghost use Rattle.ds_screen.specs.Fields.{ruling_bits};
ghost use Rattle.ds_screen.specs.Picture.{cell_at};
ghost use Rattle.scr_draft.specs.Label.{is_word, seen_code, printed_mark, marked, mark_at, seen_at};

use ds_codec::{Attr, Cell, Char};
use ds_screen::{PlaneCells, Screen, text_of};

/// What an operator sees at a position, where it is text.
#[derive(Clone, Copy)]
pub enum Mark {
    /// No text: an attribute, or a character of a field that is unprotected or hidden.
    Border,
    /// A character between two words.
    Between,
    /// A letter or a digit.
    Word,
}

/// Whether a character is a letter or a digit.
pub(crate) fn is_word(byte: u8) -> bool
    ensures { result ≡ is_word byte }
{
    matches!(byte, b'0'..=b'9' | b'A'..=b'Z' | b'a'..=b'z')
}

/// The text of a character; a null is seen as a space.
fn seen(character: Char) -> u8
    ensures value { result ≡ seen_code character }
    ensures ascii { result < 128 }
{
    if character.code() == 0 {
        b' '
    } else {
        text_of(character)
    }
}

fn printed_mark(byte: u8) -> Mark
    ensures { result ≡ printed_mark byte }
{
    if is_word(byte) {
        Mark::Word
    } else {
        Mark::Between
    }
}

/// What a cell is, by what rules it.
fn marked(ruling: Attr, cell: &Cell) -> Mark
    ensures { result ≡ marked ruling cell.now }
{
    match cell {
        Cell::Field(_) => Mark::Border,
        Cell::Char(character) => {
            if ruling.protected() && !ruling.hidden() {
                printed_mark(seen(*character))
            } else {
                Mark::Border
            }
        }
    }
}

/// What rules a position: bits of no attribute where the screen has none.
fn ruling(screen: &Screen<PlaneCells>, at: u32) -> Attr
    requires { at < length screen.now.cells }
    ensures { result ≡ ruling_bits screen.now.cells at }
{
    match screen.attr_before(at) {
        Some(before) => match screen.cell(before) {
            Cell::Field(attr) => attr,
            Cell::Char(_) => Attr::new(0),
        },
        None => Attr::new(0),
    }
}

/// What stands at a position.
pub(crate) fn mark_at(screen: &Screen<PlaneCells>, at: u32) -> Mark
    requires { at < length screen.now.cells }
    ensures { result ≡ mark_at screen.now.cells at }
{
    let cell = screen.cell(at);
    marked(ruling(screen, at), &cell)
}

/// The character that is seen at a position.
pub(crate) fn seen_at(screen: &Screen<PlaneCells>, at: u32) -> u8
    requires { at < length screen.now.cells }
    ensures value { result ≡ seen_at screen.now.cells at }
    ensures ascii { result < 128 }
{
    match screen.cell(at) {
        Cell::Field(_) => b' ',
        Cell::Char(character) => seen(character),
    }
}
