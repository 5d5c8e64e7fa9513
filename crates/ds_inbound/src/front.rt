//! What stands at the front of an answer's bytes.

ghost use Rattle.std.specs.Prelude.{◌≡◌, ◌<◌, ◌≤◌, length, IfOk};
ghost use Rattle.ds_codec.specs.Address.{address_at};
ghost use Rattle.ds_inbound.specs.Answer.{written_characters};
ghost use Rattle.ds_inbound.specs.Characters.{pair_at, plain_at, front_character, characters_in};
ghost use Rattle.ds_inbound.specs.Reading.{inside, as_item, place_at, front};

use crate::item::Item;
use crate::refused::Why;
use ds_codec::{Char, Mode, OrderCode, decode_address};

/// The code behind the graphic escape.
#[tactic(auto, unfolding(crate::specs::Characters::pair_at))]
fn pair(more: &[u8]) -> Result<(Char, usize), Why>
    ensures { result ≡ pair_at more.now }
{
    match more {
        [] => Err(Why::Truncated),
        [code, ..] => match Char::new(*code, true) {
            Some(character) => Ok((character, 2)),
            None => Err(Why::BadCharacter),
        },
    }
}

/// A byte that stands for itself.
fn plain(byte: u8) -> Result<(Char, usize), Why>
    ensures { result ≡ plain_at byte }
{
    if byte == 0x00 {
        return Err(Why::Null);
    }
    match Char::new(byte, false) {
        Some(character) => Ok((character, 1)),
        None => Err(Why::BadCharacter),
    }
}

#[tactic(auto, unfolding(crate::specs::Characters::front_character))]
fn read_char(bytes: &[u8]) -> Result<(Char, usize), Why>
    ensures { result ≡ front_character bytes.now }
{
    match bytes {
        [] => Err(Why::Truncated),
        [byte, more @ ..] => {
            if *byte == OrderCode::Ge.byte() {
                pair(more)
            } else {
                plain(*byte)
            }
        }
    }
}

/// The character at the front, and how many bytes it takes; or what stands there in its place.
pub(crate) fn front_char(bytes: &[u8]) -> Result<(Char, usize), Why>
    ensures exact { result ≡ front_character bytes.now }
    ensures some { IfOk result (λ found. 0 < found.1) }
    ensures within { IfOk result (λ found. found.1 ≤ length bytes.now) }
{
    read_char(bytes)
}

/// How many bytes the characters at the front take.
pub(crate) fn run_length(bytes: &[u8]) -> usize
    ensures run { result ≡ length (written_characters (characters_in bytes.now)) }
    ensures within { result ≤ length bytes.now }
{
    let mut taken = 0;
    let mut rest = bytes;
    'run: while let Ok(found) = front_char(rest) {
        taken += found.1;
        rest = &rest[found.1..];
    }
    taken
}

/// The position that two bytes spell, of so many cells.
pub(crate) fn position(mode: Mode, cells: u32, first: u8, second: u8) -> Result<u32, Why>
    ensures { result ≡ inside cells (address_at mode first second) }
{
    match decode_address(mode, first, second) {
        Some(address) => {
            if address < cells {
                Ok(address)
            } else {
                Err(Why::BadAddress)
            }
        }
        None => Err(Why::BadAddress),
    }
}

/// The place behind the mark of a field.
#[tactic(auto, unfolding(crate::specs::Reading::place_at))]
fn place(mode: Mode, cells: u32, more: &[u8]) -> Result<(Item, usize), Why>
    ensures { result ≡ place_at mode cells more.now }
{
    match more {
        [first, second, ..] => {
            let place = position(mode, cells, *first, *second)?;
            Ok((Item::Field(place), 3))
        }
        _ => Err(Why::Truncated),
    }
}

/// The character at the front, as an item.
fn character(bytes: &[u8]) -> Result<(Item, usize), Why>
    ensures { result ≡ as_item (front_character bytes.now) }
{
    let (character, taken) = front_char(bytes)?;
    Ok((Item::Char(character), taken))
}

#[tactic(auto, unfolding(crate::specs::Reading::front))]
fn read_item(mode: Mode, cells: u32, bytes: &[u8]) -> Result<(Item, usize), Why>
    ensures { result ≡ front mode cells bytes.now }
{
    match bytes {
        [] => Err(Why::Truncated),
        [byte, more @ ..] => {
            if *byte == OrderCode::Sba.byte() {
                place(mode, cells, more)
            } else {
                character(bytes)
            }
        }
    }
}

/// The character or the beginning of a field at the front, and how many bytes it takes; or what is wrong
/// there.
pub(crate) fn front_item(mode: Mode, cells: u32, bytes: &[u8]) -> Result<(Item, usize), Why>
    ensures exact { result ≡ front mode cells bytes.now }
    ensures some { IfOk result (λ found. 0 < found.1) }
    ensures within { IfOk result (λ found. found.1 ≤ length bytes.now) }
{
    read_item(mode, cells, bytes)
}
