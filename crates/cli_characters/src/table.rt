//! The 95 characters and their codes.

ghost use Rattle.std.specs.Prelude.{◌≡◌, ◌<◌, IfSome};
ghost use Rattle.ds_screen.specs.Shown.{printed_code};
ghost use Rattle.cli_characters.specs.Table.{character_of, code_of};

use ds_codec::Char;
use ds_screen::text_of;

/// The codes of the characters from the space to the tilde.
const CODES: [u8; 95] = [
    0x40, 0x5A, 0x7F, 0x7B, 0x5B, 0x6C, 0x50, 0x7D, 0x4D, 0x5D, 0x5C, 0x4E, 0x6B, 0x60, 0x4B, 0x61, //
    0xF0, 0xF1, 0xF2, 0xF3, 0xF4, 0xF5, 0xF6, 0xF7, 0xF8, 0xF9, 0x7A, 0x5E, 0x4C, 0x7E, 0x6E, 0x6F, //
    0x7C, 0xC1, 0xC2, 0xC3, 0xC4, 0xC5, 0xC6, 0xC7, 0xC8, 0xC9, 0xD1, 0xD2, 0xD3, 0xD4, 0xD5, 0xD6, //
    0xD7, 0xD8, 0xD9, 0xE2, 0xE3, 0xE4, 0xE5, 0xE6, 0xE7, 0xE8, 0xE9, 0xBA, 0xE0, 0xBB, 0xB0, 0x6D, //
    0x79, 0x81, 0x82, 0x83, 0x84, 0x85, 0x86, 0x87, 0x88, 0x89, 0x91, 0x92, 0x93, 0x94, 0x95, 0x96, //
    0x97, 0x98, 0x99, 0xA2, 0xA3, 0xA4, 0xA5, 0xA6, 0xA7, 0xA8, 0xA9, 0xC0, 0x4F, 0xD0, 0xA1, //
];

/// The code of the question mark, which is printed too for a code that has no character.
const QUESTION_MARK: u8 = 0x6F;

/// The EBCDIC code of a character, if it is one of the 95 from the space to the tilde.
#[tactic(auto, unfolding(crate::specs::Table::code_of))]
pub fn code_of(character: u8) -> Option<u8>
    ensures { result ≡ code_of character }
{
    match character {
        b' '..=b'~' => Some(CODES[usize::from(character - b' ')]),
        _ => None,
    }
}

/// The character that is printed for a code, `?` where it has none.
fn printed(code: u8) -> u8
    ensures value { result ≡ printed_code code }
    ensures ascii { result < 128 }
{
    match Char::new(code, false) {
        Some(character) => text_of(character),
        None => b'?',
    }
}

/// The character of a code, if it is one of the 95.
#[tactic(auto, unfolding(crate::specs::Table::character_of))]
pub(crate) fn character_of(code: u8) -> Option<u8>
    ensures value { result ≡ character_of code }
    ensures ascii { IfSome result (λ character. character < 128) }
{
    let character = printed(code);
    if character != b'?' || code == QUESTION_MARK {
        Some(character)
    } else {
        None
    }
}
