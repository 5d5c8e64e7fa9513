//! A key as two numbers.

ghost use Rattle.std.specs.Prelude.{◌≡◌};
ghost use Rattle.terminal_calls.specs.Numbers.{key_at, moving_key, editing_key};

use ds_codec::Aid;
use ds_keys::Key;

/// A key that moves the cursor.
fn moving_key(kind: u8) -> Option<Key>
    ensures { result ≡ moving_key kind }
{
    match kind {
        1 => Some(Key::Left),
        2 => Some(Key::Right),
        3 => Some(Key::Up),
        4 => Some(Key::Down),
        5 => Some(Key::Tab),
        6 => Some(Key::BackTab),
        7 => Some(Key::NewLine),
        8 => Some(Key::Home),
        _ => None,
    }
}

/// A key that erases, and Reset.
fn editing_key(kind: u8) -> Option<Key>
    ensures { result ≡ editing_key kind }
{
    match kind {
        9 => Some(Key::EraseEof),
        10 => Some(Key::EraseInput),
        11 => Some(Key::Delete),
        12 => Some(Key::Reset),
        _ => None,
    }
}

/// The key of a kind: 0 types the code, 13 is the attention key of the identifier, 1 to 12 are the others, in the order of `Key`.
pub fn key_at(kind: u8, code: u8) -> Option<Key>
    ensures { result ≡ key_at kind code }
{
    match kind {
        0 => Some(Key::Typed(code)),
        13 => match Aid::from_byte(code) {
            Some(aid) => Some(Key::Attention(aid)),
            None => None,
        },
        _ => match moving_key(kind) {
            Some(key) => Some(key),
            None => editing_key(kind),
        },
    }
}
