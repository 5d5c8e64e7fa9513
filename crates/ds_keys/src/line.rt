//! Keys by their words, as key lines name them (our own).

ghost use Rattle.std.specs.Prelude.{◌≡◌, ◌<◌, true, IfSome};
ghost use Rattle.ds_keys.specs.Lines.{cursor_words, edit_words, attention_words, first_functions, middle_functions, last_functions, sending_words, words, key_in, is_typing, typed_key, key_of};

use crate::key::Key;
use ds_codec::{Aid, byte_of_digits, is_graphic_code};

/// A cursor key.
fn cursor_key(word: &str) -> Option<Key>
    ensures { result ≡ key_in word.now cursor_words }
{
    match word {
        "left" => Some(Key::Left),
        "right" => Some(Key::Right),
        "up" => Some(Key::Up),
        "down" => Some(Key::Down),
        "tab" => Some(Key::Tab),
        "backtab" => Some(Key::BackTab),
        "newline" => Some(Key::NewLine),
        "home" => Some(Key::Home),
        _ => None,
    }
}

/// A key that erases, deletes or frees the keyboard.
fn edit_key(word: &str) -> Option<Key>
    ensures { result ≡ key_in word.now edit_words }
{
    match word {
        "eraseeof" => Some(Key::EraseEof),
        "eraseinput" => Some(Key::EraseInput),
        "delete" => Some(Key::Delete),
        "reset" => Some(Key::Reset),
        _ => None,
    }
}

/// Enter, Clear or a PA key.
fn attention_key(word: &str) -> Option<Key>
    ensures { result ≡ key_in word.now attention_words }
{
    match word {
        "enter" => Some(Key::Attention(Aid::enter())),
        "clear" => Some(Key::Attention(Aid::clear())),
        "pa1" => Some(Key::Attention(Aid::pa(1))),
        "pa2" => Some(Key::Attention(Aid::pa(2))),
        "pa3" => Some(Key::Attention(Aid::pa(3))),
        _ => None,
    }
}

/// PF1 to PF8.
fn first_function(word: &str) -> Option<Key>
    ensures { result ≡ key_in word.now first_functions }
{
    match word {
        "pf1" => Some(Key::Attention(Aid::pf(1))),
        "pf2" => Some(Key::Attention(Aid::pf(2))),
        "pf3" => Some(Key::Attention(Aid::pf(3))),
        "pf4" => Some(Key::Attention(Aid::pf(4))),
        "pf5" => Some(Key::Attention(Aid::pf(5))),
        "pf6" => Some(Key::Attention(Aid::pf(6))),
        "pf7" => Some(Key::Attention(Aid::pf(7))),
        "pf8" => Some(Key::Attention(Aid::pf(8))),
        _ => None,
    }
}

/// PF9 to PF16.
fn middle_function(word: &str) -> Option<Key>
    ensures { result ≡ key_in word.now middle_functions }
{
    match word {
        "pf9" => Some(Key::Attention(Aid::pf(9))),
        "pf10" => Some(Key::Attention(Aid::pf(10))),
        "pf11" => Some(Key::Attention(Aid::pf(11))),
        "pf12" => Some(Key::Attention(Aid::pf(12))),
        "pf13" => Some(Key::Attention(Aid::pf(13))),
        "pf14" => Some(Key::Attention(Aid::pf(14))),
        "pf15" => Some(Key::Attention(Aid::pf(15))),
        "pf16" => Some(Key::Attention(Aid::pf(16))),
        _ => None,
    }
}

/// PF17 to PF24.
fn last_function(word: &str) -> Option<Key>
    ensures { result ≡ key_in word.now last_functions }
{
    match word {
        "pf17" => Some(Key::Attention(Aid::pf(17))),
        "pf18" => Some(Key::Attention(Aid::pf(18))),
        "pf19" => Some(Key::Attention(Aid::pf(19))),
        "pf20" => Some(Key::Attention(Aid::pf(20))),
        "pf21" => Some(Key::Attention(Aid::pf(21))),
        "pf22" => Some(Key::Attention(Aid::pf(22))),
        "pf23" => Some(Key::Attention(Aid::pf(23))),
        "pf24" => Some(Key::Attention(Aid::pf(24))),
        _ => None,
    }
}

/// Whether a line is `type` and a word of two characters.
fn is_typing(line: &[u8]) -> bool
    ensures { result ≡ is_typing line.now }
{
    line.len() == 7 && &line[..5] == b"type ".as_slice()
}

/// A character key: `type` and two hexadecimal digits, 40 to FE.
#[tactic(auto, unfolding(crate::specs::Lines::typed_key))]
fn typed(line: &[u8]) -> Option<Key>
    requires { is_typing line.now ≡ true }
    ensures { result ≡ typed_key line.now }
{
    let code = byte_of_digits(line[5], line[6])?;
    if is_graphic_code(code) {
        Some(Key::Typed(code))
    } else {
        None
    }
}

/// A key that sends.
fn sending_key(word: &str) -> Option<Key>
    ensures { result ≡ key_in word.now sending_words }
{
    let functions = first_function(word).or(middle_function(word).or(last_function(word)));
    attention_key(word).or(functions)
}

/// The key of a word. Those that are pressed most are looked for first, and the others only where it is none of them.
fn named(word: &str) -> Option<Key>
    ensures { result ≡ key_in word.now words }
{
    if let Some(key) = cursor_key(word) {
        return Some(key);
    }
    if let Some(key) = edit_key(word) {
        return Some(key);
    }
    sending_key(word)
}

/// The key that a line names: `type XX` (two hexadecimal digits of either case, 40 to FE), `left`, `right`,
/// `up`, `down`, `tab`, `backtab`, `newline`, `home`, `eraseeof`, `eraseinput`, `delete`, `reset`, `enter`,
/// `clear`, `pf1` to `pf24`, `pa1` to `pa3`. `None` for every other line.
#[tactic(auto, unfolding(crate::specs::Lines::key_of))]
pub fn key_of_line(line: &str) -> Option<Key>
    ensures { result ≡ key_of line.now }
{
    if is_typing(line.as_bytes()) {
        typed(line.as_bytes())
    } else {
        named(line)
    }
}
