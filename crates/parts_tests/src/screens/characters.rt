//! Characters as they are printed.

use ds_codec::Char;
use ds_screen::text_of;
use test_words::Row;

/// What is printed for a character.
fn push_printed(row: &mut Row, word: &str, alt: bool) {
    match Char::new(row.read_byte(word), alt) {
        Some(character) => row.show(&char::from(text_of(character))),
        None => row.spoil(),
    }
}

/// Adds what a verb answers; whether it is one of these.
pub(crate) fn push_answer(row: &mut Row, verb: &str, words: &str) -> bool {
    match verb {
        "printed" => push_printed(row, words, false),
        "printed-alternate" => push_printed(row, words, true),
        _ => return false,
    }
    true
}
