//! Words of the rows.

use script_screens::Outcome;
use std::alloc::AllocError;
use std::fmt::Debug;
use test_words::Row;

/// A value as the code has it.
pub(crate) fn push_name<T: Debug>(row: &mut Row, value: &T) {
    let pushed = write!(row.text, "{value:?}");
    row.note(pushed);
}

/// Adds a text in one line: `\n` is a line's end.
pub(crate) fn push_text(row: &mut Row, text: &[u8]) {
    match str::from_utf8(text) {
        Ok(text) => {
            for (index, part) in text.split('\n').enumerate() {
                row.word_if(index > 0, "\\n");
                row.word(part);
            }
        }
        Err(_) => row.bytes(text),
    }
}

/// Adds what an action said, and how it ended.
pub(crate) fn push_said(row: &mut Row, said: &[u8], outcome: Result<Outcome, AllocError>) {
    match row.take(outcome) {
        Some(Outcome::Done) => row.word("ok "),
        Some(Outcome::Failed) => row.word("error "),
        None => {}
    }
    push_text(row, said);
}

/// The arguments of `|A|B`.
pub(crate) fn arguments_of(row: &mut Row, words: &str) -> Vec<Vec<u8>> {
    let mut arguments = Vec::new(row.alloc());
    for (index, word) in words.split('|').enumerate() {
        if index > 0 {
            let argument = Vec::from_slice(row.alloc(), word.as_bytes());
            if let Some(argument) = row.take(argument) {
                let pushed = arguments.push(argument);
                let _pushed = row.take(pushed);
            }
        }
    }
    arguments
}
