//! Lines of a script read, action by action.

use crate::notation::read_text;
use script_lines::{Action, Found, SyntaxWhy, next_action};
use test_words::Row;

fn name_of(why: SyntaxWhy) -> &'static str {
    match why {
        SyntaxWhy::NoName => "no name",
        SyntaxWhy::BadName => "bad name",
        SyntaxWhy::Close => "no )",
        SyntaxWhy::CloseOrComma => "no ) or ,",
        SyntaxWhy::Unclosed => "unclosed",
    }
}

fn push_text(row: &mut Row, bytes: &[u8]) {
    match str::from_utf8(bytes) {
        Ok(text) => row.word(text),
        Err(_) => row.bytes(bytes),
    }
}

fn push_action(row: &mut Row, action: &Action<'_>) {
    push_text(row, action.name);
    row.word("(");
    for (index, argument) in action.arguments.iter().enumerate() {
        row.word_if(index > 0, "|");
        push_text(row, argument.as_slice());
    }
    row.word(")");
}

/// Adds the first action of a line, and what comes after it.
pub(crate) fn push_first(row: &mut Row, words: &str) {
    let line = read_text(row, words);
    let read = next_action(row.alloc(), line.as_slice());
    match row.take(read) {
        Some(Found::Action(action, rest)) => {
            push_action(row, &action);
            row.word(" then ");
            push_text(row, rest);
        }
        Some(Found::Fault(fault)) => {
            row.word(name_of(fault.why));
            row.word_length(" at ", fault.column);
        }
        Some(Found::Ends) => row.word("none"),
        None => {}
    }
}
