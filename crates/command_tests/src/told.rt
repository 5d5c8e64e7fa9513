//! What is told of the screen that records leave.

use crate::notation::read_text;
use cli_commands::{
    Records, SizeLine, lock_word, push_field_lines, push_screen_line, records_in, shown_on,
};
use test_words::Row;

/// The line of the screen, those of its fields, and the word of its keyboard.
fn push_screen(row: &mut Row, told: &Records) {
    let shown = shown_on(row.alloc(), told.geometry, told.records.as_slice());
    if let Some(terminal) = row.take(shown) {
        let screen = terminal.screen();
        let pushed = push_screen_line(&mut row.text, screen);
        row.note(pushed);
        let pushed = push_field_lines(&mut row.text, screen);
        row.note(pushed);
        row.word(lock_word(screen.lock()));
    }
}

/// The same of a text of records.
pub(crate) fn push_told(row: &mut Row, text: &str) {
    let input = read_text(row, text);
    if let Some(told) = row.take(records_in(row.alloc(), input.as_slice(), SizeLine::Allowed)) {
        push_screen(row, &told);
    }
}
