//! Keys pressed, one after the other or each by itself.

use crate::Setup;
use crate::screens::records::{opened, push_all, push_cells};
use ds_keys::{Pressed, key_of_line, press};
use ds_screen::{Cells, Screen};
use test_words::Row;

pub(crate) fn push_pressed(row: &mut Row, told: Pressed, cursor: u32) {
    match told {
        Pressed::Done => row.word_number("done ", cursor),
        Pressed::Inhibited => row.word_number("inhibited ", cursor),
        Pressed::Ignored => row.word_number("ignored ", cursor),
        Pressed::Sent(aid) => row.word_hex("sent ", aid.byte()),
    }
}

/// What is answered to a key line, with the cursor.
fn push_key<C: Cells>(row: &mut Row, screen: &mut Screen<C>, line: &str) {
    match key_of_line(line) {
        Some(key) => {
            let told = press(screen, key);
            push_pressed(row, told, screen.cursor());
            row.word(", ");
        }
        None => row.spoil(),
    }
}

/// Presses keys, and adds what is answered to each.
pub(crate) fn push_keys<C: Cells>(row: &mut Row, screen: &mut Screen<C>, lines: &str) {
    for line in lines.split(", ") {
        if !line.is_empty() {
            push_key(row, screen, line);
        }
    }
}

/// Presses keys.
fn press_all<C: Cells>(row: &mut Row, screen: &mut Screen<C>, lines: &str) {
    let mut told = Row::new(row.alloc());
    push_keys(&mut told, screen, lines);
    let _text = row.take(told.finish());
}

/// The answer to a key on a screen of its own that took some keys before.
fn push_after<C: Cells>(row: &mut Row, setup: &Setup, before: &str, line: &str) {
    match opened::<C>(row, setup) {
        Some(mut screen) => {
            press_all(row, &mut screen, before);
            push_key(row, &mut screen, line);
        }
        None => row.spoil(),
    }
}

/// The answers to keys, each on a screen of its own that took some keys before, which a bar ends.
pub(crate) fn push_each<C: Cells>(row: &mut Row, setup: &Setup, words: &str) {
    let (before, lines) = row.cut(words, "|");
    for line in lines.split(", ") {
        push_after::<C>(row, setup, before, line);
    }
}

/// The cells after keys, and the bits of the fields.
fn push_typed<C: Cells>(row: &mut Row, screen: &mut Screen<C>, lines: &str) {
    press_all(row, screen, lines);
    push_cells(row, screen);
    for field in screen.fields() {
        row.word_hex(" ", field.attr.bits());
    }
}

/// The answers to keys, and the whole screen after them.
fn push_screen<C: Cells>(row: &mut Row, screen: &mut Screen<C>, lines: &str) {
    push_keys(row, screen, lines);
    push_all(row, screen);
}

/// Whether a line between bars is a key.
pub(crate) fn push_word(row: &mut Row, words: &str) {
    let is_key = key_of_line(row.read_between_bars(words)).is_some();
    row.word(if is_key { "a key" } else { "no key" });
}

/// Adds what a verb answers; whether it is one of these.
pub(crate) fn push_answer<C: Cells>(
    row: &mut Row,
    screen: &mut Screen<C>,
    verb: &str,
    words: &str,
) -> bool {
    match verb {
        "keys" => push_keys(row, screen, words),
        "typed" => push_typed(row, screen, words),
        "pressed" => push_screen(row, screen, words),
        _ => return false,
    }
    true
}
