//! What records leave of an outline.

use crate::Setup;
use crate::screens::generated::count_alike;
use crate::screens::records::{geometry_of, opened, push_field, push_state};
use ds_screen::{Outline, PlainCells};
use ds_terminal::{Refused, take_record};
use test_words::Row;

/// A new outline of the setup's sizes.
fn blank(row: &Row, setup: &Setup) -> Option<Outline> {
    Outline::new(row.alloc(), geometry_of(setup)?).ok()
}

/// Applies a record; tells why it is refused.
fn take(row: &mut Row, outline: &mut Outline, text: &str) {
    let bytes = row.read_bytes(text);
    match take_record(outline, bytes.as_slice()) {
        Ok(_) => {}
        Err(Refused::Apply(refused)) => {
            row.show(&refused);
            row.word("; ");
        }
        Err(_) => row.spoil(),
    }
}

/// Applies records that are parted by semicolons.
fn take_all(row: &mut Row, outline: &mut Outline, records: &str) {
    for text in records.split(';') {
        if !text.is_empty() {
            take(row, outline, text);
        }
    }
}

/// The size, the cursor, the keyboard and the fields.
fn push_outline(row: &mut Row, outline: &Outline) {
    push_state(row, outline.size(), outline.cursor(), outline.lock());
    for field in outline.fields() {
        push_field(row, field);
    }
}

/// The outline after the setup's records and some more.
fn push_after(row: &mut Row, setup: &Setup, outline: &mut Outline, records: &str) {
    take_all(row, outline, setup.after.as_str());
    take_all(row, outline, records);
    push_outline(row, outline);
}

/// The outline of a new terminal again, after the setup's records.
fn push_restarted(row: &mut Row, setup: &Setup, outline: &mut Outline) {
    take_all(row, outline, setup.after.as_str());
    outline.restart();
    push_outline(row, outline);
}

/// After how many generated records an outline and a screen are alike.
fn push_alike(row: &mut Row, setup: &Setup, outline: &mut Outline, words: &str) {
    let count = row.read_number(words);
    match opened::<PlainCells>(row, setup) {
        Some(mut screen) => {
            let alike = count_alike(row, outline, &mut screen, count);
            row.number(alike);
            row.word(" alike");
        }
        None => row.spoil(),
    }
}

/// Adds what a verb answers of an outline.
fn push_told(row: &mut Row, setup: &Setup, outline: &mut Outline, verb: &str, words: &str) {
    match verb {
        "outline" => push_after(row, setup, outline, words),
        "restarted" => push_restarted(row, setup, outline),
        _ => push_alike(row, setup, outline, words),
    }
}

/// Adds what a verb answers that begins with an outline.
fn push_outlined(row: &mut Row, setup: &Setup, verb: &str, words: &str) {
    match blank(row, setup) {
        Some(mut outline) => push_told(row, setup, &mut outline, verb, words),
        None => row.spoil(),
    }
}

/// Adds what a verb answers; whether it is one of these.
pub(crate) fn push_answer(row: &mut Row, setup: &Setup, verb: &str, words: &str) -> bool {
    match verb {
        "outline" | "restarted" | "alike" => push_outlined(row, setup, verb, words),
        _ => return false,
    }
    true
}
