//! Strokes, one after the other.

use crate::Setup;
use crate::screens::keys::push_pressed;
use crate::screens::records::{opened, push_cells};
use ds_screen::{Cells, Screen};
use ds_strokes::{Operator, stroke_of_line};
use test_words::Row;

/// What is answered to a stroke's line, with the cursor.
fn push_stroke<C: Cells>(row: &mut Row, operator: &mut Operator<C>, line: &str) {
    match stroke_of_line(line) {
        Some(stroke) => {
            let told = operator.strike(stroke);
            push_pressed(row, told, operator.screen().cursor());
            row.word(", ");
        }
        None => row.spoil(),
    }
}

/// The cells, the bits of the fields, and whether insert mode is on.
fn push_left<C: Cells>(row: &mut Row, screen: &Screen<C>, inserts: bool) {
    push_cells(row, screen);
    for field in screen.fields() {
        row.word_hex(" ", field.attr.bits());
    }
    row.word(if inserts { " insert" } else { "" });
}

/// The answers to strokes, and what they leave.
pub(crate) fn push_strokes<C: Cells>(row: &mut Row, setup: &Setup, lines: &str) {
    match opened::<C>(row, setup) {
        Some(screen) => {
            let mut operator = Operator::new(screen);
            for line in lines.split(", ") {
                push_stroke(row, &mut operator, line);
            }
            push_left(row, operator.screen(), operator.inserts());
        }
        None => row.spoil(),
    }
}
