//! The shape of a screen: its size and its attributes, an unprotected one's modified data tag aside; and what a key keeps of it.

use crate::promise::press_lines;
use ds_screen::{FieldAt, PlaneCells, Screen};
use test_words::Row;

/// The bits of an attribute, without an unprotected one's modified data tag.
fn shape_bits(field: &FieldAt) -> u8 {
    if field.attr.protected() {
        field.attr.bits()
    } else {
        field.attr.with_modified(false).bits()
    }
}

fn push_attribute(row: &mut Row, field: &FieldAt) {
    row.word_number(" ", field.at);
    row.word_hex(":", shape_bits(field));
}

/// A screen's rows and columns, and the place and bits of each attribute.
fn push_shape(row: &mut Row, screen: &Screen<PlaneCells>) {
    let size = screen.size();
    row.number(u32::from(size.rows));
    row.word_number("x", u32::from(size.cols));
    for field in screen.fields() {
        push_attribute(row, &field);
    }
}

fn push_both(row: &mut Row, before: &Row, after: &Row) {
    if after.says(before.text.as_str()) {
        row.word("keeps ");
        row.join(before);
        return;
    }
    row.join(before);
    row.word(" becomes ");
    row.join(after);
}

/// Whether keys keep the shape of a screen; else the shape that they leave.
pub(crate) fn push_kept(row: &mut Row, screen: &mut Screen<PlaneCells>, keys: &str) {
    let mut before = Row::new(row.alloc());
    push_shape(&mut before, screen);
    press_lines(row, screen, keys);
    let mut after = Row::new(row.alloc());
    push_shape(&mut after, screen);
    push_both(row, &before, &after);
}
