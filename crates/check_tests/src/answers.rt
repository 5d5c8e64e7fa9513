//! Answers bound to a layout's fields.

use ds_inbound::Inbound;
use scr_check::{Bound, bind};
use scr_layout::Layout;
use test_words::Row;

/// How many fields are printed one by one.
const FEW: usize = 20;

/// An entry's index and the characters of its field, after a space.
fn push_field(row: &mut Row, pair: &Bound<'_>) {
    row.word_length(" ", pair.entry);
    row.word("=");
    row.bytes(pair.raw);
}

fn push_fields(row: &mut Row, bound: &[Bound<'_>]) {
    for pair in bound {
        push_field(row, pair);
    }
}

/// The number of bound fields, and the last.
fn push_many(row: &mut Row, bound: &[Bound<'_>]) {
    row.word_length(" ", bound.len());
    row.word(" fields, the last");
    if let Some(pair) = bound.last() {
        push_field(row, pair);
    }
}

/// The bound fields; of more than 20 their number and the last.
fn push_few(row: &mut Row, bound: &[Bound<'_>]) {
    if bound.len() > FEW {
        push_many(row, bound);
    } else {
        push_fields(row, bound);
    }
}

/// The attention identifier of an answer and its bound fields, or why it is not bound.
fn push_read(row: &mut Row, layout: &Layout, answer: &Inbound<'_>) {
    match bind(row.alloc(), layout, answer) {
        Ok(bound) => {
            row.hex(answer.aid().byte());
            push_few(row, bound.as_slice());
        }
        Err(error) => row.show(&error),
    }
}

/// The same of an answer's bytes, or why it is not read.
pub(crate) fn push_bound(row: &mut Row, layout: &Layout, bytes: &[u8]) {
    match Inbound::read(layout.geometry().mode(), layout.size().cells(), bytes) {
        Ok(answer) => push_read(row, layout, &answer),
        Err(refused) => row.show(&refused),
    }
}

/// The same of the bytes of words.
pub(crate) fn push_bind(row: &mut Row, layout: &Layout, words: &str) {
    let bytes = row.read_bytes(words);
    push_bound(row, layout, bytes.as_slice());
}
