//! Answers written and read.

use crate::codec::push_character;
use crate::screens::large::push_counts;
use ds_codec::{Aid, Mode};
use ds_inbound::{Inbound, chars, write_buffer, write_inbound};
use ds_screen::{Cells, Screen};
use std::alloc::AllocError;
use test_words::Row;

/// Bytes, and how many characters they are.
fn push_characters(row: &mut Row, raw: &[u8]) {
    row.bytes(raw);
    row.word_length(" of ", chars(raw).count());
}

fn push_lead(row: &mut Row, lead: &[u8]) {
    if !lead.is_empty() {
        row.word(" lead ");
        push_characters(row, lead);
    }
}

fn push_inbound(row: &mut Row, answer: &Inbound<'_>) {
    row.hex(answer.aid().byte());
    if let Some(cursor) = answer.cursor() {
        row.word_number(" cursor ", cursor);
    }
    push_lead(row, answer.lead());
    for field in answer.fields() {
        row.word_number(", ", field.place);
        row.word(" ");
        push_characters(row, field.raw);
    }
}

/// An answer, or how many characters and fields it has.
fn push_told(row: &mut Row, answer: &Inbound<'_>, verb: &str) {
    if verb == "counted" {
        push_counts(row, answer);
    } else {
        push_inbound(row, answer);
    }
}

/// What bytes say of a buffer of so many cells.
pub(crate) fn push_read(row: &mut Row, mode: Mode, verb: &str, words: &str) {
    let (cells, bytes) = row.cut(words, " ");
    let cells = row.read_number(cells);
    let bytes = row.read_bytes(bytes);
    match Inbound::read(mode, cells, bytes.as_slice()) {
        Ok(answer) => push_told(row, &answer, verb),
        Err(refused) => row.show(&refused),
    }
}

/// The characters of bytes.
pub(crate) fn push_codes(row: &mut Row, words: &str) {
    let raw = row.read_bytes(words);
    row.word("characters");
    for character in chars(raw.as_slice()) {
        push_character(row, character);
    }
}

fn push_written(row: &mut Row, written: Result<Vec<u8>, AllocError>) {
    match written {
        Ok(bytes) => row.bytes(bytes.as_slice()),
        Err(_) => row.spoil(),
    }
}

pub(crate) fn push_modified<C: Cells>(row: &mut Row, screen: &Screen<C>, all: bool) {
    let written = write_inbound(row.alloc(), screen, all);
    push_written(row, written);
}

/// What a screen answers to Read Modified and to Read Modified All, after a key.
pub(crate) fn push_sent<C: Cells>(row: &mut Row, screen: &mut Screen<C>, aid: &str) {
    match Aid::from_byte(row.read_byte(aid)) {
        Some(aid) => screen.set_aid(aid),
        None => row.spoil(),
    }
    push_modified(row, screen, false);
    row.word(" all ");
    push_modified(row, screen, true);
}

/// What a screen answers to Read Buffer.
pub(crate) fn push_buffer<C: Cells>(row: &mut Row, screen: &Screen<C>) {
    let written = write_buffer(row.alloc(), screen);
    push_written(row, written);
}
