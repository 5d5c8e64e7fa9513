//! Places that are searched on a screen, and buffers by themselves.

use crate::codes::push_char;
use crate::words::push_name;
use ds_codec::{Attr, Cell, Char};
use ds_keys::end_of_row;
use ds_screen::{Cells, Screen};
use test_words::Row;

/// The verbs of a place.
const OF_A_PLACE: &[&str] = &["around", "open", "row-end", "cell"];

/// The attribute that governs a place, and the next one from there on.
fn push_around<C: Cells>(row: &mut Row, screen: &Screen<C>, place: u32) {
    if place >= screen.size().cells() {
        return row.spoil();
    }
    push_name(row, &screen.attr_before(place));
    row.word(" ");
    push_name(row, &screen.attr_from(place));
}

/// Whether a place is open, and the first open one from there on.
fn push_open<C: Cells>(row: &mut Row, screen: &Screen<C>, place: u32) {
    if place >= screen.size().cells() {
        return row.spoil();
    }
    row.truth(screen.is_open(place));
    row.word_number(" ", screen.first_open(place));
}

/// The position behind the last one of the row of a place, and how many positions there are.
fn push_row_end<C: Cells>(row: &mut Row, screen: &Screen<C>, place: u32) {
    let count = screen.position_count();
    if place >= count {
        return row.spoil();
    }
    row.number(end_of_row(screen, place));
    row.word_number(" ", count);
}

fn push_cell(row: &mut Row, cell: Cell) {
    match cell {
        Cell::Field(attribute) => row.word_hex("attribute ", attribute.bits()),
        Cell::Char(character) => push_char(row, character),
    }
}

/// The cell at a place.
fn push_cell_at<C: Cells>(row: &mut Row, screen: &Screen<C>, place: u32) {
    if place >= screen.size().cells() {
        return row.spoil();
    }
    push_cell(row, screen.cell(place));
}

/// The length of a buffer, its last cell, and whether it has no attribute.
fn push_buffer<C: Cells>(row: &mut Row, cells: &C) {
    let length = cells.len();
    row.number(length);
    row.word(" ");
    if length == 0 {
        return;
    }
    push_cell(row, cells.cell(length - 1));
    let is_plain = cells.attr_before(0).is_none() && cells.attr_from(0).is_none();
    row.word_if(is_plain, " unformatted");
}

/// A buffer of so many nulls.
pub(crate) fn push_reserved<C: Cells>(row: &mut Row, words: &str) {
    let count = row.read_number(words);
    match C::reserved(row.alloc(), count) {
        Ok(mut cells) => {
            cells.clear(count);
            push_buffer(row, &cells);
        }
        Err(_) => row.spoil(),
    }
}

/// Puts an attribute, and characters behind it.
fn put_all<C: Cells>(row: &mut Row, cells: &mut C, attribute: u8, codes: &[u8]) {
    let mut filled = 0u32;
    if filled < cells.len() {
        cells.put(0, Cell::Field(Attr::new(attribute)));
    }
    for code in codes {
        filled = filled.saturating_add(1);
        match Char::new(*code, false) {
            Some(character) if filled < cells.len() => cells.put(filled, Cell::Char(character)),
            _ => row.spoil(),
        }
    }
}

/// What is printed at each place.
fn push_printed<C: Cells>(row: &mut Row, cells: &C) {
    let mut ruling = Attr::new(0);
    for p in 0..cells.len() {
        let (ruled, printed) = cells.print(p, ruling);
        row.show(&char::from(printed));
        ruling = ruled;
    }
}

/// A buffer of an attribute and characters.
fn filled<C: Cells>(row: &mut Row, words: &str) -> Option<C> {
    let (attribute, codes) = row.cut(words, " ");
    let attribute = row.read_byte(attribute);
    let codes = row.read_bytes(codes);
    let count = u32::try_from(codes.len()).unwrap_or(0).saturating_add(1);
    match C::reserved(row.alloc(), count) {
        Ok(mut cells) => {
            cells.clear(count);
            put_all(row, &mut cells, attribute, &codes);
            Some(cells)
        }
        Err(_) => {
            row.spoil();
            None
        }
    }
}

/// A buffer of an attribute and characters, as it is printed.
pub(crate) fn push_filled<C: Cells>(row: &mut Row, words: &str) {
    if let Some(cells) = filled::<C>(row, words) {
        push_printed(row, &cells);
    }
}

/// Whether so many positions of such a buffer hold nulls alone, from one on.
pub(crate) fn push_nulls<C: Cells>(row: &mut Row, words: &str) {
    let (buffer, places) = row.cut(words, "; ");
    let (from, count) = row.cut(places, " ");
    let from = row.read_number(from);
    let count = row.read_number(count);
    match filled::<C>(row, buffer) {
        Some(cells) if from <= cells.len() && count <= cells.len() - from => {
            row.truth(cells.are_nulls(from, count));
        }
        _ => row.spoil(),
    }
}

/// Adds what a verb answers of a place; whether it is one of these.
pub(crate) fn push_answer<C: Cells>(
    row: &mut Row,
    screen: &Screen<C>,
    verb: &str,
    words: &str,
) -> bool {
    if !OF_A_PLACE.contains(&verb) {
        return false;
    }
    let place = row.read_number(words);
    match verb {
        "around" => push_around(row, screen, place),
        "open" => push_open(row, screen, place),
        "row-end" => push_row_end(row, screen, place),
        _ => push_cell_at(row, screen, place),
    }
    true
}
