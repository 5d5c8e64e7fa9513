//! Texts, and what is told of them.

use crate::Setup;
use crate::script::text_of;
use ds_codec::{Mode, Size};
use scr_layout::{Entry, Kind, Layout, LayoutError, size_of_text};
use std::alloc::Global;
use test_words::Row;

/// The keys of a field, each with a usual value.
const USUAL: &[(&str, &str)] = &[
    ("name", "\"code\""),
    ("row", "1"),
    ("col", "4"),
    ("length", "3"),
    ("kind", "\"input\""),
];

/// A text with line ends of another system.
const WINDOWS: &str =
    "\u{FEFF}default = \"2x10\"\r\n[[field]]\r\nname = 'code'\r\nrow = 0x1\r\ncol = 0b100\r\nlength = 1_9\r\n";

/// The lines that are parted by ` | `, each with its end.
fn push_lines(row: &mut Row, words: &str) {
    for line in words.split(" | ") {
        row.word(line);
        row.word("\n");
    }
}

/// The text of lines that are parted by ` | `.
pub(crate) fn read_text(row: &mut Row, words: &str) -> String {
    let mut text = Row::new(row.alloc());
    push_lines(&mut text, words);
    text_of(row, text)
}

/// One more input at a place of rows of so many columns, at least one.
fn push_entry(text: &mut Row, index: u32, place: u32, cols: u32, length: u32) {
    let row = (place / cols.max(1)).saturating_add(1);
    let col = (place % cols.max(1)).saturating_add(1);
    text.word_number("[[field]]\nname = \"customer-field-number-", index);
    text.word_number("\"\nrow = ", row);
    text.word_number("\ncol = ", col);
    text.word_number("\nlength = ", length);
    text.word("\n");
}

/// So many inputs of a length, each so many places after the one before, the first at place 1.
fn push_entries(text: &mut Row, cols: u32, count: u32, step: u32, length: u32) {
    let mut place = 1u32;
    for index in 0..count {
        push_entry(text, index, place, cols, length);
        place = place.saturating_add(step);
    }
}

/// The text of `SIZE COUNT STEP LENGTH`.
pub(crate) fn read_grid(row: &mut Row, words: &str) -> String {
    let (size, rest) = row.cut(words, " ");
    let (_, cols) = row.cut(size, "x");
    let cols = row.read_number(cols);
    let (count, rest) = row.cut(rest, " ");
    let count = row.read_number(count);
    let (step, length) = row.read_numbers(rest);
    let mut text = Row::new(row.alloc());
    text.word("default = \"");
    text.word(size);
    text.word("\"\n");
    push_entries(&mut text, cols, count, step, length);
    text_of(row, text)
}

/// The printed words of a refusal, or `taken`.
fn push_told(row: &mut Row, text: &str) {
    match Layout::from_text(row.alloc(), text) {
        Ok(_) => row.word("taken"),
        Err(error) => row.show(&error),
    }
}

/// The same of the text of a row.
fn push_told_of(row: &mut Row, text: Row) {
    let text = text_of(row, text);
    push_told(row, text.as_str());
}

/// What is told of lines after the setup's.
fn push_layout(row: &mut Row, setup: &Setup, words: &str) {
    let mut text = Row::new(row.alloc());
    text.word(setup.layout.as_str());
    push_lines(&mut text, words);
    push_told_of(row, text);
}

/// Lines of a key and its usual value, or another one for the key that has it.
fn push_usual(text: &mut Row, key: &str, value: &str) {
    for pair in USUAL {
        text.word(pair.0);
        text.word(" = ");
        text.word(if pair.0 == key { value } else { pair.1 });
        text.word("\n");
    }
}

/// What is told of a text of one field, one of its keys with another value.
fn push_value(row: &mut Row, words: &str) {
    let (key, value) = row.cut(words, " = ");
    let mut text = Row::new(row.alloc());
    text.word("default = \"2x10\"\n[[field]]\n");
    push_usual(&mut text, key, value);
    push_told_of(row, text);
}

/// Whether memory for a text's layout is refused.
fn is_refused(alloc: Global, text: &str) -> bool {
    match Layout::from_text(alloc, text) {
        Err(LayoutError::OutOfMemory) => true,
        _ => false,
    }
}

/// How many of the fronts of a text are answered with out of memory.
fn count_refused(alloc: Global, text: &str) -> u32 {
    let mut refused = 0u32;
    for end in 0..text.len() {
        if is_refused(alloc, text.get(..end).unwrap_or("")) {
            refused = refused.saturating_add(1);
        }
    }
    refused
}

fn push_fronts(row: &mut Row, text: &str) {
    row.number(count_refused(row.alloc(), text));
    row.word_length(" of ", text.len());
}

/// Texts with line ends of other systems.
fn push_ends(row: &mut Row) {
    push_told(row, WINDOWS);
    row.word("; ");
    push_told(row, "[[field]]\rname = \"code\"");
}

fn push_size(row: &mut Row, size: Size) {
    row.number(u32::from(size.rows));
    row.word_number("x", u32::from(size.cols));
}

/// The size of a text between bars.
fn push_size_of(row: &mut Row, words: &str) {
    match size_of_text(Mode::Bits14, row.read_between_bars(words)) {
        Some(size) => push_size(row, size),
        None => row.word("none"),
    }
}

fn name_of(kind: Kind) -> &'static str {
    match kind {
        Kind::Input => " Input",
        Kind::Fixed => " Fixed",
    }
}

fn push_entry_of(row: &mut Row, entry: &Entry) {
    row.word(", ");
    row.word(entry.name.as_str());
    row.word_number(" ", entry.place);
    row.word_number(" ", entry.length);
    row.word(name_of(entry.kind));
}

fn push_sizes(row: &mut Row, layout: &Layout) {
    let geometry = layout.geometry();
    push_size(row, layout.size());
    row.word(" ");
    push_size(row, geometry.default_size());
    row.word(" ");
    push_size(row, geometry.alternate_size());
    row.word(match geometry.mode() {
        Mode::Bits14 => " Bits14",
        Mode::Bits16 => " Bits16",
    });
}

/// The sizes and the entries of a layout.
pub(crate) fn push_all(row: &mut Row, layout: &Layout) {
    push_sizes(row, layout);
    for entry in layout.entries() {
        push_entry_of(row, entry);
    }
}

fn push_index(row: &mut Row, index: Option<usize>) {
    match index {
        Some(index) => row.word_length(", ", index),
        None => row.word(", none"),
    }
}

/// How many entries there are, and the index of the entry at each of some places.
pub(crate) fn push_places(row: &mut Row, layout: &Layout, words: &str) {
    row.length(layout.entries().len());
    let mut guess = 0;
    for word in words.split(' ') {
        let place = row.read_number(word);
        let found = layout.entry_at(place);
        if layout.entry_near(place, &mut guess) != found {
            return row.spoil();
        }
        push_index(row, found);
    }
}

/// The sizes and the entries of a copy of a layout, and the indexes of the entries at some places.
pub(crate) fn push_copy(row: &mut Row, layout: &Layout, words: &str) {
    match layout.copy(row.alloc()) {
        Ok(copy) => {
            push_all(row, &copy);
            row.word("; ");
            push_places(row, &copy, words);
        }
        Err(_) => row.spoil(),
    }
}

/// What is told of a text of a front, a part so many times, and a back.
fn push_repeated(row: &mut Row, front: &str, part: &str, count: u32, back: &str) {
    let mut text = Row::new(row.alloc());
    text.word(front);
    for _ in 0..count {
        text.word(part);
    }
    text.word(back);
    push_told_of(row, text);
}

/// A text of so many empty tables, and one of so many numbers.
fn push_lists(row: &mut Row, words: &str) {
    let count = row.read_number(words);
    push_repeated(row, "", "[[field]]\n", count, "");
    row.word("; ");
    push_repeated(row, "field = [", "1, ", count, "]");
}

/// Adds what a verb answers; whether it is one of these.
pub(crate) fn push_answer(row: &mut Row, setup: &Setup, verb: &str, words: &str) -> bool {
    match verb {
        "layout" => push_layout(row, setup, words),
        "fronts" => push_fronts(row, setup.layout.as_str()),
        "value" => push_value(row, words),
        "ends" => push_ends(row),
        "size" => push_size_of(row, words),
        "lists" => push_lists(row, words),
        _ => return false,
    }
    true
}
