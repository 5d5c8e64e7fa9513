//! What records do to screens, and what keys change on them.

use crate::screens::inbound::{push_buffer, push_sent};
use crate::screens::large::push_wanted;
use crate::words::push_name;
use crate::{Setup, parted};
use ds_codec::{Aid, Attr, Char, Geometry, Size};
use ds_inbound::{write_buffer, write_inbound};
use ds_screen::{Cells, Effect, FieldAt, Lock, Screen};
use ds_terminal::{Refused, take_record};
use test_words::Row;

/// The verbs that say what a screen is after more records.
const AFTER: &[&str] = &["cells", "all", "fields", "clear", "buffer"];

/// The verbs of a screen after records that end at a mark.
const BEFORE_MARK: &[&str] = &["sends", "buffers"];

/// The setup's sizes.
pub(crate) fn geometry_of(setup: &Setup) -> Option<Geometry> {
    Geometry::new(setup.default, setup.alternate, setup.mode).ok()
}

/// A new screen of the setup's sizes after its records.
pub(crate) fn opened<C: Cells>(row: &mut Row, setup: &Setup) -> Option<Screen<C>> {
    let mut screen = Screen::new(row.alloc(), geometry_of(setup)?).ok()?;
    write_all(row, &mut screen, setup.after.as_str());
    Some(screen)
}

/// Applies a record.
fn write<C: Cells>(row: &mut Row, screen: &mut Screen<C>, text: &str) -> Option<Effect> {
    let bytes = row.read_bytes(text);
    take_record(screen, bytes.as_slice()).ok()
}

/// Applies records that are parted by semicolons.
pub(crate) fn write_all<C: Cells>(row: &mut Row, screen: &mut Screen<C>, records: &str) {
    for text in records.split(';') {
        if !text.is_empty() && write(row, screen, text).is_none() {
            row.spoil();
        }
    }
}

/// Adds a row of a screen to a text.
fn add_row<C: Cells>(row: &mut Row, text: &mut String, screen: &Screen<C>, index: u16) {
    if index >= screen.size().rows {
        return;
    }
    match screen.shown_row(row.alloc(), index) {
        Ok(line) => row.note(text.push_str(line.as_str())),
        Err(_) => row.spoil(),
    }
}

/// All rows, one after the other, and the cursor.
pub(crate) fn push_cells<C: Cells>(row: &mut Row, screen: &Screen<C>) {
    let mut text = String::new(row.alloc());
    for index in 0..screen.size().rows {
        add_row(row, &mut text, screen, index);
    }
    row.letters(text.as_str());
    row.word_number(" ", screen.cursor());
}

fn push_size(row: &mut Row, size: Size) {
    row.number(u32::from(size.rows));
    row.word_number("x", u32::from(size.cols));
}

/// The cells with the size, the keyboard and the attention identifier.
pub(crate) fn push_all<C: Cells>(row: &mut Row, screen: &Screen<C>) {
    push_cells(row, screen);
    row.word(" ");
    push_size(row, screen.size());
    row.word(" ");
    push_name(row, &screen.lock());
    row.word_hex(" ", screen.aid().byte());
}

/// Where a field's attribute stands, its bits, its first place and its length.
pub(crate) fn push_field(row: &mut Row, field: FieldAt) {
    row.word_number(", ", field.at);
    row.word_hex(" ", field.attr.bits());
    row.word_number(" ", field.place);
    row.word_number(" ", field.length);
}

fn push_fields<C: Cells>(row: &mut Row, screen: &Screen<C>) {
    row.word("fields");
    for field in screen.fields() {
        push_field(row, field);
    }
}

/// Why a record is refused, and the cells after it.
fn push_refused<C: Cells>(row: &mut Row, screen: &mut Screen<C>, text: &str) {
    let bytes = row.read_bytes(text);
    match take_record(screen, bytes.as_slice()) {
        Ok(_) => row.word("applied"),
        Err(Refused::Apply(refused)) => row.show(&refused),
        Err(_) => row.spoil(),
    }
    row.word(": ");
    push_cells(row, screen);
}

/// The size, the cursor and the keyboard.
pub(crate) fn push_state(row: &mut Row, size: Size, cursor: u32, lock: Lock) {
    push_size(row, size);
    row.word_number(" ", cursor);
    row.word(" ");
    push_name(row, &lock);
}

/// What a record does besides.
pub(crate) fn push_told(row: &mut Row, effect: Effect) {
    row.word("alarm ");
    row.truth(effect.alarm);
    row.word(" restored ");
    row.truth(effect.restored);
}

/// The same, with the size, the cursor and the keyboard after it.
fn push_effect<C: Cells>(row: &mut Row, effect: Effect, screen: &Screen<C>) {
    push_told(row, effect);
    row.word(" ");
    push_state(row, screen.size(), screen.cursor(), screen.lock());
    row.word("; ");
}

/// What records do besides, one after the other.
fn push_effects<C: Cells>(row: &mut Row, screen: &mut Screen<C>, records: &str) {
    for text in records.split(';') {
        match write(row, screen, text) {
            Some(effect) => push_effect(row, effect, screen),
            None => row.spoil(),
        }
    }
}

/// A copy, once records came to the screen, and once they came to the copy too.
fn push_both<C: Cells>(row: &mut Row, screen: &mut Screen<C>, copy: &mut Screen<C>, records: &str) {
    write_all(row, screen, records);
    push_all(row, copy);
    row.word_if(copy.geometry() == screen.geometry(), " of the same sizes");
    row.word(", then ");
    write_all(row, copy, records);
    push_cells(row, copy);
}

fn push_copy<C: Cells>(row: &mut Row, screen: &mut Screen<C>, records: &str) {
    screen.set_aid(Aid::enter());
    match screen.copied(row.alloc()) {
        Ok(mut copy) => push_both(row, screen, &mut copy, records),
        Err(_) => row.spoil(),
    }
}

/// A plain character of a code.
fn read_character(row: &mut Row, code: &str) -> Char {
    match Char::new(row.read_byte(code), false) {
        Some(character) => character,
        None => {
            row.spoil();
            Char::null()
        }
    }
}

/// The screen once a character was put at a place and the cursor moved there.
fn push_put<C: Cells>(row: &mut Row, screen: &mut Screen<C>, words: &str) {
    let (place, code) = row.cut(words, " ");
    let place = row.read_number(place);
    let character = read_character(row, code);
    if place < screen.size().cells() {
        screen.put_char(place, character);
        screen.move_cursor(place);
    }
    push_all(row, screen);
}

/// The screen once a character was put at each place from one up to another.
fn push_repeated<C: Cells>(row: &mut Row, screen: &mut Screen<C>, words: &str) {
    let (place, words) = row.cut(words, " ");
    let (stop, code) = row.cut(words, " ");
    let place = row.read_number(place);
    let stop = row.read_number(stop);
    let character = read_character(row, code);
    let cells = screen.size().cells();
    if place < cells && stop < cells {
        screen.repeat_char(place, stop, character);
    }
    push_all(row, screen);
}

/// The fields once the attribute before a place was set.
fn push_set<C: Cells>(row: &mut Row, screen: &mut Screen<C>, words: &str) {
    let (place, bits) = row.cut(words, " ");
    let place = row.read_number(place);
    let bits = row.read_byte(bits);
    if place < screen.size().cells() {
        if let Some(at) = screen.attr_before(place) {
            screen.set_attr(at, Attr::new(bits));
        }
    }
    push_fields(row, screen);
}

/// The screen in error and with Enter, then erased.
fn push_erased<C: Cells>(row: &mut Row, screen: &mut Screen<C>) {
    screen.set_lock(Lock::Error);
    screen.set_aid(Aid::enter());
    push_all(row, screen);
    screen.erase_default();
    row.word(", then ");
    push_cells(row, screen);
}

/// The cells and the fields once all that is unprotected was cleared.
fn push_cleared<C: Cells>(row: &mut Row, screen: &mut Screen<C>) {
    screen.clear_unprotected();
    push_all(row, screen);
    row.word(" ");
    push_fields(row, screen);
}

/// Adds what a verb answers after more records; whether it is one of these.
pub(crate) fn push_after<C: Cells>(
    row: &mut Row,
    screen: &mut Screen<C>,
    verb: &str,
    records: &str,
) -> bool {
    if !AFTER.contains(&verb) {
        return false;
    }
    write_all(row, screen, records);
    match verb {
        "cells" => push_cells(row, screen),
        "all" => push_all(row, screen),
        "fields" => push_fields(row, screen),
        "clear" => push_cleared(row, screen),
        _ => push_buffer(row, screen),
    }
    true
}

/// Adds what a verb answers after records that end at a mark; whether it is one of these.
pub(crate) fn push_before_mark<C: Cells>(
    row: &mut Row,
    screen: &mut Screen<C>,
    verb: &str,
    words: &str,
) -> bool {
    if !BEFORE_MARK.contains(&verb) {
        return false;
    }
    let (records, wanted) = row.cut(words, " = ");
    write_all(row, screen, records);
    screen.set_aid(Aid::enter());
    let sent = match verb {
        "sends" => write_inbound(row.alloc(), screen, false),
        _ => write_buffer(row.alloc(), screen),
    };
    push_wanted(row, sent, wanted);
    true
}

/// What a screen answers after a key and more records.
fn push_sent_after<C: Cells>(row: &mut Row, screen: &mut Screen<C>, words: &str) {
    let (aid, records) = parted(words, " ");
    write_all(row, screen, records);
    push_sent(row, screen, aid);
}

/// Adds what a verb answers that changes its screen; whether it is one of these.
pub(crate) fn push_changed<C: Cells>(
    row: &mut Row,
    screen: &mut Screen<C>,
    verb: &str,
    words: &str,
) -> bool {
    match verb {
        "put" => push_put(row, screen, words),
        "repeat" => push_repeated(row, screen, words),
        "set" => push_set(row, screen, words),
        "erase" => push_erased(row, screen),
        "effects" => push_effects(row, screen, words),
        "copy" => push_copy(row, screen, words),
        "refused" => push_refused(row, screen, words),
        "sent" => push_sent_after(row, screen, words),
        _ => return false,
    }
    true
}
