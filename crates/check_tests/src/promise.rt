//! Screens that conform, pressed through lists of keys: what Enter then sends is bound.

use crate::Setup;
use crate::answers::push_bound;
use crate::dialogues::count_kept;
use crate::script::text_of;
use crate::shapes::push_kept;
use ds_codec::Record;
use ds_inbound::write_inbound;
use ds_keys::{key_of_line, press};
use ds_screen::{Lock, PlaneCells, Screen};
use scr_layout::Layout;
use test_words::Row;

/// Applies a record; whether it is one that can be.
fn is_shown(screen: &mut Screen<PlaneCells>, bytes: &[u8]) -> bool {
    match Record::read(screen.geometry().mode(), bytes) {
        Ok(record) => screen.apply(&record).is_ok(),
        Err(_) => false,
    }
}

/// Applies records that are parted by semicolons.
fn show_all(row: &mut Row, screen: &mut Screen<PlaneCells>, records: &str) {
    for text in records.split(';') {
        if !text.is_empty() {
            let bytes = row.read_bytes(text);
            if !is_shown(screen, bytes.as_slice()) {
                row.spoil();
            }
        }
    }
}

/// A new terminal's screen of the layout's geometry after records.
fn opened(row: &mut Row, layout: &Layout, records: &str) -> Option<Screen<PlaneCells>> {
    match Screen::new(row.alloc(), layout.geometry()) {
        Ok(mut screen) => {
            show_all(row, &mut screen, records);
            Some(screen)
        }
        Err(_) => {
            row.spoil();
            None
        }
    }
}

fn press_line(row: &mut Row, screen: &mut Screen<PlaneCells>, line: &str) {
    match key_of_line(line) {
        Some(key) => {
            let _told = press(screen, key);
        }
        None => row.spoil(),
    }
}

fn press_often(row: &mut Row, screen: &mut Screen<PlaneCells>, line: &str, times: u32) {
    for _ in 0..times {
        press_line(row, screen, line);
    }
}

pub(crate) fn press_lines(row: &mut Row, screen: &mut Screen<PlaneCells>, keys: &str) {
    for part in keys.split(", ") {
        if let Some((times, line)) = part.split_once(' ') {
            let times = row.read_number(times);
            press_often(row, screen, line, times);
        }
    }
}

/// The keys in turn, Reset where they end in an error, and Enter.
fn press_all(row: &mut Row, screen: &mut Screen<PlaneCells>, keys: &str) {
    press_lines(row, screen, keys);
    if screen.lock() == Lock::Error {
        press_line(row, screen, "reset");
    }
    press_line(row, screen, "enter");
}

/// What is told of what a screen sends after keys.
fn push_sent(row: &mut Row, layout: &Layout, screen: &mut Screen<PlaneCells>, keys: &str) {
    press_all(row, screen, keys);
    match write_inbound(row.alloc(), screen, false) {
        Ok(bytes) => push_bound(row, layout, bytes.as_slice()),
        Err(_) => row.spoil(),
    }
}

/// What is told after keys: of what the screen sends, or of its shape.
#[derive(Clone, Copy)]
pub(crate) enum Told {
    Sent,
    Shape,
}

/// What is told of a screen and keys.
fn push_told(
    row: &mut Row,
    layout: &Layout,
    screen: &mut Screen<PlaneCells>,
    told: Told,
    keys: &str,
) {
    match told {
        Told::Sent => push_sent(row, layout, screen, keys),
        Told::Shape => push_kept(row, screen, keys),
    }
}

/// The same of a screen after the setup's records.
pub(crate) fn push_after(row: &mut Row, setup: &Setup, layout: &Layout, told: Told, keys: &str) {
    if let Some(mut screen) = opened(row, layout, setup.after.as_str()) {
        push_told(row, layout, &mut screen, told, keys);
    }
}

/// The keys of the list of this name.
fn keys_of<'a>(row: &mut Row, setup: &'a Setup, name: &str) -> &'a str {
    for list in setup.lists.iter() {
        let (word, keys) = row.cut(list.as_str(), ": ");
        if word == name {
            return keys;
        }
    }
    row.spoil();
    ""
}

/// What is told after the keys of the list of this name.
pub(crate) fn push_pressed(row: &mut Row, setup: &Setup, layout: &Layout, name: &str) {
    let keys = keys_of(row, setup, name);
    push_after(row, setup, layout, Told::Sent, keys);
}

/// Whether Enter sends an answer that is bound after a list's keys.
fn is_bound(row: &mut Row, setup: &Setup, layout: &Layout, list: &str) -> bool {
    let (_, keys) = row.cut(list, ": ");
    let mut told = Row::new(row.alloc());
    push_after(&mut told, setup, layout, Told::Sent, keys);
    text_of(row, told).as_str().starts_with("7D")
}

/// After how many of the lists Enter sends an answer that is bound.
pub(crate) fn push_lists(row: &mut Row, setup: &Setup, layout: &Layout) {
    let mut bound = 0u32;
    for list in setup.lists.iter() {
        if is_bound(row, setup, layout, list.as_str()) {
            bound = bound.saturating_add(1);
        }
    }
    row.number(bound);
    row.word_length(" of ", setup.lists.len());
}

/// How many of so many generated dialogues keep the promise.
pub(crate) fn push_dialogues(row: &mut Row, words: &str) {
    let count = row.read_number(words);
    let kept = count_kept(row, count);
    row.number(kept);
    row.word_number(" of ", count);
}
