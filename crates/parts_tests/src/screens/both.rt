//! The two ways of keeping a buffer, side by side, and the search that counts its looks.

use crate::Setup;
use crate::screens::generated::{draw, draw_from, record_of};
use crate::screens::inbound::{push_buffer, push_modified};
use crate::screens::records::opened;
use ds_codec::{Aid, Attr, Cell, Mode, Record};
use ds_keys::{Key, press};
use ds_screen::{Cells, PlainCells, PlaneCells, Screen, attr_before_counted};
use test_words::Row;

/// A screen of each kind.
#[derive(Drop)]
struct Pair {
    plain: Screen<PlainCells>,
    planes: Screen<PlaneCells>,
}

/// Any key.
fn key_of(seed: &mut u32) -> Key {
    match draw(seed, 16) {
        0 => Key::Left,
        1 => Key::Right,
        2 => Key::Up,
        3 => Key::Down,
        4 => Key::Tab,
        5 => Key::BackTab,
        6 => Key::NewLine,
        7 => Key::Home,
        8 => Key::EraseEof,
        9 => Key::EraseInput,
        10 => Key::Delete,
        11 => Key::Reset,
        12 => Key::Attention(Aid::enter()),
        _ => Key::Typed(draw_from(seed, &[0xC1, 0xC2, 0x40, 0xF1])),
    }
}

/// Whether both take a record with the same effect, or refuse it alike.
fn take_alike(pair: &mut Pair, record: &Record<'_>) -> bool {
    pair.plain.apply(record) == pair.planes.apply(record)
}

/// Whether all cells, and what is found from each of them, are the same.
fn have_same_cells(pair: &Pair) -> bool {
    for p in 0..pair.plain.size().cells().min(pair.planes.size().cells()) {
        if pair.plain.cell(p) != pair.planes.cell(p)
            || pair.plain.attr_before(p) != pair.planes.attr_before(p)
            || pair.plain.attr_from(p) != pair.planes.attr_from(p)
            || pair.plain.first_open(p) != pair.planes.first_open(p)
        {
            return false;
        }
    }
    true
}

/// Whether they answer the same to Read Modified All and to Read Buffer.
fn have_same_answers(row: &Row, pair: &Pair) -> bool {
    let mut plain = Row::new(row.alloc());
    push_sent(&mut plain, &pair.plain);
    let mut planes = Row::new(row.alloc());
    push_sent(&mut planes, &pair.planes);
    plain.says(planes.text.as_str()) && planes.says(plain.text.as_str())
}

/// What a screen answers to Read Modified All and to Read Buffer.
fn push_sent<C: Cells>(row: &mut Row, screen: &Screen<C>) {
    push_modified(row, screen, true);
    row.word(" ");
    push_buffer(row, screen);
}

/// Whether cells, size, cursor, keyboard, attention identifier and answers are the same.
fn are_alike(row: &Row, pair: &Pair) -> bool {
    pair.plain.size() == pair.planes.size()
        && pair.plain.cursor() == pair.planes.cursor()
        && pair.plain.lock() == pair.planes.lock()
        && pair.plain.aid() == pair.planes.aid()
        && have_same_cells(pair)
        && have_same_answers(row, pair)
}

/// Presses a key on both; whether they answer alike.
fn press_alike(pair: &mut Pair, key: &Key) -> bool {
    let plain = press(&mut pair.plain, *key);
    let planes = press(&mut pair.planes, *key);
    plain == planes
}

/// Whether some keys leave both alike.
fn stay_alike(row: &mut Row, pair: &mut Pair, seed: &mut u32) -> bool {
    let mut alike = true;
    for _ in 0..4 {
        let key = key_of(seed);
        alike = alike && press_alike(pair, &key) && are_alike(row, pair);
    }
    alike
}

/// Whether a generated record and some keys leave both alike.
fn is_alike_after(row: &mut Row, pair: &mut Pair, seed: &mut u32) -> bool {
    let bytes = record_of(row, seed);
    let alike = match Record::read(Mode::Bits14, bytes.as_slice()) {
        Ok(record) => take_alike(pair, &record) && are_alike(row, pair),
        Err(_) => false,
    };
    stay_alike(row, pair, seed) && alike
}

/// After how many of so many generated records, each with some keys, both are alike.
fn count_alike(row: &mut Row, pair: &mut Pair, count: u32) -> u32 {
    let mut seed = 19_990u32;
    let mut alike = 0u32;
    for _ in 0..count {
        if is_alike_after(row, pair, &mut seed) {
            alike = alike.saturating_add(1);
        }
    }
    alike
}

fn opened_pair(row: &mut Row, setup: &Setup) -> Option<Pair> {
    let plain = opened(row, setup)?;
    let planes = opened(row, setup)?;
    Some(Pair { plain, planes })
}

fn push_both(row: &mut Row, setup: &Setup, words: &str) {
    let count = row.read_number(words);
    match opened_pair(row, setup) {
        Some(mut pair) => {
            let alike = count_alike(row, &mut pair, count);
            row.number(alike);
            row.word(" alike");
        }
        None => row.spoil(),
    }
}

/// Puts an attribute at each so manieth position.
fn put_apart(cells: &mut PlaneCells, count: u32, apart: u32) {
    let mut left = 0u32;
    for p in 0..count {
        if p < cells.len() && left == 0 && apart != 0 {
            cells.put(p, Cell::Field(Attr::new(0)));
            left = apart;
        }
        left = left.saturating_sub(1);
    }
}

/// The first attribute that is listed.
fn first_listed(cells: &PlaneCells) -> Option<u32> {
    let mut probed = cells.probed();
    if probed.len() == 0 {
        return None;
    }
    Some(probed.item(0))
}

/// The attribute before a place, and how many positions and blocks of the index were looked at to find it.
fn push_looked(row: &mut Row, cells: &PlaneCells, place: u32) {
    row.word_number("among ", cells.probed().len());
    let mut probed = cells.probed();
    match attr_before_counted(&mut probed, place) {
        Some(q) => row.word_number(" at ", q),
        None => row.word(" none"),
    }
    row.word(" looks ");
    row.show(&probed.probes());
    row.word(" blocks ");
    row.show(&probed.blocks());
    if let Some(first) = first_listed(cells) {
        row.word_number(" first ", first);
    }
}

/// The same in planes of so many positions, with an attribute at each so manieth.
fn push_looks(row: &mut Row, words: &str) {
    let (count, rest) = row.cut(words, " ");
    let count = row.read_number(count);
    let (apart, place) = row.read_numbers(rest);
    match PlaneCells::reserved(row.alloc(), count) {
        Ok(mut cells) => {
            cells.clear(count);
            put_apart(&mut cells, count, apart);
            push_looked(row, &cells, place);
        }
        Err(_) => row.spoil(),
    }
}

/// Adds what a verb answers; whether it is one of these.
pub(crate) fn push_answer(row: &mut Row, setup: &Setup, verb: &str, words: &str) -> bool {
    match verb {
        "both" => push_both(row, setup, words),
        "looks" => push_looks(row, words),
        _ => return false,
    }
    true
}
