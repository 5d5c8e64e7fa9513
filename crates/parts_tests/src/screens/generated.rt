//! Generated records, applied to an outline and to a screen side by side.

use ds_codec::{Cell, Mode, Record};
use ds_screen::{Outline, PlainCells, Screen};
use test_words::Row;

/// The next number, below `bound`, of a sequence that its seed determines.
pub(crate) fn draw(seed: &mut u32, bound: u32) -> u32 {
    *seed = seed.wrapping_mul(1_664_525).wrapping_add(1_013_904_223);
    (*seed >> 16) % bound.max(1)
}

fn draw_byte(seed: &mut u32, bound: u32) -> u8 {
    u8::try_from(draw(seed, bound)).unwrap_or(0)
}

/// One of some bytes.
pub(crate) fn draw_from(seed: &mut u32, bytes: &[u8]) -> u8 {
    let index = draw(seed, 16) as usize;
    bytes.get(index).copied().unwrap_or(0xC2)
}

fn push_byte(row: &mut Row, bytes: &mut Vec<u8>, byte: u8) {
    let _pushed = row.take(bytes.push(byte));
}

fn push_front(row: &mut Row, bytes: &mut Vec<u8>, front: &[u8]) {
    row.note(bytes.extend_from_slice(front));
}

/// An order's code, and an address of which some lie outside.
fn push_placed(row: &mut Row, bytes: &mut Vec<u8>, seed: &mut u32, code: u8) {
    push_byte(row, bytes, code);
    push_byte(row, bytes, 0);
    push_byte(row, bytes, draw_byte(seed, 44));
}

fn push_text(row: &mut Row, bytes: &mut Vec<u8>, seed: &mut u32) {
    for _ in 0..draw(seed, 30) {
        push_byte(row, bytes, 0xC1);
    }
}

/// Repeat to Address, of a character or of nulls.
fn push_repeat(row: &mut Row, bytes: &mut Vec<u8>, seed: &mut u32) {
    push_placed(row, bytes, seed, 0x3C);
    push_byte(row, bytes, draw_from(seed, &[0x00, 0xC1, 0x40, 0xC2]));
}

/// Some bytes, and the bits of an attribute.
fn push_attribute(row: &mut Row, bytes: &mut Vec<u8>, seed: &mut u32, front: &[u8]) {
    push_front(row, bytes, front);
    push_byte(row, bytes, draw_byte(seed, 64));
}

/// Any order.
fn push_order(row: &mut Row, bytes: &mut Vec<u8>, seed: &mut u32) {
    match draw(seed, 14) {
        0 | 1 => push_text(row, bytes, seed),
        2 | 3 => push_placed(row, bytes, seed, 0x11),
        4 => push_repeat(row, bytes, seed),
        5 => push_placed(row, bytes, seed, 0x12),
        6 => push_byte(row, bytes, 0x05),
        7 => push_byte(row, bytes, 0x13),
        8 => push_attribute(row, bytes, seed, &[0x29, 0x02, 0x42, 0xF2, 0xC0]),
        9 => push_attribute(row, bytes, seed, &[0x2C, 0x01, 0xC0]),
        10 => push_front(row, bytes, &[0x08, 0xC5]),
        11 => push_front(row, bytes, &[0x28, 0x42, 0xF2]),
        _ => push_attribute(row, bytes, seed, &[0x1D]),
    }
}

/// A write control character, and up to nine orders.
fn push_orders(row: &mut Row, bytes: &mut Vec<u8>, seed: &mut u32) {
    push_byte(row, bytes, draw_from(seed, &[0x40, 0xC1, 0xC3, 0xC7, 0x00]));
    for _ in 0..draw(seed, 10) {
        push_order(row, bytes, seed);
    }
}

/// A record of any command and up to nine orders.
pub(crate) fn record_of(row: &mut Row, seed: &mut u32) -> Vec<u8> {
    let mut bytes = Vec::new(row.alloc());
    let command = draw_from(seed, &[0xF5, 0x7E, 0x6F, 0xF1, 0xF1, 0xF1, 0xF1, 0xF1]);
    push_byte(
        row,
        &mut bytes,
        if command == 0xC2 { 0xF1 } else { command },
    );
    if command != 0x6F {
        push_orders(row, &mut bytes, seed);
    }
    bytes
}

/// Whether both take a record with the same effect, or refuse it alike.
fn take_alike(outline: &mut Outline, screen: &mut Screen<PlainCells>, record: &Record<'_>) -> bool {
    outline.apply(record) == screen.apply(record)
}

/// Whether an outline has attributes where a screen has them, asked for in turn too.
fn has_same_attributes(outline: &Outline, screen: &Screen<PlainCells>) -> bool {
    let mut guess = 0;
    for p in 0..screen.size().cells() {
        let is_there = matches!(screen.cell(p), Cell::Field(_));
        let is_near = outline.has_attribute_near(p, &mut guess);
        if outline.has_attribute(p) != is_there || is_near != is_there {
            return false;
        }
    }
    true
}

fn are_alike(outline: &Outline, screen: &Screen<PlainCells>) -> bool {
    outline.size() == screen.size()
        && outline.cursor() == screen.cursor()
        && outline.lock() == screen.lock()
        && outline.geometry() == screen.geometry()
        && outline.fields().eq(screen.fields())
        && has_same_attributes(outline, screen)
}

/// Whether one generated record leaves both alike.
fn is_alike_after(
    row: &mut Row,
    outline: &mut Outline,
    screen: &mut Screen<PlainCells>,
    seed: &mut u32,
) -> bool {
    let bytes = record_of(row, seed);
    match Record::read(Mode::Bits14, bytes.as_slice()) {
        Ok(record) => take_alike(outline, screen, &record) && are_alike(outline, screen),
        Err(_) => false,
    }
}

/// After how many of so many generated records both are alike.
pub(crate) fn count_alike(
    row: &mut Row,
    outline: &mut Outline,
    screen: &mut Screen<PlainCells>,
    count: u32,
) -> u32 {
    let mut seed = 3_270u32;
    let mut alike = 0u32;
    for _ in 0..count {
        if is_alike_after(row, outline, screen, &mut seed) {
            alike = alike.saturating_add(1);
        }
    }
    alike
}
