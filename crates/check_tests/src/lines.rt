//! Order lines read and printed.

use crate::script::{keep, text_of};
use ds_codec::{Command, Mode, Order, Record, Unwritable, WriteControlCharacter};
use order_lines::{Draft, OwnedOrder, Told, cut, push_bytes, push_hex, push_record, read_line};
use std::alloc::Global;
use test_words::Row;

/// A flaw and its order.
fn push_flaw(row: &mut Row, flaw: Unwritable) {
    match flaw {
        Unwritable::AddressOutside(k) => row.word_length("U1 AddressOutside ", k),
        Unwritable::BadText(k) => row.word_length("U2 BadText ", k),
        Unwritable::BadPairs(k) => row.word_length("U3 BadPairs ", k),
        Unwritable::BadCode(k) => row.word_length("U4 BadCode ", k),
        Unwritable::NotAllowed => row.word("U5 NotAllowed"),
        Unwritable::OutOfMemory => row.word("out of memory"),
    }
}

/// A command and orders, as lines tell them.
#[derive(Drop)]
struct Recorded {
    command: Command,
    orders: Vec<OwnedOrder>,
}

fn push_orders(row: &mut Row, draft: &mut Draft, orders: &[OwnedOrder]) {
    for order in orders {
        row.note(draft.push(&order.lend()));
    }
}

/// The bytes of orders in turn, written for 1,920 cells.
fn written(row: &mut Row, recorded: &Recorded) -> Result<Vec<u8>, Unwritable> {
    match Draft::new(row.alloc(), recorded.command, Mode::Bits14, 1_920) {
        Ok(mut draft) => {
            push_orders(row, &mut draft, recorded.orders.as_slice());
            draft.written()
        }
        Err(_) => Err(Unwritable::OutOfMemory),
    }
}

/// The bytes of a record that is written for 1,920 cells, or the flaw and its order.
fn push_written(row: &mut Row, recorded: &Recorded) {
    match written(row, recorded) {
        Ok(bytes) => row.bytes(bytes.as_slice()),
        Err(flaw) => push_flaw(row, flaw),
    }
}

/// An Erase/Write of no order.
fn no_orders(alloc: Global) -> Recorded {
    Recorded {
        command: Command::EraseWrite(WriteControlCharacter::from_byte(0xC2)),
        orders: Vec::new(alloc),
    }
}

/// Adds what a line says to a record; whether it says anything.
fn take_line(row: &mut Row, recorded: &mut Recorded, line: &str) -> bool {
    match read_line(row.alloc(), line.as_bytes()) {
        Ok(Some(Told::Command(command))) => recorded.command = command,
        Ok(Some(Told::Order(order))) => keep(row, &mut recorded.orders, order),
        Ok(None) => return false,
        Err(_) => row.spoil(),
    }
    true
}

/// What one line between bars says: a command alone, or an order of an Erase/Write.
fn push_line(row: &mut Row, words: &str) {
    let line = row.read_between_bars(words);
    let mut recorded = no_orders(row.alloc());
    if take_line(row, &mut recorded, line) {
        push_written(row, &recorded);
    } else {
        row.word("nothing");
    }
}

/// A record of lines that are parted by commas.
fn push_draft(row: &mut Row, words: &str) {
    let mut recorded = no_orders(row.alloc());
    for line in words.split(", ") {
        if !take_line(row, &mut recorded, line) {
            row.spoil();
        }
    }
    push_written(row, &recorded);
}

/// A record of one line so many times.
fn push_many(row: &mut Row, words: &str) {
    let (count, line) = row.cut(words, " ");
    let mut recorded = no_orders(row.alloc());
    for _ in 0..row.read_number(count) {
        let _taken = take_line(row, &mut recorded, line);
    }
    row.length(recorded.orders.len());
    row.word(" orders, ");
    push_written(row, &recorded);
}

/// The lines of a record's bytes.
fn push_lines(row: &mut Row, bytes: &[u8]) {
    match Record::read(Mode::Bits14, bytes) {
        Ok(record) => {
            let pushed = push_record(&mut row.text, &record);
            row.note(pushed);
        }
        Err(_) => row.spoil(),
    }
}

fn lines_of(row: &mut Row, bytes: &[u8]) -> String {
    let mut lines = Row::new(row.alloc());
    push_lines(&mut lines, bytes);
    text_of(row, lines)
}

/// The lines of a record, a stroke after each.
fn push_printed(row: &mut Row, bytes: &[u8]) {
    let lines = lines_of(row, bytes);
    for line in lines.as_str().lines() {
        row.word(line);
        row.word("/");
    }
}

/// The record of lines.
fn recorded_of(row: &mut Row, lines: &str) -> Recorded {
    let mut recorded = no_orders(row.alloc());
    for line in lines.lines() {
        let _taken = take_line(row, &mut recorded, line);
    }
    recorded
}

/// Whether a record is written as these bytes.
fn push_same(row: &mut Row, recorded: &Recorded, bytes: &[u8]) {
    match written(row, recorded) {
        Ok(written) if written.as_slice() == bytes => row.word("the same bytes"),
        Ok(_) => row.word("other bytes"),
        Err(_) => row.spoil(),
    }
}

/// How long the lines of a record are, how many orders they say, and whether they are written as the same bytes.
fn push_again(row: &mut Row, bytes: &[u8]) {
    let lines = lines_of(row, bytes);
    row.length(lines.as_str().len());
    row.word(" letters, ");
    let recorded = recorded_of(row, lines.as_str());
    row.length(recorded.orders.len());
    row.word(" orders, ");
    push_same(row, &recorded, bytes);
}

/// The bytes of an order that has some.
fn push_lent(row: &mut Row, order: &OwnedOrder) {
    match order.lend() {
        Order::Text(run) => row.bytes(run),
        Order::Sfe(pairs) => row.bytes(pairs),
        Order::Mf(pairs) => row.bytes(pairs),
        _ => row.word("no bytes"),
    }
}

/// What is lent of the order of a line.
fn push_order(row: &mut Row, line: &str) {
    match read_line(row.alloc(), line.as_bytes()) {
        Ok(Some(Told::Order(order))) => push_lent(row, &order),
        _ => row.spoil(),
    }
}

/// What is lent of the order of a line of a name and hexadecimal.
fn push_lend(row: &mut Row, words: &str) {
    let (name, digits) = row.cut(words, " ");
    let bytes = row.read_bytes(digits);
    let mut line = Row::new(row.alloc());
    line.word(name);
    line.word(" ");
    let pushed = push_bytes(&mut line.text, bytes.as_slice());
    line.note(pushed);
    let line = text_of(row, line);
    push_order(row, line.as_str());
}

/// The pairs that a line of a name and one pair so many times says.
fn push_pairs(row: &mut Row, words: &str) {
    let (count, words) = row.cut(words, " ");
    let (name, pair) = row.cut(words, " ");
    let mut line = Row::new(row.alloc());
    line.word(name);
    for _ in 0..row.read_number(count) {
        line.word(" ");
        line.word(pair);
    }
    let line = text_of(row, line);
    push_order(row, line.as_str());
}

/// A byte and more bytes as they are printed.
fn push_digits(row: &mut Row, first: u8, rest: &[u8]) {
    let pushed = push_hex(&mut row.text, first);
    row.note(pushed);
    let pushed = push_bytes(&mut row.text, rest);
    row.note(pushed);
}

/// The same, folded.
fn push_folded(row: &mut Row, words: &str) {
    let (first, rest) = row.cut(words, " ");
    let first = row.read_byte(first);
    let rest = row.read_bytes(rest);
    let mut digits = Row::new(row.alloc());
    push_digits(&mut digits, first, rest.as_slice());
    let digits = text_of(row, digits);
    let printed = row.read_bytes(digits.as_str());
    row.bytes(printed.as_slice());
}

/// A text between bars cut at the first of a letter.
fn push_cut(row: &mut Row, words: &str) {
    match cut(row.read_between_bars(words).as_bytes(), b'x') {
        Some((front, rest)) => {
            row.bytes(front);
            row.word(" ");
            row.bytes(rest);
        }
        None => row.word("none"),
    }
}

/// Adds what a verb answers of bytes.
fn push_bytes_answer(row: &mut Row, verb: &str, words: &str) {
    let bytes = row.read_bytes(words);
    if verb == "print" {
        push_printed(row, bytes.as_slice());
    } else {
        push_again(row, bytes.as_slice());
    }
}

/// Adds what a verb answers; whether it is one of these.
pub(crate) fn push_answer(row: &mut Row, verb: &str, words: &str) -> bool {
    match verb {
        "line" => push_line(row, words),
        "draft" => push_draft(row, words),
        "many" => push_many(row, words),
        "lend" => push_lend(row, words),
        "pairs" => push_pairs(row, words),
        "hex" => push_folded(row, words),
        "cut" => push_cut(row, words),
        "print" | "again" => push_bytes_answer(row, verb, words),
        _ => return false,
    }
    true
}
