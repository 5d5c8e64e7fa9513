//! Records read and written, addresses and sizes.

ghost use Rattle.std.specs.Prelude.{◌≡◌};
ghost use Rattle.ds_codec.specs.Geometry.{limit_of};

use crate::words::push_name;
use crate::{parted, read_size};
use ds_codec::{
    Char, Command, CommandCode, Geometry, Mode, Order, Placed, Record, Unwritable,
    WriteControlCharacter, decode_address, encode_address, write_record,
};
use order_lines::{OwnedOrder, Told, read_line};
use test_words::Row;

/// The most cells of a terminal.
fn most_cells(mode: Mode) -> u32
    ensures { result ≡ limit_of mode }
{
    match mode {
        Mode::Bits14 => 16_384,
        Mode::Bits16 => 65_025,
    }
}

fn name_of(code: CommandCode) -> &'static str {
    match code {
        CommandCode::Write => "W",
        CommandCode::EraseWrite => "EW",
        CommandCode::EraseWriteAlternate => "EWA",
        CommandCode::EraseAllUnprotected => "EAU",
        CommandCode::ReadBuffer => "RB",
        CommandCode::ReadModified => "RM",
        CommandCode::ReadModifiedAll => "RMA",
        CommandCode::WriteStructuredField => "WSF",
        CommandCode::NoOperation => "NOP",
    }
}

fn push_wcc(row: &mut Row, words: &str, wcc: Option<WriteControlCharacter>) {
    if let Some(wcc) = wcc {
        row.word_hex(words, wcc.byte());
    }
}

fn push_command(row: &mut Row, command: &Command) {
    row.word(name_of(command.code()));
    push_wcc(row, " ", command.wcc());
}

/// An order with bytes.
fn push_run(row: &mut Row, name: &str, bytes: &[u8]) {
    row.word(name);
    row.bytes(bytes);
}

fn push_set(row: &mut Row, kind: u8, value: u8) {
    row.word_hex("SA ", kind);
    row.word_hex("=", value);
}

/// A character, with the order before it that says that it is one of the alternate set.
pub(crate) fn push_character(row: &mut Row, character: Char) {
    row.word(if character.alt() { " GE " } else { " " });
    row.hex(character.code());
}

fn push_repeat(row: &mut Row, address: u32, character: Char) {
    row.word_number("RA ", address);
    push_character(row, character);
}

fn push_order(row: &mut Row, order: &Order<'_>) {
    match order {
        Order::Text(run) => push_run(row, "TEXT ", *run),
        Order::Sf(attribute) => row.word_hex("SF ", attribute.bits()),
        Order::Sfe(pairs) => push_run(row, "SFE ", *pairs),
        Order::Sba(address) => row.word_number("SBA ", *address),
        Order::Sa(kind, value) => push_set(row, *kind, *value),
        Order::Mf(pairs) => push_run(row, "MF ", *pairs),
        Order::Ic => row.word("IC"),
        Order::Pt => row.word("PT"),
        Order::Ra(address, character) => push_repeat(row, *address, *character),
        Order::Eua(address) => row.word_number("EUA ", *address),
        Order::Ge(code) => row.word_hex("GE ", *code),
    }
}

fn push_placed(row: &mut Row, placed: &Placed<'_>) {
    row.word_length(", ", placed.at);
    row.word(" ");
    push_order(row, &placed.order);
}

fn push_record(row: &mut Row, record: &Record<'_>) {
    push_command(row, &record.command());
    for placed in record.orders() {
        push_placed(row, &placed);
    }
}

/// The command and the orders of a record with their places, or its refusal.
fn push_read(row: &mut Row, mode: Mode, words: &str) {
    let bytes = row.read_bytes(words);
    match Record::read(mode, bytes.as_slice()) {
        Ok(record) => push_record(row, &record),
        Err(refused) => row.show(&refused),
    }
}

/// Whether each order of a record is done whatever a buffer of so many positions holds.
fn push_surely(row: &mut Row, mode: Mode, words: &str) {
    let (cells, record) = row.cut(words, " ");
    let cells = row.read_number(cells);
    let bytes = row.read_bytes(record);
    match Record::read(mode, bytes.as_slice()) {
        Ok(record) => row.truth(record.is_surely_done(cells)),
        Err(refused) => row.show(&refused),
    }
}

/// A command: its written byte, its write control character, and whether the byte is read as it.
fn push_code(row: &mut Row, command: &Command) {
    push_command(row, command);
    let code = command.code();
    row.word_hex(" as ", code.byte());
    push_wcc(row, " with ", command.wcc());
    let is_read = CommandCode::from_byte(code.byte()) == Some(code);
    row.word_if(is_read, " again");
}

/// The same of a record's command.
fn push_record_command(row: &mut Row, mode: Mode, words: &str) {
    let bytes = row.read_bytes(words);
    match Record::read(mode, bytes.as_slice()) {
        Ok(record) => push_code(row, &record.command()),
        Err(_) => row.spoil(),
    }
}

/// The command of an order line.
fn command_of(row: &mut Row, line: &str) -> Option<Command> {
    match &read_line(row.alloc(), line.as_bytes()) {
        Ok(Some(Told::Command(command))) => Some(*command),
        _ => None,
    }
}

/// An order that need not be one that can be written: `text`, `sfe` or `mf` and all its bytes.
fn order_of_bytes(row: &mut Row, words: &str) -> Option<OwnedOrder> {
    let (name, digits) = parted(words, " ");
    let bytes = row.read_bytes(digits);
    match name {
        "text" => Some(OwnedOrder::Text(bytes)),
        "sfe" => Some(OwnedOrder::Sfe(bytes)),
        "mf" => Some(OwnedOrder::Mf(bytes)),
        _ => None,
    }
}

/// The order of an order line, or else of a name and bytes.
fn order_of(row: &mut Row, words: &str) -> Option<OwnedOrder> {
    match read_line(row.alloc(), words.as_bytes()) {
        Ok(Some(Told::Order(order))) => Some(order),
        _ => order_of_bytes(row, words),
    }
}

fn lent<'a>(row: &mut Row, orders: &'a [OwnedOrder]) -> Vec<Order<'a>> {
    let mut lent = Vec::new(row.alloc());
    for order in orders {
        if lent.push(order.lend()).is_err() {
            row.spoil();
        }
    }
    lent
}

/// A flaw and its order.
fn push_flaw(row: &mut Row, flaw: Unwritable) {
    match flaw {
        Unwritable::AddressOutside(k) => row.word_length("U1 AddressOutside ", k),
        Unwritable::BadText(k) => row.word_length("U2 BadText ", k),
        Unwritable::BadPairs(k) => row.word_length("U3 BadPairs ", k),
        Unwritable::BadCode(k) => row.word_length("U4 BadCode ", k),
        Unwritable::NotAllowed => row.word("U5 NotAllowed"),
        Unwritable::OutOfMemory => row.word("out of memory"),
    }
}

/// The bytes that are written, or the flaw and its order.
fn push_written(row: &mut Row, written: Result<Vec<u8>, Unwritable>) {
    match written {
        Ok(bytes) => row.bytes(bytes.as_slice()),
        Err(flaw) => push_flaw(row, flaw),
    }
}

fn add_order(row: &mut Row, orders: &mut Vec<OwnedOrder>, line: &str) {
    match order_of(row, line) {
        Some(order) => {
            let _added = row.take(orders.push(order));
        }
        None => row.spoil(),
    }
}

/// Adds the orders of lines that are parted by commas.
fn add_orders(row: &mut Row, orders: &mut Vec<OwnedOrder>, lines: &str) {
    for line in lines.split(", ") {
        add_order(row, orders, line);
    }
}

/// A record of these orders, for so many cells.
fn push_lent(row: &mut Row, mode: Mode, cells: u32, command: Command, orders: &[Order<'_>]) {
    if cells > most_cells(mode) {
        return row.spoil();
    }
    let written = write_record(row.alloc(), command, orders, mode, cells);
    push_written(row, written);
}

/// A record of order lines that are parted by commas, for so many cells.
fn push_orders(row: &mut Row, mode: Mode, cells: u32, command: Command, lines: &str) {
    let mut orders = Vec::new(row.alloc());
    if !lines.is_empty() {
        add_orders(row, &mut orders, lines);
    }
    let lent = lent(row, orders.as_slice());
    push_lent(row, mode, cells, command, lent.as_slice());
}

/// The same with the command as the first line.
fn push_write(row: &mut Row, mode: Mode, words: &str) {
    let (cells, lines) = row.cut(words, " ");
    let cells = row.read_number(cells);
    let (command, rest) = parted(lines, ", ");
    match command_of(row, command) {
        Some(command) => push_orders(row, mode, cells, command, rest),
        None => row.spoil(),
    }
}

fn orders_of<'a>(row: &mut Row, record: &Record<'a>) -> Vec<Order<'a>> {
    let mut orders = Vec::new(row.alloc());
    for placed in record.orders() {
        if orders.push(placed.order).is_err() {
            row.spoil();
        }
    }
    orders
}

/// Whether these are the same bytes, and how many they are.
pub(crate) fn push_same(row: &mut Row, bytes: &[u8], written: &[u8]) {
    let is_same = written == bytes;
    row.word(if is_same { "the same " } else { "other " });
    row.length(written.len());
    row.word(" bytes");
}

/// How many orders a record has, and whether they are written as the same bytes for 1,920 cells.
fn push_rewritten(row: &mut Row, mode: Mode, record: &Record<'_>, bytes: &[u8]) {
    let orders = orders_of(row, record);
    row.length(orders.len());
    row.word(" orders, ");
    match write_record(
        row.alloc(),
        record.command(),
        orders.as_slice(),
        mode,
        1_920,
    ) {
        Ok(written) => push_same(row, bytes, written.as_slice()),
        Err(_) => row.spoil(),
    }
}

/// The same of a record's bytes.
fn push_again(row: &mut Row, mode: Mode, words: &str) {
    let bytes = row.read_bytes(words);
    match Record::read(mode, bytes.as_slice()) {
        Ok(record) => push_rewritten(row, mode, &record, bytes.as_slice()),
        Err(_) => row.spoil(),
    }
}

/// The address of two bytes.
fn push_address(row: &mut Row, mode: Mode, words: &str) {
    let (first, second) = row.read_two_bytes(words);
    match decode_address(mode, first, second) {
        Some(address) => row.number(address),
        None => row.word("none"),
    }
}

/// The bytes of an address of so many cells.
fn push_encoded(row: &mut Row, mode: Mode, words: &str) {
    let (cells, address) = row.read_numbers(words);
    if address >= cells || cells > most_cells(mode) {
        return row.spoil();
    }
    let [first, second] = encode_address(mode, cells, address);
    row.hex(first);
    row.word_hex(" ", second);
}

/// How many cells two sizes have, and the form of addresses.
fn push_geometry(row: &mut Row, geometry: Geometry) {
    row.number(geometry.default_size().cells());
    row.word_number(" ", geometry.alternate_size().cells());
    row.word(" ");
    push_name(row, &geometry.mode());
}

/// Whether a terminal can have these sizes.
fn push_sizes(row: &mut Row, mode: Mode, words: &str) {
    let (default, alternate) = row.cut(words, " ");
    let default = read_size(row, default);
    let alternate = read_size(row, alternate);
    match Geometry::new(default, alternate, mode) {
        Ok(geometry) => push_geometry(row, geometry),
        Err(fault) => row.show(&fault),
    }
}

/// Adds what a verb answers; whether it is one of these.
pub(crate) fn push_answer(row: &mut Row, mode: Mode, verb: &str, words: &str) -> bool {
    match verb {
        "read" => push_read(row, mode, words),
        "surely" => push_surely(row, mode, words),
        "command" => push_record_command(row, mode, words),
        "write" => push_write(row, mode, words),
        "again" => push_again(row, mode, words),
        "decode" => push_address(row, mode, words),
        "encode" => push_encoded(row, mode, words),
        "sizes" => push_sizes(row, mode, words),
        _ => return false,
    }
    true
}
