//! Codes as values, and their bytes.

use crate::words::push_name;
use buffer_lines::push_cell;
use ds_codec::{
    Aid, Attr, Cell, Char, CommandCode, OrderCode, WriteControlCharacter, byte_of_digits,
    bytes_of_digits, is_graphic_code, last_attr, push_character, to_six_bit_code,
};
use std::fmt::Debug;
use test_words::Row;

/// A code, and the byte that it is written as.
fn push_coded<T: Debug>(row: &mut Row, code: &T, byte: u8) {
    push_name(row, code);
    row.word_hex(" ", byte);
}

/// The command of a byte.
fn push_command(row: &mut Row, word: &str) {
    match CommandCode::from_byte(row.read_byte(word)) {
        Some(code) => push_coded(row, &code, code.byte()),
        None => row.word("none"),
    }
}

/// The order of a byte.
fn push_order(row: &mut Row, word: &str) {
    match OrderCode::from_byte(row.read_byte(word)) {
        Some(code) => push_coded(row, &code, code.byte()),
        None => row.word("none"),
    }
}

/// An attention identifier, and whether it sends all or itself alone.
fn push_aid(row: &mut Row, aid: Option<Aid>) {
    let Some(aid) = aid else {
        return row.word("none");
    };
    row.hex(aid.byte());
    row.word_if(aid.is_long(), " long");
    row.word_if(aid.is_short(), " short");
}

/// The attention identifier of a byte.
fn push_aid_of(row: &mut Row, word: &str) {
    let byte = row.read_byte(word);
    push_aid(row, Aid::from_byte(byte));
}

/// The attention identifier of a program function key.
fn function_aid(function: u32) -> Option<Aid> {
    if 1 <= function && function <= 24 {
        return Some(Aid::pf(function as u8));
    }
    None
}

/// The attention identifier of a program access key.
fn access_aid(access: u32) -> Option<Aid> {
    if 1 <= access && access <= 3 {
        return Some(Aid::pa(access as u8));
    }
    None
}

/// The attention identifier of a key's name.
fn push_key(row: &mut Row, name: &str) {
    let aid = if let Some(function) = name.strip_prefix("pf") {
        function_aid(row.read_number(function))
    } else if let Some(access) = name.strip_prefix("pa") {
        access_aid(row.read_number(access))
    } else {
        named_aid(name)
    };
    push_aid(row, aid);
}

/// The attention identifier of any other key.
fn named_aid(name: &str) -> Option<Aid> {
    match name {
        "none" => Some(Aid::none()),
        "enter" => Some(Aid::enter()),
        "clear" => Some(Aid::clear()),
        _ => None,
    }
}

/// The six-bit code of a value below 64.
fn push_six_bits(row: &mut Row, word: &str) {
    let value = row.read_byte(word);
    if value >= 64 {
        return row.spoil();
    }
    row.hex(to_six_bit_code(value));
}

/// The byte of two digits, which are given as bytes.
fn push_digits(row: &mut Row, words: &str) {
    let (high, low) = row.read_two_bytes(words);
    match byte_of_digits(high, low) {
        Some(value) => row.hex(value),
        None => row.word("none"),
    }
}

/// The bytes that digits spell.
fn push_spelled(row: &mut Row, digits: &str) {
    match bytes_of_digits(row.alloc(), digits.as_bytes()) {
        Ok(Some(bytes)) => row.bytes(bytes.as_slice()),
        Ok(None) => row.word("none"),
        Err(_) => row.spoil(),
    }
}

/// What an attribute's bits say.
fn push_meaning(row: &mut Row, attribute: Attr) {
    row.word_if(attribute.protected(), " protected");
    row.word_if(attribute.numeric(), " numeric");
    row.word_if(attribute.auto_skip(), " skip");
    row.word_if(attribute.hidden(), " hidden");
    row.word_if(attribute.intensified(), " intensified");
    row.word_if(attribute.detectable(), " detectable");
    row.word_if(attribute.modified(), " modified");
}

/// An attribute's bits, what they say, the bits with the tag set and reset, and the bits protected and not.
fn push_attribute(row: &mut Row, word: &str) {
    let attribute = Attr::new(row.read_byte(word));
    row.hex(attribute.bits());
    push_meaning(row, attribute);
    row.word_hex(", ", attribute.with_modified(true).bits());
    row.word_hex(" ", attribute.with_modified(false).bits());
    row.word_hex(", ", attribute.with_protected(true).bits());
    row.word_hex(" ", attribute.with_protected(false).bits());
}

/// A write control character's byte, and what its bits say.
fn push_control(row: &mut Row, word: &str) {
    let control = WriteControlCharacter::from_byte(row.read_byte(word));
    row.hex(control.byte());
    row.word_if(control.alarm(), " alarm");
    row.word_if(control.restores_keyboard(), " keyboard");
    row.word_if(control.resets_modified_tags(), " tags");
}

/// Whether a code is a character, and whether it is one of the alternate set.
fn push_kinds(row: &mut Row, word: &str) {
    let code = row.read_byte(word);
    row.word("plain ");
    row.truth(Char::new(code, false).is_some());
    row.word(" alternate ");
    row.truth(Char::new(code, true).is_some());
    row.word(" graphic ");
    row.truth(is_graphic_code(code));
}

/// The bytes of a character.
fn push_written(row: &mut Row, character: Char) {
    let mut bytes = Vec::new(row.alloc());
    row.note(push_character(&mut bytes, character));
    row.bytes(bytes.as_slice());
}

/// The bytes of a character of the alternate set, or else of a plain one.
fn push_pushed(row: &mut Row, word: &str) {
    let code = row.read_byte(word);
    match Char::new(code, true).or(Char::new(code, false)) {
        Some(character) => push_written(row, character),
        None => row.spoil(),
    }
}

/// The bytes of a cell.
fn push_cell_bytes(row: &mut Row, cell: Cell) {
    let mut bytes = Vec::new(row.alloc());
    row.note(push_cell(&mut bytes, cell));
    row.bytes(bytes.as_slice());
}

/// The bytes of a cell with an attribute.
fn push_field_cell(row: &mut Row, word: &str) {
    let attribute = Attr::new(row.read_byte(word));
    push_cell_bytes(row, Cell::Field(attribute));
}

/// The bytes of a cell with a character of the alternate set, or else with a plain one.
fn push_char_cell(row: &mut Row, word: &str) {
    let code = row.read_byte(word);
    match Char::new(code, true).or(Char::new(code, false)) {
        Some(character) => push_cell_bytes(row, Cell::Char(character)),
        None => row.spoil(),
    }
}

/// A character's code, and whether it is one of the alternate set.
pub(crate) fn push_char(row: &mut Row, character: Char) {
    row.hex(character.code());
    row.word(" ");
    row.truth(character.alt());
}

/// The attribute of pairs of types and values.
fn push_pairs(row: &mut Row, words: &str) {
    let pairs = row.read_bytes(words);
    match last_attr(pairs.as_slice()) {
        Some(attribute) => row.hex(attribute.bits()),
        None => row.word("none"),
    }
}

/// Adds what a verb of a byte answers; whether it is one of these.
fn push_byte_answer(row: &mut Row, verb: &str, word: &str) -> bool {
    match verb {
        "code" => push_command(row, word),
        "order" => push_order(row, word),
        "aid" => push_aid_of(row, word),
        "six" => push_six_bits(row, word),
        "attribute" => push_attribute(row, word),
        "control" => push_control(row, word),
        "character" => push_kinds(row, word),
        "pushed" => push_pushed(row, word),
        "field-cell" => push_field_cell(row, word),
        "char-cell" => push_char_cell(row, word),
        _ => return false,
    }
    true
}

/// Adds what a verb answers; whether it is one of these.
pub(crate) fn push_answer(row: &mut Row, verb: &str, words: &str) -> bool {
    match verb {
        "key" => push_key(row, words),
        "digits" => push_digits(row, words),
        "spelled" => push_spelled(row, words),
        "null" => push_char(row, Char::null()),
        "pairs" => push_pairs(row, words),
        _ => return push_byte_answer(row, verb, words),
    }
    true
}
