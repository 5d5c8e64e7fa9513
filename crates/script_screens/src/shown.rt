//! What is shown of a cell.

ghost use Rattle.std.specs.Prelude.{◌≡◌, ℕ, if◌then◌else◌, ◌<◌, ◌+◌, ◌/◌, ◌%◌, ◌++◌, false, [], ◌∷◌, codes, OnOk, IfSome};
ghost use Rattle.std.specs.List.{flat_map};
ghost use Rattle.std.specs.Fmt.{digit_glyph};
ghost use Rattle.ds_codec.specs.declared.cell.Cell.{Cell};
ghost use Rattle.script_screens.specs.declared.code_page.CodePage.{CodePage};
ghost use Rattle.script_screens.specs.Shown.{shown_code, shown_character, utf8, shown_bytes, hex_byte, byte_digits, number_digits, attribute_words, code_words, cell_text, separator};

use crate::code_page::{CodePage, character_of};
use ds_codec::{Attr, Cell, Char};
use std::alloc::AllocError;

/// How cells are read.
#[derive(Clone, Copy, Debug, PartialEq, Eq)]
pub(crate) enum Form {
    /// Characters, as the operator sees them.
    Ascii,
    /// Codes.
    Ebcdic,
    /// All of a cell, characters as the digits of their UTF-8.
    BufferAscii,
    /// All of a cell, characters as the digits of their number.
    BufferUnicode,
    /// All of a cell, characters as their codes.
    BufferEbcdic,
}

/// The character that is shown for a code of the text set.
#[tactic(auto, unfolding(crate::specs::Shown::shown_code))]
fn shown_code(code_page: CodePage, code: u8) -> Option<u32>
    ensures { result ≡ shown_code code_page code }
{
    match code {
        0x1C => Some(0x2A),
        0x1E => Some(0x3B),
        0x3F => Some(0x25A0),
        0xFF => Some(0x25CF),
        _ => match character_of(code_page, code) {
            Some(character) => Some(u32::from(character)),
            None => None,
        },
    }
}

fn shown_character(code_page: CodePage, character: Char) -> Option<u32>
    ensures { result ≡ shown_character code_page character }
{
    if character.alt() {
        Some(0x3F)
    } else {
        shown_code(code_page, character.code())
    }
}

fn push_byte(out: &mut Vec<u8>, byte: u8) -> Result<(), AllocError>
    ensures { OnOk result (out.new.items ≡ out.old.items ++ byte ∷ []) }
{
    out.push(byte)?;
    Ok(())
}

/// Six bits of a character, in a byte after its first one.
fn six_of(bits: u32) -> u8
    ensures { result ≡ 0x80 + bits % 64 }
{
    0x80 + (bits % 64) as u8
}

fn first_of_two(character: u32) -> u8
    ensures { result ≡ 0xC0 + character / 64 % 32 }
{
    0xC0 + (character / 64 % 32) as u8
}

fn first_of_three(character: u32) -> u8
    ensures { result ≡ 0xE0 + character / 4096 % 16 }
{
    0xE0 + (character / 4096 % 16) as u8
}

/// Adds a character in UTF-8.
fn push_utf8(out: &mut Vec<u8>, character: u32) -> Result<(), AllocError>
    ensures { OnOk result (out.new.items ≡ out.old.items ++ utf8 character) }
{
    if character < 0x80 {
        return push_byte(out, character as u8);
    }
    if character < 0x800 {
        return out.extend_from_slice(&[first_of_two(character), six_of(character)]);
    }
    let second = six_of(character / 64);
    out.extend_from_slice(&[first_of_three(character), second, six_of(character)])
}

fn push_shown(out: &mut Vec<u8>, character: Option<u32>) -> Result<(), AllocError>
    ensures { OnOk result (out.new.items ≡ out.old.items ++ shown_bytes character) }
{
    match character {
        Some(character) => push_utf8(out, character),
        None => push_byte(out, b' '),
    }
}

/// Adds what is shown for a code of the text set, in UTF-8: a space for the null and for the controls that aren't shown.
pub fn push_character(out: &mut Vec<u8>, code_page: CodePage, code: u8) -> Result<(), AllocError>
    ensures { OnOk result (out.new.items
        ≡ out.old.items ++ shown_bytes (shown_code code_page code)) }
{
    push_shown(out, shown_code(code_page, code))
}

fn digit(value: u8) -> u8
    requires { value < 16 }
    ensures { result ≡ digit_glyph false value }
{
    if value < 10 { 48 + value } else { 87 + value }
}

/// Adds a byte as two digits.
fn push_hex(out: &mut Vec<u8>, byte: u8) -> Result<(), AllocError>
    ensures { OnOk result (out.new.items ≡ out.old.items ++ hex_byte byte) }
{
    out.push(digit(byte / 16))?;
    push_byte(out, digit(byte % 16))
}

/// Adds bytes as two digits each.
fn push_hex_bytes(out: &mut Vec<u8>, bytes: &[u8]) -> Result<(), AllocError>
    ensures { OnOk result (out.new.items ≡ out.old.items ++ flat_map hex_byte bytes.now) }
{
    for byte in bytes {
        push_hex(out, *byte)?;
    }
    Ok(())
}

/// Adds the digits of the UTF-8 of a character.
fn push_utf8_digits(out: &mut Vec<u8>, character: u32) -> Result<(), AllocError>
    ensures { OnOk result (out.new.items ≡ out.old.items ++ flat_map hex_byte (utf8 character)) }
{
    if character < 0x80 {
        return push_hex(out, character as u8);
    }
    if character < 0x800 {
        return push_hex_bytes(out, &[first_of_two(character), six_of(character)]);
    }
    push_hex_bytes(
        out,
        &[
            first_of_three(character),
            six_of(character / 64),
            six_of(character),
        ],
    )
}

fn push_byte_digits(out: &mut Vec<u8>, character: Option<u32>) -> Result<(), AllocError>
    ensures { OnOk result (out.new.items ≡ out.old.items ++ byte_digits character) }
{
    match character {
        Some(character) => push_utf8_digits(out, character),
        None => push_hex(out, 0),
    }
}

fn push_number_digits(out: &mut Vec<u8>, character: Option<u32>) -> Result<(), AllocError>
    ensures { OnOk result (out.new.items ≡ out.old.items ++ number_digits character) }
{
    let number = match character {
        Some(character) => character,
        None => 0,
    };
    push_hex(out, (number / 256 % 256) as u8)?;
    push_hex(out, (number % 256) as u8)
}

fn push_attribute(out: &mut Vec<u8>, attribute: Attr) -> Result<(), AllocError>
    ensures { OnOk result (out.new.items ≡ out.old.items ++ attribute_words attribute) }
{
    out.extend_from_slice(b"SF(c0=")?;
    push_hex(out, 0xC0 + attribute.bits())?;
    push_byte(out, b')')
}

fn push_code(out: &mut Vec<u8>, character: Char) -> Result<(), AllocError>
    ensures { OnOk result (out.new.items ≡ out.old.items ++ code_words character) }
{
    if !character.alt() {
        return push_hex(out, character.code());
    }
    out.extend_from_slice(b"GE(")?;
    push_hex(out, character.code())?;
    push_byte(out, b')')
}

/// Adds a character, hidden or not.
fn push_seen(
    out: &mut Vec<u8>,
    code_page: CodePage,
    hidden: bool,
    character: Char,
) -> Result<(), AllocError>
    ensures { OnOk result (out.new.items ≡ out.old.items
        ++ (if hidden then codes " " else shown_bytes (shown_character code_page character))) }
{
    if hidden {
        push_byte(out, b' ')
    } else {
        push_shown(out, shown_character(code_page, character))
    }
}

fn push_attribute_in(out: &mut Vec<u8>, form: Form, attribute: Attr) -> Result<(), AllocError>
    ensures { (page : CodePage) (bits : ℕ) → OnOk result (out.new.items
        ≡ out.old.items ++ cell_text page form bits (Cell.Field attribute)) }
{
    match form {
        Form::Ascii => push_byte(out, b' '),
        Form::Ebcdic => push_hex(out, 0),
        Form::BufferAscii | Form::BufferUnicode | Form::BufferEbcdic => {
            push_attribute(out, attribute)
        }
    }
}

fn push_character_in(
    out: &mut Vec<u8>,
    code_page: CodePage,
    form: Form,
    ruling: Attr,
    character: Char,
) -> Result<(), AllocError>
    ensures { OnOk result (out.new.items
        ≡ out.old.items ++ cell_text code_page form ruling (Cell.Char character)) }
{
    match form {
        Form::Ascii => push_seen(out, code_page, ruling.hidden(), character),
        Form::Ebcdic => push_hex(out, character.code()),
        Form::BufferAscii => push_byte_digits(out, shown_character(code_page, character)),
        Form::BufferUnicode => push_number_digits(out, shown_character(code_page, character)),
        Form::BufferEbcdic => push_code(out, character),
    }
}

/// Adds what is read of a cell that an attribute rules.
pub(crate) fn push_cell(
    out: &mut Vec<u8>,
    code_page: CodePage,
    form: Form,
    ruling: Attr,
    cell: Cell,
) -> Result<(), AllocError>
    ensures { OnOk result (out.new.items ≡ out.old.items ++ cell_text code_page form ruling cell) }
{
    match cell {
        Cell::Field(attribute) => push_attribute_in(out, form, attribute),
        Cell::Char(character) => push_character_in(out, code_page, form, ruling, character),
    }
}

/// Adds what stands between two cells of a line.
pub(crate) fn push_separator(out: &mut Vec<u8>, form: Form) -> Result<(), AllocError>
    ensures { OnOk result (out.new.items ≡ out.old.items ++ separator form) }
{
    match form {
        Form::Ascii => Ok(()),
        Form::Ebcdic | Form::BufferAscii | Form::BufferUnicode | Form::BufferEbcdic => {
            push_byte(out, b' ')
        }
    }
}
