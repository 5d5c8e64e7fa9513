//! What a line of words says.

ghost use Rattle.std.specs.Prelude.{◌≡◌, IfOk, Some, None, true, false};
ghost use Rattle.std.specs.Option.{option_map};
ghost use Rattle.hex.specs.Hex.{decode_of};
ghost use Rattle.ds_codec.specs.Order.{start_field_extended, modify_field, graphic_escape, set_buffer_address, erase_unprotected_to_address};
ghost use Rattle.order_lines.specs.Words.{byte_told, pair_told, pairs_told, number_told};
ghost use Rattle.order_lines.specs.Told.{write_told, alone_told, command_told, attribute_from, character_from, set_from, character_told, repeat_told, text_from, address_told, short_told, order_told, order as as_order, told_of, item_held, told_held};

use crate::owned_order::OwnedOrder;
use crate::words::{byte, cut, number, pair, pairs};
use ds_codec::{Attr, Char, Command, WriteControlCharacter, bytes_of_digits};
use std::alloc::{AllocError, Global};

/// What one line says.
#[derive(Debug, Drop)]
pub enum Told {
    Command(Command),
    Order(OwnedOrder),
}

/// A write control character.
fn write_control(word: &[u8]) -> Option<WriteControlCharacter>
    ensures { result ≡ byte_told word.now }
{
    Some(WriteControlCharacter::from_byte(byte(word)?))
}

/// A write, with its write control character.
fn write_line(line: &[u8]) -> Option<Command>
    ensures { result ≡ write_told line.now }
{
    if let Some(rest) = line.strip_prefix(b"W ".as_slice()) {
        return Some(Command::Write(write_control(rest)?));
    }
    if let Some(rest) = line.strip_prefix(b"EW ".as_slice()) {
        return Some(Command::EraseWrite(write_control(rest)?));
    }
    if let Some(rest) = line.strip_prefix(b"EWA ".as_slice()) {
        return Some(Command::EraseWriteAlternate(write_control(rest)?));
    }
    None
}

/// A command that stands alone.
fn alone_line(line: &[u8]) -> Option<Command>
    ensures { result ≡ alone_told line.now }
{
    if *line == *b"EAU".as_slice() {
        Some(Command::EraseAllUnprotected)
    } else if *line == *b"RB".as_slice() {
        Some(Command::ReadBuffer)
    } else if *line == *b"RM".as_slice() {
        Some(Command::ReadModified)
    } else if *line == *b"RMA".as_slice() {
        Some(Command::ReadModifiedAll)
    } else if *line == *b"NOP".as_slice() {
        Some(Command::NoOperation)
    } else {
        None
    }
}

/// A command.
#[tactic(auto, unfolding(crate::specs::Told::command_told))]
fn command_line(line: &[u8]) -> Option<Command>
    ensures { result ≡ command_told line.now }
{
    match write_line(line) {
        Some(command) => Some(command),
        None => alone_line(line),
    }
}

/// A text byte, or `GE` and a code.
fn character(words: &[u8]) -> Option<Char>
    ensures { result ≡ character_told words.now }
{
    match words.strip_prefix(b"GE ".as_slice()) {
        Some(code) => Char::new(byte(code)?, true),
        None => Char::new(byte(words)?, false),
    }
}

/// An address, a space and a character.
fn repeat_line(rest: &[u8]) -> Option<OwnedOrder>
    ensures { option_map item_held result ≡ repeat_told rest.now }
{
    let (address, words) = cut(rest, b' ')?;
    let address = number(address)?;
    let character = character(words)?;
    Some(OwnedOrder::Ra(address, character))
}

/// The address of Set Buffer Address.
fn set_address_line(rest: &[u8]) -> Option<OwnedOrder>
    ensures { option_map item_held result ≡ option_map set_buffer_address (number_told rest.now) }
{
    let address = number(rest)?;
    Some(OwnedOrder::Sba(address))
}

/// The address of Erase Unprotected to Address.
fn erase_line(rest: &[u8]) -> Option<OwnedOrder>
    ensures { option_map item_held result
        ≡ option_map erase_unprotected_to_address (number_told rest.now) }
{
    let address = number(rest)?;
    Some(OwnedOrder::Eua(address))
}

/// The orders with an address.
#[tactic(auto, unfolding(crate::specs::Told::address_told))]
fn address_line(line: &[u8]) -> Option<OwnedOrder>
    ensures { option_map item_held result ≡ address_told line.now }
{
    if let Some(rest) = line.strip_prefix(b"SBA ".as_slice()) {
        return set_address_line(rest);
    }
    if let Some(rest) = line.strip_prefix(b"EUA ".as_slice()) {
        return erase_line(rest);
    }
    match line.strip_prefix(b"RA ".as_slice()) {
        Some(rest) => repeat_line(rest),
        None => None,
    }
}

/// An attribute of six bits.
fn attribute_line(rest: &[u8]) -> Option<OwnedOrder>
    ensures { option_map item_held result ≡ attribute_from (byte_told rest.now) }
{
    let bits = byte(rest)?;
    if bits < 64 {
        Some(OwnedOrder::Sf(Attr::new(bits)))
    } else {
        None
    }
}

/// A type and a value.
fn set_line(rest: &[u8]) -> Option<OwnedOrder>
    ensures { option_map item_held result ≡ set_from (pair_told rest.now) }
{
    let (kind, value) = pair(rest)?;
    Some(OwnedOrder::Sa(kind, value))
}

/// A code.
fn graphic_line(rest: &[u8]) -> Option<OwnedOrder>
    ensures { option_map item_held result ≡ option_map graphic_escape (byte_told rest.now) }
{
    let code = byte(rest)?;
    Some(OwnedOrder::Ge(code))
}

/// The orders of a few bytes.
#[tactic(auto, unfolding(crate::specs::Told::short_told))]
fn short_line(line: &[u8]) -> Option<OwnedOrder>
    ensures { option_map item_held result ≡ short_told line.now }
{
    if let Some(rest) = line.strip_prefix(b"SF ".as_slice()) {
        return attribute_line(rest);
    }
    if let Some(rest) = line.strip_prefix(b"SA ".as_slice()) {
        return set_line(rest);
    }
    if let Some(rest) = line.strip_prefix(b"GE ".as_slice()) {
        return graphic_line(rest);
    }
    if *line == *b"IC".as_slice() {
        Some(OwnedOrder::Ic)
    } else if *line == *b"PT".as_slice() {
        Some(OwnedOrder::Pt)
    } else {
        address_line(line)
    }
}

/// A text of a byte at least.
fn text_line(alloc: Global, rest: &[u8]) -> Result<Option<OwnedOrder>, AllocError>
    ensures { IfOk result (λ told. option_map item_held told ≡ text_from (decode_of rest.now)) }
{
    match bytes_of_digits(alloc, rest)? {
        Some(run) if !run.is_empty() => Ok(Some(OwnedOrder::Text(run))),
        _ => Ok(None),
    }
}

/// The pairs of Start Field Extended.
fn extended_line(alloc: Global, rest: &[u8]) -> Result<Option<OwnedOrder>, AllocError>
    ensures { IfOk result (λ told. option_map item_held told
        ≡ option_map start_field_extended (pairs_told rest.now)) }
{
    match pairs(alloc, rest)? {
        Some(pairs) => Ok(Some(OwnedOrder::Sfe(pairs))),
        None => Ok(None),
    }
}

/// The pairs of Modify Field.
fn modify_line(alloc: Global, rest: &[u8]) -> Result<Option<OwnedOrder>, AllocError>
    ensures { IfOk result (λ told. option_map item_held told
        ≡ option_map modify_field (pairs_told rest.now)) }
{
    match pairs(alloc, rest)? {
        Some(pairs) => Ok(Some(OwnedOrder::Mf(pairs))),
        None => Ok(None),
    }
}

/// An order.
#[tactic(auto, unfolding(crate::specs::Told::order_told))]
fn order_line(alloc: Global, line: &[u8]) -> Result<Option<OwnedOrder>, AllocError>
    ensures { IfOk result (λ told. option_map item_held told ≡ order_told line.now) }
{
    if let Some(rest) = line.strip_prefix(b"TEXT ".as_slice()) {
        return text_line(alloc, rest);
    }
    if let Some(rest) = line.strip_prefix(b"SFE".as_slice()) {
        return extended_line(alloc, rest);
    }
    if let Some(rest) = line.strip_prefix(b"MF".as_slice()) {
        return modify_line(alloc, rest);
    }
    Ok(short_line(line))
}

/// What a line says that begins with the name of an order.
fn order_said(order: Option<OwnedOrder>) -> Option<Told>
    ensures { option_map told_held result ≡ option_map as_order (option_map item_held order) }
{
    match order {
        Some(order) => Some(Told::Order(order)),
        None => None,
    }
}

/// A command or an order whose name isn't looked for at first.
fn other_line(alloc: Global, line: &[u8]) -> Result<Option<Told>, AllocError>
    ensures { IfOk result (λ told. option_map told_held told ≡ told_of line.now) }
{
    if let Some(command) = command_line(line) {
        return Ok(Some(Told::Command(command)));
    }
    match order_line(alloc, line)? {
        Some(order) => Ok(Some(Told::Order(order))),
        None => Ok(None),
    }
}

/// The command or the order that a line says, `None` where it says neither: where a word is missing,
/// superfluous or of another form, or where words are parted by anything but one space. Texts and
/// attributes, the most frequent, are looked for first.
pub fn read_line(alloc: Global, line: &[u8]) -> Result<Option<Told>, AllocError>
    ensures { IfOk result (λ told. option_map told_held told ≡ told_of line.now) }
{
    if let Some(rest) = line.strip_prefix(b"TEXT ".as_slice()) {
        return Ok(order_said(text_line(alloc, rest)?));
    }
    if let Some(rest) = line.strip_prefix(b"SF ".as_slice()) {
        return Ok(order_said(attribute_line(rest)));
    }
    other_line(alloc, line)
}
