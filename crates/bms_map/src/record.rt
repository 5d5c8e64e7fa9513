//! The record of a map: what SEND MAP MAPONLY ERASE sends.

ghost use Rattle.std.specs.Prelude.{◌≡◌, ◌<◌, ◌≤◌, ◌%◌, ◌*◌, true, IfOk, OnOk};
ghost use Rattle.std.specs.List.{flat_map};
ghost use Rattle.ds_codec.specs.Writing.{IsReadAgain};
ghost use Rattle.order_lines.specs.Draft.{with_order, with_orders};
ghost use Rattle.bms_map.specs.Record.{text_orders, attribute_order, cursor_orders, later_orders, parts_orders, field_orders, map_orders, with_bit, control_bits, command_of, IsRecordOf};

use crate::field::{Field, Later};
use crate::map::Map;
use crate::place::DEFAULT_ROWS;
use ds_codec::{Attr, Command, Mode, Order, Unwritable, WriteControlCharacter, to_six_bit_code};
use order_lines::Draft;
use std::alloc::{AllocError, Global};

/// What SEND MAP adds to the write control character.
#[derive(Clone, Copy, Debug, PartialEq, Eq)]
pub struct Control {
    pub free_keyboard: bool,
    pub reset_modified: bool,
}

/// The bits with 02, unless it is among them.
fn freed(bits: u8) -> u8
    requires { bits < 64 }
    ensures value { result ≡ with_bit true 2 bits }
    ensures six { result < 64 }
{
    if WriteControlCharacter::from_byte(bits).restores_keyboard() {
        bits
    } else {
        bits + 2
    }
}

/// The bits with 01, unless it is among them.
fn reset(bits: u8) -> u8
    requires { bits < 64 }
    ensures value { result ≡ with_bit true 1 bits }
    ensures six { result < 64 }
{
    if WriteControlCharacter::from_byte(bits).resets_modified_tags() {
        bits
    } else {
        bits + 1
    }
}

fn control_bits(bits: u8, control: Control) -> u8
    requires { bits < 64 }
    ensures value { result ≡ control_bits bits control }
    ensures six { result < 64 }
{
    match (control.free_keyboard, control.reset_modified) {
        (false, false) => bits,
        (true, false) => freed(bits),
        (false, true) => reset(bits),
        (true, true) => reset(freed(bits)),
    }
}

/// The attribute of a field, with its pairs where it has some.
fn push_attribute(draft: &mut Draft, attribute: u8, pairs: &[u8]) -> Result<(), AllocError>
    ensures { OnOk result
        (draft.new ≡ with_order draft.old (attribute_order (attribute % 64) pairs.now)) }
{
    match pairs {
        [] => draft.push(&Order::Sf(Attr::new(attribute))),
        [_first, ..] => draft.push(&Order::Sfe(pairs)),
    }
}

fn push_text(draft: &mut Draft, text: &[u8]) -> Result<(), AllocError>
    ensures { OnOk result (draft.new ≡ with_orders draft.old (text_orders text.now)) }
{
    if text.is_empty() {
        return Ok(());
    }
    draft.push(&Order::Text(text))
}

/// The texts of the later fields of a group.
fn push_later(draft: &mut Draft, all: &[Later]) -> Result<(), AllocError>
    ensures { OnOk result (draft.new ≡ with_orders draft.old (flat_map later_orders all.now)) }
{
    for later in all {
        draft.push(&Order::Sba(later.cell))?;
        push_text(draft, later.text.as_slice())?;
    }
    Ok(())
}

/// The cursor, where it is in the field.
fn push_cursor(draft: &mut Draft, cursor: Option<u32>, cell: u32) -> Result<(), AllocError>
    ensures { OnOk result (draft.new ≡ with_orders draft.old (cursor_orders cursor cell)) }
{
    match cursor {
        Some(at) if at == cell => draft.push(&Order::Ic),
        _ => Ok(()),
    }
}

/// The orders of a field whose attribute stands at a cell.
fn push_parts(
    draft: &mut Draft,
    cursor: Option<u32>,
    cell: u32,
    attribute: u8,
    pairs: &[u8],
    text: &[u8],
    later: &[Later],
) -> Result<(), AllocError>
    ensures { OnOk result (draft.new ≡ with_orders draft.old
        (parts_orders cursor cell attribute pairs.now text.now later.now)) }
{
    draft.push(&Order::Sba(cell))?;
    push_attribute(draft, attribute, pairs)?;
    push_cursor(draft, cursor, cell)?;
    push_text(draft, text)?;
    push_later(draft, later)
}

/// The orders of a field.
fn push_field(draft: &mut Draft, cursor: Option<u32>, field: &Field) -> Result<(), AllocError>
    ensures { OnOk result (draft.new ≡ with_orders draft.old (field_orders cursor field.now)) }
{
    push_parts(
        draft,
        cursor,
        field.cell,
        field.attribute.bits(),
        field.pairs.as_slice(),
        field.text.as_slice(),
        field.later.as_slice(),
    )
}

/// The orders of a map.
fn push_fields(draft: &mut Draft, cursor: Option<u32>, fields: &[Field]) -> Result<(), AllocError>
    ensures { OnOk result
        (draft.new ≡ with_orders draft.old (flat_map (field_orders cursor) fields.now)) }
{
    for field in fields {
        push_field(draft, cursor, field)?;
    }
    Ok(())
}

fn push_map(draft: &mut Draft, map: &Map) -> Result<(), AllocError>
    ensures { OnOk result (draft.new ≡ with_orders draft.old (map_orders map.now)) }
{
    push_fields(draft, map.cursor, map.fields.as_slice())
}

/// How many positions the screen of a map has.
fn cells_of(map: &Map) -> u32
    ensures cells { result ≡ map.now.area.screen.rows * map.now.area.screen.cols }
    ensures few { result ≤ 5676 }
{
    map.area.cells()
}

/// The command of a map, with its write control character.
fn command_of(map: &Map, control: Control) -> Command
    ensures { result ≡ command_of map.now control }
{
    let byte = to_six_bit_code(control_bits(map.control.bits, control));
    let wcc = WriteControlCharacter::from_byte(byte);
    if map.area.screen.rows == DEFAULT_ROWS {
        Command::EraseWrite(wcc)
    } else {
        Command::EraseWriteAlternate(wcc)
    }
}

fn written_record(alloc: Global, map: &Map, control: Control) -> Result<Vec<u8>, Unwritable>
    ensures { IsRecordOf map.now control result }
{
    let command = command_of(map, control);
    let mut draft = Draft::new(alloc, command, Mode::Bits14, cells_of(map))?;
    push_map(&mut draft, map)?;
    draft.written()
}

/// The record of a map, and what SEND MAP adds to its write control character.
///
/// # Errors
///
/// The flaw of its first order that can't be written, or `OutOfMemory`.
pub fn record_of(alloc: Global, map: &Map, control: Control) -> Result<Vec<u8>, Unwritable>
    ensures record { IsRecordOf map.now control result }
    ensures again { IfOk result (λ bytes. IsReadAgain Mode.Bits14 (command_of map.now control)
        (map_orders map.now) bytes.items) }
{
    let _cells = cells_of(map);
    written_record(alloc, map, control)
}
