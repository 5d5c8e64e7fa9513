//! A screen as one line of JSON.

ghost use Rattle.std.specs.Prelude.{◌≡◌, ◌<◌, ◌++◌, map, length, IfOk, OnOk, string_bytes};
ghost use Rattle.std.specs.List.{range_with_len};
ghost use Rattle.order_lines.specs.Print.{hex_byte};
ghost use Rattle.serde_json.specs.Data.{string};
ghost use Rattle.serde_json.specs.View.{view};
ghost use Rattle.cli_commands.specs.Screen.{lock_word};
ghost use Rattle.cli_pictures.specs.Codes.{codes_on, characters_on};
ghost use Rattle.cli_pictures.specs.Json.{field_data, fields_data, row_data, rows_data, code_row_data, code_rows_data, escape_at, escapes_data, screen_data, json_text, json_line};

use crate::codes::{characters_text, codes_text, is_alternate};
use cli_commands::lock_word;
use ds_codec::Size;
use ds_screen::{FieldAt, Lock, PlaneCells, Screen};
use order_lines::push_hex;
use serde_json::{Map, Value, put};
use std::alloc::{AllocError, Global};

/// Two hexadecimal digits.
fn hex_value(alloc: Global, byte: u8) -> Result<Value, AllocError>
    ensures { IfOk result (λ value. view value ≡ string (hex_byte byte)) }
{
    let mut text = String::new(alloc);
    push_hex(&mut text, byte)?;
    Ok(Value::String(text))
}

/// The cells of a field, by their characters.
fn characters_value(
    alloc: Global,
    screen: &Screen<PlaneCells>,
    field: FieldAt,
) -> Result<Value, AllocError>
    ensures { IfOk result (λ value. view value
        ≡ string (characters_on screen.now.cells field.place field.length)) }
{
    Ok(Value::String(characters_text(alloc, screen, field.place, field.length)?))
}

/// The cells from a position on, by their codes.
fn codes_value(
    alloc: Global,
    screen: &Screen<PlaneCells>,
    start: u32,
    count: u32,
) -> Result<Value, AllocError>
    ensures { IfOk result (λ value. view value ≡ string (codes_on screen.now.cells start count)) }
{
    Ok(Value::String(codes_text(alloc, screen, start, count)?))
}

fn field_value(
    alloc: Global,
    screen: &Screen<PlaneCells>,
    field: FieldAt,
) -> Result<Value, AllocError>
    ensures { IfOk result (λ value. view value ≡ field_data screen.now field) }
{
    let attr = field.attr;
    let mut members = Map::new(alloc);
    put(&mut members, alloc, "at", Value::from(field.at))?;
    put(
        &mut members,
        alloc,
        "attribute",
        hex_value(alloc, attr.bits())?,
    )?;
    put(
        &mut members,
        alloc,
        "characters",
        characters_value(alloc, screen, field)?,
    )?;
    put(
        &mut members,
        alloc,
        "codes",
        codes_value(alloc, screen, field.place, field.length)?,
    )?;
    put(&mut members, alloc, "hidden", Value::from(attr.hidden()))?;
    put(
        &mut members,
        alloc,
        "intensified",
        Value::from(attr.intensified()),
    )?;
    put(&mut members, alloc, "length", Value::from(field.length))?;
    put(
        &mut members,
        alloc,
        "modified",
        Value::from(attr.modified()),
    )?;
    put(&mut members, alloc, "numeric", Value::from(attr.numeric()))?;
    put(&mut members, alloc, "place", Value::from(field.place))?;
    put(
        &mut members,
        alloc,
        "protected",
        Value::from(attr.protected()),
    )?;
    Ok(Value::Object(members))
}

fn fields_value(alloc: Global, screen: &Screen<PlaneCells>) -> Result<Value, AllocError>
    ensures { IfOk result (λ value. view value ≡ fields_data screen.now) }
{
    let mut fields = Vec::new(alloc);
    for field in screen.fields() {
        fields.push(field_value(alloc, screen, field)?)?;
    }
    Ok(Value::Array(fields))
}

fn row_value(alloc: Global, screen: &Screen<PlaneCells>, row: u16) -> Result<Value, AllocError>
    requires { row < screen.now.size.rows }
    ensures { IfOk result (λ value. view value ≡ row_data screen.now row) }
{
    Ok(Value::String(screen.shown_row(alloc, row)?))
}

fn rows_value(alloc: Global, screen: &Screen<PlaneCells>) -> Result<Value, AllocError>
    ensures { IfOk result (λ value. view value ≡ rows_data screen.now) }
{
    let mut rows = Vec::new(alloc);
    for row in 0..screen.size().rows {
        rows.push(row_value(alloc, screen, row)?)?;
    }
    Ok(Value::Array(rows))
}

fn code_row_value(alloc: Global, screen: &Screen<PlaneCells>, row: u16) -> Result<Value, AllocError>
    requires { row < screen.now.size.rows }
    ensures { IfOk result (λ value. view value ≡ code_row_data screen.now row) }
{
    let columns = u32::from(screen.size().cols);
    codes_value(alloc, screen, u32::from(row) * columns, columns)
}

fn code_rows_value(alloc: Global, screen: &Screen<PlaneCells>) -> Result<Value, AllocError>
    ensures { IfOk result (λ value. view value ≡ code_rows_data screen.now) }
{
    let mut rows = Vec::new(alloc);
    for row in 0..screen.size().rows {
        rows.push(code_row_value(alloc, screen, row)?)?;
    }
    Ok(Value::Array(rows))
}

/// Adds a position, if a character of the alternate set stands there.
fn push_escape(
    places: &mut Vec<Value>,
    screen: &Screen<PlaneCells>,
    p: u32,
) -> Result<(), AllocError>
    requires { p < length screen.now.cells }
    ensures { OnOk result (map view places.new.items
        ≡ map view places.old.items ++ escape_at screen.now.cells p) }
{
    if is_alternate(&screen.cell(p)) {
        places.push(Value::from(p))?;
    }
    Ok(())
}

/// The positions of the characters of the alternate set.
fn escapes_value(alloc: Global, screen: &Screen<PlaneCells>) -> Result<Value, AllocError>
    ensures { IfOk result (λ value. view value ≡ escapes_data screen.now) }
{
    let mut places = Vec::new(alloc);
    for p in 0..screen.size().cells() {
        push_escape(&mut places, screen, p)?;
    }
    Ok(Value::Array(places))
}

fn keyboard_value(alloc: Global, lock: Lock) -> Result<Value, AllocError>
    ensures { IfOk result (λ value. view value ≡ string (lock_word lock)) }
{
    Ok(Value::String(String::from_str(alloc, lock_word(lock))?))
}

#[tactic(auto, unfolding(crate::specs::Json::screen_data))]
fn screen_value(alloc: Global, screen: &Screen<PlaneCells>) -> Result<Value, AllocError>
    ensures { IfOk result (λ value. view value ≡ screen_data screen.now) }
{
    let Size { rows, cols } = screen.size();
    let mut members = Map::new(alloc);
    put(
        &mut members,
        alloc,
        "aid",
        hex_value(alloc, screen.aid().byte())?,
    )?;
    put(
        &mut members,
        alloc,
        "codes",
        code_rows_value(alloc, screen)?,
    )?;
    put(&mut members, alloc, "columns", Value::from(cols))?;
    put(&mut members, alloc, "cursor", Value::from(screen.cursor()))?;
    put(&mut members, alloc, "fields", fields_value(alloc, screen)?)?;
    put(
        &mut members,
        alloc,
        "graphic_escapes",
        escapes_value(alloc, screen)?,
    )?;
    put(
        &mut members,
        alloc,
        "keyboard",
        keyboard_value(alloc, screen.lock())?,
    )?;
    put(&mut members, alloc, "rows", Value::from(rows))?;
    put(&mut members, alloc, "text", rows_value(alloc, screen)?)?;
    Ok(Value::Object(members))
}

/// The text of a screen's value.
fn json_text(alloc: Global, screen: &Screen<PlaneCells>) -> Result<String, AllocError>
    ensures { IfOk result (λ text. string_bytes text ≡ json_text screen.now) }
{
    let value = screen_value(alloc, screen)?;
    value.to_string(alloc)
}

/// The line of a screen.
pub(crate) fn push_json(
    alloc: Global,
    out: &mut String,
    screen: &Screen<PlaneCells>,
) -> Result<(), AllocError>
    ensures { OnOk result (string_bytes out.new ≡ string_bytes out.old ++ json_line screen.now) }
{
    let text = json_text(alloc, screen)?;
    out.push_str(text.as_str())?;
    out.push_str("\n")
}
