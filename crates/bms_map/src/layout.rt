//! The layout of a map: what the symbolic map says that the program reads.

ghost use Rattle.std.specs.Prelude.{◌≡◌, ◌++◌, [], codes, IfOk, OnOk};
ghost use Rattle.std.specs.List.{flat_map};
ghost use Rattle.std.specs.String.{string_bytes};
ghost use Rattle.bms_map.specs.LayoutText.{comment, entry_if, entry_text, kind_line, kind_word, label_text, layout_text, name_line, named_line, numbered, place_lines, screen_line, screen_word, size_lines, top_lines};

use crate::field::Field;
use crate::map::Map;
use crate::names::name_of;
use crate::place::DEFAULT_ROWS;
use bms_source::push_codes;
use std::alloc::{AllocError, Global};

fn screen_word(is_default: bool) -> &'static str
    ensures { result.now ≡ screen_word is_default }
{
    if is_default { "default" } else { "alternate" }
}

fn kind_word(is_input: bool) -> &'static str
    ensures { result.now ≡ kind_word is_input }
{
    if is_input { "input" } else { "fixed" }
}

fn push_sizes(out: &mut String, map: &Map) -> Result<(), AllocError>
    ensures { OnOk result
        (string_bytes out.new ≡ string_bytes out.old ++ size_lines map.now) }
{
    let rows = map.area.screen.rows;
    let cols = map.area.screen.cols;
    write!(out, "default = \"24x80\"\nalternate = \"{rows}x{cols}\"\n")
}

fn push_screen(out: &mut String, is_default: bool) -> Result<(), AllocError>
    ensures { OnOk result
        (string_bytes out.new ≡ string_bytes out.old ++ screen_line is_default) }
{
    out.push_str("screen = \"")?;
    out.push_str(screen_word(is_default))?;
    out.push_str("\"\n")
}

fn push_top(out: &mut String, map: &Map) -> Result<(), AllocError>
    ensures { OnOk result
        (string_bytes out.new ≡ string_bytes out.old ++ top_lines map.now) }
{
    push_sizes(out, map)?;
    push_screen(out, map.area.screen.rows == DEFAULT_ROWS)
}

/// Adds the number of an occurrence behind a hyphen, unless it is the only one.
fn push_hyphened(out: &mut String, number: u16) -> Result<(), AllocError>
    ensures { OnOk result (string_bytes out.new
        ≡ string_bytes out.old ++ numbered (codes "-") [] number) }
{
    if number == 0 {
        return Ok(());
    }
    write!(out, "-{number}")
}

/// Adds the number of an occurrence in parentheses, unless it is the only one.
fn push_enclosed(out: &mut String, number: u16) -> Result<(), AllocError>
    ensures { OnOk result (string_bytes out.new
        ≡ string_bytes out.old ++ numbered (codes "(") (codes ")") number) }
{
    if number == 0 {
        return Ok(());
    }
    write!(out, "({number})")
}

fn push_named(
    alloc: Global,
    out: &mut String,
    label: &[u8],
    occurrence: u16,
) -> Result<(), AllocError>
    ensures { OnOk result
        (string_bytes out.new ≡ string_bytes out.old ++ named_line label.now occurrence) }
{
    let name = name_of(alloc, label)?;
    out.push_str("\n[[field]]\nname = \"")?;
    push_codes(out, &name)?;
    push_hyphened(out, occurrence)?;
    out.push_str("\"\n")
}

fn push_name(alloc: Global, out: &mut String, field: &Field) -> Result<(), AllocError>
    ensures { OnOk result
        (string_bytes out.new ≡ string_bytes out.old ++ name_line field.now) }
{
    push_named(alloc, out, field.label.as_slice(), field.occurrence)
}

/// The row and the column of the first character, which may stand round the screen's end.
fn push_place(out: &mut String, map: &Map, field: &Field) -> Result<(), AllocError>
    ensures { OnOk result
        (string_bytes out.new ≡ string_bytes out.old ++ place_lines map.now field.now) }
{
    let area = map.area;
    let cols = u32::from(area.screen.cols);
    let place = field.cell.saturating_add(1) % area.cells();
    let row = u64::from(place / cols) + 1;
    let col = u64::from(place % cols) + 1;
    let length = field.length;
    write!(out, "row = {row}\ncol = {col}\nlength = {length}\n")
}

/// What people call a field: its label, with the number of an occurrence in parentheses, or else its place in the map.
///
/// # Errors
///
/// Where a request for memory was refused.
pub fn push_label(out: &mut String, field: &Field) -> Result<(), AllocError>
    ensures { OnOk result
        (string_bytes out.new ≡ string_bytes out.old ++ label_text field.now) }
{
    if field.label.is_empty() {
        let row = field.row;
        let column = field.column;
        return write!(out, "({row},{column})");
    }
    push_codes(out, &field.label)?;
    push_enclosed(out, field.occurrence)
}

fn push_kind(out: &mut String, field: &Field) -> Result<(), AllocError>
    ensures { OnOk result
        (string_bytes out.new ≡ string_bytes out.old ++ kind_line field.now) }
{
    out.push_str("kind = \"")?;
    out.push_str(kind_word(field.is_input()))?;
    out.push_str("\"\n")
}

/// Adds a comment: what people call the field, and the line of its macro.
fn push_comment(out: &mut String, field: &Field) -> Result<(), AllocError>
    ensures { OnOk result
        (string_bytes out.new ≡ string_bytes out.old ++ comment field.now) }
{
    out.push_str("# ")?;
    push_label(out, field)?;
    let line = field.line;
    write!(out, ", line {line}\n")
}

fn push_entry(alloc: Global, out: &mut String, map: &Map, field: &Field) -> Result<(), AllocError>
    ensures { OnOk result
        (string_bytes out.new ≡ string_bytes out.old ++ entry_text map.now field.now) }
{
    push_name(alloc, out, field)?;
    push_place(out, map, field)?;
    push_kind(out, field)?;
    push_comment(out, field)
}

/// Adds the entry of a field that the program reads.
fn push_declared(
    alloc: Global,
    out: &mut String,
    map: &Map,
    field: &Field,
) -> Result<(), AllocError>
    ensures { OnOk result
        (string_bytes out.new ≡ string_bytes out.old ++ entry_if map.now field.now) }
{
    if !field.is_declared() {
        return Ok(());
    }
    push_entry(alloc, out, map, field)
}

/// Adds the entries of fields.
fn push_all(alloc: Global, out: &mut String, map: &Map, fields: &[Field]) -> Result<(), AllocError>
    ensures { OnOk result (string_bytes out.new
        ≡ string_bytes out.old ++ flat_map (entry_if map.now) fields.now) }
{
    let mut rest = fields;
    while let [field, others @ ..] = rest {
        push_declared(alloc, out, map, field)?;
        rest = others;
    }
    Ok(())
}

/// The layout of a map, as text.
///
/// # Errors
///
/// Where a request for memory was refused.
pub fn layout_text(alloc: Global, map: &Map) -> Result<String, AllocError>
    ensures { IfOk result (λ text. string_bytes text ≡ layout_text map.now) }
{
    let mut out = String::new(alloc);
    push_top(&mut out, map)?;
    push_all(alloc, &mut out, map, map.fields.as_slice())?;
    Ok(out)
}
