//! What is shown of the fields of a map.

ghost use Rattle.std.specs.Prelude.{◌≡◌, ◌≤◌, ◌<◌, ◌++◌, length, take, replicate, IfOk, OnOk};
ghost use Rattle.std.specs.List.{flat_map};
ghost use Rattle.std.specs.Option.{option_map};
ghost use Rattle.bms_map.specs.Maps.{its_ground};
ghost use Rattle.bms_map.specs.Lookup.{or_else};
ghost use Rattle.bms_map.specs.Entries.{padded, text_of, later_if, later_in, laters, label_of, number_of, total, pairs_of, shown_at, shown_if, shown_from, shown_of, rank_in, placed, placed_all, in_order, its_cursor, cursor_of, sheet_of, FieldsAreInOrder};

use crate::field::{Field, Later};
use crate::macros::{FieldMacro, MapMacro};
use crate::map::Map;
use crate::pairs::pairs_of;
use crate::place::Area;
use ds_codec::Attr;
use std::alloc::{AllocError, Global};

/// Adds so many blanks.
fn push_blanks(codes: &mut Vec<u8>, count: usize) -> Result<(), AllocError>
    ensures { OnOk result (codes.new.items ≡ codes.old.items ++ replicate count 0x40) }
{
    'blanks: for _blank in 0..count {
        codes.push(0x40)?;
    }
    Ok(())
}

/// The codes, with blanks up to the length; none where there is no text.
fn padded(alloc: Global, text: &Option<Vec<u8>>, length: u32) -> Result<Vec<u8>, AllocError>
    ensures { IfOk result (λ codes. codes.items
        ≡ padded (option_map (λ t. t.items) text.now) length) }
{
    match text {
        None => Ok(Vec::new(alloc)),
        Some(text) => {
            let mut codes = Vec::from_slice(alloc, text.as_slice())?;
            push_blanks(&mut codes, (length as usize).saturating_sub(text.len()))?;
            Ok(codes)
        }
    }
}

fn text_of(alloc: Global, entry: &FieldMacro) -> Result<Vec<u8>, AllocError>
    ensures { IfOk result (λ codes. codes.items ≡ text_of entry.now) }
{
    padded(alloc, &entry.text, entry.length)
}

/// Adds a text at the place of a later field, if it has one.
fn push_later(later: &mut Vec<Later>, cell: u32, text: Vec<u8>) -> Result<(), AllocError>
    requires { cell ≤ 60000000 }
    ensures { OnOk result (later.new.items ≡ later.old.items ++ later_if cell text.items) }
{
    if text.is_empty() {
        return Ok(());
    }
    later.push(Later {
        cell: cell + 1,
        text,
    })?;
    Ok(())
}

/// Adds the text of a later field.
fn push_entry(
    alloc: Global,
    later: &mut Vec<Later>,
    area: Area,
    entry: &FieldMacro,
) -> Result<(), AllocError>
    ensures { OnOk result
        (later.new.items ≡ later.old.items ++ later_in (its_ground area) entry.now) }
{
    let text = text_of(alloc, entry)?;
    push_later(later, entry.cell(area), text)
}

/// The texts of later fields.
fn later_of(alloc: Global, area: Area, entries: &[FieldMacro]) -> Result<Vec<Later>, AllocError>
    ensures { IfOk result (λ later. later.items
        ≡ flat_map (later_in (its_ground area)) entries.now) }
{
    let mut later = Vec::new(alloc);
    let mut rest = entries;
    while let [entry, others @ ..] = rest {
        push_entry(alloc, &mut later, area, entry)?;
        rest = others;
    }
    Ok(later)
}

/// How many of the fields go on with the group before them.
fn count_laters(entries: &[FieldMacro]) -> usize
    ensures count { result ≡ length (laters entries.now) }
    ensures front { take result entries.now ≡ laters entries.now }
    ensures inside { result ≤ length entries.now }
{
    let mut count = 0usize;
    let mut rest = entries;
    while let [entry, others @ ..] = rest {
        if !entry.is_later {
            return count;
        }
        count += 1;
        rest = others;
    }
    count
}

/// The fields that go on with the group before them.
fn laters(entries: &[FieldMacro]) -> &[FieldMacro]
    ensures { result.now ≡ laters entries.now }
{
    entries.split_at(count_laters(entries)).0
}

/// How many characters fields have, as far as they can be counted.
fn total(entries: &[FieldMacro]) -> u32
    ensures { result ≡ total entries.now }
{
    match entries {
        [] => 0,
        [entry, others @ ..] => entry.size().saturating_add(total(others)),
    }
}

/// The name of a group, or else the label.
fn label_of(alloc: Global, entry: &FieldMacro) -> Result<Vec<u8>, AllocError>
    ensures { IfOk result (λ label. label.items ≡ label_of entry.now.group entry.now.label) }
{
    match &entry.group {
        None => Vec::from_slice(alloc, entry.label.as_slice()),
        Some(group) => Vec::from_slice(alloc, group.as_slice()),
    }
}

/// Which occurrence it is, counted from 1; 0 where it is the only one.
fn number_of(entry: &FieldMacro, k: u32) -> u16
    requires { k < 1000 }
    ensures { result ≡ number_of entry.now k }
{
    if entry.count() < 2 { 0 } else { (k + 1) as u16 }
}

fn attribute_of(entry: &FieldMacro) -> Attr
    ensures { result ≡ entry.now.attribute }
{
    Attr::new(entry.attribute)
}

fn pairs_in(alloc: Global, entry: &FieldMacro) -> Result<Vec<u8>, AllocError>
    ensures { IfOk result (λ pairs. pairs.items ≡ pairs_of entry.now.attribute entry.now.looks) }
{
    pairs_of(alloc, entry.attribute, entry.looks)
}

/// An occurrence, counted from 0, with the later fields of its group.
fn shown_at(
    alloc: Global,
    area: Area,
    entry: &FieldMacro,
    others: &[FieldMacro],
    k: u32,
) -> Result<Field, AllocError>
    requires { k < 1000 }
    ensures { IfOk result (λ field. field
        ≡ shown_at (its_ground area) entry.now others.now k) }
{
    let columns = u32::from(area.extent.columns);
    let index = entry.index_at(k);
    let pairs = pairs_in(alloc, entry)?;
    let text = text_of(alloc, entry)?;
    let later = later_of(alloc, area, others)?;
    let label = label_of(alloc, entry)?;
    Ok(Field {
        cell: area.cell(index),
        length: entry.size().saturating_add(total(others)),
        attribute: attribute_of(entry),
        pairs,
        text,
        later,
        label,
        occurrence: number_of(entry, k),
        line: line_of(entry),
        row: index / columns + 1,
        column: index % columns + 1,
    })
}

fn line_of(entry: &FieldMacro) -> usize
    ensures { result ≡ entry.now.line }
{
    entry.line
}

/// How many fields stand before one whose attribute is at a cell.
fn rank_in(fields: &[Field], cell: u32) -> usize
    ensures rank { result ≡ rank_in fields.now cell }
    ensures inside { result ≤ length fields.now }
{
    let mut count = 0usize;
    let mut rest = fields;
    while let [field, others @ ..] = rest {
        if cell < field.cell {
            return count;
        }
        count += 1;
        rest = others;
    }
    count
}

/// How many fields stand before one.
fn rank_of(fields: &[Field], field: &Field) -> usize
    ensures rank { result ≡ rank_in fields.now field.now.cell }
    ensures inside { result ≤ length fields.now }
{
    rank_in(fields, field.cell)
}

/// Puts a field among those of which each attribute comes before the next.
fn put(fields: &mut Vec<Field>, field: Field) -> Result<(), AllocError>
    ensures { OnOk result (fields.new.items ≡ placed field fields.old.items) }
{
    let at = rank_of(fields.as_slice(), &field);
    fields.insert(at, field)?;
    Ok(())
}

/// Puts each occurrence of a field.
fn put_each(
    alloc: Global,
    fields: &mut Vec<Field>,
    area: Area,
    entry: &FieldMacro,
    others: &[FieldMacro],
) -> Result<(), AllocError>
    ensures { OnOk result (fields.new.items
        ≡ placed_all fields.old.items (shown_from (its_ground area) entry.now others.now)) }
{
    let count = entry.count();
    'occurrences: for k in 0..count {
        let field = shown_at(alloc, area, entry, others, k)?;
        put(fields, field)?;
    }
    Ok(())
}

/// Puts a field, unless it goes on with a group.
fn put_entry(
    alloc: Global,
    fields: &mut Vec<Field>,
    area: Area,
    entry: &FieldMacro,
    others: &[FieldMacro],
) -> Result<(), AllocError>
    ensures { OnOk result (fields.new.items
        ≡ placed_all fields.old.items (shown_if (its_ground area) entry.now others.now)) }
{
    if entry.is_later {
        return Ok(());
    }
    put_each(alloc, fields, area, entry, laters(others))
}

/// The fields in the order of their attributes.
fn fields_of(alloc: Global, area: Area, entries: &[FieldMacro]) -> Result<Vec<Field>, AllocError>
    ensures { IfOk result (λ fields. fields.items
        ≡ in_order (shown_of (its_ground area) entries.now)) }
{
    let mut fields = Vec::new(alloc);
    let mut rest = entries;
    while let [entry, others @ ..] = rest {
        put_entry(alloc, &mut fields, area, entry, others)?;
        rest = others;
    }
    Ok(fields)
}

/// The attribute of the last occurrence of a field that has the cursor.
fn its_cursor(area: Area, entry: &FieldMacro) -> Option<u32>
    ensures { result ≡ its_cursor (its_ground area) entry.now }
{
    if entry.has_cursor && !entry.is_later {
        Some(entry.cell_at(area, entry.count().saturating_sub(1)))
    } else {
        None
    }
}

/// One value, or else another one.
fn or(value: Option<u32>, other: Option<u32>) -> Option<u32>
    ensures { result ≡ or_else value other }
{
    match value {
        Some(value) => Some(value),
        None => other,
    }
}

/// The attribute of the last field that has the cursor.
fn cursor_of(area: Area, entries: &[FieldMacro]) -> Option<u32>
    ensures { result ≡ cursor_of (its_ground area) entries.now }
{
    let mut cursor = None;
    let mut rest = entries;
    while let [entry, others @ ..] = rest {
        cursor = or(its_cursor(area, entry), cursor);
        rest = others;
    }
    cursor
}

/// The map of a DFHMDI and its fields.
pub(crate) fn sheet_of(alloc: Global, section: MapMacro) -> Result<Map, AllocError>
    ensures { IfOk result (λ map. map ≡ sheet_of section) }
{
    let area = section.area;
    let fields = fields_of(alloc, area, section.entries.as_slice())?;
    let cursor = cursor_of(area, section.entries.as_slice());
    Ok(Map {
        name: section.name,
        line: section.line,
        area,
        control: section.control,
        looks: section.looks,
        fields,
        cursor,
    })
}

/// The fields of a map are in the order of their attributes, each as often as it is told.
pub fn fields_are_in_order()
    ensures { FieldsAreInOrder }
{}
