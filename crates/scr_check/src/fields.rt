//! What stands against the fields of a screen, and against the entries without one.

ghost use Rattle.std.specs.Prelude.{◌≡◌, ℕ, ◌+◌, ◌<◌, ◌≤◌, ◌++◌, length, position, option_to_list, slice_index_or, All, OnOk, IfOk, Some, None};
ghost use Rattle.std.specs.List.{flat_map};
ghost use Rattle.ds_screen.specs.Picture.{Picture};
ghost use Rattle.ds_screen.specs.Fields.{fields_of};
ghost use Rattle.ds_screen.specs.Outline.{IsOutlineOf};
ghost use Rattle.scr_check.specs.Findings.{HaveFields, entry_of, is_of_kind, demo_at, length_demo, empty_finding, undeclared_finding, declared_finding, at_entry, entry_finding, field_finding, has_field, missing_from, findings_of};
ghost use Rattle.scr_check.specs.Seen.{IsCursorOf, FromCursor};

use crate::cursor::Cursor;
use crate::finding::{Demo, Finding, Overlong};
use ds_codec::Attr;
use ds_screen::ring::{distance, previous};
use ds_screen::{FieldAt, Outline};
use scr_layout::{Entry, Kind, Layout};
use std::alloc::{AllocError, Global};

fn is_of_kind(kind: Kind, attr: Attr) -> bool
    ensures { result ≡ is_of_kind kind attr }
{
    match kind {
        Kind::Input => !attr.protected(),
        Kind::Fixed => attr.protected(),
    }
}

/// The keys that go from the cursor to the field's first cell and type so many characters.
fn demo_at(cursor: Cursor, field: &FieldAt, types: u32) -> Demo
    ensures { FromCursor cursor (λ v. result ≡ demo_at v field.now types) }
{
    Demo {
        rights: distance(cursor.cells, cursor.at, field.place),
        types,
    }
}

fn length_demo(cursor: Cursor, field: &FieldAt, kind: Kind) -> Option<Demo>
    ensures { FromCursor cursor (λ v. result ≡ length_demo v field.now kind) }
{
    match kind {
        Kind::Input => Some(demo_at(cursor, field, field.length)),
        Kind::Fixed => None,
    }
}

/// A field that governs no cell.
fn empty_finding(field: &FieldAt) -> Option<Finding>
    ensures { result ≡ empty_finding field.now }
{
    if field.attr.modified() {
        Some(Finding::EmptyModified(field.place))
    } else {
        None
    }
}

/// A field that governs cells and has no entry.
fn undeclared_finding(cursor: Cursor, field: &FieldAt) -> Option<Finding>
    ensures { FromCursor cursor (λ v. result ≡ undeclared_finding v field.now) }
{
    if !field.attr.protected() {
        Some(Finding::Undeclared(field.place, demo_at(cursor, field, 1)))
    } else if field.attr.modified() {
        let enter = Demo {
            rights: 0,
            types: 0,
        };
        Some(Finding::UndeclaredFixed(field.place, enter))
    } else {
        None
    }
}

/// A field that governs cells and has the entry of this index.
fn declared_finding(cursor: Cursor, field: &FieldAt, index: usize, entry: &Entry) -> Option<Finding>
    ensures { FromCursor cursor (λ v. result ≡ declared_finding v field.now index entry.now) }
{
    if !is_of_kind(entry.kind, field.attr) {
        Some(Finding::OtherKind(index))
    } else if entry.length < field.length {
        Some(Finding::TooLong(Overlong {
            entry: index,
            length: field.length,
            declared: entry.length,
            demo: length_demo(cursor, field, entry.kind),
        }))
    } else {
        None
    }
}

/// A field that governs cells, by the index of the entry at its place.
fn entry_finding(
    cursor: Cursor,
    field: &FieldAt,
    entries: &[Entry],
    index: Option<usize>,
) -> Option<Finding>
    ensures { FromCursor cursor (λ v. result ≡ entry_finding v field.now entries.now index) }
{
    let Some(index) = index else {
        return undeclared_finding(cursor, field);
    };
    match entries.get(index) {
        Some(entry) => declared_finding(cursor, field, index, entry),
        None => undeclared_finding(cursor, field),
    }
}

/// The index of the entry of a field, if it governs cells and has one.
fn entry_of(field: &FieldAt, layout: &Layout, guess: &mut usize) -> Option<usize>
    ensures { result ≡ entry_of layout.now.entries field.now }
{
    if field.length == 0 {
        return None;
    }
    layout.entry_near(field.place, guess)
}

/// What stands against a field, of whose entry this is the index.
#[tactic(auto, unfolding(crate::specs::Findings::field_finding))]
fn field_finding(
    cursor: Cursor,
    field: &FieldAt,
    entries: &[Entry],
    index: Option<usize>,
) -> Option<Finding>
    ensures { index ≡ entry_of entries.now field.now
        → FromCursor cursor (λ v. result ≡ field_finding entries.now v field.now) }
{
    if field.length == 0 {
        return empty_finding(field);
    }
    entry_finding(cursor, field, entries, index)
}

/// How many of the first entries have a field, where so many had one before and this is the index of another's.
fn first_found(first: usize, index: Option<usize>) -> usize
    ensures within { result ≤ first + 1 }
    ensures found { first < result → index ≡ Some first }
{
    match index {
        Some(index) if index == first => first.saturating_add(1),
        _ => first,
    }
}

/// Whether a field that governs cells begins at a place of the screen.
fn has_field(outline: &Outline, place: u32, guess: &mut usize) -> bool
    ensures { (v : Picture) → IsOutlineOf outline.now v → place < length v.cells
        → result ≡ has_field v.cells place }
{
    let cells = outline.size().cells();
    if cells <= place {
        return false;
    }
    if !outline.has_attribute_near(previous(cells, place), guess) {
        return false;
    }
    !outline.has_attribute_near(place, guess)
}

/// Adds what stands against the fields, in the order of their attributes. Returns how many of the first entries have a field:
/// all, where the entries stand in the order of the screen and none is missing.
fn add_fields(
    findings: &mut Vec<Finding>,
    cursor: Cursor,
    outline: &Outline,
    layout: &Layout,
) -> Result<usize, AllocError>
    ensures added { OnOk result ((v : Picture) → IsOutlineOf outline.now v → IsCursorOf cursor v
        → findings.new.items ≡ findings.old.items
        ++ flat_map (λ field. option_to_list (field_finding layout.now.entries v field)) (fields_of v.cells)) }
    ensures found { IfOk result (λ first. (v : Picture) → IsOutlineOf outline.now v
        → HaveFields v.cells layout.now.entries first) }
{
    let mut guess = 0;
    let mut first = 0;
    for field in outline.fields() {
        let index = entry_of(&field, layout, &mut guess);
        first = first_found(first, index);
        if let Some(finding) = field_finding(cursor, &field, layout.entries(), index) {
            findings.push(finding)?;
        }
    }
    Ok(first)
}

/// Adds the entries that have no field, where so many of the first have one.
fn add_missing(
    findings: &mut Vec<Finding>,
    outline: &Outline,
    entries: &[Entry],
    first: usize,
) -> Result<(), AllocError>
    ensures { OnOk result ((v : Picture) → IsOutlineOf outline.now v
        → All (λ entry. entry.place < length v.cells) entries.now
        → HaveFields v.cells entries.now first
        → findings.new.items ≡ findings.old.items ++ missing_from v.cells 0 entries.now) }
{
    let mut guess = 0;
    for index in first..entries.len() {
        let entry = &entries[index];
        if !has_field(outline, entry.place, &mut guess) {
            findings.push(Finding::Missing(index))?;
        }
    }
    Ok(())
}

/// What stands against a screen of the layout's size, by its outline: against its fields in the order of their
/// attributes, and then against the entries that have none. Each is found near the one before it, or else by halving.
pub(crate) fn findings_of(
    alloc: Global,
    outline: &Outline,
    layout: &Layout,
) -> Result<Vec<Finding>, AllocError>
    ensures { IfOk result (λ findings. (v : Picture) → IsOutlineOf outline.now v
        → v.size ≡ layout.now.size → findings.items ≡ findings_of layout.now v) }
{
    let cursor = Cursor {
        cells: outline.size().cells(),
        at: outline.cursor(),
    };
    let mut findings = Vec::new(alloc);
    let first = add_fields(&mut findings, cursor, outline, layout)?;
    add_missing(&mut findings, outline, layout.entries(), first)?;
    Ok(findings)
}
