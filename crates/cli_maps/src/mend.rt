//! What to do about a finding of a map: the change of its source that ends it.

ghost use Rattle.std.specs.Prelude.{◌≡◌, ◌++◌, option_map, slice_get, IfOk, OnOk, Some};
ghost use Rattle.std.specs.List.{find};
ghost use Rattle.std.specs.String.{string_bytes};
ghost use Rattle.bms_map.specs.Maps.{its_ground};
ghost use Rattle.cli_maps.specs.Mend.{after_field, attrb_text, behind, end_help, field_help, finding_help, help_of, is_in, is_stopper_at, is_word, label_help, look_of, look_words, moved_behind, moved_help, overlap_help, overlaps_help, past_help, pos_text, protection_of, protection_words, spot_if, spot_in, stopper_at, stopper_help, too_long_help, undeclared_fixed_help, undeclared_help, unset_help, unset_of, moved_of};

use crate::judged::MapFinding;
use crate::lines::field_of;
use bms_map::{Area, Field, Map, Overlap, push_label};
use ds_codec::Attr;
use scr_check::Finding;
use scr_layout::Entry;
use std::alloc::{AllocError, Global};

/// A line and a column of a map, counted from 1.
type Spot = (u32, u32);

/// Whether a position of the screen lies in the map.
fn is_in(area: Area, row: u32, column: u32) -> bool
    ensures { result ≡ is_in (its_ground area) row column }
{
    let top = u32::from(area.top);
    let left = u32::from(area.left);
    let lines = u32::from(area.extent.lines);
    let columns = u32::from(area.extent.columns);
    (top <= row && row < top + lines) && (left <= column && column < left + columns)
}

/// The line and the column of the map at which a position of its screen lies, if it does.
fn spot_in(area: Area, cell: u32) -> Option<Spot>
    ensures { result ≡ spot_in (its_ground area) cell }
{
    let row = cell / u32::from(area.screen.cols);
    let column = cell % u32::from(area.screen.cols);
    if !is_in(area, row, column) {
        return None;
    }
    Some((
        row - u32::from(area.top) + 1,
        column - u32::from(area.left) + 1,
    ))
}

/// The position after a field's last character, round the screen's end.
fn after_field(map: &Map, field: &Field) -> u32
    ensures { result ≡ after_field map.now field.now }
{
    let end = u64::from(field.cell) + u64::from(field.length) + 1;
    (end % u64::from(map.area.cells())) as u32
}

fn push_pos(out: &mut String, spot: Spot) -> Result<(), AllocError>
    ensures { OnOk result (string_bytes out.new ≡ string_bytes out.old ++ pos_text spot) }
{
    let (row, column) = spot;
    write!(out, "POS=({row},{column})")
}

/// What an operator may do in a field.
#[derive(Clone, Copy, Debug, PartialEq, Eq)]
enum Protection {
    Unprotected,
    Numeric,
    Protected,
    Skipped,
}

/// How a field looks.
#[derive(Clone, Copy, Debug, PartialEq, Eq)]
enum Look {
    Normal,
    Detectable,
    Bright,
    Dark,
}

fn protection_of(attribute: Attr) -> Protection
    ensures { result ≡ protection_of attribute }
{
    if attribute.auto_skip() {
        Protection::Skipped
    } else if attribute.protected() {
        Protection::Protected
    } else if attribute.numeric() {
        Protection::Numeric
    } else {
        Protection::Unprotected
    }
}

fn look_of(attribute: Attr) -> Look
    ensures { result ≡ look_of attribute }
{
    if attribute.hidden() {
        Look::Dark
    } else if attribute.intensified() {
        Look::Bright
    } else if attribute.detectable() {
        Look::Detectable
    } else {
        Look::Normal
    }
}

/// The protection, as ATTRB says it.
fn protection_words(protection: Protection) -> &'static str
    ensures { result.now ≡ protection_words protection }
{
    match protection {
        Protection::Skipped => "ASKIP",
        Protection::Protected => "PROT",
        Protection::Numeric => "UNPROT,NUM",
        Protection::Unprotected => "UNPROT",
    }
}

/// How it looks, after that.
fn look_words(look: Look) -> &'static str
    ensures { result.now ≡ look_words look }
{
    match look {
        Look::Dark => ",DRK",
        Look::Bright => ",BRT",
        Look::Detectable => ",DET",
        Look::Normal => "",
    }
}

fn is_word(protection: Protection, look: Look) -> bool
    ensures { result ≡ is_word protection look }
{
    match (protection, look) {
        (Protection::Numeric, _) => false,
        (_, Look::Normal) => true,
        _ => false,
    }
}

/// Adds ATTRB of this protection and of these looks, without FSET.
fn push_attrb(out: &mut String, protection: Protection, look: Look) -> Result<(), AllocError>
    ensures { OnOk result
        (string_bytes out.new ≡ string_bytes out.old ++ attrb_text protection look) }
{
    let words = protection_words(protection);
    let look_words = look_words(look);
    if is_word(protection, look) {
        write!(out, "ATTRB={words}")
    } else {
        write!(out, "ATTRB=({words}{look_words})")
    }
}

fn label_help(field: &Field) -> &'static str
    ensures { result.now ≡ label_help field.now }
{
    if field.length == 0 {
        ""
    } else {
        "give it a label, or "
    }
}

fn undeclared_help(alloc: Global, field: &Field) -> Result<String, AllocError>
    ensures { IfOk result (λ text. string_bytes text ≡ undeclared_help field.now) }
{
    let mut text = String::from_str(alloc, label_help(field))?;
    text.push_str("protect it by ")?;
    push_attrb(&mut text, Protection::Skipped, look_of(field.attribute))?;
    Ok(text)
}

fn push_unset_of(out: &mut String, attribute: Attr) -> Result<(), AllocError>
    ensures { OnOk result (string_bytes out.new ≡ string_bytes out.old ++ unset_of attribute) }
{
    out.push_str("take FSET away by ")?;
    push_attrb(out, protection_of(attribute), look_of(attribute))
}

fn push_unset(out: &mut String, field: &Field) -> Result<(), AllocError>
    ensures { OnOk result (string_bytes out.new ≡ string_bytes out.old ++ unset_help field.now) }
{
    push_unset_of(out, field.attribute)
}

fn unset_help(alloc: Global, field: &Field) -> Result<String, AllocError>
    ensures { IfOk result (λ text. string_bytes text ≡ unset_help field.now) }
{
    let mut text = String::new(alloc);
    push_unset(&mut text, field)?;
    Ok(text)
}

fn undeclared_fixed_help(alloc: Global, field: &Field) -> Result<String, AllocError>
    ensures { IfOk result (λ text. string_bytes text ≡ undeclared_fixed_help field.now) }
{
    let mut text = String::from_str(alloc, label_help(field))?;
    push_unset(&mut text, field)?;
    Ok(text)
}

/// The macro that ends a field.
fn stopper_help(alloc: Global, spot: Spot) -> Result<String, AllocError>
    ensures { IfOk result (λ text. string_bytes text ≡ stopper_help spot) }
{
    let mut text = String::from_str(alloc, "end it by a stopper:\n         DFHMDF ")?;
    push_pos(&mut text, spot)?;
    text.push_str(",LENGTH=0,ATTRB=ASKIP")?;
    Ok(text)
}

fn is_stopper_at(cell: u32, field: &Field) -> bool
    ensures { result ≡ is_stopper_at cell field.now }
{
    field.cell == cell && field.length == 0
}

/// The stopper whose attribute stands at a position.
fn stopper_at(map: &Map, cell: u32) -> Option<&Field>
    ensures { option_map (λ field. field.now) result ≡ stopper_at map.now cell }
{
    for field in map.fields.as_slice() {
        if is_stopper_at(cell, field) {
            return Some(field);
        }
    }
    None
}

/// The same of a stopper on this line.
fn moved_of(alloc: Global, spot: Spot, line: usize) -> Result<String, AllocError>
    ensures { IfOk result (λ text. string_bytes text ≡ moved_of spot line) }
{
    let mut text = String::from_str(alloc, "write ")?;
    push_pos(&mut text, spot)?;
    write!(
        text,
        " at the stopper of line {line}, which stands a column too far"
    )?;
    Ok(text)
}

fn moved_help(alloc: Global, spot: Spot, stopper: &Field) -> Result<String, AllocError>
    ensures { IfOk result (λ text. string_bytes text ≡ moved_help spot stopper.now) }
{
    moved_of(alloc, spot, stopper.line)
}

fn end_help(alloc: Global, spot: Spot, stopper: Option<&Field>) -> Result<String, AllocError>
    ensures { IfOk result (λ text. string_bytes text
        ≡ end_help spot (option_map (λ field. field.now) stopper.entry)) }
{
    match stopper {
        Some(stopper) => moved_help(alloc, spot, stopper),
        None => stopper_help(alloc, spot),
    }
}

fn too_long_help(alloc: Global, map: &Map, field: &Field) -> Result<String, AllocError>
    ensures { IfOk result (λ text. string_bytes text ≡ too_long_help map.now field.now
        (spot_in map.now.area (after_field map.now field.now))) }
{
    let after = after_field(map, field);
    match spot_in(map.area, after) {
        Some(spot) => end_help(alloc, spot, stopper_at(map, after + 1)),
        None => String::from_str(
            alloc,
            "no place of the map comes after it for a stopper: write a smaller LENGTH, or a larger SIZE",
        ),
    }
}

fn push_behind(out: &mut String, spot: Option<Spot>) -> Result<(), AllocError>
    ensures { OnOk result (string_bytes out.new ≡ string_bytes out.old ++ behind spot) }
{
    let Some(spot) = spot else {
        return Ok(());
    };
    out.push_str(" to ")?;
    push_pos(out, spot)?;
    out.push_str(" or behind")
}

fn moved_behind(alloc: Global, map: &Map, other: &Field) -> Result<String, AllocError>
    ensures { IfOk result (λ text. string_bytes text ≡ moved_behind map.now other.now) }
{
    let mut text = String::from_str(alloc, "move it")?;
    push_behind(&mut text, spot_in(map.area, after_field(map, other)))?;
    text.push_str(", or write a smaller LENGTH of ")?;
    push_label(&mut text, other)?;
    Ok(text)
}

fn past_help(alloc: Global, by: u32) -> Result<String, AllocError>
    ensures { IfOk result (λ text. string_bytes text ≡ past_help by) }
{
    format!(in alloc; "write a LENGTH that is smaller by {by}, or a larger SIZE")
}

fn overlap_help(alloc: Global, map: &Map, other: Option<&Field>) -> Result<String, AllocError>
    ensures { IfOk result (λ text. string_bytes text
        ≡ overlap_help map.now (option_map (λ field. field.now) other.entry)) }
{
    match other {
        Some(other) => moved_behind(alloc, map, other),
        None => String::from_str(alloc, "move it"),
    }
}

fn overlaps_help(alloc: Global, map: &Map, overlap: Overlap) -> Result<String, AllocError>
    ensures { IfOk result (λ text. string_bytes text ≡ overlaps_help map.now overlap) }
{
    match overlap {
        Overlap::Overlaps(_, other) => overlap_help(alloc, map, map.fields.get(other)),
        Overlap::PastEnd(_, by) => past_help(alloc, by),
    }
}

fn fixed_help(alloc: Global, text: &str) -> Result<Option<String>, AllocError>
    ensures { IfOk result (λ help. option_map string_bytes help ≡ Some text.now) }
{
    Ok(Some(String::from_str(alloc, text)?))
}

fn field_help(
    alloc: Global,
    map: &Map,
    field: &Field,
    finding: Finding,
) -> Result<Option<String>, AllocError>
    ensures { IfOk result (λ help. option_map string_bytes help
        ≡ field_help map.now field.now finding) }
{
    match finding {
        Finding::Undeclared(_, _) => Ok(Some(undeclared_help(alloc, field)?)),
        Finding::UndeclaredFixed(_, _) => Ok(Some(undeclared_fixed_help(alloc, field)?)),
        Finding::Missing(_) => fixed_help(
            alloc,
            "correct POS or LENGTH of the field that covers its attribute, or follows it at once",
        ),
        Finding::TooLong(_) => Ok(Some(too_long_help(alloc, map, field)?)),
        Finding::EmptyModified(_) => Ok(Some(unset_help(alloc, field)?)),
        _ => Ok(None),
    }
}

fn finding_help(
    alloc: Global,
    map: &Map,
    field: Option<&Field>,
    finding: Finding,
) -> Result<Option<String>, AllocError>
    ensures { IfOk result (λ help. option_map string_bytes help
        ≡ finding_help map.now (option_map (λ field. field.now) field.entry) finding) }
{
    match finding {
        Finding::KeyboardLocked => fixed_help(
            alloc,
            "write CTRL=FREEKB at DFHMDI or DFHMSD; where programs say FREEKB with each SEND MAP, check with --freekb",
        ),
        Finding::Unformatted => fixed_help(alloc, "write its fields, each by a DFHMDF"),
        _ => match field {
            Some(field) => field_help(alloc, map, field, finding),
            None => Ok(None),
        },
    }
}

/// The change that ends a finding, where one is known.
pub(crate) fn help_of(
    alloc: Global,
    map: &Map,
    entries: &[Entry],
    finding: MapFinding,
) -> Result<Option<String>, AllocError>
    ensures { IfOk result (λ help. option_map string_bytes help
        ≡ help_of map.now entries.now finding) }
{
    match finding {
        MapFinding::Overlapping(overlap) => Ok(Some(overlaps_help(alloc, map, overlap)?)),
        MapFinding::Found(found) => {
            finding_help(alloc, map, field_of(map, entries, finding), found)
        }
    }
}
