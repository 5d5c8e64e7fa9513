//! The lines of `check --map`, and the field of each finding.

ghost use Rattle.std.specs.Prelude.{◌≡◌, ◌++◌, option_map, slice_get, IfOk, OnOk};
ghost use Rattle.std.specs.List.{find, flat_map};
ghost use Rattle.std.specs.String.{string_bytes};
ghost use Rattle.scr_check.specs.FindingText.{finding_text};
ghost use Rattle.cli_maps.specs.Lines.{field_at, field_of, head_text, is_at, label_of, lead_text, line_of, lines_of, map_line, map_words, other_text, overlap_field, overlap_text, overlapped_text, overlapping_text, past_text, words_of, yes_line};

use crate::judged::MapFinding;
use bms_map::{Field, Map, Overlap, push_label};
use bms_source::push_codes;
use cli_findings::place_of;
use scr_check::Finding;
use scr_layout::Entry;
use std::alloc::{AllocError, Global};

/// Whether the first character of a field stands at a place.
fn is_at(map: &Map, place: u32, field: &Field) -> bool
    ensures { result ≡ is_at map.now place field.now }
{
    field.cell.saturating_add(1) % map.area.cells() == place
}

/// The field whose first character stands at a place.
fn field_at(map: &Map, place: u32) -> Option<&Field>
    ensures { option_map (λ field. field.now) result ≡ field_at map.now place }
{
    for field in map.fields.as_slice() {
        if is_at(map, place, field) {
            return Some(field);
        }
    }
    None
}

fn overlap_field(map: &Map, overlap: Overlap) -> Option<&Field>
    ensures { option_map (λ field. field.now) result ≡ overlap_field map.now overlap }
{
    match overlap {
        Overlap::Overlaps(index, _) | Overlap::PastEnd(index, _) => map.fields.get(index),
    }
}

/// The field that is told: that of an attribute, or of an entry; none for what stands against the map as a whole.
pub(crate) fn field_of<'a>(
    map: &'a Map,
    entries: &[Entry],
    finding: MapFinding,
) -> Option<&'a Field>
    ensures { option_map (λ field. field.now) result ≡ field_of map.now entries.now finding }
{
    match finding {
        MapFinding::Overlapping(overlap) => overlap_field(map, overlap),
        MapFinding::Found(found) => field_at(map, place_of(entries, &found)?),
    }
}

/// The number of the line of a field's DFHMDF, or of the map's DFHMDI.
pub(crate) fn line_of(map: &Map, field: Option<&Field>) -> usize
    ensures { result ≡ line_of map.now (option_map (λ field. field.now) field.entry) }
{
    match field {
        Some(field) => field.line,
        None => map.line,
    }
}

fn push_field(out: &mut String, field: Option<&Field>) -> Result<(), AllocError>
    ensures { OnOk result (string_bytes out.new ≡ string_bytes out.old
        ++ label_of (option_map (λ field. field.now) field.entry)) }
{
    match field {
        Some(field) => {
            out.push_str(" ")?;
            push_label(out, field)
        }
        None => Ok(()),
    }
}

/// Adds the map's name, the field, and the line.
fn push_head(out: &mut String, map: &Map, field: Option<&Field>) -> Result<(), AllocError>
    ensures { OnOk result (string_bytes out.new ≡ string_bytes out.old
        ++ head_text map.now (option_map (λ field. field.now) field.entry)) }
{
    push_codes(out, map.name.as_slice())?;
    push_field(out, field)?;
    let line = line_of(map, field);
    write!(out, " line {line}: ")
}

/// Adds another field, and its line.
fn push_other(out: &mut String, field: &Field) -> Result<(), AllocError>
    ensures { OnOk result (string_bytes out.new ≡ string_bytes out.old ++ other_text field.now) }
{
    push_label(out, field)?;
    let line = field.line;
    write!(out, " line {line}")
}

#[tactic(auto, unfolding(crate::specs::Lines::lead_text))]
fn push_lead(out: &mut String) -> Result<(), AllocError>
    ensures { OnOk result (string_bytes out.new ≡ string_bytes out.old ++ lead_text) }
{
    out.push_str("M1 overlaps ")
}

fn push_overlapped(out: &mut String, field: &Field) -> Result<(), AllocError>
    ensures { OnOk result
        (string_bytes out.new ≡ string_bytes out.old ++ overlapped_text field.now) }
{
    push_lead(out)?;
    push_other(out, field)
}

fn push_overlapping(out: &mut String, field: Option<&Field>) -> Result<(), AllocError>
    ensures { OnOk result (string_bytes out.new ≡ string_bytes out.old
        ++ overlapping_text (option_map (λ field. field.now) field.entry)) }
{
    match field {
        Some(field) => push_overlapped(out, field),
        None => push_lead(out),
    }
}

#[tactic(auto, unfolding(crate::specs::Lines::past_text))]
fn push_past(out: &mut String, by: u32) -> Result<(), AllocError>
    ensures { OnOk result (string_bytes out.new ≡ string_bytes out.old ++ past_text by) }
{
    write!(out, "M2 past the end by {by}")
}

fn push_overlap(out: &mut String, map: &Map, overlap: Overlap) -> Result<(), AllocError>
    ensures { OnOk result (string_bytes out.new ≡ string_bytes out.old
        ++ overlap_text map.now overlap) }
{
    match overlap {
        Overlap::Overlaps(_, other) => push_overlapping(out, map.fields.get(other)),
        Overlap::PastEnd(_, by) => push_past(out, by),
    }
}

fn push_found(out: &mut String, entries: &[Entry], finding: Finding) -> Result<(), AllocError>
    ensures { OnOk result (string_bytes out.new ≡ string_bytes out.old
        ++ finding_text entries.now finding) }
{
    finding.push_text(out, entries)
}

/// Adds what is found, with where it is.
pub(crate) fn push_words(
    out: &mut String,
    map: &Map,
    entries: &[Entry],
    finding: MapFinding,
) -> Result<(), AllocError>
    ensures { OnOk result (string_bytes out.new ≡ string_bytes out.old
        ++ map_words map.now entries.now finding) }
{
    push_head(out, map, field_of(map, entries, finding))?;
    match finding {
        MapFinding::Overlapping(overlap) => push_overlap(out, map, overlap),
        MapFinding::Found(found) => push_found(out, entries, found),
    }
}

fn push_line(
    out: &mut String,
    map: &Map,
    entries: &[Entry],
    finding: MapFinding,
) -> Result<(), AllocError>
    ensures { OnOk result (string_bytes out.new ≡ string_bytes out.old
        ++ map_line map.now entries.now finding) }
{
    push_words(out, map, entries, finding)?;
    out.push_str("\n")
}

/// The line of a map against which nothing stands.
fn push_yes(out: &mut String, map: &Map) -> Result<(), AllocError>
    ensures { OnOk result (string_bytes out.new ≡ string_bytes out.old ++ yes_line map.now) }
{
    push_head(out, map, None)?;
    out.push_str("yes\n")
}

fn push_all(
    out: &mut String,
    map: &Map,
    entries: &[Entry],
    findings: &[MapFinding],
) -> Result<(), AllocError>
    ensures { OnOk result (string_bytes out.new ≡ string_bytes out.old
        ++ flat_map (map_line map.now entries.now) findings.now) }
{
    for finding in findings {
        push_line(out, map, entries, *finding)?;
    }
    Ok(())
}

/// The lines of a map: yes, or one for each finding.
pub(crate) fn lines_of(
    alloc: Global,
    map: &Map,
    entries: &[Entry],
    findings: &[MapFinding],
) -> Result<String, AllocError>
    ensures { IfOk result (λ text. string_bytes text ≡ lines_of map.now entries.now findings.now) }
{
    let mut out = String::new(alloc);
    match findings {
        [] => push_yes(&mut out, map)?,
        [_, ..] => push_all(&mut out, map, entries, findings)?,
    }
    Ok(out)
}
