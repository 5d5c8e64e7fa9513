//! What is found of a map as lines of JSON.

ghost use Rattle.std.specs.Prelude.{◌≡◌, ◌++◌, codes, false, map as all_of, option_map, IfOk, OnOk, Some};
ghost use Rattle.std.specs.List.{flat_map};
ghost use Rattle.std.specs.String.{string_bytes};
ghost use Rattle.serde_json.specs.View.{view, members_view};
ghost use Rattle.cli_findings.specs.Lines.{data_line};
ghost use Rattle.cli_findings.specs.Members.{with_text};
ghost use Rattle.cli_maps.specs.Json.{finding_data, finding_line, finding_lines, json_lines, refused_data, refused_line, source_data, verdict_data, verdict_word, with_facts, with_macro, with_source, with_words};
ghost use Rattle.cli_maps.specs.Lines.{map_words};
ghost use Rattle.cli_maps.specs.Mend.{help_of};
ghost use Rattle.bms_map.specs.LayoutText.{label_text};
ghost use Rattle.bms_source.specs.Printed.{printed_codes};

use crate::judged::{Judged, MapFinding};
use crate::lines::{field_of, line_of, push_words};
use crate::mend::help_of;
use crate::rules::{id_of, name_of};
use crate::source::macro_region;
use bms_map::{Field, Map, push_label};
use bms_source::push_codes;
use cli_findings::{
    Members, Region, place_of, push_line, put_entry, put_keys, put_number, put_place, put_str,
    put_text, rehearsal_after,
};
use demo_screens::Rehearsal;
use ds_screen::PlaneCells;
use scr_check::Finding;
use scr_layout::{Entry, Layout};
use serde_json::{Map as Object, Value, put};
use std::alloc::{AllocError, Global};

/// A line and, where it is known, a column of the file of a path.
fn source_value(alloc: Global, path: &str, region: Region) -> Result<Value, AllocError>
    ensures { IfOk result (λ value. view value ≡ source_data path.now region) }
{
    let mut members = Object::new(alloc);
    put_str(alloc, &mut members, "file", path)?;
    put_number(alloc, &mut members, "line", Some(region.line as u64))?;
    let column = match region.columns {
        Some(columns) => Some(columns.start as u64),
        None => None,
    };
    put_number(alloc, &mut members, "column", column)?;
    Ok(Value::Object(members))
}

fn put_source(
    alloc: Global,
    members: &mut Members,
    path: &str,
    region: Region,
) -> Result<(), AllocError>
    ensures { OnOk result (members_view members.new.entries
        ≡ with_source path.now region (members_view members.old.entries)) }
{
    put(members, alloc, "source", source_value(alloc, path, region)?)
}

fn words_of(
    alloc: Global,
    map: &Map,
    entries: &[Entry],
    finding: MapFinding,
) -> Result<String, AllocError>
    ensures { IfOk result (λ text. string_bytes text ≡ map_words map.now entries.now finding) }
{
    let mut words = String::new(alloc);
    push_words(&mut words, map, entries, finding)?;
    Ok(words)
}

fn put_words(
    alloc: Global,
    members: &mut Members,
    map: &Map,
    entries: &[Entry],
    finding: MapFinding,
) -> Result<(), AllocError>
    ensures { OnOk result (members_view members.new.entries
        ≡ with_words map.now entries.now finding (members_view members.old.entries)) }
{
    put_str(alloc, members, "rule", id_of(finding))?;
    put_str(alloc, members, "name", name_of(finding))?;
    put_text(
        alloc,
        members,
        "words",
        words_of(alloc, map, entries, finding)?,
    )
}

fn name_text(alloc: Global, map: &Map) -> Result<String, AllocError>
    ensures { IfOk result (λ text. string_bytes text ≡ printed_codes map.now.name) }
{
    let mut name = String::new(alloc);
    push_codes(&mut name, map.name.as_slice())?;
    Ok(name)
}

/// What people call a field.
fn put_label(alloc: Global, members: &mut Members, field: Option<&Field>) -> Result<(), AllocError>
    ensures { OnOk result (members_view members.new.entries ≡ with_text (codes "field")
        (option_map (λ field. label_text field.now) field.entry) (members_view members.old.entries)) }
{
    let Some(field) = field else {
        return Ok(());
    };
    let mut label = String::new(alloc);
    push_label(&mut label, field)?;
    put_text(alloc, members, "field", label)
}

/// The map, the field, and where its macro stands.
fn put_macro(
    alloc: Global,
    members: &mut Members,
    path: &str,
    lines: &[&[u8]],
    map: &Map,
    field: Option<&Field>,
) -> Result<(), AllocError>
    ensures { OnOk result (members_view members.new.entries ≡ with_macro path.now
        (all_of (λ line. line.now) lines.now) map.now (option_map (λ field. field.now) field.entry)
        (members_view members.old.entries)) }
{
    put_text(alloc, members, "map", name_text(alloc, map)?)?;
    put_label(alloc, members, field)?;
    put_source(
        alloc,
        members,
        path,
        macro_region(lines, line_of(map, field)),
    )
}

/// What `check` tells of a screen besides.
fn put_screen(
    alloc: Global,
    members: &mut Members,
    layout: &Layout,
    rehearsal: &mut Option<Rehearsal<PlaneCells>>,
    finding: Finding,
) -> Result<(), AllocError>
    ensures put { OnOk result (members_view members.new.entries ≡ with_facts layout.now
        rehearsal.old (MapFinding.Found finding) (members_view members.old.entries)) }
    ensures kept { rehearsal.new ≡ rehearsal.old }
{
    let entries = layout.entries();
    let place = place_of(entries, &finding);
    put_place(alloc, members, layout.size(), place)?;
    put_entry(alloc, members, entries, &finding)?;
    put_keys(alloc, members, rehearsal, finding.demo())
}

fn put_facts(
    alloc: Global,
    members: &mut Members,
    layout: &Layout,
    rehearsal: &mut Option<Rehearsal<PlaneCells>>,
    finding: MapFinding,
) -> Result<(), AllocError>
    ensures put { OnOk result (members_view members.new.entries
        ≡ with_facts layout.now rehearsal.old finding (members_view members.old.entries)) }
    ensures kept { rehearsal.new ≡ rehearsal.old }
{
    match finding {
        MapFinding::Overlapping(_) => Ok(()),
        MapFinding::Found(found) => put_screen(alloc, members, layout, rehearsal, found),
    }
}

fn put_help(
    alloc: Global,
    members: &mut Members,
    map: &Map,
    entries: &[Entry],
    finding: MapFinding,
) -> Result<(), AllocError>
    ensures { OnOk result (members_view members.new.entries ≡ with_text (codes "help")
        (help_of map.now entries.now finding) (members_view members.old.entries)) }
{
    match help_of(alloc, map, entries, finding)? {
        Some(help) => put_text(alloc, members, "help", help),
        None => Ok(()),
    }
}

fn finding_value(
    alloc: Global,
    path: &str,
    lines: &[&[u8]],
    map: &Map,
    layout: &Layout,
    rehearsal: &mut Option<Rehearsal<PlaneCells>>,
    finding: MapFinding,
) -> Result<Value, AllocError>
    ensures value { IfOk result (λ value. view value ≡ finding_data path.now
        (all_of (λ line. line.now) lines.now) map.now layout.now rehearsal.old finding) }
    ensures kept { rehearsal.new ≡ rehearsal.old }
{
    let entries = layout.entries();
    let field = field_of(map, entries, finding);
    let mut members = Object::new(alloc);
    put_words(alloc, &mut members, map, entries, finding)?;
    put_macro(alloc, &mut members, path, lines, map, field)?;
    put_facts(alloc, &mut members, layout, rehearsal, finding)?;
    put_help(alloc, &mut members, map, entries, finding)?;
    Ok(Value::Object(members))
}

/// The line of a finding.
#[tactic(auto, using(crate::proofs::Plain::finding_plain))]
fn push_finding(
    alloc: Global,
    out: &mut String,
    path: &str,
    lines: &[&[u8]],
    map: &Map,
    layout: &Layout,
    rehearsal: &mut Option<Rehearsal<PlaneCells>>,
    finding: MapFinding,
) -> Result<(), AllocError>
    ensures pushed { OnOk result (string_bytes out.new ≡ string_bytes out.old ++ finding_line
        path.now (all_of (λ line. line.now) lines.now) map.now layout.now rehearsal.old finding) }
    ensures kept { rehearsal.new ≡ rehearsal.old }
{
    let value = finding_value(alloc, path, lines, map, layout, rehearsal, finding)?;
    push_line(alloc, out, &value)
}

fn push_findings(
    alloc: Global,
    out: &mut String,
    path: &str,
    lines: &[&[u8]],
    map: &Map,
    layout: &Layout,
    rehearsal: &mut Option<Rehearsal<PlaneCells>>,
    findings: &[MapFinding],
) -> Result<(), AllocError>
    ensures { OnOk result (string_bytes out.new ≡ string_bytes out.old
        ++ flat_map (finding_line path.now
        (all_of (λ line. line.now) lines.now) map.now layout.now rehearsal.old) findings.now) }
{
    for finding in findings {
        push_finding(alloc, out, path, lines, map, layout, rehearsal, *finding)?;
    }
    Ok(())
}

/// The lines of findings, whose keys are pressed on the picture that the record leaves; none is made where nothing is found.
fn push_pressed(
    alloc: Global,
    out: &mut String,
    path: &str,
    lines: &[&[u8]],
    map: &Map,
    judged: &Judged,
) -> Result<(), AllocError>
    ensures { OnOk result (string_bytes out.new ≡ string_bytes out.old
        ++ finding_lines path.now (all_of (λ line. line.now) lines.now) map.now judged.now) }
{
    let findings = judged.findings.as_slice();
    if findings.is_empty() {
        return Ok(());
    }
    let layout = &judged.layout;
    let mut rehearsal = rehearsal_after(alloc, layout, judged.records.as_slice())?;
    push_findings(
        alloc,
        out,
        path,
        lines,
        map,
        layout,
        &mut rehearsal,
        findings,
    )
}

fn verdict_word(findings: &[MapFinding]) -> &'static str
    ensures { result.now ≡ verdict_word findings.now }
{
    match findings {
        [] => "yes",
        [_, ..] => "no",
    }
}

/// How many findings a map has and how many fields its layout, and the verdict.
fn verdict_value(alloc: Global, map: &Map, judged: &Judged) -> Result<Value, AllocError>
    ensures { IfOk result (λ value. view value ≡ verdict_data map.now judged.now) }
{
    let findings = judged.findings.as_slice();
    let mut members = Object::new(alloc);
    put(&mut members, alloc, "findings", Value::from(findings.len()))?;
    put(
        &mut members,
        alloc,
        "fields",
        Value::from(judged.layout.entries().len()),
    )?;
    put(&mut members, alloc, "line", Value::from(map.line))?;
    put_text(alloc, &mut members, "map", name_text(alloc, map)?)?;
    put_str(alloc, &mut members, "verdict", verdict_word(findings))?;
    Ok(Value::Object(members))
}

fn push_verdict(
    alloc: Global,
    out: &mut String,
    map: &Map,
    judged: &Judged,
) -> Result<(), AllocError>
    ensures { OnOk result (string_bytes out.new ≡ string_bytes out.old
        ++ data_line (verdict_data map.now judged.now)) }
{
    let value = verdict_value(alloc, map, judged)?;
    push_line(alloc, out, &value)
}

/// The lines of a map: one for each finding, and one for the verdict.
pub(crate) fn json_lines(
    alloc: Global,
    path: &str,
    lines: &[&[u8]],
    map: &Map,
    judged: &Judged,
) -> Result<String, AllocError>
    ensures { IfOk result (λ text. string_bytes text
        ≡ json_lines path.now (all_of (λ line. line.now) lines.now) map.now judged.now) }
{
    let mut out = String::new(alloc);
    push_pressed(alloc, &mut out, path, lines, map, judged)?;
    push_verdict(alloc, &mut out, map, judged)?;
    Ok(out)
}

fn refused_value(
    alloc: Global,
    path: &str,
    region: Region,
    words: String,
) -> Result<Value, AllocError>
    ensures { IfOk result (λ value. view value
        ≡ refused_data path.now region (string_bytes words)) }
{
    let mut members = Object::new(alloc);
    put_text(alloc, &mut members, "words", words)?;
    put_str(alloc, &mut members, "verdict", "refused")?;
    put_source(alloc, &mut members, path, region)?;
    Ok(Value::Object(members))
}

/// The line of what is refused at a place of the file of a path.
#[tactic(auto, using(crate::proofs::Plain::refused_plain))]
pub(crate) fn refused_line(
    alloc: Global,
    path: &str,
    region: Region,
    words: String,
) -> Result<String, AllocError>
    ensures { IfOk result (λ text. string_bytes text
        ≡ refused_line path.now region (string_bytes words)) }
{
    let mut out = String::new(alloc);
    let value = refused_value(alloc, path, region, words)?;
    push_line(alloc, &mut out, &value)?;
    Ok(out)
}
