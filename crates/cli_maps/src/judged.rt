//! What is found of a map.

ghost use Rattle.std.specs.Prelude.{◌≡◌, ◌++◌, map as all_of, IfOk, OnOk, [], ◌∷◌};
ghost use Rattle.bms_map.specs.Overlaps.{overlaps_of};
ghost use Rattle.cli_commands.specs.Fault.{Gives};
ghost use Rattle.cli_commands.specs.Held.{records_held};
ghost use Rattle.cli_maps.specs.Judged.{all_found, judge, judge_with, judged, record_due, status_of};
ghost use Rattle.bms_map.specs.LayoutText.{layout_text};
ghost use Rattle.cli_commands.specs.LayoutText.{layout_in};

use bms_map::{Control, Map, Overlap, layout_text, overlaps_of, record_of};
use cli_commands::{CommandError, Fault, Status, findings_of, layout_in};
use ds_codec::Unwritable;
use scr_check::Finding;
use scr_layout::Layout;
use std::alloc::{AllocError, Global};
use std::marker::Model;

/// What stands against a map.
#[derive(Clone, Copy, Debug, PartialEq, Eq)]
pub(crate) enum MapFinding {
    /// What no record shows.
    Overlapping(Overlap),
    /// What `check` finds of its record and its layout.
    Found(Finding),
}

/// A map's layout and its record, with what is found.
#[derive(Drop)]
pub(crate) struct Judged {
    pub layout: Layout,
    /// One.
    pub records: Vec<Vec<u8>>,
    pub findings: Vec<MapFinding>,
}

impl Model for Judged {
    ghost use Rattle.std.specs.Prelude.{map};
    ghost use Rattle.cli_maps.specs.Judged.{Judged as AJudged};

    ghost Value = { AJudged };

    ghost view = { λ j. record {
      layout = j.layout;
      records = map (λ bytes. bytes.items) j.records.items;
      findings = j.findings.items;
    } };
}

/// The record of a map.
pub(crate) fn record_due(
    alloc: Global,
    map: &Map,
    control: Control,
) -> Result<Vec<u8>, CommandError>
    ensures { Gives (λ bytes. bytes.items) result (record_due control map.now) }
{
    match record_of(alloc, map, control) {
        Ok(bytes) => Ok(bytes),
        Err(Unwritable::OutOfMemory) => Err(CommandError::OutOfMemory),
        Err(flaw) => Err(CommandError::Fault(Fault::Unwritable(0, flaw))),
    }
}

fn push_each(found: &mut Vec<MapFinding>, overlaps: &[Overlap]) -> Result<(), AllocError>
    ensures { OnOk result (found.new.items ≡ found.old.items
        ++ all_of (λ overlap. MapFinding.Overlapping overlap) overlaps.now) }
{
    for overlap in overlaps {
        found.push(MapFinding::Overlapping(*overlap))?;
    }
    Ok(())
}

/// Adds what no record shows.
fn push_overlaps(alloc: Global, found: &mut Vec<MapFinding>, map: &Map) -> Result<(), AllocError>
    ensures { OnOk result (found.new.items ≡ found.old.items
        ++ all_of (λ overlap. MapFinding.Overlapping overlap) (overlaps_of map.now)) }
{
    let overlaps = overlaps_of(alloc, map)?;
    push_each(found, overlaps.as_slice())
}

fn push_all(found: &mut Vec<MapFinding>, findings: &[Finding]) -> Result<(), AllocError>
    ensures { OnOk result (found.new.items ≡ found.old.items
        ++ all_of (λ finding. MapFinding.Found finding) findings.now) }
{
    for finding in findings {
        found.push(MapFinding::Found(*finding))?;
    }
    Ok(())
}

fn all_found(
    alloc: Global,
    map: &Map,
    layout: &Layout,
    records: &[Vec<u8>],
) -> Result<Vec<MapFinding>, AllocError>
    ensures { IfOk result (λ found. found.items
        ≡ all_found map.now layout.now (records_held records.now)) }
{
    let mut found = Vec::new(alloc);
    push_overlaps(alloc, &mut found, map)?;
    let findings = findings_of(alloc, layout, records)?;
    push_all(&mut found, findings.as_slice())?;
    Ok(found)
}

/// The list of one record.
fn alone(alloc: Global, bytes: Vec<u8>) -> Result<Vec<Vec<u8>>, AllocError>
    ensures { IfOk result (λ records. all_of (λ each. each.items) records.items
        ≡ bytes.items ∷ []) }
{
    let mut records = Vec::new(alloc);
    records.push(bytes)?;
    Ok(records)
}

/// The layout of a map.
fn layout_due(alloc: Global, map: &Map) -> Result<Layout, CommandError>
    ensures { Gives (λ l. l) result (layout_in (layout_text map.now)) }
{
    let text = layout_text(alloc, map)?;
    layout_in(alloc, text.as_bytes())
}

/// A map's layout and records, judged.
fn found_in(
    alloc: Global,
    map: &Map,
    layout: Layout,
    records: Vec<Vec<u8>>,
) -> Result<Judged, AllocError>
    ensures { IfOk result (λ j. j ≡ judged map.now layout (records_held records.items)) }
{
    let findings = all_found(alloc, map, &layout, records.as_slice())?;
    Ok(Judged {
        layout,
        records,
        findings,
    })
}

/// A map's layout and its record, judged.
fn judge_with(
    alloc: Global,
    map: &Map,
    layout: Layout,
    control: Control,
) -> Result<Judged, CommandError>
    ensures { Gives (λ j. j) result (judge_with control map.now layout) }
{
    let bytes = record_due(alloc, map, control)?;
    let records = alone(alloc, bytes)?;
    Ok(found_in(alloc, map, layout, records)?)
}

/// A map, judged.
pub(crate) fn judge(alloc: Global, map: &Map, control: Control) -> Result<Judged, CommandError>
    ensures { Gives (λ j. j) result (judge control map.now) }
{
    let layout = layout_due(alloc, map)?;
    judge_with(alloc, map, layout, control)
}

/// Whether something is found, as a status.
pub(crate) fn status_of(findings: &[MapFinding]) -> Status
    ensures { result ≡ status_of findings.now }
{
    match findings {
        [] => Status::Done,
        [_, ..] => Status::Findings,
    }
}
