//! What is found of maps as a log of SARIF 2.1.0.

ghost use Rattle.std.specs.Prelude.{◌≡◌, ◌≤◌, ◌++◌, [], ◌∷◌, false, map as all_of, IfOk, OnOk};
ghost use Rattle.std.specs.String.{string_bytes};
ghost use Rattle.serde_json.specs.Data.{items_depth};
ghost use Rattle.serde_json.specs.View.{view, items_of};
ghost use Rattle.serde_json.specs.Written.{items_have_float};
ghost use Rattle.cli_maps.specs.Sarif.{finding_result, log_line, message_of, refused_result, results_of};

use crate::judged::{Judged, MapFinding};
use crate::lines::{field_of, line_of, push_words};
use crate::mend::help_of;
use crate::rules::{MapRule, all_values, id_of, index_of};
use crate::source::macro_region;
use bms_map::Map;
use cli_findings::{Region, log_text, named_result, push_help};
use scr_layout::Entry;
use serde_json::Value;
use std::alloc::{AllocError, Global};

/// What is found, and what to do.
fn message_of(
    alloc: Global,
    map: &Map,
    entries: &[Entry],
    finding: MapFinding,
) -> Result<String, AllocError>
    ensures { IfOk result (λ text. string_bytes text ≡ message_of map.now entries.now finding) }
{
    let mut text = String::new(alloc);
    push_words(&mut text, map, entries, finding)?;
    push_help(&mut text, help_of(alloc, map, entries, finding)?)?;
    Ok(text)
}

fn finding_result(
    alloc: Global,
    path: &str,
    lines: &[&[u8]],
    map: &Map,
    entries: &[Entry],
    finding: MapFinding,
) -> Result<Value, AllocError>
    ensures { IfOk result (λ value. view value ≡ finding_result path.now
        (all_of (λ line. line.now) lines.now) map.now entries.now finding) }
{
    let text = message_of(alloc, map, entries, finding)?;
    let region = macro_region(lines, line_of(map, field_of(map, entries, finding)));
    let index = index_of(finding);
    named_result(alloc, id_of(finding), index, path, region, text.as_str())
}

/// Adds the results of a map.
pub(crate) fn push_results(
    alloc: Global,
    results: &mut Vec<Value>,
    path: &str,
    lines: &[&[u8]],
    map: &Map,
    judged: &Judged,
) -> Result<(), AllocError>
    ensures { OnOk result (all_of view results.new.items ≡ all_of view results.old.items
        ++ results_of path.now (all_of (λ line. line.now) lines.now) map.now judged.now) }
{
    let entries = judged.layout.entries();
    for finding in judged.findings.as_slice() {
        results.push(finding_result(alloc, path, lines, map, entries, *finding)?)?;
    }
    Ok(())
}

/// The one result of a source that is refused.
pub(crate) fn refused_results(
    alloc: Global,
    path: &str,
    region: Region,
    words: &str,
) -> Result<Vec<Value>, AllocError>
    ensures { IfOk result (λ values. all_of view values.items
        ≡ refused_result path.now region words.now ∷ []) }
{
    let rule = MapRule::Refused;
    let index = rule.index_among();
    let mut results = Vec::new(alloc);
    results.push(named_result(alloc, rule.id(), index, path, region, words)?)?;
    Ok(results)
}

/// A log of these results, on a line.
#[tactic(auto, using(crate::proofs::Logged::rules_plain, crate::proofs::Logged::rules_nest))]
pub(crate) fn log_line(alloc: Global, results: Vec<Value>) -> Result<String, AllocError>
    requires plain { items_have_float (items_of (all_of view results.items)) ≡ false }
    requires flat { items_depth (items_of (all_of view results.items)) ≤ 6 }
    ensures { IfOk result (λ text. string_bytes text ≡ log_line (all_of view results.items)) }
{
    let mut text = log_text(alloc, all_values(alloc)?, Value::Array(results))?;
    text.push_str("\n")?;
    Ok(text)
}
