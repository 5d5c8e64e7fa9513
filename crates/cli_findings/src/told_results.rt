//! Findings and refusals as results of a log of SARIF 2.1.0, and the log of results from several inputs.

ghost use Rattle.std.specs.Prelude.{◌≡◌, ◌≤◌, ◌++◌, [], ◌∷◌, false, map, IfOk};
ghost use Rattle.std.specs.String.{string_bytes};
ghost use Rattle.serde_json.specs.Data.{items_depth};
ghost use Rattle.serde_json.specs.View.{view as data_of, items_of};
ghost use Rattle.serde_json.specs.Written.{items_have_float};
ghost use Rattle.cli_findings.specs.Results.{found_results, named_result, refused_result, results_line, results_seen};
ghost use Rattle.cli_findings.specs.Sarif.{finding_result};

use crate::object::{listed, put_str};
use crate::region::{Region, Standing, standing_in};
use crate::results::Results;
use crate::rule::Rule;
use crate::sarif::{finding_result, location_value, log_text, put_message};
use scr_check::Traced;
use scr_layout::Layout;
use serde_json::{Map, Value, put};
use std::alloc::{AllocError, Global};

/// A result of a rule of a name and an index, at a place, with a text.
///
/// # Errors
///
/// Where a request for memory was refused.
#[tactic(auto, unfolding(crate::specs::Results::named_result))]
pub fn named_result(
    alloc: Global,
    id: &str,
    index: usize,
    path: &str,
    region: Region,
    text: &str,
) -> Result<Value, AllocError>
    ensures { IfOk result (λ value. data_of value
        ≡ named_result id.now index path.now region text.now) }
{
    let mut members = Map::new(alloc);
    put_str(alloc, &mut members, "level", "error")?;
    let locations = listed(alloc, location_value(alloc, path, region)?)?;
    put(&mut members, alloc, "locations", locations)?;
    put_message(alloc, &mut members, "message", text)?;
    put_str(alloc, &mut members, "ruleId", id)?;
    put(&mut members, alloc, "ruleIndex", Value::from(index))?;
    Ok(Value::Object(members))
}

/// The one result of a rule of a name and an index, at a place, with a text.
///
/// # Errors
///
/// Where a request for memory was refused.
#[tactic(auto, using(crate::proofs::Logged::named_plain, crate::proofs::Logged::named_nests))]
pub fn one_result(
    alloc: Global,
    id: &str,
    index: usize,
    path: &str,
    region: Region,
    text: &str,
) -> Result<Results, AllocError>
    ensures { IfOk result (λ results. results_seen results
        ≡ named_result id.now index path.now region text.now ∷ []) }
{
    let mut results = Results::new(alloc);
    results.push(named_result(alloc, id, index, path, region, text)?)?;
    Ok(results)
}

/// The results of findings whose records stand so in their text.
#[tactic(auto, using(crate::proofs::Logged::finding_is_plain, crate::proofs::Logged::finding_is_flat))]
fn each_finding(
    alloc: Global,
    front: &str,
    path: &str,
    layout: &Layout,
    standing: &Standing,
    findings: &[Traced],
) -> Result<Results, AllocError>
    ensures { IfOk result (λ results. results_seen results
        ≡ map (finding_result front.now path.now layout.now standing.now) findings.now) }
{
    let mut results = Results::new(alloc);
    for finding in findings {
        results.push(finding_result(alloc, front, path, layout, standing, finding)?)?;
    }
    Ok(results)
}

/// Findings of records, in their text, with the orders that they come from: a result for each, at the line of its record and the
/// columns of its byte in the file of this path, its words behind others.
///
/// # Errors
///
/// Where a request for memory was refused.
pub fn found_results(
    alloc: Global,
    front: &str,
    path: &str,
    layout: &Layout,
    input: &[u8],
    findings: &[Traced],
) -> Result<Results, AllocError>
    ensures { IfOk result (λ results. results_seen results
        ≡ found_results front.now path.now layout.now input.now findings.now) }
{
    if findings.is_empty() {
        return Ok(Results::new(alloc));
    }
    let standing = standing_in(alloc, input)?;
    each_finding(alloc, front, path, layout, &standing, findings)
}

/// The one result of an input of this path that is refused at a line, with these words.
///
/// # Errors
///
/// Where a request for memory was refused.
pub fn refused_results(
    alloc: Global,
    path: &str,
    line: usize,
    words: &str,
) -> Result<Results, AllocError>
    ensures { IfOk result (λ results. results_seen results
        ≡ refused_result path.now line words.now ∷ []) }
{
    let rule = Rule::InputRefused;
    let region = Region {
        line,
        columns: None,
    };
    one_result(alloc, rule.id(), rule.index(), path, region, words)
}

/// A log of SARIF 2.1.0 of one run of the program, with these rules and these results, on a line.
///
/// # Errors
///
/// Where a request for memory was refused.
pub fn results_line(
    alloc: Global,
    rules: Vec<Value>,
    results: Results,
) -> Result<String, AllocError>
    requires plain_rules { items_have_float (items_of (map data_of rules.items)) ≡ false }
    requires flat_rules { items_depth (items_of (map data_of rules.items)) ≤ 2 }
    ensures { IfOk result (λ text. string_bytes text
        ≡ results_line (map data_of rules.items) (results_seen results)) }
{
    let mut text = log_text(alloc, rules, Value::Array(results.values()))?;
    text.push_str("\n")?;
    Ok(text)
}
