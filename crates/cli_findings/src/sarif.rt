//! The report as a log of SARIF 2.1.0.

ghost use Rattle.std.specs.Prelude.{◌≡◌, ◌≤◌, ◌++◌, codes, false, map, option_map, IfOk, OnOk, Some};
ghost use Rattle.std.specs.String.{string_bytes};
ghost use Rattle.serde_json.specs.Data.{array, object, item, no_items, depth, items_depth, put as with_member};
ghost use Rattle.serde_json.specs.Read.{read};
ghost use Rattle.serde_json.specs.View.{view, items_of, members_view};
ghost use Rattle.serde_json.specs.Written.{compact_text, has_float, items_have_float};
ghost use Rattle.cli_commands.specs.Fault.{fault_text};
ghost use Rattle.cli_findings.specs.Region.{standing_in};
ghost use Rattle.cli_findings.specs.Rule.{rule_help};
ghost use Rattle.cli_findings.specs.Sarif.{message_data, level_data, named_rule, rule_data, rules_data, rules_data_for, driver_data, tool_data, columns_region, region_data, artifact_data, physical_data, location_data, end_data, result_members, result_data, help_end, message_of, end_of, finding_result, findings_data, refusal_results, refusal_log_data, run_data, log_data, fronted_log_data, findings_log_data};

use crate::found::Pen;
use crate::help::help_text;
use crate::object::{Members, listed, put_str, single};
use crate::region::{Columns, Region, Standing, finding_region, order_region, standing_in};
use crate::rule::{Rule, all_rules, rule_of};
use crate::uri::uri_of;
use cli_commands::Fault;
use scr_check::{Finding, Origin, Traced};
use scr_layout::Layout;
use serde_json::{Map, Value, put};
use std::alloc::{AllocError, Global};

/// The version that the program prints too.
const VERSION: &str = "1.0.0";

const SCHEMA: &str = "https://json.schemastore.org/sarif-2.1.0.json";

fn message_value(alloc: Global, text: &str) -> Result<Value, AllocError>
    ensures { IfOk result (λ value. view value ≡ message_data text.now) }
{
    let text = String::from_str(alloc, text)?;
    single(alloc, "text", Value::String(text))
}

/// A message at a key.
pub(crate) fn put_message(
    alloc: Global,
    members: &mut Members,
    key: &str,
    text: &str,
) -> Result<(), AllocError>
    ensures { OnOk result (members_view members.new.entries
        ≡ with_member key.now (message_data text.now) (members_view members.old.entries)) }
{
    put(members, alloc, key, message_value(alloc, text)?)
}

/// What a rule means, and how it is mended.
fn rule_help(alloc: Global, rule: Rule) -> Result<String, AllocError>
    ensures { IfOk result (λ text. string_bytes text ≡ rule_help rule) }
{
    let meaning = rule.meaning();
    let mend = rule.mend();
    format!(in alloc; "{meaning} {mend}")
}

/// The level of all results.
fn level_value(alloc: Global) -> Result<Value, AllocError>
    ensures { IfOk result (λ value. view value ≡ level_data) }
{
    let error = String::from_str(alloc, "error")?;
    single(alloc, "level", Value::String(error))
}

/// A rule by its name and its words: what it is about, what it means, and how it is mended.
///
/// # Errors
///
/// Where a request for memory was refused.
#[tactic(auto, unfolding(crate::specs::Sarif::named_rule))]
pub fn named_rule(
    alloc: Global,
    id: &str,
    name: &str,
    brief: &str,
    meaning: &str,
    help: &str,
) -> Result<Value, AllocError>
    ensures { IfOk result (λ value. view value
        ≡ named_rule id.now name.now brief.now meaning.now help.now) }
{
    let mut members = Map::new(alloc);
    put(
        &mut members,
        alloc,
        "defaultConfiguration",
        level_value(alloc)?,
    )?;
    put_message(alloc, &mut members, "fullDescription", meaning)?;
    put_message(alloc, &mut members, "help", help)?;
    put_str(alloc, &mut members, "id", id)?;
    put_str(alloc, &mut members, "name", name)?;
    put_message(alloc, &mut members, "shortDescription", brief)?;
    Ok(Value::Object(members))
}

fn rule_value(alloc: Global, rule: Rule) -> Result<Value, AllocError>
    ensures { IfOk result (λ value. view value ≡ rule_data rule) }
{
    let help = rule_help(alloc, rule)?;
    named_rule(
        alloc,
        rule.id(),
        rule.name(),
        rule.brief(),
        rule.meaning(),
        help.as_str(),
    )
}

fn rules_of(alloc: Global, rules: &[Rule]) -> Result<Vec<Value>, AllocError>
    ensures { IfOk result (λ values. map view values.items ≡ map rule_data rules.now) }
{
    let mut values = Vec::new(alloc);
    for rule in rules {
        values.push(rule_value(alloc, *rule)?)?;
    }
    Ok(values)
}

/// The rules of the findings of records, and the one of inputs that are refused, in the order of `ruleIndex`.
///
/// # Errors
///
/// Where a request for memory was refused.
pub fn rules_value(alloc: Global) -> Result<Vec<Value>, AllocError>
    ensures { IfOk result (λ values. map view values.items ≡ rules_data) }
{
    rules_of(alloc, &all_rules())
}

/// The same, that of the pen last where it was asked for.
pub(crate) fn rules_value_for(alloc: Global, pen: Pen) -> Result<Vec<Value>, AllocError>
    ensures { IfOk result (λ values. map view values.items ≡ rules_data_for pen) }
{
    let mut values = rules_value(alloc)?;
    match pen {
        Pen::Ignored => {}
        Pen::Asked => values.push(rule_value(alloc, Rule::Selectable)?)?,
    }
    Ok(values)
}

/// The program's name and version, with these rules.
fn driver_value(alloc: Global, rules: Vec<Value>) -> Result<Value, AllocError>
    ensures { IfOk result (λ value. view value ≡ driver_data (map view rules.items)) }
{
    let mut members = Map::new(alloc);
    put_str(alloc, &mut members, "name", "term3270")?;
    put(&mut members, alloc, "rules", Value::Array(rules))?;
    put_str(alloc, &mut members, "version", VERSION)?;
    Ok(Value::Object(members))
}

#[tactic(auto, unfolding(crate::specs::Sarif::tool_data))]
pub(crate) fn tool_value(alloc: Global, rules: Vec<Value>) -> Result<Value, AllocError>
    ensures { IfOk result (λ value. view value ≡ tool_data (map view rules.items)) }
{
    single(alloc, "driver", driver_value(alloc, rules)?)
}

/// The columns of a line.
fn columns_value(alloc: Global, line: usize, columns: Columns) -> Result<Value, AllocError>
    ensures { IfOk result (λ value. view value ≡ columns_region line (Some columns)) }
{
    let mut members = Map::new(alloc);
    put(&mut members, alloc, "endColumn", Value::from(columns.after))?;
    put(
        &mut members,
        alloc,
        "startColumn",
        Value::from(columns.start),
    )?;
    put(&mut members, alloc, "startLine", Value::from(line))?;
    Ok(Value::Object(members))
}

fn region_value(alloc: Global, region: Region) -> Result<Value, AllocError>
    ensures { IfOk result (λ value. view value ≡ region_data region) }
{
    match region.columns {
        Some(columns) => columns_value(alloc, region.line, columns),
        None => single(alloc, "startLine", Value::from(region.line)),
    }
}

/// The file of a path.
fn artifact_value(alloc: Global, path: &str) -> Result<Value, AllocError>
    ensures { IfOk result (λ value. view value ≡ artifact_data path.now) }
{
    let uri = uri_of(alloc, path)?;
    single(alloc, "uri", Value::String(uri))
}

fn physical_value(alloc: Global, path: &str, region: Region) -> Result<Value, AllocError>
    ensures { IfOk result (λ value. view value ≡ physical_data path.now region) }
{
    let mut members = Map::new(alloc);
    put(
        &mut members,
        alloc,
        "artifactLocation",
        artifact_value(alloc, path)?,
    )?;
    put(&mut members, alloc, "region", region_value(alloc, region)?)?;
    Ok(Value::Object(members))
}

/// A file and a place in it, as a location.
pub(crate) fn location_value(alloc: Global, path: &str, region: Region) -> Result<Value, AllocError>
    ensures { IfOk result (λ value. view value ≡ location_data path.now region) }
{
    let physical = physical_value(alloc, path, region)?;
    single(alloc, "physicalLocation", physical)
}

/// Where the field of a finding ends.
fn end_value(alloc: Global, path: &str, region: Region) -> Result<Value, AllocError>
    ensures { IfOk result (λ value. view value ≡ end_data path.now region) }
{
    let mut members = Map::new(alloc);
    put_message(
        alloc,
        &mut members,
        "message",
        "the order that ends the field",
    )?;
    let physical = physical_value(alloc, path, region)?;
    put(&mut members, alloc, "physicalLocation", physical)?;
    Ok(Value::Object(members))
}

/// The one location of a result.
fn locations_value(alloc: Global, path: &str, region: Region) -> Result<Value, AllocError>
    ensures { IfOk result (λ value. view value
        ≡ array (item (location_data path.now region) no_items)) }
{
    listed(alloc, location_value(alloc, path, region)?)
}

/// The members of a result of a rule at a place, with a text.
fn result_members(
    alloc: Global,
    rule: Rule,
    path: &str,
    region: Region,
    text: &str,
) -> Result<Members, AllocError>
    ensures { IfOk result (λ members. members_view members.entries
        ≡ result_members rule path.now region text.now) }
{
    let mut members = Map::new(alloc);
    put_str(alloc, &mut members, "level", "error")?;
    let locations = locations_value(alloc, path, region)?;
    put(&mut members, alloc, "locations", locations)?;
    put_message(alloc, &mut members, "message", text)?;
    put_str(alloc, &mut members, "ruleId", rule.id())?;
    put(&mut members, alloc, "ruleIndex", Value::from(rule.index()))?;
    Ok(members)
}

/// An object with another place.
fn related_value(alloc: Global, mut members: Members, related: Value) -> Result<Value, AllocError>
    ensures { IfOk result (λ value. view value ≡ object (with_member (codes "relatedLocations")
        (array (item (view related) no_items)) (members_view members.entries))) }
{
    let places = listed(alloc, related)?;
    put(&mut members, alloc, "relatedLocations", places)?;
    Ok(Value::Object(members))
}

/// A result of a rule at a place, with a text, and with another place if there is one.
#[tactic(auto, unfolding(crate::specs::Sarif::result_data))]
fn result_value(
    alloc: Global,
    rule: Rule,
    path: &str,
    region: Region,
    text: &str,
    related: Option<Value>,
) -> Result<Value, AllocError>
    ensures { IfOk result (λ value. view value
        ≡ result_data rule path.now region text.now (option_map view related)) }
{
    let members = result_members(alloc, rule, path, region, text)?;
    match related {
        Some(related) => related_value(alloc, members, related),
        None => Ok(Value::Object(members)),
    }
}

/// What to do, after a colon, where it is known.
///
/// # Errors
///
/// Where a request for memory was refused.
pub fn push_help(out: &mut String, help: Option<String>) -> Result<(), AllocError>
    ensures { OnOk result (string_bytes out.new
        ≡ string_bytes out.old ++ help_end (option_map string_bytes help)) }
{
    match help {
        Some(help) => {
            out.push_str(": ")?;
            out.push_str(help.as_str())
        }
        None => Ok(()),
    }
}

/// The words of a finding behind others, and what to do.
fn message_of(
    alloc: Global,
    front: &str,
    layout: &Layout,
    traced: &Traced,
) -> Result<String, AllocError>
    ensures { IfOk result (λ text. string_bytes text
        ≡ message_of front.now layout.now traced.now) }
{
    let mut text = String::from_str(alloc, front)?;
    traced.finding.push_text(&mut text, layout.entries())?;
    push_help(&mut text, help_text(alloc, layout, traced)?)?;
    Ok(text)
}

/// Where the field of a finding ends, if that is known.
fn end_of(
    alloc: Global,
    path: &str,
    standing: &Standing,
    end: Option<Origin>,
) -> Result<Option<Value>, AllocError>
    ensures { IfOk result (λ value. option_map view value ≡ end_of path.now standing.now end) }
{
    match end {
        Some(origin) => Ok(Some(end_value(alloc, path, order_region(standing, origin))?)),
        None => Ok(None),
    }
}

pub(crate) fn finding_result(
    alloc: Global,
    front: &str,
    path: &str,
    layout: &Layout,
    standing: &Standing,
    traced: &Traced,
) -> Result<Value, AllocError>
    ensures { IfOk result (λ value. view value
        ≡ finding_result front.now path.now layout.now standing.now traced.now) }
{
    let finding = &traced.finding;
    let text = message_of(alloc, front, layout, traced)?;
    let end = end_of(alloc, path, standing, traced.end)?;
    let region = finding_region(standing, traced);
    result_value(alloc, rule_of(finding), path, region, text.as_str(), end)
}

fn findings_value(
    alloc: Global,
    front: &str,
    path: &str,
    layout: &Layout,
    standing: &Standing,
    findings: &[Traced],
) -> Result<Value, AllocError>
    ensures { IfOk result (λ value. view value
        ≡ findings_data front.now path.now layout.now standing.now findings.now) }
{
    let mut values = Vec::new(alloc);
    for finding in findings {
        values.push(finding_result(alloc, front, path, layout, standing, finding)?)?;
    }
    Ok(Value::Array(values))
}

/// The results of findings of records in their text, which isn't looked at where there is none.
fn results_value(
    alloc: Global,
    front: &str,
    path: &str,
    layout: &Layout,
    input: &[u8],
    findings: &[Traced],
) -> Result<Value, AllocError>
    ensures { IfOk result (λ value. view value
        ≡ findings_data front.now path.now layout.now (standing_in input.now) findings.now) }
{
    if findings.is_empty() {
        return Ok(Value::Array(Vec::new(alloc)));
    }
    let standing = standing_in(alloc, input)?;
    findings_value(alloc, front, path, layout, &standing, findings)
}

/// A run with these rules and results.
fn run_value(alloc: Global, rules: Vec<Value>, results: Value) -> Result<Value, AllocError>
    ensures { IfOk result
        (λ value. view value ≡ run_data (map view rules.items) (view results)) }
{
    let mut members = Map::new(alloc);
    put(&mut members, alloc, "results", results)?;
    put(&mut members, alloc, "tool", tool_value(alloc, rules)?)?;
    Ok(Value::Object(members))
}

/// The one run of a log.
fn runs_value(alloc: Global, rules: Vec<Value>, results: Value) -> Result<Value, AllocError>
    ensures { IfOk result (λ value. view value
        ≡ array (item (run_data (map view rules.items) (view results)) no_items)) }
{
    listed(alloc, run_value(alloc, rules, results)?)
}

/// A log of one run, with these rules and results.
#[tactic(auto, unfolding(crate::specs::Sarif::log_data))]
fn log_value(alloc: Global, rules: Vec<Value>, results: Value) -> Result<Value, AllocError>
    ensures { IfOk result
        (λ value. view value ≡ log_data (map view rules.items) (view results)) }
{
    let runs = runs_value(alloc, rules, results)?;
    let mut members = Map::new(alloc);
    put(&mut members, alloc, "runs", runs)?;
    put_str(alloc, &mut members, "$schema", SCHEMA)?;
    put_str(alloc, &mut members, "version", "2.1.0")?;
    Ok(Value::Object(members))
}

/// A log of SARIF 2.1.0 of one run of the program, with these rules and these results. A parser reads the same value again.
///
/// # Errors
///
/// Where a request for memory was refused.
#[tactic(auto, using(crate::proofs::Logged::log_plain, crate::proofs::Logged::log_nests))]
pub fn log_text(alloc: Global, rules: Vec<Value>, results: Value) -> Result<String, AllocError>
    requires plain_rules { items_have_float (items_of (map view rules.items)) ≡ false }
    requires flat_rules { items_depth (items_of (map view rules.items)) ≤ 2 }
    requires plain { has_float (view results) ≡ false }
    requires flat { depth (view results) ≤ 8 }
    ensures text { IfOk result (λ text. string_bytes text
        ≡ compact_text (log_data (map view rules.items) (view results))) }
    ensures again { IfOk result (λ text. read (string_bytes text)
        ≡ Some (log_data (map view rules.items) (view results))) }
{
    let value = log_value(alloc, rules, results)?;
    value.to_string(alloc)
}

/// Findings of records, in their text, with the orders that they come from, as a log of SARIF 2.1.0: a result for each, at
/// the line of its record and the columns of its byte in the file of this path. A parser reads the same value again.
///
/// # Errors
///
/// Where a request for memory was refused.
pub fn findings_log(
    alloc: Global,
    pen: Pen,
    path: &str,
    layout: &Layout,
    input: &[u8],
    findings: &[Traced],
) -> Result<String, AllocError>
    ensures text { IfOk result (λ text. string_bytes text
        ≡ compact_text (findings_log_data pen path.now layout.now input.now findings.now)) }
    ensures again { IfOk result (λ text. read (string_bytes text)
        ≡ Some (findings_log_data pen path.now layout.now input.now findings.now)) }
{
    fronted_log(alloc, pen, "", path, layout, input, findings)
}

/// The same, where the words of each finding stand behind others.
///
/// # Errors
///
/// Where a request for memory was refused.
#[tactic(auto, using(crate::proofs::Logged::rules_plain, crate::proofs::Logged::rules_nest, crate::proofs::Logged::findings_plain, crate::proofs::Logged::findings_nest))]
pub fn fronted_log(
    alloc: Global,
    pen: Pen,
    front: &str,
    path: &str,
    layout: &Layout,
    input: &[u8],
    findings: &[Traced],
) -> Result<String, AllocError>
    ensures text { IfOk result (λ text. string_bytes text
        ≡ compact_text (fronted_log_data pen front.now path.now layout.now input.now findings.now)) }
    ensures again { IfOk result (λ text. read (string_bytes text)
        ≡ Some (fronted_log_data pen front.now path.now layout.now input.now findings.now)) }
{
    let results = results_value(alloc, front, path, layout, input, findings)?;
    log_text(alloc, rules_value_for(alloc, pen)?, results)
}

fn refusal_results(
    alloc: Global,
    path: &str,
    line: usize,
    fault: Fault,
) -> Result<Value, AllocError>
    ensures { IfOk result (λ value. view value ≡ refusal_results path.now line fault) }
{
    let words = format!(in alloc; "{fault}")?;
    let region = Region {
        line,
        columns: None,
    };
    let rule = Rule::InputRefused;
    let told = result_value(alloc, rule, path, region, words.as_str(), None)?;
    listed(alloc, told)
}

/// What is wrong with the input of this path, at a line, as a log of SARIF 2.1.0.
///
/// # Errors
///
/// Where a request for memory was refused.
#[tactic(auto, using(crate::proofs::Logged::rules_plain, crate::proofs::Logged::rules_nest, crate::proofs::Logged::refusal_plain, crate::proofs::Logged::refusal_nests))]
pub fn refusal_log(
    alloc: Global,
    pen: Pen,
    path: &str,
    line: usize,
    fault: Fault,
) -> Result<String, AllocError>
    ensures { IfOk result (λ text. string_bytes text
        ≡ compact_text (refusal_log_data pen path.now line fault)) }
{
    let results = refusal_results(alloc, path, line, fault)?;
    log_text(alloc, rules_value_for(alloc, pen)?, results)
}
