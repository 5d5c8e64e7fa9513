//! A log of findings, written as its results are made.

ghost use Rattle.std.specs.Prelude.{◌≡◌, ◌++◌, false, map, IfOk, OnOk};
ghost use Rattle.std.specs.String.{string_bytes};
ghost use Rattle.serde_json.specs.View.{view, items_of};
ghost use Rattle.serde_json.specs.Written.{comma_if, compact_text, has_float, items_have_float, items_text};
ghost use Rattle.cli_findings.specs.WrittenLog.{log_rest, tool_text};
ghost use Rattle.cli_findings.specs.Region.{standing_in};
ghost use Rattle.cli_findings.specs.Sarif.{finding_result, fronted_log_data};

use crate::found::Pen;
use crate::region::{Standing, standing_in};
use crate::sarif::{finding_result, rules_value_for, tool_value};
use scr_check::Traced;
use scr_layout::Layout;
use serde_json::Value;
use std::alloc::{AllocError, Global};

/// A comma, where something stands before.
fn comma_if(later: bool) -> &'static str
    ensures { result.now ≡ comma_if later }
{
    if later { "," } else { "" }
}

/// A value behind other words.
fn push_value(
    alloc: Global,
    out: &mut String,
    before: &str,
    value: &Value,
) -> Result<(), AllocError>
    requires { has_float (view value.now) ≡ false }
    ensures { OnOk result (string_bytes out.new
        ≡ string_bytes out.old ++ (before.now ++ compact_text (view value.now))) }
{
    let text = value.to_string(alloc)?;
    out.push_str(before)?;
    out.push_str(text.as_str())
}

/// The result of a finding, behind other words.
#[tactic(auto, using(crate::proofs::Logged::finding_is_plain))]
fn push_result(
    alloc: Global,
    out: &mut String,
    before: &str,
    front: &str,
    path: &str,
    layout: &Layout,
    standing: &Standing,
    finding: &Traced,
) -> Result<(), AllocError>
    ensures { OnOk result (string_bytes out.new ≡ string_bytes out.old
        ++ (before.now ++ compact_text (finding_result front.now path.now layout.now standing.now finding.now))) }
{
    let value = finding_result(alloc, front, path, layout, standing, finding)?;
    push_value(alloc, out, before, &value)
}

/// The results of findings, with the bracket that closes them.
fn push_results(
    alloc: Global,
    out: &mut String,
    front: &str,
    path: &str,
    layout: &Layout,
    standing: &Standing,
    findings: &[Traced],
) -> Result<(), AllocError>
    ensures { OnOk result (string_bytes out.new ≡ string_bytes out.old
        ++ items_text false (items_of (map (finding_result front.now path.now layout.now standing.now) findings.now))) }
{
    let mut later = false;
    for finding in findings {
        let before = comma_if(later);
        push_result(alloc, out, before, front, path, layout, standing, finding)?;
        later = true;
    }
    out.push_str("]")
}

/// The same of findings of records in their text, which isn't looked at where there is none.
fn push_found(
    alloc: Global,
    out: &mut String,
    front: &str,
    path: &str,
    layout: &Layout,
    input: &[u8],
    findings: &[Traced],
) -> Result<(), AllocError>
    ensures { OnOk result (string_bytes out.new ≡ string_bytes out.old
        ++ items_text false (items_of (map (finding_result front.now path.now layout.now (standing_in input.now)) findings.now))) }
{
    if findings.is_empty() {
        return out.push_str("]");
    }
    let standing = standing_in(alloc, input)?;
    push_results(alloc, out, front, path, layout, &standing, findings)
}

/// The program with these rules, as the run's next member.
#[tactic(auto, using(crate::proofs::Logged::tool_plain), unfolding(crate::specs::WrittenLog::tool_text))]
fn push_tool(alloc: Global, out: &mut String, rules: Vec<Value>) -> Result<(), AllocError>
    requires { items_have_float (items_of (map view rules.items)) ≡ false }
    ensures { OnOk result (string_bytes out.new
        ≡ string_bytes out.old ++ tool_text (map view rules.items)) }
{
    let tool = tool_value(alloc, rules)?;
    push_value(alloc, out, ",\"tool\":", &tool)
}

/// What follows the results: the program with these rules, and the log's version.
fn push_rest(alloc: Global, out: &mut String, rules: Vec<Value>) -> Result<(), AllocError>
    requires { items_have_float (items_of (map view rules.items)) ≡ false }
    ensures { OnOk result (string_bytes out.new
        ≡ string_bytes out.old ++ log_rest (map view rules.items)) }
{
    push_tool(alloc, out, rules)?;
    out.push_str("}],\"version\":\"2.1.0\"}")
}

/// The log of [`crate::fronted_log`], of which no more than one result is held beside the text.
///
/// # Errors
///
/// Where a request for memory was refused.
#[tactic(auto, using(crate::proofs::Logged::rules_plain, crate::proofs::WrittenLogs::in_parts))]
pub fn found_log(
    alloc: Global,
    pen: Pen,
    front: &str,
    path: &str,
    layout: &Layout,
    input: &[u8],
    findings: &[Traced],
) -> Result<String, AllocError>
    ensures { IfOk result (λ text. string_bytes text
        ≡ compact_text (fronted_log_data pen front.now path.now layout.now input.now findings.now)) }
{
    let mut out = String::from_str(
        alloc,
        "{\"$schema\":\"https://json.schemastore.org/sarif-2.1.0.json\",\"runs\":[{\"results\":[",
    )?;
    push_found(alloc, &mut out, front, path, layout, input, findings)?;
    push_rest(alloc, &mut out, rules_value_for(alloc, pen)?)?;
    Ok(out)
}
