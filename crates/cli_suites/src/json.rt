//! The report of a suite as lines of JSON.

ghost use Rattle.std.specs.Prelude.{◌≡◌, ◌++◌, IfOk, OnOk, map, string_bytes};
ghost use Rattle.serde_json.specs.Data.{string};
ghost use Rattle.serde_json.specs.View.{view};
ghost use Rattle.cli_findings.specs.Lines.{data_line};
ghost use Rattle.cli_suites.specs.Settled.{settled_seen};
ghost use Rattle.cli_suites.specs.Json.{case_data, json_case, json_end, refusal_line, refusal_data, texts_data, totals_data, verdict_word};

use crate::count::Totals;
use crate::settled::{Settled, Verdict};
use cli_findings::{push_line, put_str};
use serde_json::{Map, Value, put};
use std::alloc::{AllocError, Global};

fn text_value(alloc: Global, text: &str) -> Result<Value, AllocError>
    ensures { IfOk result (λ value. view value ≡ string text.now) }
{
    Ok(Value::String(String::from_str(alloc, text)?))
}

/// Texts as an array.
fn texts_value(alloc: Global, texts: &[String]) -> Result<Value, AllocError>
    ensures { IfOk result (λ value. view value ≡ texts_data (map string_bytes texts.now)) }
{
    let mut values = Vec::new(alloc);
    for text in texts {
        values.push(text_value(alloc, text.as_str())?)?;
    }
    Ok(Value::Array(values))
}

fn verdict_word(verdict: Verdict) -> &'static str
    ensures { result.now ≡ verdict_word verdict }
{
    match verdict {
        Verdict::Yes => "yes",
        Verdict::No => "no",
        Verdict::Refused => "refused",
    }
}

/// The object of a screen.
#[tactic(auto, unfolding(crate::specs::Json::case_data))]
fn case_value(alloc: Global, name: &str, settled: &Settled) -> Result<Value, AllocError>
    ensures { IfOk result (λ value. view value
        ≡ case_data name.now (settled_seen settled.now)) }
{
    let mut members = Map::new(alloc);
    put(
        &mut members,
        alloc,
        "accepted",
        texts_value(alloc, settled.came.as_slice())?,
    )?;
    put(
        &mut members,
        alloc,
        "findings",
        Value::from(settled.findings),
    )?;
    put(
        &mut members,
        alloc,
        "lines",
        texts_value(alloc, settled.lines.as_slice())?,
    )?;
    put_str(alloc, &mut members, "screen", name)?;
    put_str(
        alloc,
        &mut members,
        "verdict",
        verdict_word(settled.verdict),
    )?;
    Ok(Value::Object(members))
}

/// The line of a screen.
#[tactic(auto, using(crate::proofs::FloatLaws::case_plain))]
pub(crate) fn push_json_case(
    alloc: Global,
    out: &mut String,
    name: &str,
    settled: &Settled,
) -> Result<(), AllocError>
    ensures { OnOk result (string_bytes out.new
        ≡ string_bytes out.old ++ json_case name.now (settled_seen settled.now)) }
{
    let value = case_value(alloc, name, settled)?;
    push_line(alloc, out, &value)
}

/// The object of the totals.
fn totals_value(alloc: Global, totals: Totals) -> Result<Value, AllocError>
    ensures { IfOk result (λ value. view value ≡ totals_data totals) }
{
    let mut members = Map::new(alloc);
    put(
        &mut members,
        alloc,
        "accepted",
        Value::from(totals.accepted),
    )?;
    put(
        &mut members,
        alloc,
        "findings",
        Value::from(totals.findings),
    )?;
    put(&mut members, alloc, "no", Value::from(totals.no))?;
    put(&mut members, alloc, "refused", Value::from(totals.refused))?;
    put(&mut members, alloc, "screens", Value::from(totals.screens))?;
    put(&mut members, alloc, "yes", Value::from(totals.yes))?;
    Ok(Value::Object(members))
}

/// The line of the totals.
pub(crate) fn push_json_end(
    alloc: Global,
    out: &mut String,
    totals: Totals,
) -> Result<(), AllocError>
    ensures { OnOk result (string_bytes out.new ≡ string_bytes out.old ++ json_end totals) }
{
    let value = totals_value(alloc, totals)?;
    push_line(alloc, out, &value)
}

/// The object of a suite that is refused.
fn refusal_value(alloc: Global, words: &str) -> Result<Value, AllocError>
    ensures { IfOk result (λ value. view value ≡ refusal_data words.now) }
{
    let mut members = Map::new(alloc);
    put_str(alloc, &mut members, "verdict", "refused")?;
    put_str(alloc, &mut members, "words", words)?;
    Ok(Value::Object(members))
}

/// Its line.
pub(crate) fn push_json_refusal(
    alloc: Global,
    out: &mut String,
    words: &str,
) -> Result<(), AllocError>
    ensures { OnOk result (string_bytes out.new
        ≡ string_bytes out.old ++ refusal_line words.now) }
{
    let value = refusal_value(alloc, words)?;
    push_line(alloc, out, &value)
}
