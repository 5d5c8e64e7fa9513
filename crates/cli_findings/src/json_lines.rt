//! The report as lines of JSON.

ghost use Rattle.std.specs.Prelude.{◌≡◌, ◌++◌, false, IfOk, OnOk, Some};
ghost use Rattle.std.specs.List.{flat_map};
ghost use Rattle.std.specs.String.{string_bytes};
ghost use Rattle.serde_json.specs.View.{view};
ghost use Rattle.serde_json.specs.Read.{read};
ghost use Rattle.serde_json.specs.Written.{compact_text, has_float};
ghost use Rattle.cli_commands.specs.Held.{answer_seen, records_held};
ghost use Rattle.cli_commands.specs.Printed.{printed};
ghost use Rattle.cli_commands.specs.declared.status.Status.TheVariants.{BadInput};
ghost use Rattle.cli_findings.specs.Lines.{data_line, status_of};
ghost use Rattle.cli_findings.specs.Members.{finding_data};
ghost use Rattle.cli_findings.specs.RecordLine.{record_numbers};
ghost use Rattle.cli_findings.specs.Report.{finding_line, verdict_data, verdict_word, refusal_data, pressed_lines, report_findings};

use crate::members::finding_value;
use crate::object::put_str;
use crate::record_line::record_numbers;
use crate::rehearsal::rehearsal_after;
use cli_commands::{Answer, Fault, Status};
use demo_screens::Rehearsal;
use ds_screen::PlaneCells;
use scr_check::Traced;
use scr_layout::Layout;
use serde_json::{Map, Value, put};
use std::alloc::{AllocError, Global};

/// A value on a line of its own.
///
/// # Errors
///
/// Where a request for memory was refused.
pub fn push_line(alloc: Global, out: &mut String, value: &Value) -> Result<(), AllocError>
    requires { has_float (view value.now) ≡ false }
    ensures { OnOk result (string_bytes out.new
        ≡ string_bytes out.old ++ data_line (view value.now)) }
{
    let text = value.to_string(alloc)?;
    out.push_str(text.as_str())?;
    out.push_str("\n")
}

/// A finding of records, in their text, with the orders that it comes from, as JSON: the keys that it has. Keys of its
/// demo are tried on the screen that the records leave. A parser reads the same value again.
///
/// # Errors
///
/// Where a request for memory was refused.
#[tactic(auto, using(crate::proofs::Plain::finding_plain, crate::proofs::Plain::finding_nests))]
pub fn finding_json(
    alloc: Global,
    layout: &Layout,
    input: &[u8],
    rehearsal: &mut Option<Rehearsal<PlaneCells>>,
    traced: &Traced,
) -> Result<String, AllocError>
    ensures text { IfOk result (λ text. string_bytes text ≡ compact_text
        (finding_data layout.now (record_numbers input.now) rehearsal.old traced.now)) }
    ensures again { IfOk result (λ text. read (string_bytes text)
        ≡ Some (finding_data layout.now (record_numbers input.now) rehearsal.old traced.now)) }
    ensures kept { rehearsal.new ≡ rehearsal.old }
{
    let numbers = record_numbers(alloc, input)?;
    let value = finding_value(alloc, layout, numbers.as_slice(), rehearsal, traced)?;
    value.to_string(alloc)
}

/// The line of a finding.
#[tactic(auto, using(crate::proofs::Plain::finding_plain))]
fn push_finding(
    alloc: Global,
    out: &mut String,
    layout: &Layout,
    numbers: &[usize],
    rehearsal: &mut Option<Rehearsal<PlaneCells>>,
    traced: &Traced,
) -> Result<(), AllocError>
    ensures pushed { OnOk result (string_bytes out.new ≡ string_bytes out.old
        ++ finding_line layout.now numbers.now rehearsal.old traced.now) }
    ensures kept { rehearsal.new ≡ rehearsal.old }
{
    let value = finding_value(alloc, layout, numbers, rehearsal, traced)?;
    push_line(alloc, out, &value)
}

/// The lines of findings of records on these lines, in their order.
fn push_findings(
    alloc: Global,
    out: &mut String,
    layout: &Layout,
    numbers: &[usize],
    rehearsal: &mut Option<Rehearsal<PlaneCells>>,
    findings: &[Traced],
) -> Result<(), AllocError>
    ensures { OnOk result (string_bytes out.new ≡ string_bytes out.old
        ++ flat_map (finding_line layout.now numbers.now rehearsal.old) findings.now) }
{
    for finding in findings {
        push_finding(alloc, out, layout, numbers, rehearsal, finding)?;
    }
    Ok(())
}

fn verdict_word(findings: &[Traced]) -> &'static str
    ensures { result.now ≡ verdict_word findings.now }
{
    match findings {
        [] => "yes",
        [_, ..] => "no",
    }
}

/// Whether there are findings, as a status.
pub(crate) fn status_of(findings: &[Traced]) -> Status
    ensures { result ≡ status_of findings.now }
{
    match findings {
        [] => Status::Done,
        [_, ..] => Status::Findings,
    }
}

/// How many findings, records and fields there are, and the verdict.
fn verdict_value(
    alloc: Global,
    fields: usize,
    records: usize,
    findings: &[Traced],
) -> Result<Value, AllocError>
    ensures { IfOk result (λ value. view value ≡ verdict_data fields records findings.now) }
{
    let mut members = Map::new(alloc);
    put(&mut members, alloc, "findings", Value::from(findings.len()))?;
    put(&mut members, alloc, "records", Value::from(records))?;
    put(&mut members, alloc, "fields", Value::from(fields))?;
    put_str(alloc, &mut members, "verdict", verdict_word(findings))?;
    Ok(Value::Object(members))
}

/// The line of the verdict.
fn push_verdict(
    alloc: Global,
    out: &mut String,
    fields: usize,
    records: usize,
    findings: &[Traced],
) -> Result<(), AllocError>
    ensures { OnOk result (string_bytes out.new ≡ string_bytes out.old
        ++ data_line (verdict_data fields records findings.now)) }
{
    let value = verdict_value(alloc, fields, records, findings)?;
    push_line(alloc, out, &value)
}

/// What is wrong with an input.
fn refusal_value(alloc: Global, fault: Fault) -> Result<Value, AllocError>
    ensures { IfOk result (λ value. view value ≡ refusal_data fault) }
{
    let words = format!(in alloc; "{fault}")?;
    let mut members = Map::new(alloc);
    put(&mut members, alloc, "words", Value::String(words))?;
    put_str(alloc, &mut members, "verdict", "refused")?;
    Ok(Value::Object(members))
}

/// The report of an input that is refused.
///
/// # Errors
///
/// Where a request for memory was refused.
pub fn refusal_answer(alloc: Global, fault: Fault) -> Result<Answer, AllocError>
    ensures { IfOk result (λ answer. answer_seen answer
        ≡ printed (data_line (refusal_data fault)) BadInput) }
{
    let mut text = String::new(alloc);
    let value = refusal_value(alloc, fault)?;
    push_line(alloc, &mut text, &value)?;
    Ok(Answer {
        text,
        status: Status::BadInput,
    })
}

/// The lines of findings, with what keys send on the picture that the records leave. Neither this nor the text of the records is
/// looked at where there is no finding.
fn push_pressed(
    alloc: Global,
    out: &mut String,
    layout: &Layout,
    input: &[u8],
    records: &[Vec<u8>],
    findings: &[Traced],
) -> Result<(), AllocError>
    ensures { OnOk result (string_bytes out.new ≡ string_bytes out.old
        ++ pressed_lines layout.now input.now (records_held records.now) findings.now) }
{
    if findings.is_empty() {
        return Ok(());
    }
    let mut rehearsal = rehearsal_after(alloc, layout, records)?;
    let numbers = record_numbers(alloc, input)?;
    push_findings(
        alloc,
        out,
        layout,
        numbers.as_slice(),
        &mut rehearsal,
        findings,
    )
}

/// The report of findings: a line for each, and one for the verdict.
pub(crate) fn findings_answer(
    alloc: Global,
    layout: &Layout,
    input: &[u8],
    records: &[Vec<u8>],
    findings: &[Traced],
) -> Result<Answer, AllocError>
    ensures { IfOk result (λ answer. answer_seen answer
        ≡ report_findings layout.now input.now (records_held records.now) findings.now) }
{
    let mut text = String::new(alloc);
    push_pressed(alloc, &mut text, layout, input, records, findings)?;
    push_verdict(
        alloc,
        &mut text,
        layout.entries().len(),
        records.len(),
        findings,
    )?;
    Ok(Answer {
        text,
        status: status_of(findings),
    })
}
