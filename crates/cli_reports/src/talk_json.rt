//! The findings of a turn of a dialogue as lines of JSON.

ghost use Rattle.std.specs.Prelude.{◌≡◌, ◌++◌, IfOk, OnOk, None, string_bytes, map};
ghost use Rattle.std.specs.List.{flat_map};
ghost use Rattle.serde_json.specs.View.{view};
ghost use Rattle.cli_findings.specs.Lines.{data_line};
ghost use Rattle.cli_reports.specs.TalkJson.{record_over, record_in, turn_data, turn_line, yes_data, no_data};

use cli_findings::{byte_of, finding_members, push_line, put_spot, put_str, record_told};
use scr_check::Traced;
use scr_layout::Layout;
use serde_json::{Map, Value, put};
use std::alloc::{AllocError, Global};

/// A turn of a dialogue, counted from 0, and where its records stand among those of all turns.
#[derive(Clone, Copy)]
pub(crate) struct Span {
    pub turn: usize,
    /// How many records the turns before it have.
    pub before: usize,
    /// How many these and this one have.
    pub all: usize,
}

/// A record of the turn, among those of all turns.
fn record_over(span: Span, index: usize) -> Option<usize>
    ensures { result ≡ record_over span index }
{
    if span.before < span.all && index < span.all - span.before {
        Some(span.before + index)
    } else {
        None
    }
}

/// The record that a finding is about, among those of all turns.
fn record_in(span: Span, traced: &Traced) -> Option<usize>
    ensures { result ≡ record_in span traced.now }
{
    match record_told(&traced.finding) {
        Some(index) => record_over(span, index),
        None => Some(traced.origin?.index),
    }
}

/// A finding, with its turn.
#[tactic(auto, unfolding(crate::specs::TalkJson::turn_data))]
fn turn_value(
    alloc: Global,
    layout: &Layout,
    numbers: &[usize],
    span: Span,
    traced: &Traced,
) -> Result<Value, AllocError>
    ensures { IfOk result (λ value. view value
        ≡ turn_data layout.now numbers.now span traced.now) }
{
    let mut untried = None;
    let mut members = finding_members(alloc, layout, numbers, &mut untried, traced)?;
    let record = record_in(span, traced);
    put_spot(alloc, &mut members, numbers, record, byte_of(traced))?;
    put(&mut members, alloc, "turn", Value::from(span.turn))?;
    Ok(Value::Object(members))
}

/// Its line.
#[tactic(auto, using(crate::proofs::TurnPlain::turn_plain))]
fn push_turn(
    alloc: Global,
    out: &mut String,
    layout: &Layout,
    numbers: &[usize],
    span: Span,
    traced: &Traced,
) -> Result<(), AllocError>
    ensures { OnOk result (string_bytes out.new ≡ string_bytes out.old
        ++ turn_line layout.now numbers.now span traced.now) }
{
    let value = turn_value(alloc, layout, numbers, span, traced)?;
    push_line(alloc, out, &value)
}

/// The lines of the findings of a turn.
pub(crate) fn push_turns(
    alloc: Global,
    out: &mut String,
    layout: &Layout,
    numbers: &[usize],
    span: Span,
    findings: &[Traced],
) -> Result<(), AllocError>
    ensures { OnOk result (string_bytes out.new ≡ string_bytes out.old
        ++ flat_map (turn_line layout.now numbers.now span) findings.now) }
{
    for finding in findings {
        push_turn(alloc, out, layout, numbers, span, finding)?;
    }
    Ok(())
}

fn yes_value(alloc: Global, turns: usize) -> Result<Value, AllocError>
    ensures { IfOk result (λ value. view value ≡ yes_data turns) }
{
    let mut members = Map::new(alloc);
    put(&mut members, alloc, "findings", Value::from(0_u32))?;
    put(&mut members, alloc, "turns", Value::from(turns))?;
    put_str(alloc, &mut members, "verdict", "yes")?;
    Ok(Value::Object(members))
}

/// The line of the verdict that nothing stands against so many turns.
pub(crate) fn push_yes(alloc: Global, out: &mut String, turns: usize) -> Result<(), AllocError>
    ensures { OnOk result (string_bytes out.new
        ≡ string_bytes out.old ++ data_line (yes_data turns)) }
{
    let value = yes_value(alloc, turns)?;
    push_line(alloc, out, &value)
}

fn no_value(alloc: Global, turns: usize, turn: usize, findings: usize) -> Result<Value, AllocError>
    ensures { IfOk result (λ value. view value ≡ no_data turns turn findings) }
{
    let mut members = Map::new(alloc);
    put(&mut members, alloc, "findings", Value::from(findings))?;
    put(&mut members, alloc, "turn", Value::from(turn))?;
    put(&mut members, alloc, "turns", Value::from(turns))?;
    put_str(alloc, &mut members, "verdict", "no")?;
    Ok(Value::Object(members))
}

/// The line of the verdict that so much stands against a turn, of so many.
pub(crate) fn push_no(
    alloc: Global,
    out: &mut String,
    turns: usize,
    turn: usize,
    findings: usize,
) -> Result<(), AllocError>
    ensures { OnOk result (string_bytes out.new
        ≡ string_bytes out.old ++ data_line (no_data turns turn findings)) }
{
    let value = no_value(alloc, turns, turn, findings)?;
    push_line(alloc, out, &value)
}
