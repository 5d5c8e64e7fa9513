//! What is printed of maps one after the other.

ghost use Rattle.std.specs.Prelude.{◌≡◌, ◌≤◌, ◌++◌, false, map as all_of, IfOk, OnOk};
ghost use Rattle.std.specs.String.{string_bytes};
ghost use Rattle.serde_json.specs.Data.{items_depth};
ghost use Rattle.serde_json.specs.View.{view, items_of};
ghost use Rattle.serde_json.specs.Written.{items_have_float};
ghost use Rattle.cli_commands.specs.Fault.{Gives};
ghost use Rattle.cli_commands.specs.Held.{answer_seen};
ghost use Rattle.cli_maps.specs.Told.{all_results, all_told, header, json_told, log_told, record_line, record_told, status_in, text_told, told_by, worse};

use crate::json::json_lines;
use crate::judged::{judge, record_due, status_of};
use crate::lines::lines_of;
use crate::sarif::{log_line, push_results};
use bms_map::{Control, Map};
use bms_source::push_codes;
use cli_commands::{Answer, CommandError, Status};
use order_lines::push_bytes;
use serde_json::Value;
use std::alloc::{AllocError, Global};

/// What is printed of a map.
#[derive(Clone, Copy)]
pub(crate) enum MapForm<'a> {
    /// A comment, and its record.
    Record,
    /// Yes, or a line for each finding.
    Lines,
    /// The same as JSON, with this path and these lines of the source.
    Json(&'a str, &'a [&'a [u8]]),
}

/// A comment: the name of a map, the line of its DFHMDI, and its screen.
fn push_header(out: &mut String, map: &Map) -> Result<(), AllocError>
    ensures { OnOk result (string_bytes out.new ≡ string_bytes out.old ++ header map.now) }
{
    out.push_str("# map ")?;
    push_codes(out, map.name.as_slice())?;
    let line = map.line;
    let rows = map.area.screen.rows;
    let cols = map.area.screen.cols;
    write!(out, " at line {line}, screen {rows}x{cols}\n")
}

/// A record in hexadecimal, on a line.
pub(crate) fn push_record(out: &mut String, bytes: &[u8]) -> Result<(), AllocError>
    ensures { OnOk result (string_bytes out.new ≡ string_bytes out.old ++ record_line bytes.now) }
{
    push_bytes(out, bytes)?;
    out.push_str("\n")
}

fn record_told(alloc: Global, map: &Map, control: Control) -> Result<Answer, CommandError>
    ensures { Gives answer_seen result (record_told control map.now) }
{
    let bytes = record_due(alloc, map, control)?;
    let mut text = String::new(alloc);
    push_header(&mut text, map)?;
    push_record(&mut text, bytes.as_slice())?;
    Ok(Answer {
        text,
        status: Status::Done,
    })
}

fn text_told(alloc: Global, map: &Map, control: Control) -> Result<Answer, CommandError>
    ensures { Gives answer_seen result (text_told control map.now) }
{
    let judged = judge(alloc, map, control)?;
    let findings = judged.findings.as_slice();
    Ok(Answer {
        text: lines_of(alloc, map, judged.layout.entries(), findings)?,
        status: status_of(findings),
    })
}

fn json_told(
    alloc: Global,
    path: &str,
    lines: &[&[u8]],
    map: &Map,
    control: Control,
) -> Result<Answer, CommandError>
    ensures { Gives answer_seen result
        (json_told path.now (all_of (λ line. line.now) lines.now) control map.now) }
{
    let judged = judge(alloc, map, control)?;
    Ok(Answer {
        text: json_lines(alloc, path, lines, map, &judged)?,
        status: status_of(judged.findings.as_slice()),
    })
}

fn told_by(
    alloc: Global,
    form: MapForm<'_>,
    map: &Map,
    control: Control,
) -> Result<Answer, CommandError>
    ensures { Gives answer_seen result (told_by form.entry control map.now) }
{
    match form {
        MapForm::Record => record_told(alloc, map, control),
        MapForm::Lines => text_told(alloc, map, control),
        MapForm::Json(path, lines) => json_told(alloc, path, lines, map, control),
    }
}

/// The status of two answers: findings in either.
fn worse(status: Status, other: Status) -> Status
    ensures { result ≡ worse status other }
{
    match status {
        Status::Done => other,
        _ => status,
    }
}

/// What is printed of all maps, or the first fault.
pub(crate) fn all_told(
    alloc: Global,
    form: MapForm<'_>,
    maps: &[Map],
    control: Control,
) -> Result<Answer, CommandError>
    ensures { Gives answer_seen result (all_told (told_by form.entry control) maps.now) }
{
    let mut text = String::new(alloc);
    let mut status = Status::Done;
    for map in maps {
        let answer = told_by(alloc, form, map, control)?;
        text.push_str(answer.text.as_str())?;
        status = worse(status, answer.status);
    }
    Ok(Answer { text, status })
}

/// The results of a log of all maps, or the first fault.
pub(crate) fn all_results(
    alloc: Global,
    path: &str,
    lines: &[&[u8]],
    maps: &[Map],
    control: Control,
) -> Result<Vec<Value>, CommandError>
    ensures results { Gives (λ values. all_of view values.items) result
        (all_results path.now (all_of (λ line. line.now) lines.now) control maps.now) }
    ensures plain { IfOk result
        (λ values. items_have_float (items_of (all_of view values.items)) ≡ false) }
    ensures flat { IfOk result
        (λ values. items_depth (items_of (all_of view values.items)) ≤ 6) }
{
    let mut results = Vec::new(alloc);
    for map in maps {
        match judge(alloc, map, control) {
            Ok(judged) => push_results(alloc, &mut results, path, lines, map, &judged)?,
            Err(error) => return Err(error),
        }
    }
    Ok(results)
}

fn status_in(results: &[Value]) -> Status
    ensures { result ≡ status_in (all_of view results.now) }
{
    match results {
        [] => Status::Done,
        [_, ..] => Status::Findings,
    }
}

/// The log of all maps, or the first fault.
pub(crate) fn log_told(
    alloc: Global,
    path: &str,
    lines: &[&[u8]],
    maps: &[Map],
    control: Control,
) -> Result<Answer, CommandError>
    ensures { Gives answer_seen result
        (log_told path.now (all_of (λ line. line.now) lines.now) control maps.now) }
{
    let results = all_results(alloc, path, lines, maps, control)?;
    let status = status_in(results.as_slice());
    Ok(Answer {
        text: log_line(alloc, results)?,
        status,
    })
}
