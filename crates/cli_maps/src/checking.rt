//! The command `check --map`.

ghost use Rattle.std.specs.Prelude.{◌≡◌, ◌≤◌, ◌+◌, ℕ, Result as AResult, List, IfOk, IfSome, length, Err};
ghost use Rattle.bms_source.specs.Results.{Gives as GivesMaps};
ghost use Rattle.bms_source.specs.Told.{Told};
ghost use Rattle.bms_map.specs.Maps.{Sheet};
ghost use Rattle.cli_commands.specs.Causes.{EndsBy, ToldBy};
ghost use Rattle.cli_commands.specs.Fault.{Gives, GivesOrFails};
ghost use Rattle.cli_commands.specs.Held.{answer_seen};
ghost use Rattle.cli_commands.specs.Printed.{Printed};
ghost use Rattle.cli_commands.specs.Streams.{Prints};
ghost use Rattle.cli_commands.specs.declared.fault.Fault.{Fault as AFault};
ghost use Rattle.cli_maps.specs.Asked.{name_in, report_seen};
ghost use Rattle.cli_maps.specs.Told.{all_told, json_told, log_told};
ghost use Rattle.bms_source.specs.Rows.{lines_in};
ghost use Rattle.std.specs.String.{string_bytes};
ghost use Rattle.cli_commands.specs.Fault.{fault_text};
ghost use Rattle.cli_maps.specs.Refused.{refusal_words};
ghost use Rattle.cli_maps.specs.Source.{refusal_region};
ghost use Rattle.cli_maps.specs.Printed.{check_limited, check_source, check_told, checked, or_faulted, or_refused_in, refused_in, printed_check_map, refused_json, refused_log};

use crate::asked::{Asked, Report};
use crate::each::{MapForm, all_told, log_told};
use crate::json::refused_line;
use crate::refusal::{refusal_words, refused};
use crate::sarif::{log_line, refused_results};
use crate::source::refusal_region;
use crate::told::maps_asked;
use bms_map::{Control, Map};
use bms_source::{Refusal, SourceError, lines_of};
use cli_commands::{
    Answer, CommandError, Fault, GivesBytes, Source, Status, TakesBytes, Text, Whole, finish,
    within_limit,
};
use cli_findings::Region;
use std::alloc::{AllocError, Global};

/// The report of maps as JSON.
fn checked_json(
    alloc: Global,
    path: &str,
    source: &[u8],
    control: Control,
    maps: &[Map],
) -> Result<Answer, CommandError>
    ensures { Gives answer_seen result
        (all_told (json_told path.now (lines_in source.now) control) maps.now) }
{
    let lines = lines_of(alloc, source)?;
    let form = MapForm::Json(path, lines.as_slice());
    all_told(alloc, form, maps, control)
}

/// The log of maps.
fn checked_log(
    alloc: Global,
    path: &str,
    source: &[u8],
    control: Control,
    maps: &[Map],
) -> Result<Answer, CommandError>
    ensures { Gives answer_seen result
        (log_told path.now (lines_in source.now) control maps.now) }
{
    let lines = lines_of(alloc, source)?;
    log_told(alloc, path, lines.as_slice(), maps, control)
}

/// What is found of maps, in a form.
fn checked(
    alloc: Global,
    report: Report<'_>,
    control: Control,
    source: &[u8],
    maps: &[Map],
) -> Result<Answer, CommandError>
    ensures { Gives answer_seen result
        (checked (report_seen report.entry) control source.now maps.now) }
{
    match report {
        Report::Text => all_told(alloc, MapForm::Lines, maps, control),
        Report::Json(path) => checked_json(alloc, path, source, control, maps),
        Report::Sarif(path) => checked_log(alloc, path, source, control, maps),
    }
}

/// What is refused at a place, as JSON.
fn refused_json(
    alloc: Global,
    path: &str,
    region: Region,
    words: String,
) -> Result<Answer, AllocError>
    ensures { IfOk result (λ answer. answer_seen answer
        ≡ refused_json path.now region (string_bytes words)) }
{
    Ok(Answer {
        text: refused_line(alloc, path, region, words)?,
        status: Status::BadInput,
    })
}

/// The same as a log.
#[tactic(auto, using(crate::proofs::Logged::refused_plain, crate::proofs::Logged::refused_nests))]
fn refused_log(
    alloc: Global,
    path: &str,
    region: Region,
    words: String,
) -> Result<Answer, AllocError>
    ensures { IfOk result (λ answer. answer_seen answer
        ≡ refused_log path.now region (string_bytes words)) }
{
    let results = refused_results(alloc, path, region, words.as_str())?;
    Ok(Answer {
        text: log_line(alloc, results)?,
        status: Status::BadInput,
    })
}

/// The log of a source that is refused.
fn refused_source(alloc: Global, path: &str, refusal: &Refusal) -> Result<Answer, AllocError>
    ensures { IfOk result (λ answer. answer_seen answer ≡ refused_log path.now
        (refusal_region refusal.now.place) (refusal_words refusal.now)) }
{
    let words = refusal_words(alloc, refusal)?;
    refused_log(alloc, path, refusal_region(refusal.place), words)
}

/// What is printed for a source that is refused, in a form.
fn refused_in(alloc: Global, report: Report<'_>, refusal: &Refusal) -> Result<Answer, AllocError>
    ensures { IfOk result (λ answer. answer_seen answer
        ≡ refused_in (report_seen report.entry) refusal.now) }
{
    let region = refusal_region(refusal.place);
    match report {
        Report::Text => refused(alloc, refusal),
        Report::Json(path) => refused_json(alloc, path, region, refusal_words(alloc, refusal)?),
        Report::Sarif(path) => refused_source(alloc, path, refusal),
    }
}

/// What is printed of the maps that are asked for.
fn checked_or_refused(
    alloc: Global,
    report: Report<'_>,
    control: Control,
    source: &[u8],
    maps: Result<Vec<Map>, SourceError>,
) -> Result<Answer, CommandError>
    ensures { (due : AResult (List Sheet) Told) → GivesMaps (λ maps. maps.items) maps due
        → Gives answer_seen result (or_refused_in (report_seen report.entry) (checked (report_seen report.entry) control source.now) due) }
{
    match maps {
        Ok(maps) => checked(alloc, report, control, source, maps.as_slice()),
        Err(SourceError::Refused(refusal)) => Ok(refused_in(alloc, report, &refusal)?),
        Err(SourceError::OutOfMemory) => Err(CommandError::OutOfMemory),
    }
}

/// The report of a fault of the input, in the forms that tell it.
fn faulted(alloc: Global, report: Report<'_>, fault: Fault) -> Result<Answer, CommandError>
    ensures { Gives answer_seen result (or_faulted (report_seen report.entry) (Err fault)) }
{
    let region = refusal_region(None);
    match report {
        Report::Text => Err(CommandError::Fault(fault)),
        Report::Json(path) => Ok(refused_json(alloc, path, region, fault_words(alloc, fault)?)?),
        Report::Sarif(path) => Ok(refused_log(alloc, path, region, fault_words(alloc, fault)?)?),
    }
}

fn fault_words(alloc: Global, fault: Fault) -> Result<String, AllocError>
    ensures { IfOk result (λ text. string_bytes text ≡ fault_text fault) }
{
    format!(in alloc; "{fault}")
}

/// What is printed: the answer, or in its place the report of a fault.
fn or_faulted(
    alloc: Global,
    report: Report<'_>,
    answer: Result<Answer, CommandError>,
) -> Result<Answer, CommandError>
    ensures texts { (due : AResult Printed AFault) → Gives answer_seen answer due
        → Gives answer_seen result (or_faulted (report_seen report.entry) due) }
    ensures readers { (due : AResult Printed AFault) → GivesOrFails answer_seen answer due
        → GivesOrFails answer_seen result (or_faulted (report_seen report.entry) due) }
    ensures cause { (old : ℕ) (new : ℕ) → ToldBy old new answer → ToldBy old new result }
{
    match answer {
        Ok(answer) => Ok(answer),
        Err(CommandError::Fault(fault)) => faulted(alloc, report, fault),
        Err(CommandError::ReadFailed) => Err(CommandError::ReadFailed),
        Err(CommandError::OutOfMemory) => Err(CommandError::OutOfMemory),
    }
}

fn check_within(
    alloc: Global,
    report: Report<'_>,
    asked: Asked<'_>,
    source: &[u8],
) -> Result<Answer, CommandError>
    requires { length source.now ≤ 16777216 }
    ensures { Gives answer_seen result (check_told (report_seen report.entry)
        (name_in asked.entry.name) asked.entry.control source.now) }
{
    let maps = maps_asked(alloc, source, asked.name);
    checked_or_refused(alloc, report, asked.control, source, maps)
}

fn check_limited(
    alloc: Global,
    report: Report<'_>,
    asked: Asked<'_>,
    source: &[u8],
) -> Result<Answer, CommandError>
    ensures { Gives answer_seen result (check_limited (report_seen report.entry)
        (name_in asked.entry.name) asked.entry.control source.now) }
{
    match within_limit(source) {
        Ok(source) => check_within(alloc, report, asked, source),
        Err(error) => Err(error),
    }
}

/// What is said of the maps of BMS source, a text or one that is read, unless it is too long.
fn check_read<S: Source>(
    alloc: Global,
    report: Report<'_>,
    from: &mut S,
    asked: Asked<'_>,
) -> Result<Answer, CommandError>
    ensures answer { IfSome (S.remaining from.old) (λ input. GivesOrFails answer_seen result
        (check_limited (report_seen report.entry) (name_in asked.entry.name) asked.entry.control
        input)) }
    ensures cause { ToldBy (S.failures from.old) (S.failures from.new) result }
{
    match from.whole(alloc) {
        Ok(text) => check_limited(alloc, report, asked, text.bytes()),
        Err(error) => Err(error),
    }
}

/// What `check --map` answers to it.
fn check_reported<S: Source>(
    alloc: Global,
    report: Report<'_>,
    from: &mut S,
    asked: Asked<'_>,
) -> Result<Answer, CommandError>
    ensures answer { IfSome (S.remaining from.old) (λ input. GivesOrFails answer_seen result
        (check_source (report_seen report.entry) (name_in asked.entry.name) asked.entry.control
        input)) }
    ensures cause { ToldBy (S.failures from.old) (S.failures from.new) result }
{
    let answer = check_read(alloc, report, from, asked);
    or_faulted(alloc, report, answer)
}

/// What `check --map` answers to a source.
///
/// # Errors
///
/// An input that is too long, in the form of text; out of memory. A refusal is an answer of status `BadInput`.
pub fn check_map_text(
    alloc: Global,
    report: Report<'_>,
    source: &[u8],
    asked: Asked<'_>,
) -> Result<Answer, CommandError>
    ensures { Gives answer_seen result (check_source (report_seen report.entry)
        (name_in asked.entry.name) asked.entry.control source.now) }
{
    check_reported(alloc, report, &mut Text(source), asked)
}

/// Reads the source of BMS maps, and prints for each map `NAME line N: yes`, or a line for each finding, with the status
/// `Findings`: overlaps and ends outside the map, field by field, and then what stands against its record and its layout; or
/// the first refusal, with the status `BadInput`. As JSON or as a log it tells the same, with where the macros stand and with
/// what to write. The other statuses are those of `run_map`.
pub fn run_check_map<R: GivesBytes, W: TakesBytes>(
    alloc: Global,
    report: Report<'_>,
    reader: &mut R,
    writer: &mut W,
    asked: Asked<'_>,
) -> Status
    ensures prints { IfSome (R.remaining reader.old) (λ input.
        Prints (W.contents writer.old) (W.contents writer.new) result
        (printed_check_map (report_seen report.entry) (name_in asked.entry.name)
        asked.entry.control input)) }
    ensures cause { IfSome (R.remaining reader.old) (λ input.
        EndsBy (R.failures reader.old + W.failures writer.old)
        (R.failures reader.new + W.failures writer.new)
        (printed_check_map (report_seen report.entry) (name_in asked.entry.name)
        asked.entry.control input).status result) }
{
    let answer = check_reported(alloc, report, reader, asked);
    finish(alloc, writer, answer)
}
