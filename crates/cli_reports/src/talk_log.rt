//! `talk`, as a log of SARIF.

ghost use Rattle.std.specs.Prelude.{◌≡◌, ◌++◌, map, take, slice_get, IfOk, Ok};
ghost use Rattle.std.specs.String.{string_bytes};
ghost use Rattle.cli_commands.specs.Fault.{Gives};
ghost use Rattle.cli_commands.specs.Held.{answer_seen, records_held};
ghost use Rattle.cli_commands.specs.TalkedHeld.{talked_seen};
ghost use Rattle.cli_commands.specs.TurnsHeld.{turns_held};
ghost use Rattle.cli_reports.specs.TalkLog.{front_of, kept_for, turn_log, stop_log, yes_log, ended_log, judged_log, named, refusal_path, refusal_line, refused_log, printed_talk_log};

use crate::blanked::{Kept, turn_text};
use crate::stop::traced_in;
use cli_commands::{Answer, CommandError, Fault, Status, Talked, judge_talk};
use cli_findings::{Pen, found_log, layout_line, line_of_fault, record_told, refusal_log};
use scr_check::{Finding, TalkVerdict, Traced};
use scr_layout::Layout;
use std::alloc::{AllocError, Global};

/// What stands before the words of a turn's findings.
pub(crate) fn front_of(alloc: Global, turn: usize) -> Result<String, AllocError>
    ensures { IfOk result (λ text. string_bytes text ≡ front_of turn) }
{
    format!(in alloc; "turn {turn}: ")
}

/// Which records findings count: one that tells its record by itself counts those of its turn.
pub(crate) fn kept_for(findings: &[Traced]) -> Kept
    ensures { result ≡ kept_for findings.now }
{
    match findings {
        [] => Kept::All,
        [first, ..] => match record_told(&first.finding) {
            Some(_) => Kept::Own,
            None => Kept::All,
        },
    }
}

/// The log of a turn's findings.
fn turn_log(
    alloc: Global,
    path: &str,
    layout: &Layout,
    input: &[u8],
    turn: usize,
    findings: &[Traced],
) -> Result<String, AllocError>
    ensures { IfOk result (λ text. string_bytes text
        ≡ turn_log path.now layout.now input.now turn findings.now) }
{
    let text = turn_text(alloc, kept_for(findings), turn, input)?;
    let front = front_of(alloc, turn)?;
    found_log(
        alloc,
        Pen::Ignored,
        front.as_str(),
        path,
        layout,
        text.as_slice(),
        findings,
    )
}

/// The same by the layout of the turn, with the orders that the findings come from.
fn stop_log(
    alloc: Global,
    path: &str,
    layouts: &[Layout],
    input: &[u8],
    turns: &[Vec<Vec<u8>>],
    turn: usize,
    findings: &[Finding],
) -> Result<String, AllocError>
    ensures { IfOk result (λ text. string_bytes text ≡ stop_log path.now
        (slice_get layouts.now turn) input.now (turns_held turns.now) turn findings.now) }
{
    let Some(layout) = layouts.get(turn) else {
        return Ok(String::new(alloc));
    };
    let found = traced_in(alloc, layout, turns, turn, findings)?;
    turn_log(alloc, path, layout, input, turn, found.as_slice())
}

/// The log that nothing stands against any turn.
fn yes_log(
    alloc: Global,
    path: &str,
    layouts: &[Layout],
    input: &[u8],
) -> Result<String, AllocError>
    ensures { IfOk result (λ text. string_bytes text
        ≡ yes_log path.now (slice_get layouts.now 0) input.now) }
{
    match layouts.get(0) {
        Some(layout) => turn_log(alloc, path, layout, input, 0, &[]),
        None => Ok(String::new(alloc)),
    }
}

fn with_end(mut text: String, status: Status) -> Result<Answer, AllocError>
    ensures { IfOk result (λ answer. answer_seen answer
        ≡ ended_log (string_bytes text) status) }
{
    text.push_str("\n")?;
    Ok(Answer { text, status })
}

/// The log of a dialogue that was judged.
fn judged_log(
    alloc: Global,
    path: &str,
    input: &[u8],
    talked: &Talked,
) -> Result<Answer, AllocError>
    ensures { IfOk result (λ answer. answer_seen answer
        ≡ judged_log path.now input.now (talked_seen talked.now)) }
{
    let layouts = talked.layouts.as_slice();
    let turns = talked.turns.as_slice();
    match &talked.verdict {
        TalkVerdict::Yes => with_end(yes_log(alloc, path, layouts, input)?, Status::Done),
        TalkVerdict::No { turn, findings } => {
            let findings = findings.as_slice();
            let text = stop_log(alloc, path, layouts, input, turns, *turn, findings)?;
            with_end(text, Status::Findings)
        }
    }
}

/// The path of this index, or another.
fn named<'a>(names: &[&'a str], path: &'a str, turn: usize) -> &'a str
    ensures { result.now ≡ named (map (λ name. name.now) names.now) path.now turn }
{
    match names.get(turn) {
        Some(name) => name,
        None => path,
    }
}

/// The file in which an input is refused.
fn refusal_path<'a>(names: &[&'a str], path: &'a str, fault: Fault) -> &'a str
    ensures { result.now ≡ refusal_path (map (λ name. name.now) names.now) path.now fault }
{
    match fault {
        Fault::TurnLayoutRefused(turn, _) | Fault::OtherGeometry(turn) => named(names, path, turn),
        _ => path,
    }
}

/// The line of that file.
fn refusal_line(texts: &[&[u8]], fault: Fault) -> usize
    ensures { result ≡ refusal_line (map (λ text. text.now) texts.now) fault }
{
    match fault {
        Fault::TurnLayoutRefused(turn, refused) => match texts.get(turn) {
            Some(text) => layout_line(text, Fault::LayoutRefused(refused)),
            None => 1,
        },
        _ => line_of_fault(fault),
    }
}

/// The log of an input that is refused.
fn refused_log(
    alloc: Global,
    names: &[&str],
    path: &str,
    texts: &[&[u8]],
    fault: Fault,
) -> Result<Answer, AllocError>
    ensures { IfOk result (λ answer. answer_seen answer ≡ refused_log
        (map (λ name. name.now) names.now) path.now (map (λ text. text.now) texts.now) fault) }
{
    let file = refusal_path(names, path, fault);
    let line = refusal_line(texts, fault);
    let text = refusal_log(alloc, Pen::Ignored, file, line, fault)?;
    with_end(text, Status::BadInput)
}

/// What `talk` reports of the texts of layouts and of turns as a log of SARIF 2.1.0, with a result for each finding of the first turn
/// that has some, at its record's line in the file of this path, its words behind the turn's number; or for the input that is
/// refused, a layout in the file of its name.
///
/// # Errors
///
/// Out of memory.
pub fn talk_log_texts(
    alloc: Global,
    names: &[&str],
    path: &str,
    layouts: &[&[u8]],
    records: &[u8],
) -> Result<Answer, CommandError>
    ensures { Gives answer_seen result (Ok (printed_talk_log (map (λ name. name.now) names.now)
        path.now (map (λ text. text.now) layouts.now) records.now)) }
{
    match judge_talk(alloc, layouts, records) {
        Ok(talked) => Ok(judged_log(alloc, path, records, &talked)?),
        Err(CommandError::Fault(fault)) => Ok(refused_log(alloc, names, path, layouts, fault)?),
        Err(error) => Err(error),
    }
}
