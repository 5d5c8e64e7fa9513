//! `talk`, as JSON, and with each finding explained.

ghost use Rattle.std.specs.Prelude.{◌≡◌, ◌+◌, ◌++◌, map, length, slice_get, take, IfOk};
ghost use Rattle.std.specs.Fmt.{decimal};
ghost use Rattle.std.specs.String.{string_bytes};
ghost use Rattle.scr_check.specs.TalkSeen.{stop_in};
ghost use Rattle.cli_commands.specs.Fault.{Gives};
ghost use Rattle.cli_commands.specs.Held.{answer_seen, records_held};
ghost use Rattle.cli_commands.specs.Talked.{judged_talk};
ghost use Rattle.cli_commands.specs.TalkedHeld.{talked_seen};
ghost use Rattle.cli_commands.specs.TurnsHeld.{turns_held};
ghost use Rattle.cli_reports.specs.Stop.{all_records, span_of};
ghost use Rattle.cli_reports.specs.TalkReport.{turn_begin, found_json, found_explained, found_report, stop_report, stopped_report, yes_report, judged_report, told_report, talk_report};

use crate::explain::push_findings;
use crate::numbers::turn_numbers;
use crate::stop::{records_to, span_of, traced_in};
use crate::talk_json::{Span, push_no, push_turns, push_yes};
use cli_commands::{Answer, CommandError, Demos, Status, Talked, demo_terminal, judge_talk};
use cli_findings::refusal_answer;
use scr_check::{Finding, TalkVerdict, Traced};
use scr_layout::Layout;
use std::alloc::{AllocError, Global};

/// The form in which a dialogue is reported.
#[derive(Clone, Copy, Debug, PartialEq, Eq)]
pub enum TalkForm {
    /// A JSON object on each line.
    Json,
    /// The text of `talk`, with lines under each finding.
    Explained,
}

/// The line of a turn's number.
#[tactic(auto, unfolding(crate::specs::TalkReport::turn_begin))]
fn turn_begin(alloc: Global, turn: usize) -> Result<String, AllocError>
    ensures { IfOk result (λ text. string_bytes text ≡ turn_begin turn) }
{
    format!(in alloc; "turn {turn}\n")
}

/// The findings of a turn as JSON, and the verdict.
fn found_json(
    alloc: Global,
    layout: &Layout,
    input: &[u8],
    turns: usize,
    span: Span,
    findings: &[Traced],
) -> Result<String, AllocError>
    ensures { IfOk result (λ text. string_bytes text
        ≡ found_json layout.now input.now turns span findings.now) }
{
    let numbers = turn_numbers(alloc, input)?;
    let mut text = String::new(alloc);
    push_turns(alloc, &mut text, layout, numbers.as_slice(), span, findings)?;
    push_no(alloc, &mut text, turns, span.turn, findings.len())?;
    Ok(text)
}

/// The findings of a turn, explained on the screen that the records up to it leave.
fn found_explained(
    alloc: Global,
    layout: &Layout,
    records: &[Vec<u8>],
    turn: usize,
    findings: &[Traced],
) -> Result<String, AllocError>
    ensures { IfOk result (λ text. string_bytes text
        ≡ found_explained layout.now (records_held records.now) turn findings.now) }
{
    let terminal = demo_terminal(alloc, layout, records, Demos::Printed)?;
    let mut text = turn_begin(alloc, turn)?;
    push_findings(alloc, &mut text, layout, terminal.as_ref(), findings)?;
    Ok(text)
}

/// The report of a turn's findings as JSON.
#[tactic(auto, using(crate::proofs::Turns::turns_count))]
fn json_report(
    alloc: Global,
    layout: &Layout,
    input: &[u8],
    turns: &[Vec<Vec<u8>>],
    turn: usize,
    findings: &[Traced],
) -> Result<String, AllocError>
    ensures { IfOk result (λ text. string_bytes text ≡ found_json layout.now input.now
        (length (turns_held turns.now)) (span_of (turns_held turns.now) turn) findings.now) }
{
    let span = span_of(alloc, turns, turn)?;
    found_json(alloc, layout, input, turns.len(), span, findings)
}

/// The same, explained.
fn explained_report(
    alloc: Global,
    layout: &Layout,
    turns: &[Vec<Vec<u8>>],
    turn: usize,
    findings: &[Traced],
) -> Result<String, AllocError>
    ensures { IfOk result (λ text. string_bytes text ≡ found_explained layout.now
        (all_records (take (turn + 1) (turns_held turns.now))) turn findings.now) }
{
    let records = records_to(alloc, turns, turn)?;
    found_explained(alloc, layout, records.as_slice(), turn, findings)
}

/// The report of a turn's findings, in a form.
fn found_report(
    alloc: Global,
    form: TalkForm,
    layout: &Layout,
    input: &[u8],
    turns: &[Vec<Vec<u8>>],
    turn: usize,
    findings: &[Finding],
) -> Result<String, AllocError>
    ensures { IfOk result (λ text. string_bytes text
        ≡ found_report form layout.now input.now (turns_held turns.now) turn findings.now) }
{
    let found = traced_in(alloc, layout, turns, turn, findings)?;
    let found = found.as_slice();
    match form {
        TalkForm::Json => json_report(alloc, layout, input, turns, turn, found),
        TalkForm::Explained => explained_report(alloc, layout, turns, turn, found),
    }
}

/// The report of a turn, by its layout.
fn stop_report(
    alloc: Global,
    form: TalkForm,
    layouts: &[Layout],
    input: &[u8],
    turns: &[Vec<Vec<u8>>],
    turn: usize,
    findings: &[Finding],
) -> Result<String, AllocError>
    ensures { IfOk result (λ text. string_bytes text ≡ stop_report form
        (slice_get layouts.now turn) input.now (turns_held turns.now) turn findings.now) }
{
    match layouts.get(turn) {
        Some(layout) => found_report(alloc, form, layout, input, turns, turn, findings),
        None => Ok(String::new(alloc)),
    }
}

/// The report that nothing stands against so many turns.
fn yes_report(alloc: Global, form: TalkForm, turns: usize) -> Result<String, AllocError>
    ensures { IfOk result (λ text. string_bytes text ≡ yes_report form turns) }
{
    match form {
        TalkForm::Json => {
            let mut text = String::new(alloc);
            push_yes(alloc, &mut text, turns)?;
            Ok(text)
        }
        TalkForm::Explained => String::from_str(alloc, "yes\n"),
    }
}

/// The report of a dialogue that was judged.
#[tactic(auto, using(crate::proofs::Turns::turns_count))]
fn judged_report(
    alloc: Global,
    form: TalkForm,
    input: &[u8],
    talked: &Talked,
) -> Result<Answer, AllocError>
    ensures { IfOk result (λ answer. answer_seen answer
        ≡ judged_report form input.now (talked_seen talked.now)) }
{
    let layouts = talked.layouts.as_slice();
    let turns = talked.turns.as_slice();
    match &talked.verdict {
        TalkVerdict::Yes => Ok(Answer {
            text: yes_report(alloc, form, turns.len())?,
            status: Status::Done,
        }),
        TalkVerdict::No { turn, findings } => Ok(Answer {
            text: stop_report(
                alloc,
                form,
                layouts,
                input,
                turns,
                *turn,
                findings.as_slice(),
            )?,
            status: Status::Findings,
        }),
    }
}

fn told_report(
    alloc: Global,
    form: TalkForm,
    layouts: &[&[u8]],
    records: &[u8],
) -> Result<Answer, CommandError>
    ensures { Gives answer_seen result
        (told_report form (map (λ text. text.now) layouts.now) records.now) }
{
    let talked = judge_talk(alloc, layouts, records)?;
    Ok(judged_report(alloc, form, records, &talked)?)
}

/// What `talk` reports of the texts of layouts and of turns: as JSON an object a line for each finding of the first turn that has
/// some, with its turn, and one for the verdict or for an input that is refused, which then is no fault; explained the text of
/// `talk`, with lines under each finding.
///
/// # Errors
///
/// Explained the first fault, as of `talk_texts`; out of memory.
pub fn talk_report_texts(
    alloc: Global,
    form: TalkForm,
    layouts: &[&[u8]],
    records: &[u8],
) -> Result<Answer, CommandError>
    ensures { Gives answer_seen result
        (talk_report form (map (λ text. text.now) layouts.now) records.now) }
{
    match (form, told_report(alloc, form, layouts, records)) {
        (TalkForm::Json, Err(CommandError::Fault(fault))) => Ok(refusal_answer(alloc, fault)?),
        (_, told) => told,
    }
}
