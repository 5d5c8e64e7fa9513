//! `talk`, as results of a log of SARIF.

ghost use Rattle.std.specs.Prelude.{◌≡◌, map, slice_get, IfOk};
ghost use Rattle.cli_commands.specs.Fault.{Gives};
ghost use Rattle.cli_commands.specs.TalkedHeld.{talked_seen};
ghost use Rattle.cli_commands.specs.TurnsHeld.{turns_held};
ghost use Rattle.cli_findings.specs.Results.{results_seen};
ghost use Rattle.cli_reports.specs.TalkResults.{stop_results, stopped_results, talk_results, turn_results};

use crate::blanked::turn_text;
use crate::stop::traced_in;
use crate::talk_log::{front_of, kept_for};
use cli_commands::{CommandError, Talked, judge_talk};
use cli_findings::{Results, found_results};
use scr_check::{Finding, TalkVerdict, Traced};
use scr_layout::Layout;
use std::alloc::{AllocError, Global};

/// The results of a turn's findings.
fn turn_results(
    alloc: Global,
    path: &str,
    layout: &Layout,
    input: &[u8],
    turn: usize,
    findings: &[Traced],
) -> Result<Results, AllocError>
    ensures { IfOk result (λ results. results_seen results
        ≡ turn_results path.now layout.now input.now turn findings.now) }
{
    let text = turn_text(alloc, kept_for(findings), turn, input)?;
    let front = front_of(alloc, turn)?;
    found_results(
        alloc,
        front.as_str(),
        path,
        layout,
        text.as_slice(),
        findings,
    )
}

/// The same by the layout of the turn, with the orders that the findings come from.
fn stop_results(
    alloc: Global,
    path: &str,
    layouts: &[Layout],
    input: &[u8],
    turns: &[Vec<Vec<u8>>],
    turn: usize,
    findings: &[Finding],
) -> Result<Results, AllocError>
    ensures { IfOk result (λ results. results_seen results ≡ stop_results path.now
        (slice_get layouts.now turn) input.now (turns_held turns.now) turn findings.now) }
{
    let Some(layout) = layouts.get(turn) else {
        return Ok(Results::new(alloc));
    };
    let found = traced_in(alloc, layout, turns, turn, findings)?;
    turn_results(alloc, path, layout, input, turn, found.as_slice())
}

/// The results of a dialogue that was judged.
fn judged_results(
    alloc: Global,
    path: &str,
    input: &[u8],
    talked: &Talked,
) -> Result<Results, AllocError>
    ensures { IfOk result (λ results. results_seen results ≡ stopped_results path.now input.now
        (talked_seen talked.now) (talked_seen talked.now).stop) }
{
    match &talked.verdict {
        TalkVerdict::Yes => Ok(Results::new(alloc)),
        TalkVerdict::No { turn, findings } => stop_results(
            alloc,
            path,
            talked.layouts.as_slice(),
            input,
            talked.turns.as_slice(),
            *turn,
            findings.as_slice(),
        ),
    }
}

/// What `talk` finds of the texts of layouts and of turns as results of a log of SARIF 2.1.0: one for each finding of the first turn
/// that has some, at its record's line in the file of this path, its words behind the turn's number.
///
/// # Errors
///
/// The fault of a layout or of the turns, which is that of `talk`; out of memory.
pub fn talk_results(
    alloc: Global,
    path: &str,
    layouts: &[&[u8]],
    records: &[u8],
) -> Result<Results, CommandError>
    ensures { Gives results_seen result
        (talk_results path.now (map (λ text. text.now) layouts.now) records.now) }
{
    let talked = judge_talk(alloc, layouts, records)?;
    Ok(judged_results(alloc, path, records, &talked)?)
}
