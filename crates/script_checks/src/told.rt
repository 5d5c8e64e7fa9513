//! What is told of a screen.

ghost use Rattle.std.specs.Prelude.{◌≡◌, ◌++◌, codes, map, IfOk, OnOk, string_bytes};
ghost use Rattle.std.specs.Fmt.{decimal};
ghost use Rattle.scr_check.specs.FindingText.{finding_text};
ghost use Rattle.scr_check.specs.TalkSeen.{stop_in};
ghost use Rattle.script_checks.specs.KnownView.{turns_seen};
ghost use Rattle.script_checks.specs.NamedView.{named_view};
ghost use Rattle.script_checks.specs.Said.{turn_texts, stop_texts};
ghost use Rattle.script_checks.specs.Told.{stop_told, kept_told, told_of, no_lines};
ghost use Rattle.script_checks.specs.ToldView.{told_seen};

use crate::chosen::choose;
use crate::dialogue::{are_several, verdict_on};
use crate::layouts::{Layouts, Named};
use ds_screen::{PlaneCells, Screen};
use scr_check::{Finding, TalkVerdict};
use scr_layout::{Entry, Layout};
use std::alloc::{AllocError, Global};
use tn_session::KeptRecord;

/// What is said of a screen.
#[derive(Clone, Copy, Debug, PartialEq, Eq)]
pub enum Verdict {
    /// No layout matches.
    NoLayout,
    /// Its records aren't kept, as there were too many.
    NotKept,
    Yes,
    No,
}

/// What is told of a screen.
#[derive(Drop)]
pub struct Told {
    /// The name of its layout's file; empty where there is none.
    pub name: Vec<u8>,
    pub verdict: Verdict,
    /// How many findings there are.
    pub findings: u64,
    /// The number of the turn, where there are several, and each finding.
    pub lines: Vec<String>,
}

fn finding_text(alloc: Global, entries: &[Entry], finding: Finding) -> Result<String, AllocError>
    ensures { IfOk result (λ text. string_bytes text ≡ finding_text entries.now finding) }
{
    let mut text = String::new(alloc);
    finding.push_text(&mut text, entries)?;
    Ok(text)
}

fn turn_text(alloc: Global, turn: usize) -> Result<String, AllocError>
    ensures { IfOk result (λ text. string_bytes text ≡ codes "turn " ++ decimal turn) }
{
    format!(in alloc; "turn {turn}")
}

/// The number of a turn, where there are several.
fn turn_lines(alloc: Global, several: bool, turn: usize) -> Result<Vec<String>, AllocError>
    ensures { IfOk result (λ lines. map string_bytes lines.items ≡ turn_texts several turn) }
{
    let mut lines = Vec::new(alloc);
    if several {
        lines.push(turn_text(alloc, turn)?)?;
    }
    Ok(lines)
}

/// Adds the findings, each a line.
fn push_findings(
    alloc: Global,
    lines: &mut Vec<String>,
    entries: &[Entry],
    findings: &[Finding],
) -> Result<(), AllocError>
    ensures { OnOk result (map string_bytes lines.new.items
        ≡ map string_bytes lines.old.items ++ map (finding_text entries.now) findings.now) }
{
    for finding in findings {
        lines.push(finding_text(alloc, entries, *finding)?)?;
    }
    Ok(())
}

/// The turn and its findings.
fn stop_lines(
    alloc: Global,
    layout: &Layout,
    several: bool,
    turn: usize,
    findings: &[Finding],
) -> Result<Vec<String>, AllocError>
    ensures { IfOk result (λ lines. map string_bytes lines.items
        ≡ stop_texts layout.now.entries several
        (record { turn = turn; findings = findings.now })) }
{
    let mut lines = turn_lines(alloc, several, turn)?;
    push_findings(alloc, &mut lines, layout.entries(), findings)?;
    Ok(lines)
}

/// A screen without findings.
fn without_lines(alloc: Global, name: &[u8], verdict: Verdict) -> Result<Told, AllocError>
    ensures { IfOk result (λ told. told_seen told ≡ no_lines name.now verdict) }
{
    Ok(Told {
        name: name.to_vec(alloc)?,
        verdict,
        findings: 0,
        lines: Vec::new(alloc),
    })
}

/// What is told of a verdict.
fn stop_told(
    alloc: Global,
    one: &Named,
    several: bool,
    verdict: &TalkVerdict,
) -> Result<Told, AllocError>
    ensures { IfOk result (λ told. told_seen told
        ≡ stop_told (named_view one.now) several (stop_in verdict.now)) }
{
    match verdict {
        TalkVerdict::Yes => without_lines(alloc, &one.name, Verdict::Yes),
        TalkVerdict::No { turn, findings } => Ok(Told {
            name: one.name.as_slice().to_vec(alloc)?,
            verdict: Verdict::No,
            findings: findings.len() as u64,
            lines: stop_lines(alloc, &one.layout, several, *turn, findings.as_slice())?,
        }),
    }
}

/// What is told of a screen that is taken for a layout, by the records that made it; none where there were too many.
///
/// # Errors
///
/// Where a request for memory was refused.
pub fn kept_told(
    alloc: Global,
    one: &Named,
    turns: Option<&[KeptRecord]>,
) -> Result<Told, AllocError>
    ensures { IfOk result (λ told. told_seen told
        ≡ kept_told (named_view one.now) (turns_seen turns.entry)) }
{
    let Some(kept) = turns else {
        return without_lines(alloc, &one.name, Verdict::NotKept);
    };
    let verdict = verdict_on(alloc, kept, &one.layout)?;
    stop_told(alloc, one, are_several(kept), &verdict)
}

/// What is told of a screen.
pub(crate) fn told_of(
    alloc: Global,
    layouts: &Layouts,
    screen: &Screen<PlaneCells>,
    turns: Option<&[KeptRecord]>,
) -> Result<Told, AllocError>
    ensures { IfOk result (λ told. told_seen told
        ≡ told_of layouts.now screen.now (turns_seen turns.entry)) }
{
    match choose(screen, layouts.all()) {
        Some(one) => kept_told(alloc, one, turns),
        None => without_lines(alloc, &[], Verdict::NoLayout),
    }
}
