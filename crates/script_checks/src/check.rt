//! The action `Check`.

ghost use Rattle.std.specs.Prelude.{◌≡◌, ◌++◌, codes, map, IfOk, OnOk};
ghost use Rattle.std.specs.String.{string_bytes};
ghost use Rattle.scr_check.specs.TalkSeen.{stop_in};
ghost use Rattle.scr_check.specs.FindingText.{finding_text};
ghost use Rattle.script_screens.specs.Lines.{Says, failed};
ghost use Rattle.script_checks.specs.KnownView.{turns_seen};
ghost use Rattle.script_checks.specs.Lines.{clean, line_after, lines_after};
ghost use Rattle.script_checks.specs.Read.{layout_for, refusal_text};
ghost use Rattle.script_checks.specs.ReadSeen.{read_seen};
ghost use Rattle.script_checks.specs.Said.{turn_texts, stop_texts, verdict_said, kept_said, layout_said, said_of_check};

use crate::dialogue::{are_several, verdict_on};
use crate::lines::{DATA, begin_data, end_line, push_clean, push_decimal, push_line};
use crate::read::{LayoutRefusal, LayoutText, layout_for};
use ds_codec::Geometry;
use scr_check::{Finding, TalkVerdict};
use scr_layout::{Entry, Layout};
use script_screens::Outcome;
use std::alloc::{AllocError, Global};
use tn_session::KeptRecord;

/// Adds the line of a finding.
fn push_finding(
    alloc: Global,
    out: &mut Vec<u8>,
    front: &[u8],
    entries: &[Entry],
    finding: Finding,
) -> Result<(), AllocError>
    ensures { OnOk result (out.new.items
        ≡ out.old.items ++ line_after front.now (finding_text entries.now finding)) }
{
    let mut text = String::new(alloc);
    finding.push_text(&mut text, entries)?;
    push_line(out, front, text.as_bytes())
}

/// Adds a line of the number of a turn, where there are several.
fn push_turn(out: &mut Vec<u8>, front: &[u8], several: bool, turn: usize) -> Result<(), AllocError>
    ensures { OnOk result (out.new.items
        ≡ out.old.items ++ lines_after front.now (turn_texts several turn)) }
{
    if !several {
        return Ok(());
    }
    out.extend_from_slice(front)?;
    out.extend_from_slice(b"turn ")?;
    push_decimal(out, turn as u64)?;
    out.extend_from_slice(b"\n")
}

/// Adds the lines of findings.
fn push_findings(
    alloc: Global,
    out: &mut Vec<u8>,
    front: &[u8],
    entries: &[Entry],
    findings: &[Finding],
) -> Result<(), AllocError>
    ensures { OnOk result (out.new.items
        ≡ out.old.items ++ lines_after front.now (map (finding_text entries.now) findings.now)) }
{
    for finding in findings {
        push_finding(alloc, out, front, entries, *finding)?;
    }
    Ok(())
}

/// Adds the lines of a turn and its findings.
fn push_stop(
    alloc: Global,
    out: &mut Vec<u8>,
    front: &[u8],
    layout: &Layout,
    several: bool,
    turn: usize,
    findings: &[Finding],
) -> Result<(), AllocError>
    ensures { OnOk result (out.new.items ≡ out.old.items ++ lines_after front.now
        (stop_texts layout.now.entries several (record { turn = turn; findings = findings.now }))) }
{
    push_turn(out, front, several, turn)?;
    push_findings(alloc, out, front, layout.entries(), findings)
}

/// Adds the data lines of a verdict.
fn push_verdict(
    alloc: Global,
    out: &mut Vec<u8>,
    layout: &Layout,
    several: bool,
    verdict: &TalkVerdict,
) -> Result<Outcome, AllocError>
    ensures { IfOk result (λ outcome. Says out.old.items out.new.items outcome
        (verdict_said layout.now.entries several (stop_in verdict.now))) }
{
    match verdict {
        TalkVerdict::Yes => {
            push_line(out, DATA, b"yes")?;
            Ok(Outcome::Done)
        }
        TalkVerdict::No { turn, findings } => {
            push_stop(
                alloc,
                out,
                DATA,
                layout,
                several,
                *turn,
                findings.as_slice(),
            )?;
            Ok(Outcome::Failed)
        }
    }
}

/// Adds the data line of records that aren't kept, or those of the verdict on them.
fn push_kept(
    alloc: Global,
    out: &mut Vec<u8>,
    turns: Option<&[KeptRecord]>,
    layout: &Layout,
) -> Result<Outcome, AllocError>
    ensures { IfOk result (λ outcome. Says out.old.items out.new.items outcome
        (kept_said layout.now (turns_seen turns.entry))) }
{
    let Some(kept) = turns else {
        push_line(out, DATA, b"Check(): input too long")?;
        return Ok(Outcome::Failed);
    };
    let verdict = verdict_on(alloc, kept, layout)?;
    push_verdict(alloc, out, layout, are_several(kept), &verdict)
}

fn refusal_words(alloc: Global, refusal: LayoutRefusal) -> Result<String, AllocError>
    ensures { IfOk result (λ words. string_bytes words ≡ refusal_text refusal) }
{
    format!(in alloc; "{refusal}")
}

/// Adds the data line of a fault, of two parts.
fn push_fault(out: &mut Vec<u8>, name: &[u8], words: &[u8]) -> Result<Outcome, AllocError>
    ensures { IfOk result (λ outcome. Says out.old.items out.new.items outcome
        (failed (name.now ++ words.now))) }
{
    begin_data(out)?;
    out.extend_from_slice(name)?;
    out.extend_from_slice(words)?;
    end_line(out)?;
    Ok(Outcome::Failed)
}

/// Adds the data line of a fault of a file, and of its cause.
fn push_cause(
    out: &mut Vec<u8>,
    name: &[u8],
    path: &[u8],
    mark: &[u8],
    cause: &[u8],
) -> Result<Outcome, AllocError>
    ensures { IfOk result (λ outcome. Says out.old.items out.new.items outcome
        (failed (name.now ++ (clean path.now ++ (mark.now ++ clean cause.now))))) }
{
    begin_data(out)?;
    out.extend_from_slice(name)?;
    push_clean(out, path)?;
    out.extend_from_slice(mark)?;
    push_clean(out, cause)?;
    end_line(out)?;
    Ok(Outcome::Failed)
}

/// Adds the data line of a refusal.
fn push_refusal(
    alloc: Global,
    out: &mut Vec<u8>,
    refusal: LayoutRefusal,
) -> Result<Outcome, AllocError>
    ensures { IfOk result (λ outcome. Says out.old.items out.new.items outcome
        (failed (codes "Check(): " ++ refusal_text refusal))) }
{
    let words = refusal_words(alloc, refusal)?;
    push_fault(out, b"Check(): ", words.as_bytes())
}

/// Adds the data line of a file that can't be read.
fn push_unreadable(out: &mut Vec<u8>, path: &[u8], cause: &[u8]) -> Result<Outcome, AllocError>
    ensures { IfOk result (λ outcome. Says out.old.items out.new.items outcome
        (failed (codes "Check(): " ++ (clean path.now ++ (codes ": " ++ clean cause.now))))) }
{
    push_cause(out, b"Check(): ", path, b": ", cause)
}

fn push_text(
    alloc: Global,
    out: &mut Vec<u8>,
    turns: Option<&[KeptRecord]>,
    geometry: Geometry,
    text: &[u8],
) -> Result<Outcome, AllocError>
    ensures { IfOk result (λ outcome. Says out.old.items out.new.items outcome
        (layout_said (turns_seen turns.entry) (layout_for geometry text.now))) }
{
    match layout_for(alloc, geometry, text)? {
        Ok(layout) => push_kept(alloc, out, turns, &layout),
        Err(refusal) => push_refusal(alloc, out, refusal),
    }
}

/// Adds the data lines of `Check(FILE)`: whether the records that made the screen, parted into turns where the operator sent, lead
/// to a screen with exactly the fields of the file's layout. They are judged as `check` judges one turn, and `talk` several that all
/// have this layout: `yes`, or the findings in the text of `check`, with the number of their turn first where there are several. The
/// records are none where there were too many. A file that can't be read, that is no layout, or that is for a device of other sizes
/// than this geometry's is a fault. Controls of the file's name and of the cause are printed as `?`.
///
/// # Errors
///
/// Where a request for memory was refused.
pub fn push_check(
    alloc: Global,
    out: &mut Vec<u8>,
    turns: Option<&[KeptRecord]>,
    geometry: Geometry,
    path: &[u8],
    read: LayoutText<'_>,
) -> Result<Outcome, AllocError>
    ensures { IfOk result (λ outcome. Says out.old.items out.new.items outcome
        (said_of_check (turns_seen turns.entry) geometry path.now (read_seen read.entry))) }
{
    match read {
        LayoutText::Text(text) => push_text(alloc, out, turns, geometry, text),
        LayoutText::Unreadable(cause) => push_unreadable(out, path, cause),
    }
}
