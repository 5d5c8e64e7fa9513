//! What stands against a screen of a suite, without the findings that are accepted.

ghost use Rattle.std.specs.Prelude.{◌≡◌, ◌++◌, [], IfOk, OnOk, map, false, string_bytes};
ghost use Rattle.std.specs.List.{list_any};
ghost use Rattle.cli_commands.specs.Held.{answer_seen};
ghost use Rattle.cli_commands.specs.Lines.{lines_in};
ghost use Rattle.cli_suites.specs.Count.{plus};
ghost use Rattle.cli_suites.specs.Settled.{came_from, came_in, came_line, comes, counted, drops, has_line, is_below, is_finding, is_head, is_stale, kept, refused, settle, settled_lines, settled_of, settled_seen, stale_from, stale_in, stale_line, text_lines, unless};

use crate::count::plus;
use crate::job::Accepted;
use crate::manifest::is_accepted;
use bstr::ByteSlice;
use cli_commands::{Answer, Status};
use manifest_tables::text_in;
use std::alloc::{AllocError, Global};

/// What is said of a screen.
#[derive(Clone, Copy, Debug, PartialEq, Eq)]
pub(crate) enum Verdict {
    Yes,
    No,
    /// One of its files is refused, or can't be read.
    Refused,
}

/// What stands against a screen.
#[derive(Drop)]
pub(crate) struct Settled {
    pub verdict: Verdict,
    /// The findings that aren't accepted, each with what stands under it, and then what is accepted and doesn't come; or what
    /// is refused.
    pub lines: Vec<String>,
    /// How many of them are findings.
    pub findings: u64,
    /// The findings that are accepted and come, each with its reason.
    pub came: Vec<String>,
}

/// The lines of a text, all of which are text.
pub(crate) fn text_lines(alloc: Global, text: &str) -> Result<Vec<String>, AllocError>
    ensures { IfOk result (λ lines. map string_bytes lines.items
        ≡ text_lines (lines_in text.now)) }
{
    let mut lines = Vec::new(alloc);
    for line in text.as_bytes().lines() {
        if let Some(line) = text_in(line) {
            lines.push(String::from_str(alloc, line)?)?;
        }
    }
    Ok(lines)
}

/// Whether a line stands under a finding.
fn is_below(line: &str) -> bool
    ensures { result ≡ is_below line.now }
{
    line.as_bytes().starts_with(b"  ".as_slice())
}

/// Whether a line tells no finding: the turn that has them, or a map that is good.
fn is_head(line: &str) -> bool
    ensures { result ≡ is_head line.now }
{
    let text = line.as_bytes();
    text.starts_with(b"turn ".as_slice()) || text.ends_with(b": yes".as_slice())
}

fn is_finding(line: &str) -> bool
    ensures { result ≡ is_finding line.now }
{
    !is_below(line) && !is_head(line)
}

/// Whether a line is left out, where the one before it is or isn't: it is an accepted finding, or stands under one.
fn drops(name: &str, accepted: &[Accepted], before: bool, line: &str) -> bool
    ensures { result ≡ drops name.now accepted.now before line.now }
{
    if is_below(line) {
        before
    } else {
        is_accepted(name, line, accepted)
    }
}

/// Adds a line, unless it is left out.
fn push_unless(
    alloc: Global,
    lines: &mut Vec<String>,
    is_out: bool,
    line: &str,
) -> Result<(), AllocError>
    ensures { OnOk result (map string_bytes lines.new.items
        ≡ map string_bytes lines.old.items ++ unless is_out line.now) }
{
    if !is_out {
        lines.push(String::from_str(alloc, line)?)?;
    }
    Ok(())
}

/// The lines without the findings that are accepted.
fn kept_lines(
    alloc: Global,
    name: &str,
    accepted: &[Accepted],
    lines: &[String],
) -> Result<Vec<String>, AllocError>
    ensures { IfOk result (λ left. map string_bytes left.items
        ≡ kept name.now accepted.now false (map string_bytes lines.now)) }
{
    let mut left = Vec::new(alloc);
    let mut is_out = false;
    for line in lines {
        is_out = drops(name, accepted, is_out, line.as_str());
        push_unless(alloc, &mut left, is_out, line.as_str())?;
    }
    Ok(left)
}

/// How many of lines are findings, at most 18,446,744,073,709,551,615.
fn count_findings(lines: &[String]) -> u64
    ensures { result ≡ counted 0 (map string_bytes lines.now) }
{
    let mut count = 0u64;
    for line in lines {
        if is_finding(line.as_str()) {
            count = plus(count, 1);
        }
    }
    count
}

fn has_line(lines: &[String], text: &str) -> bool
    ensures { result ≡ has_line (map string_bytes lines.now) text.now }
{
    lines.iter().any(|line| line.as_str() == text)
}

/// Whether a finding that is accepted of a screen is among its lines.
fn comes(name: &str, lines: &[String], known: &Accepted) -> bool
    ensures { result ≡ comes name.now (map string_bytes lines.now) known.now }
{
    known.screen.as_str() == name && has_line(lines, known.finding.as_str())
}

/// Whether it is one of this screen that isn't.
fn is_stale(name: &str, lines: &[String], known: &Accepted) -> bool
    ensures { result ≡ is_stale name.now (map string_bytes lines.now) known.now }
{
    known.screen.as_str() == name && !has_line(lines, known.finding.as_str())
}

/// What is told of a finding that is accepted and doesn't come.
fn stale_line(alloc: Global, known: &Accepted) -> Result<String, AllocError>
    ensures { IfOk result (λ line. string_bytes line
        ≡ stale_line known.now) }
{
    let finding = known.finding.as_str();
    format!(in alloc; "accepted finding does not come: {finding}")
}

/// Adds it, where it is one.
fn push_stale(
    alloc: Global,
    left: &mut Vec<String>,
    name: &str,
    lines: &[String],
    known: &Accepted,
) -> Result<(), AllocError>
    ensures { OnOk result (map string_bytes left.new.items ≡ map string_bytes left.old.items
        ++ stale_in name.now (map string_bytes lines.now) known.now) }
{
    if is_stale(name, lines, known) {
        left.push(stale_line(alloc, known)?)?;
    }
    Ok(())
}

/// What is accepted of a screen and isn't among its lines.
pub(crate) fn stale_lines(
    alloc: Global,
    name: &str,
    accepted: &[Accepted],
    lines: &[String],
) -> Result<Vec<String>, AllocError>
    ensures { IfOk result (λ stale. map string_bytes stale.items
        ≡ stale_from name.now (map string_bytes lines.now) accepted.now) }
{
    let mut stale = Vec::new(alloc);
    for known in accepted {
        push_stale(alloc, &mut stale, name, lines, known)?;
    }
    Ok(stale)
}

/// Adds lines behind others.
fn with_lines(before: Vec<String>, more: Vec<String>) -> Result<Vec<String>, AllocError>
    ensures { IfOk result (λ lines. map string_bytes lines.items
        ≡ map string_bytes before.items ++ map string_bytes more.items) }
{
    let mut lines = before;
    for line in more {
        lines.push(line)?;
    }
    Ok(lines)
}

/// What is told of a finding that is accepted and comes.
fn came_line(alloc: Global, known: &Accepted) -> Result<String, AllocError>
    ensures { IfOk result (λ line. string_bytes line ≡ came_line known.now) }
{
    let finding = known.finding.as_str();
    let reason = known.reason.as_str();
    format!(in alloc; "{finding} ({reason})")
}

/// Adds it, where it is one.
fn push_came(
    alloc: Global,
    came: &mut Vec<String>,
    name: &str,
    lines: &[String],
    known: &Accepted,
) -> Result<(), AllocError>
    ensures { OnOk result (map string_bytes came.new.items ≡ map string_bytes came.old.items
        ++ came_in name.now (map string_bytes lines.now) known.now) }
{
    if comes(name, lines, known) {
        came.push(came_line(alloc, known)?)?;
    }
    Ok(())
}

/// What is accepted of a screen and is among its lines.
fn came_lines(
    alloc: Global,
    name: &str,
    accepted: &[Accepted],
    lines: &[String],
) -> Result<Vec<String>, AllocError>
    ensures { IfOk result (λ came. map string_bytes came.items
        ≡ came_from name.now (map string_bytes lines.now) accepted.now) }
{
    let mut came = Vec::new(alloc);
    for known in accepted {
        push_came(alloc, &mut came, name, lines, known)?;
    }
    Ok(came)
}

/// What stands against a screen, of which so much is kept and so much doesn't come.
fn settled_of(
    alloc: Global,
    kept: Vec<String>,
    stale: Vec<String>,
    came: Vec<String>,
) -> Result<Settled, AllocError>
    ensures { IfOk result (λ settled. settled_seen settled
        ≡ settled_of (map string_bytes kept.items) (map string_bytes stale.items)
        (map string_bytes came.items)) }
{
    let findings = plus(count_findings(kept.as_slice()), stale.len() as u64);
    if findings == 0 {
        return Ok(Settled {
            verdict: Verdict::Yes,
            lines: Vec::new(alloc),
            findings,
            came,
        });
    }
    Ok(Settled {
        verdict: Verdict::No,
        lines: with_lines(kept, stale)?,
        findings,
        came,
    })
}

/// What stands against a screen of these lines.
fn settled_lines(
    alloc: Global,
    name: &str,
    accepted: &[Accepted],
    lines: &[String],
) -> Result<Settled, AllocError>
    ensures { IfOk result (λ settled. settled_seen settled
        ≡ settled_lines name.now accepted.now (map string_bytes lines.now)) }
{
    let kept = kept_lines(alloc, name, accepted, lines)?;
    let stale = stale_lines(alloc, name, accepted, lines)?;
    let came = came_lines(alloc, name, accepted, lines)?;
    settled_of(alloc, kept, stale, came)
}

/// What is told of a screen that is refused: nothing of what is accepted comes or fails to come.
fn refused(alloc: Global, lines: Vec<String>) -> Settled
    ensures { settled_seen result ≡ refused (map string_bytes lines.items) }
{
    Settled {
        verdict: Verdict::Refused,
        lines,
        findings: 0,
        came: Vec::new(alloc),
    }
}

/// What stands against a screen by what its command answers, without the findings that are accepted of its name.
pub(crate) fn settle(
    alloc: Global,
    name: &str,
    accepted: &[Accepted],
    answer: &Answer,
) -> Result<Settled, AllocError>
    ensures { IfOk result (λ settled. settled_seen settled
        ≡ settle name.now accepted.now (answer_seen answer.now)) }
{
    match answer.status {
        Status::Done => settled_lines(alloc, name, accepted, &[]),
        Status::Findings => {
            let lines = text_lines(alloc, answer.text.as_str())?;
            settled_lines(alloc, name, accepted, lines.as_slice())
        }
        Status::BadInput | Status::Failed | Status::NoMemory => {
            let lines = text_lines(alloc, answer.text.as_str())?;
            Ok(refused(alloc, lines))
        }
    }
}
