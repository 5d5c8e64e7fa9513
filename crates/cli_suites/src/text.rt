//! The report of a suite as lines.

ghost use Rattle.std.specs.Prelude.{◌≡◌, ◌++◌, OnOk, map, string_bytes};
ghost use Rattle.std.specs.List.{flat_map};
ghost use Rattle.cli_suites.specs.Settled.{settled_seen};
ghost use Rattle.cli_suites.specs.Text.{accepted_line, accepted_lines, counted_words, findings_words, indented, refused_words, screens_words, text_case, totals_line, verdict_words};

use crate::count::Totals;
use crate::settled::{Settled, Verdict};
use std::alloc::AllocError;

/// A number of things, as `2 findings`.
pub(crate) fn push_counted(out: &mut String, count: u64, thing: &str) -> Result<(), AllocError>
    ensures { OnOk result (string_bytes out.new
        ≡ string_bytes out.old ++ counted_words count thing.now) }
{
    if count == 1 {
        write!(out, "1 {thing}")
    } else {
        write!(out, "{count} {thing}s")
    }
}

fn push_verdict(out: &mut String, settled: &Settled) -> Result<(), AllocError>
    ensures { OnOk result (string_bytes out.new ≡ string_bytes out.old
        ++ verdict_words settled.now.verdict settled.now.findings) }
{
    match settled.verdict {
        Verdict::Yes => out.push_str("yes"),
        Verdict::No => push_counted(out, settled.findings, "finding"),
        Verdict::Refused => out.push_str("refused"),
    }
}

fn push_indented(out: &mut String, line: &str) -> Result<(), AllocError>
    ensures { OnOk result (string_bytes out.new ≡ string_bytes out.old ++ indented line.now) }
{
    write!(out, "  {line}\n")
}

fn push_lines(out: &mut String, lines: &[String]) -> Result<(), AllocError>
    ensures { OnOk result (string_bytes out.new
        ≡ string_bytes out.old ++ flat_map indented (map string_bytes lines.now)) }
{
    for line in lines {
        push_indented(out, line.as_str())?;
    }
    Ok(())
}

/// The lines of a screen.
pub(crate) fn push_text_case(
    out: &mut String,
    name: &str,
    settled: &Settled,
) -> Result<(), AllocError>
    ensures { OnOk result (string_bytes out.new
        ≡ string_bytes out.old ++ text_case name.now (settled_seen settled.now)) }
{
    out.push_str(name)?;
    out.push_str(": ")?;
    push_verdict(out, settled)?;
    out.push_str("\n")?;
    push_lines(out, settled.lines.as_slice())
}

fn push_accepted_line(out: &mut String, name: &str, line: &str) -> Result<(), AllocError>
    ensures { OnOk result (string_bytes out.new
        ≡ string_bytes out.old ++ accepted_line name.now line.now) }
{
    write!(out, "accepted {name}: {line}\n")
}

/// The lines of accepted findings that come.
pub(crate) fn push_accepted(out: &mut String, name: &str, came: &[String]) -> Result<(), AllocError>
    ensures { OnOk result (string_bytes out.new
        ≡ string_bytes out.old ++ accepted_lines name.now (map string_bytes came.now)) }
{
    for line in came {
        push_accepted_line(out, name, line.as_str())?;
    }
    Ok(())
}

/// How many are refused, where any is.
fn push_refused(out: &mut String, refused: u64) -> Result<(), AllocError>
    ensures { OnOk result (string_bytes out.new ≡ string_bytes out.old ++ refused_words refused) }
{
    if refused == 0 {
        return Ok(());
    }
    write!(out, ", {refused} refused")
}

/// How many screens there are, and what is said of them.
fn push_screens(out: &mut String, totals: Totals) -> Result<(), AllocError>
    ensures { OnOk result (string_bytes out.new ≡ string_bytes out.old ++ screens_words totals) }
{
    let yes = totals.yes;
    let no = totals.no;
    push_counted(out, totals.screens, "screen")?;
    write!(out, ", {yes} yes, {no} no")
}

/// How many findings there are, and how many are accepted.
fn push_findings(out: &mut String, totals: Totals) -> Result<(), AllocError>
    ensures { OnOk result (string_bytes out.new ≡ string_bytes out.old ++ findings_words totals) }
{
    let accepted = totals.accepted;
    out.push_str(", ")?;
    push_counted(out, totals.findings, "finding")?;
    write!(out, ", {accepted} accepted\n")
}

/// The line of the totals.
pub(crate) fn push_text_end(out: &mut String, totals: Totals) -> Result<(), AllocError>
    ensures { OnOk result (string_bytes out.new ≡ string_bytes out.old ++ totals_line totals) }
{
    push_screens(out, totals)?;
    push_refused(out, totals.refused)?;
    push_findings(out, totals)
}
