//! The report of a suite as the XML that readers of JUnit reports take: a test case for each screen, without times.

ghost use Rattle.std.specs.Prelude.{◌≡◌, ◌++◌, OnOk, map, string_bytes};
ghost use Rattle.std.specs.List.{flat_map};
ghost use Rattle.cli_suites.specs.Escaped.{escaped};
ghost use Rattle.cli_suites.specs.Settled.{settled_seen};
ghost use Rattle.cli_suites.specs.Junit.{accepted_part, case_begin, case_body, escaped_line, failed_part, failure_begin, head, junit_begin, junit_case, junit_end, junit_refusal, one_refused, refused_case, refused_part, some_accepted, told_part, totals_part};

use crate::count::Totals;
use crate::escaped::push_escaped;
use crate::settled::{Settled, Verdict};
use crate::text::push_counted;
use std::alloc::AllocError;

fn push_line(out: &mut String, line: &str) -> Result<(), AllocError>
    ensures { OnOk result (string_bytes out.new ≡ string_bytes out.old ++ escaped_line line.now) }
{
    push_escaped(out, line)?;
    out.push_str("\n")
}

/// Lines, each ended.
fn push_lines(out: &mut String, lines: &[String]) -> Result<(), AllocError>
    ensures { OnOk result (string_bytes out.new
        ≡ string_bytes out.old ++ flat_map escaped_line (map string_bytes lines.now)) }
{
    for line in lines {
        push_line(out, line.as_str())?;
    }
    Ok(())
}

/// How many findings there are.
#[tactic(auto, unfolding(crate::specs::Junit::failure_begin))]
fn push_failure(out: &mut String, findings: u64) -> Result<(), AllocError>
    ensures { OnOk result (string_bytes out.new ≡ string_bytes out.old ++ failure_begin findings) }
{
    out.push_str("<failure message=\"")?;
    push_counted(out, findings, "finding")?;
    out.push_str("\">")
}

/// What stands against a screen.
#[tactic(auto, unfolding(crate::specs::Junit::failed_part))]
fn push_failed(out: &mut String, settled: &Settled) -> Result<(), AllocError>
    ensures { OnOk result (string_bytes out.new ≡ string_bytes out.old
        ++ failed_part (settled_seen settled.now)) }
{
    push_failure(out, settled.findings)?;
    push_lines(out, settled.lines.as_slice())?;
    out.push_str("</failure>\n")
}

/// What is refused.
#[tactic(auto, unfolding(crate::specs::Junit::refused_part))]
fn push_refused(out: &mut String, settled: &Settled) -> Result<(), AllocError>
    ensures { OnOk result (string_bytes out.new ≡ string_bytes out.old
        ++ refused_part (settled_seen settled.now)) }
{
    out.push_str("<error message=\"refused\">")?;
    push_lines(out, settled.lines.as_slice())?;
    out.push_str("</error>\n")
}

fn push_told(out: &mut String, settled: &Settled) -> Result<(), AllocError>
    ensures { OnOk result (string_bytes out.new ≡ string_bytes out.old
        ++ told_part settled.now.verdict (settled_seen settled.now)) }
{
    match settled.verdict {
        Verdict::Yes => Ok(()),
        Verdict::No => push_failed(out, settled),
        Verdict::Refused => push_refused(out, settled),
    }
}

#[tactic(auto, unfolding(crate::specs::Junit::some_accepted))]
fn push_some_accepted(out: &mut String, came: &[String]) -> Result<(), AllocError>
    ensures { OnOk result (string_bytes out.new ≡ string_bytes out.old
        ++ some_accepted (map string_bytes came.now)) }
{
    out.push_str("<system-out>accepted:\n")?;
    push_lines(out, came)?;
    out.push_str("</system-out>\n")
}

/// The findings that are accepted, if there are any.
fn push_accepted(out: &mut String, came: &[String]) -> Result<(), AllocError>
    ensures { OnOk result (string_bytes out.new ≡ string_bytes out.old
        ++ accepted_part (map string_bytes came.now)) }
{
    match came {
        [] => Ok(()),
        [_, ..] => push_some_accepted(out, came),
    }
}

#[tactic(auto, unfolding(crate::specs::Junit::case_begin))]
fn push_case_begin(out: &mut String, name: &str) -> Result<(), AllocError>
    ensures { OnOk result (string_bytes out.new ≡ string_bytes out.old ++ case_begin name.now) }
{
    out.push_str("<testcase classname=\"screens\" name=\"")?;
    push_escaped(out, name)?;
    out.push_str("\">\n")
}

/// What stands against a screen, and what is accepted.
#[tactic(auto, unfolding(crate::specs::Junit::case_body))]
fn push_case_body(out: &mut String, settled: &Settled) -> Result<(), AllocError>
    ensures { OnOk result (string_bytes out.new
        ≡ string_bytes out.old ++ case_body (settled_seen settled.now)) }
{
    push_told(out, settled)?;
    push_accepted(out, settled.came.as_slice())
}

/// The test case of a screen.
pub(crate) fn push_junit_case(
    out: &mut String,
    name: &str,
    settled: &Settled,
) -> Result<(), AllocError>
    ensures { OnOk result (string_bytes out.new
        ≡ string_bytes out.old ++ junit_case name.now (settled_seen settled.now)) }
{
    push_case_begin(out, name)?;
    push_case_body(out, settled)?;
    out.push_str("</testcase>\n")
}

/// How a report begins.
#[tactic(auto, unfolding(crate::specs::Junit::head))]
fn push_head(out: &mut String) -> Result<(), AllocError>
    ensures { OnOk result (string_bytes out.new ≡ string_bytes out.old ++ head) }
{
    out.push_str(
        "<?xml version=\"1.0\" encoding=\"UTF-8\"?>\n<testsuites>\n<testsuite name=\"term3270 suite\"",
    )
}

/// How many test cases there are, how many fail, and how many are refused.
#[tactic(auto, unfolding(crate::specs::Junit::totals_part))]
fn push_totals(out: &mut String, totals: Totals) -> Result<(), AllocError>
    ensures { OnOk result (string_bytes out.new ≡ string_bytes out.old ++ totals_part totals) }
{
    let screens = totals.screens;
    let no = totals.no;
    let refused = totals.refused;
    write!(
        out,
        " tests=\"{screens}\" failures=\"{no}\" errors=\"{refused}\">\n"
    )
}

/// What comes before the test cases: how many there are, how many fail, and how many are refused.
#[tactic(auto, unfolding(crate::specs::Junit::junit_begin))]
pub(crate) fn push_junit_begin(out: &mut String, totals: Totals) -> Result<(), AllocError>
    ensures { OnOk result (string_bytes out.new ≡ string_bytes out.old ++ junit_begin totals) }
{
    push_head(out)?;
    push_totals(out, totals)
}

/// What comes after them.
#[tactic(auto, unfolding(crate::specs::Junit::junit_end))]
pub(crate) fn push_junit_end(out: &mut String) -> Result<(), AllocError>
    ensures { OnOk result (string_bytes out.new ≡ string_bytes out.old ++ junit_end) }
{
    out.push_str("</testsuite>\n</testsuites>\n")
}

/// The test case of a suite that is refused.
#[tactic(auto, unfolding(crate::specs::Junit::refused_case))]
fn push_refused_case(out: &mut String, words: &str) -> Result<(), AllocError>
    ensures { OnOk result (string_bytes out.new ≡ string_bytes out.old ++ refused_case words.now) }
{
    out.push_str("<testcase classname=\"screens\" name=\"suite\">\n<error message=\"refused\">")?;
    push_line(out, words)?;
    out.push_str("</error>\n</testcase>\n")
}

fn one_refused() -> Totals
    ensures { result ≡ one_refused }
{
    Totals {
        screens: 1,
        yes: 0,
        no: 0,
        refused: 1,
        findings: 0,
        accepted: 0,
    }
}

/// A report of that alone.
pub(crate) fn push_junit_refusal(out: &mut String, words: &str) -> Result<(), AllocError>
    ensures { OnOk result (string_bytes out.new
        ≡ string_bytes out.old ++ junit_refusal words.now) }
{
    push_junit_begin(out, one_refused())?;
    push_refused_case(out, words)?;
    push_junit_end(out)
}
