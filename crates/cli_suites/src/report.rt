//! The report of a suite: a part for each screen, and the totals.

ghost use Rattle.std.specs.Prelude.{◌≡◌, ◌++◌, IfOk, OnOk, string_bytes};
ghost use Rattle.cli_commands.specs.Held.{answer_seen};
ghost use Rattle.cli_findings.specs.Results.{results_seen};
ghost use Rattle.cli_suites.specs.Count.{plus};
ghost use Rattle.cli_suites.specs.Report.{add, case_text, counted_in, end_text, json_lines, junit_text, log_text, no_report, printed_report, report_seen, status_of, text_end};
ghost use Rattle.cli_suites.specs.Settled.{settled_seen};

use crate::count::{Totals, plus};
use crate::json::{push_json_case, push_json_end};
use crate::junit::{push_junit_begin, push_junit_case, push_junit_end};
use crate::rule::suite_rules;
use crate::settled::{Settled, Verdict};
use crate::text::{push_accepted, push_text_case, push_text_end};
use cli_commands::{Answer, Status};
use cli_findings::{Results, results_line};
use std::alloc::{AllocError, Global};

/// The form of a report.
#[derive(Clone, Copy, Debug, PartialEq, Eq)]
pub enum Form {
    /// A line for each screen, with its findings indented below it, and one of the totals.
    Text,
    /// A JSON object a line for each screen, and one of the totals.
    Json,
    /// The XML of JUnit: a test case for each screen.
    Junit,
    /// A log of SARIF 2.1.0 on one line: a result for each finding and each input that is refused.
    Sarif,
}

/// The report so far.
#[derive(Drop)]
pub(crate) struct Report {
    /// The parts of the screens.
    pub text: String,
    /// A line for each accepted finding that came.
    pub accepted: String,
    /// In the log, the results of the screens.
    pub results: Results,
    pub totals: Totals,
}

/// Nothing yet.
pub(crate) fn no_report(alloc: Global) -> Report
    ensures { report_seen result ≡ no_report }
{
    Report {
        text: String::new(alloc),
        accepted: String::new(alloc),
        results: Results::new(alloc),
        totals: Totals {
            screens: 0,
            yes: 0,
            no: 0,
            refused: 0,
            findings: 0,
            accepted: 0,
        },
    }
}

/// The totals with one more screen.
fn counted_in(totals: Totals, settled: &Settled) -> Totals
    ensures { result ≡ counted_in totals (settled_seen settled.now) }
{
    let more = Totals {
        screens: plus(totals.screens, 1),
        findings: plus(totals.findings, settled.findings),
        accepted: plus(totals.accepted, settled.came.len() as u64),
        ..totals
    };
    match settled.verdict {
        Verdict::Yes => Totals {
            yes: plus(more.yes, 1),
            ..more
        },
        Verdict::No => Totals {
            no: plus(more.no, 1),
            ..more
        },
        Verdict::Refused => Totals {
            refused: plus(more.refused, 1),
            ..more
        },
    }
}

/// The part of a screen.
fn push_case(
    alloc: Global,
    form: Form,
    out: &mut String,
    name: &str,
    settled: &Settled,
) -> Result<(), AllocError>
    ensures { OnOk result (string_bytes out.new ≡ string_bytes out.old
        ++ case_text form name.now (settled_seen settled.now)) }
{
    match form {
        Form::Text => push_text_case(out, name, settled),
        Form::Json => push_json_case(alloc, out, name, settled),
        Form::Junit => push_junit_case(out, name, settled),
        Form::Sarif => Ok(()),
    }
}

/// Adds a screen to a report, with its results in the log.
pub(crate) fn add(
    alloc: Global,
    form: Form,
    report: &mut Report,
    name: &str,
    settled: &Settled,
    results: Results,
) -> Result<(), AllocError>
    ensures { OnOk result (report_seen report.new ≡ add form (report_seen report.old) name.now
        (settled_seen settled.now) (results_seen results)) }
{
    push_case(alloc, form, &mut report.text, name, settled)?;
    push_accepted(&mut report.accepted, name, settled.came.as_slice())?;
    report.results.append(results)?;
    report.totals = counted_in(report.totals, settled);
    Ok(())
}

/// The status of a suite: that of its worst screen.
fn status_of(totals: Totals) -> Status
    ensures { result ≡ status_of totals }
{
    if totals.refused != 0 {
        Status::BadInput
    } else if totals.findings != 0 {
        Status::Findings
    } else {
        Status::Done
    }
}

fn text_end(alloc: Global, report: &Report) -> Result<String, AllocError>
    ensures { IfOk result (λ text. string_bytes text ≡ text_end (report_seen report.now)) }
{
    let mut text = String::from_str(alloc, report.text.as_str())?;
    text.push_str(report.accepted.as_str())?;
    push_text_end(&mut text, report.totals)?;
    Ok(text)
}

fn json_lines(alloc: Global, report: &Report) -> Result<String, AllocError>
    ensures { IfOk result (λ text. string_bytes text ≡ json_lines (report_seen report.now)) }
{
    let mut text = String::from_str(alloc, report.text.as_str())?;
    push_json_end(alloc, &mut text, report.totals)?;
    Ok(text)
}

fn junit_text(alloc: Global, report: &Report) -> Result<String, AllocError>
    ensures { IfOk result (λ text. string_bytes text ≡ junit_text (report_seen report.now)) }
{
    let mut text = String::new(alloc);
    push_junit_begin(&mut text, report.totals)?;
    text.push_str(report.text.as_str())?;
    push_junit_end(&mut text)?;
    Ok(text)
}

/// The log of these results.
#[tactic(auto, using(crate::proofs::Ruled::rules_plain, crate::proofs::Ruled::rules_nest))]
pub(crate) fn log_text(alloc: Global, results: Results) -> Result<String, AllocError>
    ensures { IfOk result (λ text. string_bytes text ≡ log_text (results_seen results)) }
{
    results_line(alloc, suite_rules(alloc)?, results)
}

/// The whole text of a report.
fn end_text(alloc: Global, form: Form, report: Report) -> Result<String, AllocError>
    ensures { IfOk result (λ text. string_bytes text ≡ end_text form (report_seen report)) }
{
    match form {
        Form::Text => text_end(alloc, &report),
        Form::Json => json_lines(alloc, &report),
        Form::Junit => junit_text(alloc, &report),
        Form::Sarif => log_text(alloc, report.results),
    }
}

/// What is printed of a report.
pub(crate) fn printed_report(
    alloc: Global,
    form: Form,
    report: Report,
) -> Result<Answer, AllocError>
    ensures { IfOk result (λ answer. answer_seen answer
        ≡ printed_report form (report_seen report)) }
{
    let status = status_of(report.totals);
    Ok(Answer {
        text: end_text(alloc, form, report)?,
        status,
    })
}
