//! What is told under a finding: where it is on the screen, what it means, and what mends it.

ghost use Rattle.std.specs.Prelude.{◌≡◌, ◌≤◌, ◌++◌, option_map, OnOk, string_bytes};
ghost use Rattle.std.specs.List.{flat_map};
ghost use Rattle.cli_reports.specs.Explain.{spot_words, screen_words, place_line, means_line, mend_line, added_on, explanation, explained_lines};

use crate::add::push_added;
use crate::extent::push_length;
use crate::label::push_label_words;
use cli_findings::{column_at, help_text, meaning_of_finding, place_of, row_at};
use ds_codec::Size;
use ds_screen::PlaneCells;
use ds_terminal::Terminal;
use scr_check::{Finding, Traced};
use scr_layout::Layout;
use std::alloc::{AllocError, Global};

/// The row and the column of a place, counted from 1.
#[tactic(auto, unfolding(crate::specs::Explain::spot_words))]
fn push_spot(out: &mut String, row: u64, column: u64) -> Result<(), AllocError>
    ensures { OnOk result (string_bytes out.new ≡ string_bytes out.old ++ spot_words row column) }
{
    write!(out, "  at row {row}, column {column}")
}

/// How many cells the field has, and what stands before it on its row.
fn push_screen(
    out: &mut String,
    terminal: Option<&Terminal<PlaneCells>>,
    place: u32,
) -> Result<(), AllocError>
    ensures { OnOk result (string_bytes out.new ≡ string_bytes out.old
        ++ screen_words (option_map (λ t. t.now) terminal.entry) place) }
{
    let Some(terminal) = terminal else {
        return Ok(());
    };
    push_length(out, terminal.screen(), place)?;
    push_label_words(out, terminal.screen(), place)
}

/// Where the field is, if the finding is about one.
fn push_place(
    out: &mut String,
    size: Size,
    terminal: Option<&Terminal<PlaneCells>>,
    place: Option<u32>,
) -> Result<(), AllocError>
    requires { 1 ≤ size.cols }
    ensures { OnOk result (string_bytes out.new ≡ string_bytes out.old
        ++ place_line size (option_map (λ t. t.now) terminal.entry) place) }
{
    let Some(place) = place else {
        return Ok(());
    };
    push_spot(out, row_at(size, place), column_at(size, place))?;
    push_screen(out, terminal, place)?;
    out.push_str("\n")
}

fn push_means(out: &mut String, meaning: &str) -> Result<(), AllocError>
    ensures { OnOk result (string_bytes out.new ≡ string_bytes out.old ++ means_line meaning.now) }
{
    out.push_str("  means: ")?;
    out.push_str(meaning)?;
    out.push_str("\n")
}

/// The change that mends it, where one is known.
fn push_mend(out: &mut String, help: Option<String>) -> Result<(), AllocError>
    ensures { OnOk result (string_bytes out.new ≡ string_bytes out.old
        ++ mend_line (option_map string_bytes help)) }
{
    let Some(help) = help else {
        return Ok(());
    };
    out.push_str("  mend: ")?;
    out.push_str(help.as_str())?;
    out.push_str("\n")
}

/// What to add, where the screen is known.
fn push_added_on(
    alloc: Global,
    out: &mut String,
    layout: &Layout,
    terminal: Option<&Terminal<PlaneCells>>,
    finding: &Finding,
) -> Result<(), AllocError>
    ensures { OnOk result (string_bytes out.new ≡ string_bytes out.old
        ++ added_on layout.now (option_map (λ t. t.now) terminal.entry) finding.now) }
{
    match terminal {
        Some(terminal) => push_added(alloc, out, layout, terminal.screen(), finding),
        None => Ok(()),
    }
}

/// The lines under a finding.
fn push_explanation(
    alloc: Global,
    out: &mut String,
    layout: &Layout,
    terminal: Option<&Terminal<PlaneCells>>,
    traced: &Traced,
) -> Result<(), AllocError>
    ensures { OnOk result (string_bytes out.new ≡ string_bytes out.old
        ++ explanation layout.now (option_map (λ t. t.now) terminal.entry) traced.now) }
{
    let place = place_of(layout.entries(), &traced.finding);
    push_place(out, layout.size(), terminal, place)?;
    push_means(out, meaning_of_finding(&traced.finding))?;
    push_mend(out, help_text(alloc, layout, traced)?)?;
    push_added_on(alloc, out, layout, terminal, &traced.finding)
}

/// The line of a finding, and those under it.
fn push_finding(
    alloc: Global,
    out: &mut String,
    layout: &Layout,
    terminal: Option<&Terminal<PlaneCells>>,
    traced: &Traced,
) -> Result<(), AllocError>
    ensures { OnOk result (string_bytes out.new ≡ string_bytes out.old
        ++ explained_lines layout.now (option_map (λ t. t.now) terminal.entry) traced.now) }
{
    traced.finding.push_text(out, layout.entries())?;
    out.push_str("\n")?;
    push_explanation(alloc, out, layout, terminal, traced)
}

/// Those of all findings.
pub(crate) fn push_findings(
    alloc: Global,
    out: &mut String,
    layout: &Layout,
    terminal: Option<&Terminal<PlaneCells>>,
    findings: &[Traced],
) -> Result<(), AllocError>
    ensures { OnOk result (string_bytes out.new ≡ string_bytes out.old
        ++ flat_map (explained_lines layout.now (option_map (λ t. t.now) terminal.entry)) findings.now) }
{
    for finding in findings {
        push_finding(alloc, out, layout, terminal, finding)?;
    }
    Ok(())
}
