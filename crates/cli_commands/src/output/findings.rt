//! The lines of findings.

ghost use Rattle.std.specs.Prelude.{◌≡◌, ◌++◌, option_map, OnOk};
ghost use Rattle.std.specs.String.{string_bytes};
ghost use Rattle.std.specs.List.{flat_map};
ghost use Rattle.cli_commands.specs.DemoLines.{finding_lines};

use crate::output::demo::push_sends;
use ds_screen::PlaneCells;
use ds_terminal::Terminal;
use scr_check::Finding;
use scr_layout::Layout;
use std::alloc::{AllocError, Global};

/// The line of a finding and, from a terminal, what its keys send.
fn push_lines(
    alloc: Global,
    out: &mut String,
    layout: &Layout,
    terminal: Option<&Terminal<PlaneCells>>,
    finding: Finding,
) -> Result<(), AllocError>
    ensures { OnOk result (string_bytes out.new ≡ string_bytes out.old
        ++ finding_lines layout.now.entries (option_map (λ t. t.now) terminal.entry) finding) }
{
    finding.push_text(out, layout.entries())?;
    out.push_str("\n")?;
    push_sends(alloc, out, terminal, finding)
}

/// The lines of findings, in their order, with what their keys send where there is a terminal to press them on.
pub fn push_findings(
    alloc: Global,
    out: &mut String,
    layout: &Layout,
    terminal: Option<&Terminal<PlaneCells>>,
    findings: &[Finding],
) -> Result<(), AllocError>
    ensures { OnOk result (string_bytes out.new ≡ string_bytes out.old
        ++ flat_map (finding_lines layout.now.entries (option_map (λ t. t.now) terminal.entry)) findings.now) }
{
    for finding in findings {
        push_lines(alloc, out, layout, terminal, *finding)?;
    }
    Ok(())
}
