//! What is found of records, with the orders that it comes from.

ghost use Rattle.std.specs.Prelude.{◌≡◌, map, IfOk};
ghost use Rattle.scr_check.specs.Seen.{findings_in};
ghost use Rattle.scr_check.specs.Traced.{traced_of};
ghost use Rattle.cli_commands.specs.Held.{records_held};
ghost use Rattle.cli_findings.specs.Lines.{answer_for, found_in};

use cli_commands::lent;
use scr_check::{Traced, Verdict, check, check_with_pen, trace_findings};
use scr_layout::Layout;
use std::alloc::{AllocError, Global};

/// Whether it is told what Cursor Select or a light pen may not select.
#[derive(Clone, Copy, Debug, PartialEq, Eq)]
pub enum Pen {
    Ignored,
    Asked,
}

/// The verdict on records, with the pen where it is asked for.
fn verdict_for(
    alloc: Global,
    pen: Pen,
    records: &[&[u8]],
    layout: &Layout,
) -> Result<Verdict, AllocError>
    ensures { IfOk result (λ verdict. findings_in verdict
        ≡ answer_for pen layout.now (map (λ bytes. bytes.now) records.now)) }
{
    match pen {
        Pen::Ignored => check(alloc, records, layout),
        Pen::Asked => check_with_pen(alloc, records, layout),
    }
}

/// The findings of a verdict on records, each with the orders that it comes from.
fn trace_verdict(
    alloc: Global,
    records: &[&[u8]],
    layout: &Layout,
    verdict: &Verdict,
) -> Result<Vec<Traced>, AllocError>
    ensures { IfOk result (λ traced. traced.items
        ≡ map (traced_of layout.now (map (λ bytes. bytes.now) records.now)) (findings_in verdict.now)) }
{
    match verdict {
        Verdict::Yes => Ok(Vec::new(alloc)),
        Verdict::No(findings) => trace_findings(alloc, records, layout, findings.as_slice()),
    }
}

/// What is found of records, each with the orders that it comes from; nothing where the verdict is yes.
///
/// # Errors
///
/// Where a request for memory was refused.
pub fn find(
    alloc: Global,
    pen: Pen,
    layout: &Layout,
    records: &[Vec<u8>],
) -> Result<Vec<Traced>, AllocError>
    ensures { IfOk result (λ found. found.items
        ≡ found_in pen layout.now (records_held records.now)) }
{
    let slices = lent(alloc, records)?;
    let records = slices.as_slice();
    let verdict = verdict_for(alloc, pen, records, layout)?;
    trace_verdict(alloc, records, layout, &verdict)
}
