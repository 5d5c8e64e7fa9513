//! What is found of records that are held.

ghost use Rattle.std.specs.Prelude.{◌≡◌, IfOk};
ghost use Rattle.scr_check.specs.Findings.{answer_of};
ghost use Rattle.cli_commands.specs.Held.{records_held};

use crate::commands::check::lent;
use scr_check::{Finding, Verdict, check};
use scr_layout::Layout;
use std::alloc::{AllocError, Global};

/// What `check` finds of records and a layout.
///
/// # Errors
///
/// Where a request for memory was refused.
pub fn findings_of(
    alloc: Global,
    layout: &Layout,
    records: &[Vec<u8>],
) -> Result<Vec<Finding>, AllocError>
    ensures { IfOk result (λ findings. findings.items
        ≡ answer_of layout.now (records_held records.now)) }
{
    let slices = lent(alloc, records)?;
    match check(alloc, slices.as_slice(), layout)? {
        Verdict::Yes => Ok(Vec::new(alloc)),
        Verdict::No(findings) => Ok(findings),
    }
}
