//! The screen on which the keys of findings are tried.

ghost use Rattle.std.specs.Prelude.{◌≡◌, IfOk};
ghost use Rattle.cli_commands.specs.DemoLines.{asked, shown_on};
ghost use Rattle.cli_commands.specs.Held.{records_held};
ghost use Rattle.cli_commands.specs.declared.output.demo.Demos.{Demos};

use cli_commands::{Demos, demo_terminal};
use demo_screens::Rehearsal;
use ds_screen::PlaneCells;
use scr_layout::Layout;
use std::alloc::{AllocError, Global};

/// What keys of findings are tried on: the terminal that the records leave, unless one of them is refused.
///
/// # Errors
///
/// Where a request for memory was refused.
pub fn rehearsal_after(
    alloc: Global,
    layout: &Layout,
    records: &[Vec<u8>],
) -> Result<Option<Rehearsal<PlaneCells>>, AllocError>
    ensures { IfOk result (λ rehearsal. rehearsal
        ≡ asked Demos.Printed (shown_on layout.now (records_held records.now))) }
{
    match demo_terminal(alloc, layout, records, Demos::Printed)? {
        Some(terminal) => Ok(Some(Rehearsal::new(alloc, &terminal)?)),
        None => Ok(None),
    }
}
