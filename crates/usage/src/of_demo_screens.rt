//! The example of `demo_screens`.

use demo_screens::Rehearsal;
use ds_screen::PlaneCells;
use ds_terminal::Terminal;
use scr_check::Demo;
use std::alloc::{AllocError, Global};

/// What two demos send from the same terminal.
fn both(
    alloc: Global,
    terminal: &Terminal<PlaneCells>,
    first: Demo,
    second: Demo,
) -> Result<(Vec<u8>, Vec<u8>), AllocError> {
    let mut rehearsal = Rehearsal::new(alloc, terminal)?;
    let one = rehearsal.sends(alloc, first)?;
    let two = rehearsal.sends(alloc, second)?;
    Ok((one, two))
}
