//! The example of `script_screens`.

use ds_screen::{PlaneCells, Screen};
use script_screens::{CodePage, Outcome, Reading, push_reading};
use std::alloc::{AllocError, Global};

/// The data lines of all of a screen, as `Ascii()` says them.
fn all_lines(alloc: Global, screen: &Screen<PlaneCells>) -> Result<Vec<u8>, AllocError> {
    let mut lines = Vec::new(alloc);
    let _outcome: Outcome = push_reading(
        &mut lines,
        screen,
        CodePage::Bracket,
        Reading::Ascii,
        &[],
    )?;
    Ok(lines)
}
