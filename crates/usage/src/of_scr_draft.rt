//! The example of `scr_draft`.

use ds_screen::{PlaneCells, Screen};
use scr_draft::draft;
use scr_layout::LayoutError;
use std::alloc::Global;

/// The layout of a screen, in TOML.
fn layout_of(alloc: Global, screen: &Screen<PlaneCells>) -> Result<String, LayoutError> {
    draft(alloc, screen)
}
