//! The example of `scr_layout`.

use scr_layout::{Layout, LayoutError};
use std::alloc::Global;

/// How many fields a layout declares.
fn declared(alloc: Global, text: &str) -> Result<usize, LayoutError> {
    Ok(Layout::from_text(alloc, text)?.entries().len())
}
