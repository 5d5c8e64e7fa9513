//! The example of `scr_check`.

use scr_check::{Verdict, check};
use scr_layout::Layout;
use std::alloc::{AllocError, Global};

/// Whether these records show a screen that the layout can be trusted for.
fn conforms(alloc: Global, layout: &Layout, records: &[&[u8]]) -> Result<bool, AllocError> {
    Ok(matches!(check(alloc, records, layout)?, Verdict::Yes))
}
