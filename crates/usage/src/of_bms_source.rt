//! The example of `bms_source`.

use bms_source::lines_of;
use std::alloc::{AllocError, Global};

/// How many lines a source has.
fn line_count(alloc: Global, text: &[u8]) -> Result<usize, AllocError> {
    Ok(lines_of(alloc, text)?.len())
}
