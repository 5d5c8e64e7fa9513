//! The example of `script_checks`.

use ds_codec::Geometry;
use script_checks::{LayoutText, push_check};
use script_screens::Outcome;
use std::alloc::{AllocError, Global};
use tn_session::KeptRecord;

/// Whether the records of a screen agree with a layout.
fn agree(
    alloc: Global,
    turns: &[KeptRecord],
    geometry: Geometry,
    layout: &[u8],
) -> Result<bool, AllocError> {
    let mut lines = Vec::new(alloc);
    let read = LayoutText::Text(layout);
    let outcome = push_check(
        alloc,
        &mut lines,
        Some(turns),
        geometry,
        b"layout.toml",
        read,
    )?;
    Ok(outcome == Outcome::Done)
}
