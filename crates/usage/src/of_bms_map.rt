//! The example of `bms_map`.

use bms_map::{Map, layout_text};
use std::alloc::{AllocError, Global};

/// The layout of the first map, in TOML.
fn first_layout(alloc: Global, maps: &[Map]) -> Result<Option<String>, AllocError> {
    match maps {
        [first, ..] => Ok(Some(layout_text(alloc, first)?)),
        [] => Ok(None),
    }
}
