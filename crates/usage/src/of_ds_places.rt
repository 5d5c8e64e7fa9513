//! The example of `ds_places`.

use ds_places::Pages;
use std::alloc::{AllocError, Global};

/// Of the places 300 and 40, the nearest up to 299.
fn nearest(alloc: Global) -> Result<bool, AllocError> {
    let mut pages: Pages<u32> = Pages::reserved(alloc, 800)?;
    pages.store(300);
    pages.store(40);
    Ok(matches!(pages.held(40), Some(_)))
}
