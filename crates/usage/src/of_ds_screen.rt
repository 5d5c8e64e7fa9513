//! The example of `ds_screen`.

use ds_codec::{Geometry, Record};
use ds_screen::{PlaneCells, Screen};
use std::alloc::{AllocError, Global};

/// Where the cursor stands on a new screen after a record, or none where it can't be shown.
fn cursor(alloc: Global, geometry: Geometry, bytes: &[u8]) -> Result<Option<u32>, AllocError> {
    let mut screen: Screen<PlaneCells> = Screen::new(alloc, geometry)?;
    match Record::read(geometry.mode(), bytes) {
        Ok(record) if screen.apply(&record).is_ok() => Ok(Some(screen.cursor())),
        _ => Ok(None),
    }
}
