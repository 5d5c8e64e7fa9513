//! The example of `tap_screens`.

use std::alloc::{AllocError, Global};
use tap_screens::{Folder, Watch};

/// What is printed of a session of this text, whose screens are judged by these layouts.
fn judged(alloc: Global, layouts: &Folder, text: &[u8]) -> Result<Vec<u8>, AllocError> {
    let mut watch = Watch::new(alloc, Some(layouts), false);
    let (mut printed, mut left) = (Vec::new(alloc), Vec::new(alloc));
    watch.take(alloc, text, &mut printed, &mut left)?;
    Ok(printed)
}
