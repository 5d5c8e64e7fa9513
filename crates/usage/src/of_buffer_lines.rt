//! The example of `buffer_lines`.

use buffer_lines::{Open, Step, read_line};
use std::alloc::{AllocError, Global};

/// The record of a screen, where a line ends it.
fn record(alloc: Global, open: &mut Open, line: &[u8]) -> Result<Option<Vec<u8>>, AllocError> {
    let told = read_line(alloc, line)?;
    match open.take(alloc, told)? {
        Step::Ends(shot) => Ok(Some(shot.record)),
        Step::Goes | Step::Refused => Ok(None),
    }
}
