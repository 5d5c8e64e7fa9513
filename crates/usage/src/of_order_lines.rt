//! The example of `order_lines`.

use ds_codec::{Mode, Record};
use order_lines::push_record;
use std::alloc::{AllocError, Global};

/// The lines of a record, or nothing where it can't be read.
fn lines(alloc: Global, bytes: &[u8]) -> Result<String, AllocError> {
    let mut out = String::new(alloc);
    if let Ok(record) = Record::read(Mode::Bits14, bytes) {
        push_record(&mut out, &record)?;
    }
    Ok(out)
}
