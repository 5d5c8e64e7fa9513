//! The example of `ds_structured`.

use ds_structured::{StructuredField, read_fields};
use std::alloc::{AllocError, Global};

/// Whether a record asks for the terminal's features.
fn asks(alloc: Global, record: &[u8]) -> Result<bool, AllocError> {
    let Some(fields) = read_fields(alloc, record)? else {
        return Ok(false);
    };
    Ok(matches!(fields.as_slice(), [StructuredField::Query(_), ..]))
}
