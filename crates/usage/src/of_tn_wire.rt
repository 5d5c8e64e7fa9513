//! The example of `tn_wire`.

use std::alloc::{AllocError, Global};
use tn_wire::{DataType, Header, push_frame};

/// A record of 3270 data as it goes over a line.
fn framed(alloc: Global, record: &[u8]) -> Result<Vec<u8>, AllocError> {
    let header = Header {
        data_type: DataType::Data3270,
        request: 0,
        response: 0,
        seq: 0,
    };
    let mut out = Vec::new(alloc);
    push_frame(&mut out, &header.bytes(), record)?;
    Ok(out)
}
