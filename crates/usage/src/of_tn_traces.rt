//! The example of `tn_traces`.

use std::alloc::{AllocError, Global};
use tn_traces::{Said, trace_line};

/// What a line of a trace of x3270 says.
fn said(alloc: Global, line: &[u8]) -> Result<Said, AllocError> {
    trace_line(alloc, line)
}
