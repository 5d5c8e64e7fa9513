//! The example of `cli_traces`.

use cli_traces::{Asked, Source, Told, records_text};
use std::alloc::{AllocError, Global};
use tn_traces::Side;

/// The records of the host's side of a trace.
fn records(alloc: Global, trace: &[u8]) -> Result<Told, AllocError> {
    records_text(alloc, Asked::records(Source::Trace, Side::Host), trace)
}
