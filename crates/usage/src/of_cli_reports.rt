//! The example of `cli_reports`.

use cli_commands::{Answer, CommandError};
use cli_findings::Pen;
use cli_reports::explained_texts;
use std::alloc::Global;

/// What `check --explain` prints, and its status.
fn explain(alloc: Global, layout: &[u8], records: &[u8]) -> Result<Answer, CommandError> {
    explained_texts(alloc, Pen::Ignored, layout, records)
}
