//! The example of `cli_findings`.

use cli_commands::{Answer, CommandError};
use cli_findings::{Pen, Report, report_texts};
use std::alloc::Global;

/// What `check --format json` prints, and its status.
fn report(alloc: Global, layout: &[u8], records: &[u8]) -> Result<Answer, CommandError> {
    report_texts(alloc, Pen::Ignored, Report::Json, layout, records)
}
