//! The example of `cli_drafts`.

use cli_commands::{Answer, CommandError};
use cli_drafts::draft_text;
use std::alloc::Global;

/// What `draft` prints, and its status.
fn draft(alloc: Global, records: &[u8]) -> Result<Answer, CommandError> {
    draft_text(alloc, records)
}
