//! The example of `cli_turns`.

use cli_commands::{Answer, CommandError};
use cli_turns::draft_turns_text;
use std::alloc::Global;

/// A layout for the screen of each turn.
fn drafts(alloc: Global, records: &[u8]) -> Result<Answer, CommandError> {
    draft_turns_text(alloc, records)
}
