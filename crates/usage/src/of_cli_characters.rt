//! The example of `cli_characters`.

use cli_characters::convert_characters_text;
use cli_commands::{Answer, CommandError};
use std::alloc::Global;

/// What `convert --chars` prints, and its status.
fn convert(alloc: Global, records: &[u8]) -> Result<Answer, CommandError> {
    convert_characters_text(alloc, records)
}
