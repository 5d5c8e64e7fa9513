//! The example of `cli_buffers`.

use cli_buffers::{SizesLine, buffer_text};
use cli_commands::{Answer, CommandError};
use std::alloc::Global;

/// The record of each screen, with the line of sizes that `show` reads.
fn records(alloc: Global, answers: &[u8]) -> Result<Answer, CommandError> {
    buffer_text(alloc, SizesLine::Told, answers)
}
