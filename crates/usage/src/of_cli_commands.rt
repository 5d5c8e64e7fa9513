//! The example of `cli_commands`.

use cli_commands::{Answer, CommandError, Demos, check_texts};
use std::alloc::Global;

/// What `check` prints, and its status.
fn check(alloc: Global, layout: &[u8], records: &[u8]) -> Result<Answer, CommandError> {
    check_texts(alloc, layout, records, Demos::Omitted)
}
