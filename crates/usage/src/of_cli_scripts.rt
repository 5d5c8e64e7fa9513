//! The example of `cli_scripts`.

use cli_scripts::{Came, Machine, Wants};
use std::alloc::{AllocError, Global};

/// Whether a line of a script is answered at once.
fn is_answered(alloc: Global, machine: &mut Machine, line: &[u8]) -> Result<bool, AllocError> {
    match machine.take(alloc, Came::Line(line))? {
        Wants::Line | Wants::Nothing => Ok(true),
        Wants::Need(_) => Ok(false),
    }
}
