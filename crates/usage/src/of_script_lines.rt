//! The example of `script_lines`.

use script_lines::{Found, next_action};
use std::alloc::{AllocError, Global};

/// How many arguments the first action of a line has, if there is one.
fn argument_count(alloc: Global, line: &[u8]) -> Result<Option<usize>, AllocError> {
    match next_action(alloc, line)? {
        Found::Action(action, _rest) => Ok(Some(action.arguments.len())),
        Found::Fault(_) | Found::Ends => Ok(None),
    }
}
