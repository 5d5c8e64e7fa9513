//! The example of `script_keys`.

use ds_screen::{Cells, Screen};
use script_keys::{Action, Run, read_action, runs_of};
use std::alloc::{AllocError, Global};

/// The keys that an action presses at a screen; none where it is at fault or presses none.
fn pressed<C: Cells>(
    alloc: Global,
    screen: &Screen<C>,
    name: &[u8],
    arguments: &[Vec<u8>],
) -> Result<Vec<Run>, AllocError> {
    match read_action(name, arguments) {
        Ok(Action::Keys(keys)) => runs_of(alloc, screen, keys),
        _ => Ok(Vec::new(alloc)),
    }
}
