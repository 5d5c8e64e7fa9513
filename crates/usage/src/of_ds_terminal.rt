//! The example of `ds_terminal`.

use ds_keys::Key;
use ds_screen::PlaneCells;
use ds_terminal::{KeyReply, Terminal};
use std::alloc::{AllocError, Global};

/// Shows a record, presses a key, and gives what the terminal sends.
fn pressed(
    alloc: Global,
    terminal: &mut Terminal<PlaneCells>,
    record: &[u8],
    key: Key,
) -> Result<Option<Vec<u8>>, AllocError> {
    let _shown = terminal.receive(alloc, record)?;
    match terminal.press(alloc, key)? {
        KeyReply::Sent(bytes) => Ok(Some(bytes)),
        _ => Ok(None),
    }
}
