//! The screen that a state spells.

ghost use Rattle.std.specs.Prelude.{◌≡◌, IfOk, OnOk, OnErr, length};
ghost use Rattle.ds_state.specs.State.{most_bytes, IsState, Opens};

use crate::drawn::candidate;
use crate::spelled::state_of;
use ds_screen::{Cells, Screen};
use std::alloc::{AllocError, Global};

/// The screen that a state spells; `None` where the bytes are no state: of another length or version, or changed. Takes memory
/// for a screen and for the state once more, and time linear in the cells.
///
/// # Errors
///
/// Where a request for memory was refused.
pub fn open_state<C: Cells>(alloc: Global, state: &[u8]) -> Result<Option<Screen<C>>, AllocError>
    ensures { IfOk result (λ found. Opens state.now found) }
{
    let found: Option<Screen<C>> = candidate(alloc, state)?;
    let Some(screen) = found else {
        return Ok(None);
    };
    let spelled = state_of(alloc, &screen)?;
    if spelled.as_slice() == state {
        Ok(Some(screen))
    } else {
        Ok(None)
    }
}

/// Leaves the state of a screen, or where memory was refused the bytes as they were.
pub(crate) fn close_state<C: Cells>(
    alloc: Global,
    screen: &Screen<C>,
    state: &mut [u8],
) -> Result<(), AllocError>
    requires { length state.old ≡ most_bytes screen.now.geometry }
    ensures left { OnOk result (IsState state.new screen.now) }
    ensures unchanged { OnErr result (state.new ≡ state.old) }
{
    let spelled = state_of(alloc, screen)?;
    state.copy_from_slice(spelled.as_slice());
    Ok(())
}
