//! The screen that a state's parts tell.

ghost use Rattle.std.specs.Prelude.{◌≡◌, Some, IfOk};
ghost use Rattle.ds_screen.specs.Picture.{Picture};
ghost use Rattle.ds_state.specs.State.{record_of, state_of, IsWhole, drawn};

use crate::header::parts_of;
use ds_codec::{Geometry, Record};
use ds_screen::{Cells, Screen};
use std::alloc::{AllocError, Global};

/// A new screen on which a record is drawn; `None` where the record is refused.
fn drawn<C: Cells>(
    alloc: Global,
    geometry: Geometry,
    drawing: &[u8],
) -> Result<Option<Screen<C>>, AllocError>
    ensures { IfOk result (λ found. (v : Picture) → IsWhole v → geometry ≡ v.geometry
        → drawing.now ≡ record_of v → found ≡ Some (drawn v)) }
{
    let mut screen: Screen<C> = Screen::new(alloc, geometry)?;
    let Ok(outbound) = Record::read(geometry.mode(), drawing) else {
        return Ok(None);
    };
    match screen.apply(&outbound) {
        Ok(_) => Ok(Some(screen)),
        Err(_) => Ok(None),
    }
}

/// The only screen that a state can spell. That the bytes are its state has still to be looked at.
pub(crate) fn candidate<C: Cells>(
    alloc: Global,
    state: &[u8],
) -> Result<Option<Screen<C>>, AllocError>
    ensures { IfOk result (λ found. (v : Picture) → IsWhole v → state.now ≡ state_of v
        → found ≡ Some v) }
{
    let Some(parts) = parts_of(state) else {
        return Ok(None);
    };
    let found: Option<Screen<C>> = drawn(alloc, parts.geometry, parts.drawing)?;
    let Some(mut screen) = found else {
        return Ok(None);
    };
    screen.set_lock(parts.lock);
    screen.set_aid(parts.aid);
    Ok(Some(screen))
}
