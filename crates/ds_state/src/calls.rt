//! Records and keys, from a state to the next.

ghost use Rattle.std.specs.Prelude.{◌≡◌, true, false, length, IfOk, OnErr};
ghost use Rattle.ds_screen.specs.Records.{new_picture};
ghost use Rattle.ds_terminal.specs.Terminal.{received};
ghost use Rattle.ds_state.specs.State.{most_bytes};
ghost use Rattle.ds_state.specs.Calls.{Applies, Makes, Presses, told_by};

use crate::applied::Applied;
use crate::opened::{close_state, open_state};
use crate::spelled::state_length;
use ds_codec::{Command, Geometry};
use ds_keys::{Key, Pressed, press};
use ds_screen::{PlaneCells, Screen};
use ds_terminal::{apply_record as apply, read_record};
use std::alloc::{AllocError, Global};

/// Leaves the state of a new terminal: nulls of the default size, the cursor at 0, the keyboard waiting for a record, no
/// attention key. Tells whether the bytes are as many as `state_length` says; where they are not, they stay as they are.
///
/// # Errors
///
/// Where a request for memory was refused; then the bytes are as they were. So of all these calls.
pub fn new_state(alloc: Global, geometry: Geometry, state: &mut [u8]) -> Result<bool, AllocError>
    ensures made { IfOk result (λ fits. Makes geometry state.old fits state.new) }
    ensures unchanged { OnErr result (state.new ≡ state.old) }
{
    if state.len() != state_length(&geometry) {
        return Ok(false);
    }
    let screen: Screen<PlaneCells> = Screen::new(alloc, geometry)?;
    close_state(alloc, &screen, state)?;
    Ok(true)
}

/// Presses a key, as [`ds_keys::press`] does: the bytes become the state that it leaves. `None` where they are no state, and then they
/// stay as they are. What a key sends is the answer to Read Modified of that state.
pub fn press_key(alloc: Global, state: &mut [u8], key: Key) -> Result<Option<Pressed>, AllocError>
    ensures pressed { IfOk result (λ told. Presses key state.old told state.new) }
    ensures unchanged { OnErr result (state.new ≡ state.old) }
{
    let opened: Option<Screen<PlaneCells>> = open_state(alloc, state)?;
    let Some(mut screen) = opened else {
        return Ok(None);
    };
    let pressed = press(&mut screen, key);
    close_state(alloc, &screen, state)?;
    Ok(Some(pressed))
}

/// Applies a record to a screen, and tells what becomes of it. One that is refused, a read and a No-operation leave it as it is.
pub fn take_record(screen: &mut Screen<PlaneCells>, bytes: &[u8]) -> Applied
    ensures told { result ≡ told_by screen.old bytes.now }
    ensures after { screen.new ≡ (received screen.old bytes.now).after }
{
    let outbound = match read_record(screen, bytes) {
        Ok(outbound) => outbound,
        Err(refused) => return Applied::Refused(refused),
    };
    match outbound.command() {
        Command::ReadBuffer => Applied::ReadBuffer,
        Command::ReadModified => Applied::ReadModified,
        Command::ReadModifiedAll => Applied::ReadModifiedAll,
        Command::NoOperation => Applied::Nothing,
        Command::Write(_)
        | Command::EraseWrite(_)
        | Command::EraseWriteAlternate(_)
        | Command::EraseAllUnprotected => match apply(screen, &outbound) {
            Ok(effect) => Applied::Shown(effect),
            Err(refused) => Applied::Refused(refused),
        },
    }
}

/// Applies a record: the bytes become the state that it leaves. A record that is refused, a read and a No-operation leave them as they
/// are. `None` where they are no state, and then they stay too.
pub fn apply_record(
    alloc: Global,
    state: &mut [u8],
    bytes: &[u8],
) -> Result<Option<Applied>, AllocError>
    ensures applied { IfOk result (λ told. Applies bytes.now state.old told state.new) }
    ensures unchanged { OnErr result (state.new ≡ state.old) }
{
    let opened: Option<Screen<PlaneCells>> = open_state(alloc, state)?;
    let Some(mut screen) = opened else {
        return Ok(None);
    };
    let told = take_record(&mut screen, bytes);
    close_state(alloc, &screen, state)?;
    Ok(Some(told))
}
