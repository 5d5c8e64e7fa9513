//! Calls on a terminal that is held: it is made and freed, takes records and keys, and goes into bytes and comes out of them.

ghost use Rattle.std.specs.Prelude.{◌≡◌, ◌⊎◌, Some, None, pos};
ghost use Rattle.ds_state.specs.State.{Opens};
ghost use Rattle.terminal_calls.specs.Numbers.{geometry_told};
ghost use Rattle.terminal_calls.specs.Held.{HoldsNew, HoldsState, HoldsPressed, HoldsApplied};

use crate::applied::{Effect, effect_code, effect_of};
use crate::held::HeldTerminal;
use crate::key::key_at;
use crate::made::geometry_told;
use crate::pressed::pressed_code;
use ds_codec::Size;
use ds_keys::press;
use ds_screen::{PlaneCells, Screen};
use ds_state::{open_state, take_record};
use std::alloc::{AllocError, Global};

/// Holds a screen, in place of one that is held. The status is 0; 4 where a request for memory was refused: then nothing changes.
pub fn hold_screen(held: &mut HeldTerminal, alloc: Global, screen: Screen<PlaneCells>) -> u8
    ensures held { result ≡ 0 → held.new.screen ≡ Some screen }
    ensures unchanged { result ≡ 4 → held.new.screen ≡ held.old.screen }
    ensures status { (result ≡ 0) ⊎ (result ≡ 4) }
{
    match Box::new(alloc, screen) {
        Ok(kept) => {
            held.put(alloc, kept);
            0
        }
        Err(_) => 4,
    }
}

/// Makes a new terminal, in place of one that is held. The status is 0; 2 where no terminal has these sizes, and 4 where a request for memory was
/// refused: then nothing changes.
pub fn new_held(
    held: &mut HeldTerminal,
    alloc: Global,
    default: Size,
    alternate: Size,
    wide: bool,
) -> u8
    ensures { HoldsNew (geometry_told default alternate wide)
        held.old.screen held.new.screen (pos result) }
{
    let Some(geometry) = geometry_told(default, alternate, wide) else {
        return 2;
    };
    let made: Result<Screen<PlaneCells>, AllocError> = Screen::new(alloc, geometry);
    match made {
        Ok(screen) => hold_screen(held, alloc, screen),
        Err(_) => 4,
    }
}

/// Frees a terminal that is held; the handle is null then.
pub fn free_held(held: &mut HeldTerminal, alloc: Global)
    ensures { held.new.screen ≡ None }
{
    drop(held.take(alloc));
}

/// Holds the terminal whose state the bytes are, in place of one that is held. The status is 0; 2 where the bytes are no state, and 4 where a request
/// for memory was refused: then nothing changes.
pub fn load_held(held: &mut HeldTerminal, alloc: Global, state: &[u8]) -> u8
    ensures { HoldsState state.now held.old.screen held.new.screen (pos result) }
{
    let opened: Result<Option<Screen<PlaneCells>>, AllocError> = open_state(alloc, state);
    match opened {
        Ok(Some(screen)) => hold_screen(held, alloc, screen),
        Ok(None) => 2,
        Err(_) => 4,
    }
}

/// Applies a record, and leaves its effect. The status is 0; 1 where the record is refused, and the terminal is as before; 2 where the handle is null.
pub fn apply_held(held: &mut HeldTerminal, alloc: Global, bytes: &[u8], effect: &mut Effect) -> u8
    ensures { HoldsApplied bytes.now held.old.screen held.new.screen
        effect.old effect.new (pos result) }
{
    let Some(mut screen) = held.take(alloc) else {
        return 2;
    };
    let told = take_record(&mut screen, bytes);
    held.put(alloc, screen);
    *effect = effect_of(told);
    effect_code(told)
}

/// Presses a key, and leaves 0 where it was done, 1 inhibited, 2 ignored, 3 where the terminal sends. The status is 0; 2 where there is no such key or
/// the handle is null: then nothing changes.
pub fn press_held(
    held: &mut HeldTerminal,
    alloc: Global,
    kind: u8,
    code: u8,
    pressed: &mut u8,
) -> u8
    ensures { HoldsPressed kind code held.old.screen held.new.screen
        pressed.old pressed.new (pos result) }
{
    let Some(key) = key_at(kind, code) else {
        return 2;
    };
    let Some(mut screen) = held.take(alloc) else {
        return 2;
    };
    *pressed = pressed_code(press(&mut screen, key));
    held.put(alloc, screen);
    0
}
