//! A key.

ghost use Rattle.std.specs.Prelude.{◌≡◌, pos};
ghost use Rattle.terminal_calls.specs.Numbers.{pressed_code};
ghost use Rattle.terminal_calls.specs.Left.{LeavesPressed};

use crate::key::key_at;
use ds_keys::Pressed;
use ds_state::press_key;
use std::alloc::Global;

/// What a key did, as a number.
pub(crate) fn pressed_code(pressed: Pressed) -> u8
    ensures { result ≡ pressed_code pressed }
{
    match pressed {
        Pressed::Done => 0,
        Pressed::Inhibited => 1,
        Pressed::Ignored => 2,
        Pressed::Sent(_) => 3,
    }
}

/// Presses a key: leaves the state after it, and 0 where it was done, 1 inhibited, 2 ignored, 3 where the terminal sends. The status is 0;
/// 2 where there is no such key or the bytes are no state, and 4 where a request for memory was refused: then nothing changes.
pub fn press_left(alloc: Global, state: &mut [u8], kind: u8, code: u8, pressed: &mut u8) -> u8
    ensures { LeavesPressed kind code state.old state.new pressed.old pressed.new (pos result) }
{
    let Some(key) = key_at(kind, code) else {
        return 2;
    };
    match press_key(alloc, state, key) {
        Ok(Some(told)) => {
            *pressed = pressed_code(told);
            0
        }
        Ok(None) => 2,
        Err(_) => 4,
    }
}
