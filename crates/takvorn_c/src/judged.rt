//! The screen of a terminal that is kept, checked against a layout.

ghost use Rattle.std.specs.Prelude.{◌≡◌, IfOk, IfErr, option_map, pos, string_bytes};
ghost use Rattle.takvorn_c.specs.Left.{IsRefused, demos_of};
ghost use Rattle.takvorn_c.specs.Judged.{LeavesDrawn, LeavesHeld, LeavesState};

use crate::demos_of;
use crate::left::leave;
use cli_commands::{Demos, check_texts};
use std::alloc::{AllocError, Global};
use terminal_calls::{HeldTerminal, held_drawing, state_drawing};

/// What `check` says of a record that is drawn, in hexadecimal; 2 where none is.
fn drawing_left(
    alloc: Global,
    layout: &[u8],
    drawing: Result<Option<String>, AllocError>,
    demos: Demos,
    out: &mut [u8],
    needed: &mut usize,
) -> u8
    ensures drawn { IfOk drawing (λ found.
        LeavesDrawn demos layout.now (option_map string_bytes found) out.old out.new
        needed.new (pos result)) }
    ensures refused { IfErr drawing (λ _.
        IsRefused out.old out.new needed.new (pos result)) }
{
    match drawing {
        Ok(Some(record)) => {
            let answer = check_texts(alloc, layout, record.as_bytes(), demos);
            leave(alloc, answer, out, needed)
        }
        Ok(None) => {
            *needed = 0;
            2
        }
        Err(_) => {
            *needed = 0;
            4
        }
    }
}

/// `check` of the screen of a state.
#[unsafe(no_mangle)]
pub extern "C" fn takvorn_terminal_check(
    alloc: Global,
    state: &[u8],
    layout: &[u8],
    demos: bool,
    out: &mut [u8],
    needed: &mut usize,
) -> i32
    ensures { LeavesState (demos_of demos) layout.now state.now out.old out.new needed.new
        result }
{
    let drawing = state_drawing(alloc, state);
    i32::from(drawing_left(alloc, layout, drawing, demos_of(demos), out, needed))
}

/// `check` of the screen of a terminal that is held.
#[unsafe(no_mangle)]
pub extern "C" fn takvorn_held_check(
    alloc: Global,
    held: &mut HeldTerminal,
    layout: &[u8],
    demos: bool,
    out: &mut [u8],
    needed: &mut usize,
) -> i32
    ensures told { LeavesHeld (demos_of demos) layout.now held.old.screen
        out.old out.new needed.new result }
    ensures unchanged { held.new.screen ≡ held.old.screen }
{
    let drawing = held_drawing(held, alloc);
    i32::from(drawing_left(alloc, layout, drawing, demos_of(demos), out, needed))
}
