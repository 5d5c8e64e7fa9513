//! A terminal for C, whose whole state is bytes of the caller's.

ghost use Rattle.std.specs.Prelude.{◌≡◌};
ghost use Rattle.ds_inbound.specs.Answer.{buffer_of, bytes_sent};
ghost use Rattle.ds_state.specs.Calls.{cell_pairs};
ghost use Rattle.terminal_calls.specs.Items.{LeavesFields};
ghost use Rattle.terminal_calls.specs.Left.{LeavesBytes, LeavesEffect, LeavesNew, LeavesPressed, LeavesStatus};
ghost use Rattle.terminal_calls.specs.Numbers.{geometry_told, length_of};

use ds_codec::Size;
use std::alloc::Global;
use terminal_calls::{
    Effect, TerminalField, TerminalStatus, apply_left, buffer_left, cells_left, fields_left,
    length_told, modified_left, new_left, press_left, status_left,
};

/// A size of C's.
pub(crate) fn size(rows: u16, cols: u16) -> Size
    ensures { result ≡ record { rows = rows; cols = cols } }
{
    Size { rows, cols }
}

/// How many bytes the state of a terminal has.
#[unsafe(no_mangle)]
pub extern "C" fn takvorn_terminal_size(
    rows: u16,
    columns: u16,
    alternate_rows: u16,
    alternate_columns: u16,
    wide: bool,
) -> usize
    ensures { result ≡ length_of (geometry_told (record { rows = rows; cols = columns })
        (record { rows = alternate_rows; cols = alternate_columns }) wide) }
{
    length_told(
        size(rows, columns),
        size(alternate_rows, alternate_columns),
        wide,
    )
}

/// A new terminal.
#[unsafe(no_mangle)]
pub extern "C" fn takvorn_terminal_new(
    alloc: Global,
    rows: u16,
    columns: u16,
    alternate_rows: u16,
    alternate_columns: u16,
    wide: bool,
    state: &mut [u8],
) -> i32
    ensures { LeavesNew (geometry_told (record { rows = rows; cols = columns })
        (record { rows = alternate_rows; cols = alternate_columns }) wide) state.old state.new
        result }
{
    let alternate = size(alternate_rows, alternate_columns);
    i32::from(new_left(alloc, size(rows, columns), alternate, wide, state))
}

/// A record is applied.
#[unsafe(no_mangle)]
pub extern "C" fn takvorn_terminal_apply(
    alloc: Global,
    state: &mut [u8],
    bytes: &[u8],
    effect: &mut Effect,
) -> i32
    ensures { LeavesEffect bytes.now state.old state.new effect.old effect.new result }
{
    i32::from(apply_left(alloc, state, bytes, effect))
}

/// A key is pressed.
#[unsafe(no_mangle)]
pub extern "C" fn takvorn_terminal_press(
    alloc: Global,
    state: &mut [u8],
    kind: u8,
    code: u8,
    pressed: &mut u8,
) -> i32
    ensures { LeavesPressed kind code state.old state.new pressed.old pressed.new result }
{
    i32::from(press_left(alloc, state, kind, code, pressed))
}

/// The answer to Read Modified, or to Read Modified All.
#[unsafe(no_mangle)]
pub extern "C" fn takvorn_terminal_answer(
    alloc: Global,
    state: &[u8],
    all: bool,
    out: &mut [u8],
    needed: &mut usize,
) -> i32
    ensures { LeavesBytes (λ v. bytes_sent v all) state.now out.old out.new needed.new result }
{
    i32::from(modified_left(alloc, state, all, out, needed))
}

/// The answer to Read Buffer.
#[unsafe(no_mangle)]
pub extern "C" fn takvorn_terminal_buffer(
    alloc: Global,
    state: &[u8],
    out: &mut [u8],
    needed: &mut usize,
) -> i32
    ensures { LeavesBytes buffer_of state.now out.old out.new needed.new result }
{
    i32::from(buffer_left(alloc, state, out, needed))
}

/// Two bytes for each cell.
#[unsafe(no_mangle)]
pub extern "C" fn takvorn_terminal_cells(
    alloc: Global,
    state: &[u8],
    out: &mut [u8],
    needed: &mut usize,
) -> i32
    ensures { LeavesBytes (λ v. cell_pairs v.cells) state.now out.old out.new needed.new result }
{
    i32::from(cells_left(alloc, state, out, needed))
}

/// The fields.
#[unsafe(no_mangle)]
pub extern "C" fn takvorn_terminal_fields(
    alloc: Global,
    state: &[u8],
    fields: &mut [TerminalField],
    needed: &mut usize,
) -> i32
    ensures { LeavesFields state.now fields.old fields.new needed.new result }
{
    i32::from(fields_left(alloc, state, fields, needed))
}

/// The size in use, the cursor, the keyboard's lock and the attention identifier.
#[unsafe(no_mangle)]
pub extern "C" fn takvorn_terminal_status(
    alloc: Global,
    state: &[u8],
    status: &mut TerminalStatus,
) -> i32
    ensures { LeavesStatus state.now status.old status.new result }
{
    i32::from(status_left(alloc, state, status))
}
