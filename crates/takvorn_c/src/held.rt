//! A terminal for C that is held behind a handle.

ghost use Rattle.std.specs.Prelude.{◌≡◌, None};
ghost use Rattle.ds_inbound.specs.Answer.{buffer_of, bytes_sent};
ghost use Rattle.ds_state.specs.Calls.{cell_pairs};
ghost use Rattle.ds_state.specs.State.{state_of};
ghost use Rattle.terminal_calls.specs.Held.{HoldsApplied, HoldsNew, HoldsPressed, HoldsState, TellsBytes, TellsFields, TellsStatus};
ghost use Rattle.terminal_calls.specs.Numbers.{geometry_told};

use crate::terminal::size;
use std::alloc::Global;
use terminal_calls::{
    Effect, HeldTerminal, TerminalField, TerminalStatus, apply_held, free_held, held_buffer,
    held_cells, held_fields, held_modified, held_state, held_status, load_held, new_held,
    press_held,
};

/// A new terminal, in place of one that is held.
#[unsafe(no_mangle)]
pub extern "C" fn takvorn_held_new(
    alloc: Global,
    rows: u16,
    columns: u16,
    alternate_rows: u16,
    alternate_columns: u16,
    wide: bool,
    held: &mut HeldTerminal,
) -> i32
    ensures { HoldsNew (geometry_told (record { rows = rows; cols = columns })
        (record { rows = alternate_rows; cols = alternate_columns }) wide)
        held.old.screen held.new.screen result }
{
    let alternate = size(alternate_rows, alternate_columns);
    i32::from(new_held(held, alloc, size(rows, columns), alternate, wide))
}

/// Frees a terminal that is held.
#[unsafe(no_mangle)]
pub extern "C" fn takvorn_held_free(alloc: Global, held: &mut HeldTerminal)
    ensures { held.new.screen ≡ None }
{
    free_held(held, alloc);
}

/// The terminal of a state, in place of one that is held.
#[unsafe(no_mangle)]
pub extern "C" fn takvorn_held_load(alloc: Global, held: &mut HeldTerminal, state: &[u8]) -> i32
    ensures { HoldsState state.now held.old.screen held.new.screen result }
{
    i32::from(load_held(held, alloc, state))
}

/// The state of a terminal that is held.
#[unsafe(no_mangle)]
pub extern "C" fn takvorn_held_save(
    alloc: Global,
    held: &mut HeldTerminal,
    out: &mut [u8],
    needed: &mut usize,
) -> i32
    ensures told { TellsBytes state_of held.old.screen out.old out.new needed.new result }
    ensures unchanged { held.new.screen ≡ held.old.screen }
{
    i32::from(held_state(held, alloc, out, needed))
}

/// A record is applied.
#[unsafe(no_mangle)]
pub extern "C" fn takvorn_held_apply(
    alloc: Global,
    held: &mut HeldTerminal,
    bytes: &[u8],
    effect: &mut Effect,
) -> i32
    ensures { HoldsApplied bytes.now held.old.screen held.new.screen
        effect.old effect.new result }
{
    i32::from(apply_held(held, alloc, bytes, effect))
}

/// A key is pressed.
#[unsafe(no_mangle)]
pub extern "C" fn takvorn_held_press(
    alloc: Global,
    held: &mut HeldTerminal,
    kind: u8,
    code: u8,
    pressed: &mut u8,
) -> i32
    ensures { HoldsPressed kind code held.old.screen held.new.screen
        pressed.old pressed.new result }
{
    i32::from(press_held(held, alloc, kind, code, pressed))
}

/// The answer to Read Modified, or to Read Modified All.
#[unsafe(no_mangle)]
pub extern "C" fn takvorn_held_answer(
    alloc: Global,
    held: &mut HeldTerminal,
    all: bool,
    out: &mut [u8],
    needed: &mut usize,
) -> i32
    ensures told { TellsBytes (λ v. bytes_sent v all) held.old.screen
        out.old out.new needed.new result }
    ensures unchanged { held.new.screen ≡ held.old.screen }
{
    i32::from(held_modified(held, alloc, all, out, needed))
}

/// The answer to Read Buffer.
#[unsafe(no_mangle)]
pub extern "C" fn takvorn_held_buffer(
    alloc: Global,
    held: &mut HeldTerminal,
    out: &mut [u8],
    needed: &mut usize,
) -> i32
    ensures told { TellsBytes buffer_of held.old.screen out.old out.new needed.new result }
    ensures unchanged { held.new.screen ≡ held.old.screen }
{
    i32::from(held_buffer(held, alloc, out, needed))
}

/// Two bytes for each cell.
#[unsafe(no_mangle)]
pub extern "C" fn takvorn_held_cells(
    alloc: Global,
    held: &mut HeldTerminal,
    out: &mut [u8],
    needed: &mut usize,
) -> i32
    ensures told { TellsBytes (λ v. cell_pairs v.cells) held.old.screen
        out.old out.new needed.new result }
    ensures unchanged { held.new.screen ≡ held.old.screen }
{
    i32::from(held_cells(held, alloc, out, needed))
}

/// The fields.
#[unsafe(no_mangle)]
pub extern "C" fn takvorn_held_fields(
    alloc: Global,
    held: &mut HeldTerminal,
    fields: &mut [TerminalField],
    needed: &mut usize,
) -> i32
    ensures told { TellsFields held.old.screen fields.old fields.new needed.new result }
    ensures unchanged { held.new.screen ≡ held.old.screen }
{
    i32::from(held_fields(held, alloc, fields, needed))
}

/// The size in use, the cursor, the keyboard's lock and the attention identifier.
#[unsafe(no_mangle)]
pub extern "C" fn takvorn_held_status(
    alloc: Global,
    held: &mut HeldTerminal,
    status: &mut TerminalStatus,
) -> i32
    ensures told { TellsStatus held.old.screen status.old status.new result }
    ensures unchanged { held.new.screen ≡ held.old.screen }
{
    i32::from(held_status(held, alloc, status))
}
