//! What is read of a terminal that is held, which stays as it is.

ghost use Rattle.std.specs.Prelude.{◌≡◌, ℕ, List, IfOk, None, option_map, pos, string_bytes};
ghost use Rattle.ds_inbound.specs.Answer.{buffer_of, bytes_sent};
ghost use Rattle.ds_state.specs.Calls.{cell_pairs};
ghost use Rattle.ds_state.specs.State.{record_of, state_of};
ghost use Rattle.hex.specs.Hex.{encode_upper};
ghost use Rattle.terminal_calls.specs.Held.{LaysBytes, TellsBytes, TellsFields, TellsStatus};

use crate::drawing::drawing_of;
use crate::held::HeldTerminal;
use crate::items::{TerminalField, lay_fields};
use crate::status::{TerminalStatus, status_told};
use crate::texts::lay;
use ds_inbound::{write_buffer, write_inbound};
use ds_state::{pairs_of, state_of, status_of};
use std::alloc::{AllocError, Global};

/// Leaves bytes, as far as they fit, and how many they are. The status is 0; 4 where a request for memory was refused: then nothing is laid, and the
/// number is 0.
fn lay_bytes(found: Result<Vec<u8>, AllocError>, out: &mut [u8], needed: &mut usize) -> u8
    ensures { (bytes : List ℕ) → IfOk found (λ found. found.items ≡ bytes)
        → LaysBytes bytes out.old out.new needed.new (pos result) }
{
    match found {
        Ok(bytes) => {
            lay(out, bytes.as_slice());
            *needed = bytes.as_slice().len();
            0
        }
        Err(_) => {
            *needed = 0;
            4
        }
    }
}

/// Leaves the answer to Read Modified, with `all` to Read Modified All, as far as it fits, and how many bytes it is. The status is 0; 2 where the handle
/// is null, and 4 where a request for memory was refused: then nothing is laid, and the number is 0. So of the next three.
pub fn held_modified(
    held: &mut HeldTerminal,
    alloc: Global,
    all: bool,
    out: &mut [u8],
    needed: &mut usize,
) -> u8
    ensures told { TellsBytes (λ v. bytes_sent v all) held.old.screen
        out.old out.new needed.new (pos result) }
    ensures unchanged { held.new.screen ≡ held.old.screen }
{
    let Some(screen) = held.take(alloc) else {
        *needed = 0;
        return 2;
    };
    let found = write_inbound(alloc, &screen, all);
    held.put(alloc, screen);
    lay_bytes(found, out, needed)
}

/// Leaves the answer to Read Buffer.
pub fn held_buffer(held: &mut HeldTerminal, alloc: Global, out: &mut [u8], needed: &mut usize) -> u8
    ensures told { TellsBytes buffer_of held.old.screen out.old out.new needed.new (pos result) }
    ensures unchanged { held.new.screen ≡ held.old.screen }
{
    let Some(screen) = held.take(alloc) else {
        *needed = 0;
        return 2;
    };
    let found = write_buffer(alloc, &screen);
    held.put(alloc, screen);
    lay_bytes(found, out, needed)
}

/// Leaves two bytes for each cell.
pub fn held_cells(held: &mut HeldTerminal, alloc: Global, out: &mut [u8], needed: &mut usize) -> u8
    ensures told { TellsBytes (λ v. cell_pairs v.cells) held.old.screen
        out.old out.new needed.new (pos result) }
    ensures unchanged { held.new.screen ≡ held.old.screen }
{
    let Some(screen) = held.take(alloc) else {
        *needed = 0;
        return 2;
    };
    let found = pairs_of(alloc, &screen);
    held.put(alloc, screen);
    lay_bytes(found, out, needed)
}

/// Leaves the terminal's state.
pub fn held_state(held: &mut HeldTerminal, alloc: Global, out: &mut [u8], needed: &mut usize) -> u8
    ensures told { TellsBytes state_of held.old.screen out.old out.new needed.new (pos result) }
    ensures unchanged { held.new.screen ≡ held.old.screen }
{
    let Some(screen) = held.take(alloc) else {
        *needed = 0;
        return 2;
    };
    let found = state_of(alloc, &screen);
    held.put(alloc, screen);
    lay_bytes(found, out, needed)
}

/// Leaves the fields, as far as they fit, and how many there are. The status is 0; 2 where the handle is null: then nothing is laid, and the number is 0.
pub fn held_fields(
    held: &mut HeldTerminal,
    alloc: Global,
    out: &mut [TerminalField],
    needed: &mut usize,
) -> u8
    ensures told { TellsFields held.old.screen out.old out.new needed.new (pos result) }
    ensures unchanged { held.new.screen ≡ held.old.screen }
{
    let Some(screen) = held.take(alloc) else {
        *needed = 0;
        return 2;
    };
    *needed = lay_fields(&screen, out);
    held.put(alloc, screen);
    0
}

/// Leaves the size in use, the cursor, the lock and the attention identifier. The status is 0; 2 where the handle is null: then nothing changes.
pub fn held_status(held: &mut HeldTerminal, alloc: Global, status: &mut TerminalStatus) -> u8
    ensures told { TellsStatus held.old.screen status.old status.new (pos result) }
    ensures unchanged { held.new.screen ≡ held.old.screen }
{
    let Some(screen) = held.take(alloc) else {
        return 2;
    };
    *status = status_told(&status_of(&screen));
    held.put(alloc, screen);
    0
}

/// The record that draws the screen, in hexadecimal; `None` where the handle is null.
///
/// # Errors
///
/// Where a request for memory was refused.
pub fn held_drawing(held: &mut HeldTerminal, alloc: Global) -> Result<Option<String>, AllocError>
    ensures told { IfOk result (λ found. option_map string_bytes found
        ≡ option_map (λ v. encode_upper (record_of v)) held.old.screen) }
    ensures unchanged { held.new.screen ≡ held.old.screen }
{
    let Some(screen) = held.take(alloc) else {
        return Ok(None);
    };
    let drawing = drawing_of(alloc, &screen);
    held.put(alloc, screen);
    Ok(Some(drawing?))
}
