//! Bytes that are read of a state.

ghost use Rattle.std.specs.Prelude.{◌≡◌, pos, ℕ, List, IfOk, option_map};
ghost use Rattle.ds_inbound.specs.Answer.{buffer_of, bytes_sent};
ghost use Rattle.ds_screen.specs.Picture.{Picture};
ghost use Rattle.ds_state.specs.Calls.{Reads, cell_pairs};
ghost use Rattle.terminal_calls.specs.Left.{LeavesBytes, laid_over};

use ds_state::{read_buffer, read_cells, read_modified};
use std::alloc::{AllocError, Global};

/// Lays bytes over a buffer, as far as they fit.
pub fn lay(out: &mut [u8], bytes: &[u8])
    ensures { out.new ≡ laid_over out.old bytes.now }
{
    let fitting = if bytes.len() < out.len() {
        bytes.len()
    } else {
        out.len()
    };
    out[..fitting].copy_from_slice(&bytes[..fitting]);
}

/// Leaves what was read, as far as it fits, and how many bytes it is.
fn leave(found: Result<Option<Vec<u8>>, AllocError>, out: &mut [u8], needed: &mut usize) -> u8
    ensures { (tells : Picture → List ℕ) (state : List ℕ)
        → IfOk found (λ found. Reads tells state (option_map (λ bytes. bytes.items) found))
        → LeavesBytes tells state out.old out.new needed.new (pos result) }
{
    match found {
        Ok(Some(bytes)) => {
            lay(out, bytes.as_slice());
            *needed = bytes.as_slice().len();
            0
        }
        Ok(None) => {
            *needed = 0;
            2
        }
        Err(_) => {
            *needed = 0;
            4
        }
    }
}

/// Leaves the answer to Read Modified, with `all` to Read Modified All, as far as it fits, and how many bytes it is. The status is 0; 2 where
/// the bytes are no state, and 4 where a request for memory was refused: then nothing is laid, and the number is 0. So of the next two.
pub fn modified_left(
    alloc: Global,
    state: &[u8],
    all: bool,
    out: &mut [u8],
    needed: &mut usize,
) -> u8
    ensures { LeavesBytes (λ v. bytes_sent v all) state.now
        out.old out.new needed.new (pos result) }
{
    let found = read_modified(alloc, state, all);
    leave(found, out, needed)
}

/// Leaves the answer to Read Buffer.
pub fn buffer_left(alloc: Global, state: &[u8], out: &mut [u8], needed: &mut usize) -> u8
    ensures { LeavesBytes buffer_of state.now out.old out.new needed.new (pos result) }
{
    let found = read_buffer(alloc, state);
    leave(found, out, needed)
}

/// Leaves two bytes for each cell.
pub fn cells_left(alloc: Global, state: &[u8], out: &mut [u8], needed: &mut usize) -> u8
    ensures { LeavesBytes (λ v. cell_pairs v.cells) state.now
        out.old out.new needed.new (pos result) }
{
    let found = read_cells(alloc, state);
    leave(found, out, needed)
}
