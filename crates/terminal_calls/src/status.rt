//! What a terminal keeps beside its cells.

ghost use Rattle.std.specs.Prelude.{◌≡◌, pos};
ghost use Rattle.terminal_calls.specs.Numbers.{lock_code, status_told};
ghost use Rattle.terminal_calls.specs.Left.{LeavesStatus};

use ds_screen::Lock;
use ds_state::{Status, read_status};
use std::alloc::Global;

/// What a terminal keeps beside its cells.
#[derive(Clone, Copy)]
#[repr(C)]
pub struct TerminalStatus {
    /// The size in use.
    pub rows: u16,
    pub columns: u16,
    /// The cursor's position, counted from 0 row by row.
    pub cursor: u32,
    /// The keyboard: 0 free, 1 waiting for a record, 2 in error.
    pub lock: u8,
    /// The last attention identifier.
    pub aid: u8,
}

fn lock_code(lock: Lock) -> u8
    ensures { result ≡ lock_code lock }
{
    match lock {
        Lock::Free => 0,
        Lock::Waiting => 1,
        Lock::Error => 2,
    }
}

/// A status as C sees it.
pub(crate) fn status_told(status: &Status) -> TerminalStatus
    ensures { result ≡ status_told status.now }
{
    TerminalStatus {
        rows: status.size.rows,
        columns: status.size.cols,
        cursor: status.cursor,
        lock: lock_code(status.lock),
        aid: status.aid.byte(),
    }
}

/// Leaves the size in use, the cursor, the lock and the attention identifier. The status is 0; 2 where the bytes are no state, and 4 where a
/// request for memory was refused: then nothing changes.
pub fn status_left(alloc: Global, state: &[u8], status: &mut TerminalStatus) -> u8
    ensures { LeavesStatus state.now status.old status.new (pos result) }
{
    match read_status(alloc, state) {
        Ok(Some(found)) => {
            *status = status_told(&found);
            0
        }
        Ok(None) => 2,
        Err(_) => 4,
    }
}
