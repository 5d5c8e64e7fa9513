//! A new terminal.

ghost use Rattle.std.specs.Prelude.{◌≡◌, pos};
ghost use Rattle.terminal_calls.specs.Numbers.{geometry_told, length_of};
ghost use Rattle.terminal_calls.specs.Left.{LeavesNew};

use ds_codec::{Geometry, Mode, Size};
use ds_state::{new_state, state_length};
use std::alloc::Global;

/// The geometry of two sizes, with addresses of 16 bits where it is wide.
pub(crate) fn geometry_told(default: Size, alternate: Size, wide: bool) -> Option<Geometry>
    ensures { result ≡ geometry_told default alternate wide }
{
    let mode = if wide { Mode::Bits16 } else { Mode::Bits14 };
    match Geometry::new(default, alternate, mode) {
        Ok(geometry) => Some(geometry),
        Err(_) => None,
    }
}

/// How many bytes the state of a terminal of these sizes has; 0 where no terminal has them.
pub fn length_told(default: Size, alternate: Size, wide: bool) -> usize
    ensures { result ≡ length_of (geometry_told default alternate wide) }
{
    match geometry_told(default, alternate, wide) {
        Some(geometry) => state_length(&geometry),
        None => 0,
    }
}

/// Leaves the state of a new terminal. The status is 0; 2 where no terminal has these sizes or the bytes are not as many as `length_told`
/// says, and 4 where a request for memory was refused: then nothing changes.
pub fn new_left(alloc: Global, default: Size, alternate: Size, wide: bool, state: &mut [u8]) -> u8
    ensures { LeavesNew (geometry_told default alternate wide) state.old state.new (pos result) }
{
    let Some(geometry) = geometry_told(default, alternate, wide) else {
        return 2;
    };
    match new_state(alloc, geometry, state) {
        Ok(true) => 0,
        Ok(false) => 2,
        Err(_) => 4,
    }
}
