//! The example of `cli_taps`.

use cli_taps::{Tap, Turn};
use std::alloc::Global;
use tn_relay::Line;

/// Passes what there is both ways, and adds what it tells: whether the session is over.
fn pass<T: Line, H: Line>(alloc: Global, tap: &mut Tap<T, H>, out: &mut Vec<u8>) -> bool {
    let mut scratch = [0; 4_096];
    matches!(tap.go_on(alloc, &mut scratch, out), Turn::Ends)
}
