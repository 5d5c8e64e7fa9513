//! The example of `tn_relay`.

use tn_relay::{Gave, Line, Relay, Took};
use tn_traces::Side;

/// Reads the host once, and writes to the terminal what is held for it: whether anything passed.
fn pass<T: Line, H: Line>(relay: &mut Relay<T, H>, scratch: &mut [u8]) -> bool {
    let gave = relay.read(Side::Host, scratch);
    let took = relay.write(Side::Terminal);
    relay.tell_end(Side::Terminal);
    gave != Gave::Nothing || took != Took::Nothing
}
