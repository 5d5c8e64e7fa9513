//! The example of `cli_hosts`.

use cli_commands::{Status, TakesBytes};
use cli_hosts::{Hosted, Hub, Settled, settle};
use cli_sessions::Output;
use scr_layout::Layout;
use std::alloc::Global;

/// Hands bytes to a terminal, and prints its lines where it ended.
fn hand_to_host<W: TakesBytes>(
    alloc: Global,
    hub: &mut Hub<Hosted<'_>>,
    layout: &Layout,
    token: usize,
    bytes: &[u8],
    output: &mut Output<W>,
) -> Result<Option<Settled>, Status> {
    hub.hear(alloc, token, 0, bytes);
    settle(alloc, hub, layout, token, output)
}
