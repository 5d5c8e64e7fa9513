//! The example of `cli_sessions`.

use cli_commands::{Status, Watched};
use cli_sessions::{Output, attach_on};
use ds_keys::Key;
use std::alloc::Global;
use std::io::{Read, Write};
use tn_session::Device;

/// Attaches a terminal to a host on a line, presses keys, and gives the status and the report.
fn attach<L: Read + Write + Drop>(
    alloc: Global,
    line: L,
    device: Device,
    keys: &[Key],
) -> (Status, Vec<u8>) {
    let mut output = Output::new(Watched::new(Vec::new(alloc)));
    let (status, _wire) = attach_on(alloc, line, device, keys, &mut output);
    (status, output.into_writer().stream)
}
