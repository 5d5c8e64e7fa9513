//! The example of `tn_session`.

use ds_keys::Key;
use std::alloc::Global;
use std::io::{Read, Write};
use tn_session::{Device, Report, RunFault, Wire, terminal_run};

/// Presses keys at a host on a line that is connected.
fn work<L: Read + Write + Drop>(
    alloc: Global,
    line: L,
    device: Device,
    keys: &[Key],
) -> Result<Report, RunFault> {
    let mut wire = Wire::new(line);
    terminal_run(alloc, &mut wire, device, true, true, keys)
}
