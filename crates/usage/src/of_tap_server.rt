//! The example of `tap_server`.

use std::alloc::Global;
use std::io;
use std::io::Write;
use std::net::{Net, SocketAddr};
use tap_screens::LeftScreen;
use tap_server::{LeavesScreens, Outside, Taps, run_taps};

/// Screens are left nowhere.
#[derive(Drop)]
struct Nowhere;

impl LeavesScreens for Nowhere {
    fn leave(&mut self, _screen: &LeftScreen) {}
}

/// Taps one terminal of a host.
fn tap_one<'a, R: Net, W: Write, E: Write>(
    rt: &'a R,
    alloc: Global,
    listen: SocketAddr,
    host: SocketAddr,
    output: &'a mut W,
    errors: &'a mut E,
) -> io::Result<()> {
    let mut taps = Taps::at(rt, alloc, listen, host, None)?;
    let mut screens = Nowhere;
    let mut outside = Outside {
        rt,
        alloc,
        output,
        errors,
        screens: &mut screens,
    };
    run_taps(&mut taps, &mut outside, 1)
}
