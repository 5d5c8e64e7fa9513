//! The example of `host_server`.

use cli_commands::{Status, TakesBytes};
use cli_hosts::ScreenHosts;
use cli_sessions::{Output, Screen};
use host_server::{Asked, Outlet, Server, serve_all};
use std::alloc::Global;
use std::io;
use std::io::Eprint;
use std::net::Net;
use std::time::Clock;

/// Serves a screen to three terminals at once, at a port of this machine, and prints to standard output.
fn serve_three<R: Net + Clock + Eprint, W: TakesBytes>(
    rt: &R,
    alloc: Global,
    screen: &Screen,
    records: &[&[u8]],
    output: &mut Output<W>,
) -> io::Result<Status> {
    let asked = Asked {
        count: 3,
        at_once: 3,
        answers: 0,
        idle: 60,
        per_second: 10,
    };
    let outlet = Outlet {
        name: "standard output",
        descriptor: 1,
    };
    let hosts = ScreenHosts::new(alloc, &screen.layout, records, 60_000);
    let mut server = Server::at(rt, alloc, "127.0.0.1", 3270, hosts, asked)?;
    serve_all(rt, alloc, &mut server, output, outlet)
}
