//! The command `serve` for many terminals at once, from its inputs to the net.

ghost use Rattle.std.specs.Prelude.{IfSome};
ghost use Rattle.cli_sessions.specs.Prepare.{prepare};
ghost use Rattle.term3270.specs.Sessions.{ServesManyPrepared};

use crate::manners::tell_listening;
use crate::tcp::Place;
use cli_commands::{GivesBytes, Status, TakesBytes, finish, lent};
use cli_hosts::ScreenHosts;
use cli_sessions::{Output, Prepared, Screen, prepare_serve};
use cli_words::Many;
use host_server::{Asked, Outlet, Server, serve_all};
use std::alloc::Global;

/// Where lines of terminals are written.
pub(crate) const STANDARD_OUTPUT: Outlet<'static> = Outlet {
    name: "standard output",
    descriptor: 1,
};

/// What the words of the command line ask of a server.
pub(crate) fn asked_of(many: Many) -> Asked {
    let Many {
        count,
        at_once,
        answers,
        idle,
        per_second,
    } = many;
    Asked {
        count,
        at_once,
        answers,
        idle,
        per_second,
    }
}

fn serve_screen<W: TakesBytes>(
    rt: &HostRuntime,
    place: Place<'_>,
    screen: &Screen,
    many: Many,
    output: &mut Output<W>,
) -> Status {
    let Ok(records) = lent(rt.alloc(), screen.records.as_slice()) else {
        return Status::NoMemory;
    };
    let Place { host, port } = place;
    let patience = u64::from(many.idle) * 1_000;
    let hosts = ScreenHosts::new(rt.alloc(), &screen.layout, records.as_slice(), patience);
    let mut server = match Server::at(rt, rt.alloc(), host, port, hosts, asked_of(many)) {
        Ok(server) => server,
        Err(error) => return place.report(rt, &error),
    };
    tell_listening(rt, place);
    match serve_all(rt, rt.alloc(), &mut server, output, STANDARD_OUTPUT) {
        Ok(status) => status,
        Err(error) => place.report(rt, &error),
    }
}

/// Serves a layout's screen at a place to many terminals. The port is bound once the screen is found fit.
pub(crate) fn run_serve_many<L: GivesBytes, R: GivesBytes, W: TakesBytes>(
    rt: &HostRuntime,
    layout: &mut L,
    records: &mut R,
    place: Place<'_>,
    many: Many,
    output: &mut Output<W>,
) -> Status
    ensures { IfSome (L.remaining layout.old) (λ text. IfSome (R.remaining records.old) (λ input.
        ServesManyPrepared output.old output.new result (prepare text input))) }
{
    match prepare_serve(rt.alloc(), layout, records) {
        Ok(Prepared::Ready(screen)) => serve_screen(rt, place, &screen, many, output),
        Ok(Prepared::Stops(answer)) => finish(rt.alloc(), output, Ok(answer)),
        Err(error) => finish(rt.alloc(), output, Err(error)),
    }
}
