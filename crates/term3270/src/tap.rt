//! The command `tap`: from the words of its command line to the net.

use crate::manners::tell_listening;
use crate::tap_folders::{LeftScreens, layouts_of};
use crate::tcp::Place;
use cli_commands::{Status, failure};
use cli_words::TapAsked;
use std::io;
use std::io::ErrorKind;
use std::net::{SocketAddr, ToSocketAddrs};
use tap_screens::{Asked, Folder};
use tap_server::{Outside, Taps, run_taps};

/// The address of a place.
fn address_of(rt: &HostRuntime, place: Place<'_>) -> io::Result<SocketAddr> {
    let mut found = (place.host, place.port).to_socket_addrs(rt)?;
    match found.next() {
        Some(address) => Ok(address),
        None => Err(io::Error::from(ErrorKind::NotFound)),
    }
}

/// The status of a run in which all terminals have gone: that of a host that can't be had, where it could not be reached for one of them.
fn status_of(taps: &Taps<'_>) -> Status {
    if taps.is_unreached() {
        Status::Failed
    } else {
        Status::Done
    }
}

/// Taps so many terminals, each with a line to the host.
fn run(rt: &HostRuntime, taps: &mut Taps<'_>, asked: TapAsked<'_>) -> Status {
    let mut output = rt.stdout();
    let mut errors = rt.stderr();
    let mut screens = LeftScreens::at(rt, asked.out);
    let mut outside = Outside {
        rt,
        alloc: rt.alloc(),
        output: &mut output,
        errors: &mut errors,
        screens: &mut screens,
    };
    match run_taps(taps, &mut outside, asked.count) {
        Ok(()) => status_of(taps),
        Err(error) => {
            let _ = eprintln!(rt; "term3270: {error}");
            failure(&error)
        }
    }
}

/// What is asked of the screens; nothing, where neither folder is named.
fn screens_asked<'a>(layouts: Option<&'a Folder>, out: Option<&str>) -> Option<Asked<'a>> {
    if layouts.is_none() && out.is_none() {
        return None;
    }
    Some(Asked {
        layouts,
        leaves: out.is_some(),
    })
}

/// `tap`: listens at a place, and calls the host at another for each terminal that comes.
pub(crate) fn tap(
    rt: &HostRuntime,
    listen: Place<'_>,
    host: Place<'_>,
    asked: TapAsked<'_>,
) -> Status {
    let layouts = match layouts_of(rt, asked.layouts) {
        Ok(layouts) => layouts,
        Err(status) => return status,
    };
    let screens = screens_asked(layouts.as_ref(), asked.out);
    let far = match address_of(rt, host) {
        Ok(address) => address,
        Err(error) => return host.report(rt, &error),
    };
    let taps = match address_of(rt, listen) {
        Ok(near) => Taps::at(rt, rt.alloc(), near, far, screens),
        Err(error) => Err(error),
    };
    match taps {
        Ok(mut taps) => {
            tell_listening(rt, listen);
            run(rt, &mut taps, asked)
        }
        Err(error) => listen.report(rt, &error),
    }
}
