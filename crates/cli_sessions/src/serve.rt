//! The command `serve`, once it listens: terminals one after the other.

ghost use Rattle.std.specs.Prelude.{◌≡◌, map};
ghost use Rattle.cli_commands.specs.Held.{records_held};
ghost use Rattle.cli_sessions.specs.Serve.{serving, ServesNext, ServesEach, Serves, WritesSession};
ghost use Rattle.cli_sessions.specs.Session.{is_failed, is_told, session_seen};

use crate::output::Output;
use crate::screen::Screen;
use crate::session::{host_session, session_text};
use crate::terminals::{Terminals, Visits};
use cli_commands::{Status, TakesBytes, failure, lent};
use scr_layout::Layout;
use std::alloc::Global;
use tn_session::{HostOutcome, RunFault, Wire};

/// Writes the lines of the terminal of this number, and flushes. Else the status with which the command ends.
fn write_session<W: TakesBytes>(
    alloc: Global,
    output: &mut Output<W>,
    layout: &Layout,
    number: u16,
    session: &Result<HostOutcome, RunFault>,
) -> Result<(), Status>
    ensures { WritesSession layout.now.entries number (session_seen session.now)
        output.old output.new result }
{
    let Ok(text) = session_text(alloc, layout, number, session) else {
        return Err(Status::NoMemory);
    };
    if output.print(alloc, text) {
        Ok(())
    } else {
        Err(Status::Failed)
    }
}

fn is_failed(session: &Result<HostOutcome, RunFault>) -> bool
    ensures { result ≡ is_failed (session_seen session.now) }
{
    match session {
        Ok(_) => false,
        Err(_) => true,
    }
}

/// Whether a line tells of the session: none does of one that was out of memory.
fn is_told(session: &Result<HostOutcome, RunFault>) -> bool
    ensures { result ≡ is_told (session_seen session.now) }
{
    match session {
        Err(RunFault::OutOfMemory) => false,
        _ => true,
    }
}

/// Serves the next terminal, and writes its lines: whether its session failed. Else the status with which the command ends.
fn serve_next<T: Terminals, W: TakesBytes>(
    alloc: Global,
    terminals: &mut Visits<T>,
    layout: &Layout,
    records: &[&[u8]],
    number: u16,
    output: &mut Output<W>,
) -> Result<bool, Status>
    ensures { ServesNext layout.now (map (λ bytes. bytes.now) records.now) number
        (serving terminals.old output.old)
        (serving terminals.new output.new) result }
{
    let line = match terminals.next_line() {
        Ok(line) => line,
        Err(error) => return Err(failure(&error)),
    };
    let mut wire = Wire::new(line);
    let session = host_session(alloc, &mut wire, layout, records);
    terminals.end(wire);
    if !is_told(&session) {
        return Err(Status::NoMemory);
    }
    match write_session(alloc, output, layout, number, &session) {
        Ok(()) => Ok(is_failed(&session)),
        Err(status) => Err(status),
    }
}

/// Serves so many terminals, one after the other: whether the session of any failed. Else the status with which the command
/// ends.
fn serve_each<T: Terminals, W: TakesBytes>(
    alloc: Global,
    terminals: &mut Visits<T>,
    layout: &Layout,
    records: &[&[u8]],
    count: u16,
    output: &mut Output<W>,
) -> Result<bool, Status>
    ensures { ServesEach layout.now (map (λ bytes. bytes.now) records.now) count
        (serving terminals.old output.old)
        (serving terminals.new output.new) result }
{
    let mut failed = false;
    'terminals: for index in 0..count {
        match serve_next(alloc, terminals, layout, records, index + 1, output) {
            Ok(this_failed) => failed |= this_failed,
            Err(status) => return Err(status),
        }
    }
    Ok(failed)
}

/// Serves a screen to so many terminals, one after the other: each gets a session of TN3270E with RESPONSES, or a classic one
/// where it refuses TN3270E. Of the terminal K, counted from 1, `terminal K aid XX` is printed, and `NAME HEX` for each field
/// of its answer; or `terminal K fault` and the fault's number. Its lines are written and flushed before the next terminal is
/// waited for. The status is `Failed` where any session failed, a terminal can't be had, or a write failed, `NoMemory` where
/// memory was refused; the last three end the command, and a front of the text was written.
#[tactic(auto, using(crate::proofs::Serving::serves_early))]
pub fn serve_on<T: Terminals, W: TakesBytes>(
    alloc: Global,
    terminals: &mut Visits<T>,
    screen: &Screen,
    count: u16,
    output: &mut Output<W>,
) -> Status
    ensures { Serves screen.now.layout (records_held screen.now.records.items) count
        (serving terminals.old output.old)
        (serving terminals.new output.new) result }
{
    let Ok(records) = lent(alloc, screen.records.as_slice()) else {
        return Status::NoMemory;
    };
    match serve_each(
        alloc,
        terminals,
        &screen.layout,
        records.as_slice(),
        count,
        output,
    ) {
        Ok(false) => Status::Done,
        Ok(true) => Status::Failed,
        Err(status) => status,
    }
}
