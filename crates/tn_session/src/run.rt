//! A run over a line: what is read goes to a session, and what the session gives is written before the next read.

ghost use Rattle.std.specs.Prelude.{◌≡◌, ◌+◌, ◌≤◌, None};
ghost use Rattle.tn_session.specs.Ran.{Sends, stopped_by};
ghost use Rattle.tn_session.specs.RanSession.{IsFresh, RanSession};

use crate::fault::RunFault;
use crate::machine::Machine;
use crate::progress::Progress;
use crate::session::Session;
use crate::stop::Stop;
use crate::turn::Finish;
use crate::wire::Wire;
use std::alloc::Global;
use std::io::{Read, Write};
use tn_cores::SessionFault;

/// The most reads of one run.
pub(crate) const MAX_READS: u32 = 1_000_000;

/// The most bytes of one read.
pub(crate) const PIECE: usize = 4_096;

/// Writes bytes, all of them or up to a write that fails.
pub(crate) fn send<L: Read + Write>(wire: &mut Wire<L>, bytes: &[u8]) -> Result<(), RunFault>
    requires { wire.old.stop ≡ None }
    ensures { Sends wire.old bytes.now result wire.new }
{
    let mut rest = bytes;
    'writes: while !rest.is_empty() {
        match wire.write(rest) {
            Some(count) => rest = &rest[count..],
            None => return Err(RunFault::Session(SessionFault::LineFault)),
        }
    }
    Ok(())
}

/// How a run ends whose line gave nothing.
fn stopped<L: Read + Write>(wire: &Wire<L>) -> Result<Finish, RunFault>
    ensures { result ≡ stopped_by wire.now.stop }
{
    match wire.stop() {
        Some(Stop::Ended) => Ok(Finish::Closed),
        _ => Err(RunFault::Session(SessionFault::LineFault)),
    }
}

/// Runs a session over a line: writes an opening, and then reads up to 1,000,000 times, and writes before each read what is
/// due.
pub(crate) fn run_over<L: Read + Write, M: Machine>(
    alloc: Global,
    wire: &mut Wire<L>,
    session: &mut Session<M>,
    opening: &[u8],
) -> Result<Finish, RunFault>
    requires goes { wire.old.stop ≡ None }
    requires counts { wire.old.reads + 1000000 ≤ u64.MAX }
    requires first { IsFresh session.old }
    ensures { RanSession M.act opening.now session.old wire.old result session.new wire.new }
{
    let mut due = Vec::new(alloc);
    let mut buffer = [0; PIECE];
    send(wire, opening)?;
    'reads: for _turn in 0..MAX_READS {
        let Some(count) = wire.read(&mut buffer) else {
            return stopped(wire);
        };
        due.clear();
        let told = session.take(alloc, &buffer[..count], &mut due);
        send(wire, &due)?;
        match told? {
            Progress::More => {}
            Progress::Done { .. } => return Ok(Finish::Finished),
        }
    }
    Err(RunFault::Session(SessionFault::TooManyReads))
}
