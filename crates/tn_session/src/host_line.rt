//! A host's run over a line.

ghost use Rattle.std.specs.Prelude.{◌≡◌, ◌+◌, ◌≤◌, ◌↔◌, map, None, Some, Err};
ghost use Rattle.tn_cores.specs.declared.session.SessionFault.TheVariants as session;
ghost use Rattle.tn_session.specs.declared.stop.Stop.TheVariants.{Ended};
ghost use Rattle.tn_session.specs.Ran.{ReadsInPieces};
ghost use Rattle.tn_session.specs.HostRan.{HostRan};
ghost use Rattle.tn_session.specs.HostTalk.{OutcomeTaken};
ghost use Rattle.tn_session.specs.TerminalRuns.{HasFailed};

use crate::fault::RunFault;
use crate::host_session::HostSession;
use crate::outcome::HostOutcome;
use crate::turn::Finish;
use crate::wire::Wire;
use scr_layout::Layout;
use std::alloc::Global;
use std::io::{Read, Write};
use tn_cores::SessionFault;

/// Runs a host's session over a line: says what a host says first, sends the records once the session is ready, takes the
/// RESPONSES to them, and reads the first answer by the layout. `enhanced` says whether it asks for TN3270E, `responses`
/// whether it takes RESPONSES there. What is due is written before each read, and nothing is read past the answer.
///
/// # Errors
///
/// A fault of the bytes, of the session, of the answer or of its fields, in the stream's order; `NoDevice` before
/// anything where no model has the layout's sizes; `Closed` where the line ends before an answer; `LineFault` where a
/// read or a write failed; `TooManyReads` after 1,000,000 reads of at most 4,096 bytes.
pub fn host_run<L: Read + Write>(
    alloc: Global,
    wire: &mut Wire<L>,
    records: &[&[u8]],
    layout: &Layout,
    enhanced: bool,
    responses: bool,
) -> Result<HostOutcome, RunFault>
    requires goes { wire.old.stop ≡ None }
    requires counts { wire.old.reads + 1000000 ≤ u64.MAX }
    // What was sent is what is due by the log of what was read, and the outcome is the log's.
    ensures ran { HostRan layout.now (map (λ bytes. bytes.now) records.now) enhanced responses
        wire.old result wire.new }
    // A line fault is answered exactly where a read or a write failed.
    ensures line { result ≡ Err (RunFault.Session session.LineFault)
        ↔ HasFailed wire.new.stop }
    ensures closed { result ≡ Err (RunFault.Session session.Closed)
        → wire.new.stop ≡ Some Ended }
    ensures many { result ≡ Err (RunFault.Session session.TooManyReads)
        → wire.new.reads ≡ wire.old.reads + 1000000 }
    ensures few { wire.new.reads ≤ wire.old.reads + 1000000 }
    // Each read has room for 4,096 bytes.
    ensures pieces { ReadsInPieces wire.old wire.new }
{
    run_host(alloc, wire, records, layout, enhanced, responses)
}

fn run_host<L: Read + Write>(
    alloc: Global,
    wire: &mut Wire<L>,
    records: &[&[u8]],
    layout: &Layout,
    enhanced: bool,
    responses: bool,
) -> Result<HostOutcome, RunFault>
    requires goes { wire.old.stop ≡ None }
    requires counts { wire.old.reads + 1000000 ≤ u64.MAX }
    ensures { HostRan layout.now (map (λ bytes. bytes.now) records.now) enhanced responses
        wire.old result wire.new }
{
    let mut host = HostSession::new(alloc, layout, records, enhanced, responses)?;
    let mut opening = Vec::new(alloc);
    host.begin(&mut opening)?;
    match host.run(alloc, wire, &opening)? {
        Finish::Finished => outcome_of(host),
        Finish::Closed => Err(RunFault::Session(SessionFault::Closed)),
    }
}

/// What came of a session that is over.
fn outcome_of(host: HostSession<'_>) -> Result<HostOutcome, RunFault>
    ensures { OutcomeTaken host.entry result }
{
    match host.into_outcome() {
        Some(outcome) => Ok(outcome),
        None => Err(RunFault::Session(SessionFault::Closed)),
    }
}
