//! A terminal's run over a line.

ghost use Rattle.std.specs.Prelude.{◌≡◌, ◌+◌, ◌≤◌, ◌↔◌, map, None, Some, Err, IfOk};
ghost use Rattle.tn_cores.specs.declared.session.SessionFault.TheVariants as session;
ghost use Rattle.tn_session.specs.declared.report.RunEnd.TheVariants as ends;
ghost use Rattle.tn_session.specs.declared.stop.Stop.TheVariants.{Ended};
ghost use Rattle.tn_session.specs.Ran.{ReadsInPieces};
ghost use Rattle.tn_session.specs.TerminalRuns.{TerminalRan, HasFailed};

use crate::fault::RunFault;
use crate::keystroke::Keystroke;
use crate::report::Report;
use crate::run::run_over;
use crate::session::Session;
use crate::terminal_machine::TerminalRun;
use crate::terminal_state::TerminalState;
use crate::wire::Wire;
use std::alloc::Global;
use std::io::{Read, Write};
use tn_cores::Device;

/// Runs a terminal of this device over a line: it answers the host, and its operator presses these keys, or strikes these
/// strokes, each as soon as the keyboard doesn't wait for a record. Insert mode is off at first. `enhanced` says whether it takes TN3270E, `responses` whether it asks for RESPONSES
/// there. It reads at most 1,000,000 times, up to 4,096 bytes each, and writes before each read all that is due.
///
/// The report counts the answers that were sent, the records of other types that were passed over, and those that were
/// refused. Room for the screen and for a record is taken at the start; answers, responses and their frames take memory too.
///
/// # Errors
///
/// `Wire`, `Header` or `Session` where the host's bytes, or their record, are no session's; `LineFault` where a read or a
/// write failed, `TooManyReads` after 1,000,000 reads; `OutOfMemory` where a request for memory was refused. The run isn't
/// resumed after any of these.
pub fn terminal_run<L: Read + Write, K: Keystroke>(
    alloc: Global,
    wire: &mut Wire<L>,
    device: Device,
    enhanced: bool,
    responses: bool,
    keys: &[K],
) -> Result<Report, RunFault>
    requires goes { wire.old.stop ≡ None }
    requires counts { wire.old.reads + 1000000 ≤ u64.MAX }
    // What was sent is what is due by the log of what was read, and the report is the log's.
    ensures ran { TerminalRan device enhanced responses (map K.strike keys.now)
        wire.old result wire.new }
    // A line fault is answered exactly where a read or a write failed.
    ensures line { result ≡ Err (RunFault.Session session.LineFault)
        ↔ HasFailed wire.new.stop }
    ensures closed { IfOk result (λ report. report.end ≡ ends.Closed
        → wire.new.stop ≡ Some Ended) }
    ensures many { result ≡ Err (RunFault.Session session.TooManyReads)
        → wire.new.reads ≡ wire.old.reads + 1000000 }
    ensures few { wire.new.reads ≤ wire.old.reads + 1000000 }
    // Each read has room for 4,096 bytes.
    ensures pieces { ReadsInPieces wire.old wire.new }
{
    run_terminal(alloc, wire, device, enhanced, responses, keys)
}

fn run_terminal<L: Read + Write, K: Keystroke>(
    alloc: Global,
    wire: &mut Wire<L>,
    device: Device,
    enhanced: bool,
    responses: bool,
    keys: &[K],
) -> Result<Report, RunFault>
    requires goes { wire.old.stop ≡ None }
    requires counts { wire.old.reads + 1000000 ≤ u64.MAX }
    ensures { TerminalRan device enhanced responses (map K.strike keys.now)
        wire.old result wire.new }
{
    let state = TerminalState::new(alloc, device, enhanced, responses)?;
    let mut session = Session::new(alloc, TerminalRun { state, keys })?;
    let finish = run_over(alloc, wire, &mut session, &[])?;
    Ok(session.machine().report(finish))
}
