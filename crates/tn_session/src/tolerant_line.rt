//! A tolerant terminal's run over a line.

ghost use Rattle.std.specs.Prelude.{◌≡◌, ◌+◌, ◌≤◌, List, map, None};
ghost use Rattle.tn_session.specs.Strikes.{Strike};
ghost use Rattle.tn_session.specs.Ran.{ReadsInPieces};
ghost use Rattle.tn_session.specs.Talk.{Adds};
ghost use Rattle.tn_session.specs.TerminalTalk.{no_arrival};
ghost use Rattle.tn_session.specs.TolerantRuns.{counted, PressesAll, TakesTurn, Counts, StopsSo, TolerantRan};

use crate::fault::RunFault;
use crate::keystroke::Keystroke;
use crate::pressed::Pressed;
use crate::report::{RunEnd, TolerantReport};
use crate::run::{MAX_READS, PIECE, send};
use crate::stop::Stop;
use crate::terminal_session::TerminalSession;
use crate::terminal_turns::one_more;
use crate::wire::Wire;
use std::alloc::Global;
use std::io::{Read, Write};
use tn_cores::{Device, SessionFault};

/// How many keys were inhibited, with one that came to this.
fn counted(count: u64, pressed: &Result<Pressed, RunFault>) -> u64
    ensures { result ≡ counted count pressed.now }
{
    match pressed {
        Ok(Pressed::Inhibited) => one_more(count),
        Ok(Pressed::Done | Pressed::Ignored | Pressed::Sent) => count,
        Err(_why) => count,
    }
}

/// Presses keys one after the other while the screen takes input, and counts those that were inhibited.
fn press_all<K: Keystroke>(
    alloc: Global,
    session: &mut TerminalSession,
    keys: &mut &[K],
    inhibited: &mut u64,
    due: &mut Vec<u8>,
) -> Result<(), RunFault>
    ensures pressed { Adds due.old.items due.new.items (λ given.
        PressesAll (map K.strike keys.old.now) session.old.talk inhibited.old given
        (record { talk = session.new.talk; keys = map K.strike keys.new.now; inhibited = inhibited.new })
        result) }
    ensures told { session.new.told ≡ session.old.told }
{
    'keys: while let Some((key, rest)) = keys.split_first() {
        if !session.takes_input() {
            return Ok(());
        }
        let pressed = session.work(alloc, key, due);
        *inhibited = counted(*inhibited, &pressed);
        *keys = rest;
        let _answer = pressed?;
    }
    Ok(())
}

/// Takes a piece, and presses keys: whether the run is over.
fn take_turn<K: Keystroke>(
    alloc: Global,
    session: &mut TerminalSession,
    piece: &[u8],
    keys: &mut &[K],
    inhibited: &mut u64,
    due: &mut Vec<u8>,
) -> Result<bool, RunFault>
    ensures turn { Adds due.old.items due.new.items (λ given. TakesTurn
        (record { talk = session.old.talk; keys = map K.strike keys.old.now; inhibited = inhibited.old })
        piece.now given
        (record { talk = session.new.talk; keys = map K.strike keys.new.now; inhibited = inhibited.new })
        result) }
    ensures told { session.new.told ≡ session.old.told }
{
    let _progress = session.take(alloc, piece, due)?;
    let opened = session.takes_input();
    press_all(alloc, session, keys, inhibited, due)?;
    Ok(opened && keys.is_empty())
}

/// What the run did.
fn reported(session: &mut TerminalSession, end: RunEnd, inhibited: u64) -> TolerantReport
    requires { session.old.told ≡ no_arrival }
    ensures counts { (keys : List Strike) → Counts result
        (record { talk = session.old.talk; keys = keys; inhibited = inhibited }) }
    ensures end { result.end ≡ end }
{
    let arrived = session.arrived();
    TolerantReport {
        end,
        answers: arrived.answers,
        passed: arrived.passed,
        refused: arrived.refused,
        ignored: arrived.ignored,
        inhibited,
    }
}

/// How a run ends whose line gave nothing.
fn stopped<L: Read + Write>(
    wire: &Wire<L>,
    session: &mut TerminalSession,
    inhibited: u64,
) -> Result<TolerantReport, RunFault>
    requires { session.old.told ≡ no_arrival }
    ensures { StopsSo wire.now.stop session.old.talk inhibited result }
{
    match wire.stop() {
        Some(Stop::Ended) => Ok(reported(session, RunEnd::Closed, inhibited)),
        _ => Err(RunFault::Session(SessionFault::LineFault)),
    }
}

/// Runs a tolerant terminal of this device over a line: it answers the host, and its operator presses these keys, or strikes
/// these strokes, each where the screen takes input. It is over with the last of them, at a screen that takes input. It reads
/// and writes as `terminal_run` does.
///
/// # Errors
///
/// `Wire` where the host's bytes are no stream; `LineFault` where a read or a write failed, `TooManyReads` after 1,000,000
/// reads; `OutOfMemory` where a request for memory was refused.
pub fn tolerant_run<L: Read + Write, K: Keystroke>(
    alloc: Global,
    wire: &mut Wire<L>,
    device: Device,
    keys: &[K],
) -> Result<TolerantReport, RunFault>
    requires goes { wire.old.stop ≡ None }
    requires counts { wire.old.reads + 1000000 ≤ u64.MAX }
    // What was sent is what its session gave for the pieces that were read and the keys that were pressed.
    ensures ran { TolerantRan device (map K.strike keys.now) wire.old result wire.new }
    // Each read has room for 4,096 bytes.
    ensures pieces { ReadsInPieces wire.old wire.new }
{
    run_tolerant(alloc, wire, device, keys)
}

fn run_tolerant<L: Read + Write, K: Keystroke>(
    alloc: Global,
    wire: &mut Wire<L>,
    device: Device,
    keys: &[K],
) -> Result<TolerantReport, RunFault>
    requires goes { wire.old.stop ≡ None }
    requires counts { wire.old.reads + 1000000 ≤ u64.MAX }
    ensures { TolerantRan device (map K.strike keys.now) wire.old result wire.new }
{
    let mut session = TerminalSession::tolerant(alloc, device, true, true)?;
    let mut due = Vec::new(alloc);
    let mut buffer = [0; PIECE];
    let mut rest = keys;
    let mut inhibited = 0;
    'reads: for _turn in 0..MAX_READS {
        let Some(count) = wire.read(&mut buffer) else {
            return stopped(wire, &mut session, inhibited);
        };
        due.clear();
        let piece = &buffer[..count];
        let told = take_turn(
            alloc,
            &mut session,
            piece,
            &mut rest,
            &mut inhibited,
            &mut due,
        );
        send(wire, &due)?;
        if told? {
            return Ok(reported(&mut session, RunEnd::KeysUsed, inhibited));
        }
    }
    Err(RunFault::Session(SessionFault::TooManyReads))
}
