//! The command `attach`, once it is connected.

ghost use Rattle.std.specs.Prelude.{◌≡◌, ◌++◌, map, IfOk, OnOk};
ghost use Rattle.std.specs.String.{string_bytes};
ghost use Rattle.cli_commands.specs.Held.{answer_seen};
ghost use Rattle.tn_session.specs.Wire.{fresh};
ghost use Rattle.cli_sessions.specs.Session.{CanRun};
ghost use Rattle.cli_sessions.specs.Attach.{end_word, report_line, fault_line, printed_attach, IsAttached, Reports, Attaches};

use crate::fault::fault_number;
use crate::output::Output;
use crate::session::flushed;
use cli_commands::{Answer, Status, TakesBytes};
use std::alloc::{AllocError, Global};
use std::io::{Read, Write};
use tn_session::{Device, Keystroke, Report, RunEnd, RunFault, Wire, terminal_run};

/// A terminal's session over a wire: TN3270E with RESPONSES where the host asks for it, else classic TN3270.
fn terminal_session<L: Read + Write, K: Keystroke>(
    alloc: Global,
    wire: &mut Wire<L>,
    device: Device,
    keys: &[K],
) -> Result<Report, RunFault>
    requires { CanRun wire.old }
    ensures { IsAttached device (map K.strike keys.now) wire.old result wire.new }
{
    let ran = terminal_run(alloc, wire, device, true, true, keys);
    flushed(wire, ran)
}

pub(crate) fn end_word(end: RunEnd) -> &'static str
    ensures { result.now ≡ end_word end }
{
    match end {
        RunEnd::KeysUsed => "keys",
        RunEnd::Closed => "closed",
    }
}

fn push_report(out: &mut String, report: Report) -> Result<(), AllocError>
    ensures { OnOk result
        (string_bytes out.new ≡ string_bytes out.old ++ report_line report) }
{
    let Report {
        end,
        answers,
        passed,
        refused,
    } = report;
    let end = end_word(end);
    write!(
        out,
        "answers {answers} passed {passed} refused {refused} end {end}\n"
    )
}

fn push_fault(out: &mut String, why: RunFault) -> Result<(), AllocError>
    ensures { OnOk result (string_bytes out.new ≡ string_bytes out.old ++ fault_line why) }
{
    let fault = fault_number(why);
    write!(out, "fault {fault}\n")
}

/// What is printed of a session.
fn session_answer(alloc: Global, session: Result<Report, RunFault>) -> Result<Answer, AllocError>
    ensures { IfOk result (λ answer. answer_seen answer ≡ printed_attach session) }
{
    let mut text = String::new(alloc);
    match session {
        Ok(report) => {
            push_report(&mut text, report)?;
            Ok(Answer {
                text,
                status: Status::Done,
            })
        }
        Err(why) => {
            push_fault(&mut text, why)?;
            Ok(Answer {
                text,
                status: Status::Failed,
            })
        }
    }
}

fn print_session<W: TakesBytes>(
    alloc: Global,
    session: Result<Report, RunFault>,
    output: &mut Output<W>,
) -> Status
    ensures { Reports session output.old output.new result }
{
    if let Err(RunFault::OutOfMemory) = session {
        return Status::NoMemory;
    }
    let Ok(Answer { text, status }) = session_answer(alloc, session) else {
        return Status::NoMemory;
    };
    if output.print(alloc, text) {
        status
    } else {
        Status::Failed
    }
}

/// Runs a terminal of this device over a line to a host, with TN3270E and RESPONSES where the host asks for them, and presses
/// the keys, or strikes the strokes; prints `answers A passed B refused C end E`, where E is `keys` or `closed`, or `fault` and
/// the fault's number. The status is `Done`, or `Failed` where the session or a write failed, or `NoMemory` where memory was
/// refused. With it comes the wire that was made of the line, by which a caller sees what passed and why the line stopped.
pub fn attach_on<L: Read + Write, K: Keystroke, W: TakesBytes>(
    alloc: Global,
    line: L,
    device: Device,
    keys: &[K],
    output: &mut Output<W>,
) -> (Status, Wire<L>)
    ensures { Attaches device (map K.strike keys.now) (fresh (L.remaining line) (L.contents line))
        result.1 output.old output.new result.0 }
{
    let mut wire = Wire::new(line);
    let session = terminal_session(alloc, &mut wire, device, keys);
    let status = print_session(alloc, session, output);
    (status, wire)
}
