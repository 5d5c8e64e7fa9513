//! The command `attach --tolerant`, once it is connected.

ghost use Rattle.std.specs.Prelude.{◌≡◌, ◌++◌, map, IfOk, OnOk};
ghost use Rattle.std.specs.String.{string_bytes};
ghost use Rattle.cli_commands.specs.Held.{answer_seen};
ghost use Rattle.tn_session.specs.Wire.{fresh};
ghost use Rattle.cli_sessions.specs.Session.{CanRun};
ghost use Rattle.cli_sessions.specs.Tolerant.{taken_words, other_words, tolerant_line, falls_short, report_status, is_of_line, is_line_fault, tolerant_fault_number, tolerant_fault_line, printed_tolerant};
ghost use Rattle.cli_sessions.specs.Tolerant.{ReportsTolerant, IsTolerated, AttachesTolerant};

use crate::attach::end_word;
use crate::fault::fault_number;
use crate::output::Output;
use crate::session::flushed;
use cli_commands::{Answer, Status, TakesBytes};
use std::alloc::{AllocError, Global};
use std::io::{Read, Write};
use tn_session::{Device, Keystroke, RunFault, SessionFault, TolerantReport, Wire, tolerant_run};

/// A line whose reads may have a limit of time.
pub trait Timed {
    /// Whether a read ended because nothing came in time.
    fn is_late(&self) -> bool;
}

fn push_taken(out: &mut String, report: TolerantReport) -> Result<(), AllocError>
    ensures { OnOk result (string_bytes out.new ≡ string_bytes out.old ++ taken_words report) }
{
    let TolerantReport {
        answers,
        passed,
        refused,
        ..
    } = report;
    write!(out, "answers {answers} passed {passed} refused {refused}")
}

fn push_others(out: &mut String, report: TolerantReport) -> Result<(), AllocError>
    ensures { OnOk result (string_bytes out.new ≡ string_bytes out.old ++ other_words report) }
{
    let TolerantReport {
        end,
        ignored,
        inhibited,
        ..
    } = report;
    let end = end_word(end);
    write!(out, " ignored {ignored} inhibited {inhibited} end {end}\n")
}

fn push_report(out: &mut String, report: TolerantReport) -> Result<(), AllocError>
    ensures { OnOk result
        (string_bytes out.new ≡ string_bytes out.old ++ tolerant_line report) }
{
    push_taken(out, report)?;
    push_others(out, report)
}

/// The status of a session that so many answers were expected of.
fn report_status(expected: u16, report: TolerantReport) -> Status
    ensures { result ≡ report_status expected report }
{
    if expected != 0 && (report.answers < u64::from(expected) || report.inhibited != 0) {
        Status::Findings
    } else {
        Status::Done
    }
}

fn is_of_line(why: SessionFault) -> bool
    ensures { result ≡ is_of_line why }
{
    match why {
        SessionFault::LineFault => true,
        SessionFault::Rejected(_)
        | SessionFault::WrongList
        | SessionFault::BadSubnegotiation
        | SessionFault::OptionRefused(_)
        | SessionFault::NotReady
        | SessionFault::BadResponse
        | SessionFault::TooManyReads
        | SessionFault::NoDevice
        | SessionFault::Closed
        | SessionFault::TerminalRefused(_) => false,
    }
}

/// Whether a read or a write of the line failed.
fn is_line_fault(why: RunFault) -> bool
    ensures { result ≡ is_line_fault why }
{
    match why {
        RunFault::Session(why) => is_of_line(why),
        RunFault::Wire(_)
        | RunFault::Header(_)
        | RunFault::Inbound(_)
        | RunFault::Bind(_)
        | RunFault::OutOfMemory => false,
    }
}

/// The number of a fault, where the line says whether it was too late.
fn number_of(late: bool, why: RunFault) -> &'static str
    ensures { result.now ≡ tolerant_fault_number late why }
{
    if late && is_line_fault(why) {
        "N12"
    } else {
        fault_number(why)
    }
}

fn push_fault(out: &mut String, late: bool, why: RunFault) -> Result<(), AllocError>
    ensures { OnOk result
        (string_bytes out.new ≡ string_bytes out.old ++ tolerant_fault_line late why) }
{
    let fault = number_of(late, why);
    write!(out, "fault {fault}\n")
}

/// What is printed of a session.
fn session_answer(
    alloc: Global,
    expected: u16,
    late: bool,
    session: Result<TolerantReport, RunFault>,
) -> Result<Answer, AllocError>
    ensures { IfOk result (λ answer. answer_seen answer ≡ printed_tolerant expected late session) }
{
    let mut text = String::new(alloc);
    match session {
        Ok(report) => {
            push_report(&mut text, report)?;
            Ok(Answer {
                text,
                status: report_status(expected, report),
            })
        }
        Err(why) => {
            push_fault(&mut text, late, why)?;
            Ok(Answer {
                text,
                status: Status::Failed,
            })
        }
    }
}

fn print_session<W: TakesBytes>(
    alloc: Global,
    expected: u16,
    late: bool,
    session: Result<TolerantReport, RunFault>,
    output: &mut Output<W>,
) -> Status
    ensures { ReportsTolerant expected late session output.old output.new result }
{
    if let Err(RunFault::OutOfMemory) = session {
        return Status::NoMemory;
    }
    let Ok(Answer { text, status }) = session_answer(alloc, expected, late, session) else {
        return Status::NoMemory;
    };
    if output.print(alloc, text) {
        status
    } else {
        Status::Failed
    }
}

/// A tolerant terminal's session over a wire: TN3270E with RESPONSES where the host asks for it, else classic TN3270.
fn tolerant_session<L: Read + Write, K: Keystroke>(
    alloc: Global,
    wire: &mut Wire<L>,
    device: Device,
    keys: &[K],
) -> Result<TolerantReport, RunFault>
    requires { CanRun wire.old }
    ensures { IsTolerated device (map K.strike keys.now) wire.old result wire.new }
{
    let ran = tolerant_run(alloc, wire, device, keys);
    flushed(wire, ran)
}

/// Runs a tolerant terminal of this device over a line to a host, and presses the keys, or strikes the strokes, while the screen
/// takes input; prints `answers A passed B refused C ignored D inhibited F end E`, where E is `keys` or `closed`, or `fault` and
/// the fault's number, which is N12 where nothing came in time. The status is `Done`, `Findings` where so many answers were
/// expected and fewer were sent or a key was inhibited, `Failed` where the session or a write failed, or `NoMemory`.
pub fn attach_tolerant_on<L: Read + Write + Timed, K: Keystroke, W: TakesBytes>(
    alloc: Global,
    line: L,
    device: Device,
    keys: &[K],
    expected: u16,
    output: &mut Output<W>,
) -> (Status, Wire<L>)
    ensures { AttachesTolerant device (map K.strike keys.now) expected
        (fresh (L.remaining line) (L.contents line)) result.1 output.old output.new result.0 }
{
    let mut wire = Wire::new(line);
    let session = tolerant_session(alloc, &mut wire, device, keys);
    let late = wire.line().is_late();
    let status = print_session(alloc, expected, late, session, output);
    (status, wire)
}
