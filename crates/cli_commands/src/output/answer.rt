//! What a command answers, and how it is written.

ghost use Rattle.std.specs.Prelude.{◌≡◌, IfErr, IfOk, Err, Result, false};
ghost use Rattle.std.specs.Bool.{OnTrue};
ghost use Rattle.std.specs.Io.KnownBytes.{Appends};
ghost use Rattle.std.specs.String.{string_bytes};
ghost use Rattle.cli_commands.specs.Causes.{FinishesBy, PassesOn, SendsBy, StaysError, WritesBy};
ghost use Rattle.cli_commands.specs.Fault.{fault_line, GivesOrFails};
ghost use Rattle.cli_commands.specs.Held.{answer_seen};
ghost use Rattle.cli_commands.specs.Printed.{Printed, printed, printed_or_fault};
ghost use Rattle.cli_commands.specs.declared.fault.Fault.{Fault as AFault};
ghost use Rattle.cli_commands.specs.declared.status.Status.TheVariants.{BadInput};
ghost use Rattle.cli_commands.specs.Streams.{AppendsFront, Finishes, IsWritten};
ghost use Rattle.cli_commands.specs.declared.fault.CommandError.TheVariants.{Fault as Told};

use crate::fault::{CommandError, Fault};
use crate::status::Status;
use crate::streams::TakesBytes;
use std::alloc::{AllocError, Global};

/// The whole text, and the status with which the program ends once it is written.
#[derive(Debug, Drop)]
pub struct Answer {
    pub text: String,
    pub status: Status,
}

/// Writes a text and flushes, and answers whether every byte was taken. A write that takes no byte
/// counts as failed.
pub fn write_text<W: TakesBytes>(writer: &mut W, text: &[u8]) -> bool
    ensures all { OnTrue result (Appends (W.contents writer.old) (W.contents writer.new) text.now) }
    ensures front { AppendsFront (W.contents writer.old) (W.contents writer.new) text.now }
    ensures cause { SendsBy (W.failures writer.old) (W.failures writer.new) result }
    ensures passed { OnTrue result (W.waits writer.new ≡ false) }
{
    let mut rest = text;
    while !rest.is_empty() {
        match writer.put(rest) {
            Some(taken) => rest = &rest[taken..],
            None => return false,
        }
    }
    match writer.pass_on() {
        Some(()) => true,
        None => false,
    }
}

/// Writes an answer, and tells its status, or `Failed` where a write failed.
fn write_answer<W: TakesBytes>(writer: &mut W, answer: &Answer) -> Status
    ensures writes { IsWritten (W.contents writer.old) (W.contents writer.new)
        (answer_seen answer.now) result }
    ensures cause { WritesBy (W.failures writer.old) (W.failures writer.new) answer.now.status
        result }
    ensures passed { PassesOn (W.waits writer.new) result }
{
    if write_text(writer, answer.text.as_bytes()) {
        answer.status
    } else {
        Status::Failed
    }
}

/// The line of a fault.
fn fault_line(alloc: Global, fault: Fault) -> Result<String, AllocError>
    ensures { IfOk result (λ line. string_bytes line ≡ fault_line fault) }
{
    format!(in alloc; "{fault}\n")
}

/// What is printed for a fault.
fn fault_answer(alloc: Global, fault: Fault) -> Result<Answer, AllocError>
    ensures { IfOk result (λ answer. answer_seen answer ≡ printed (fault_line fault) BadInput) }
{
    Ok(Answer {
        text: fault_line(alloc, fault)?,
        status: Status::BadInput,
    })
}

/// What a command prints: its answer, or the line of the fault in its place.
///
/// # Errors
///
/// Where a read failed, or memory was refused.
pub fn printed(alloc: Global, answer: Result<Answer, CommandError>) -> Result<Answer, CommandError>
    ensures told { (due : Result Printed AFault) → GivesOrFails answer_seen answer due
        → IfOk result (λ told. answer_seen told ≡ printed_or_fault due) }
    ensures failed { IfErr result (StaysError answer) }
{
    match answer {
        Ok(answer) => Ok(answer),
        Err(CommandError::Fault(fault)) => Ok(fault_answer(alloc, fault)?),
        Err(error) => Err(error),
    }
}

/// Writes the line of a fault.
fn write_fault<W: TakesBytes>(alloc: Global, writer: &mut W, fault: Fault) -> Status
    ensures writes { Finishes (W.contents writer.old) (W.contents writer.new)
        (Err (Told fault)) result }
    ensures cause { FinishesBy (W.failures writer.old) (W.failures writer.new)
        (Err (Told fault)) result }
    ensures passed { PassesOn (W.waits writer.new) result }
{
    match fault_answer(alloc, fault) {
        Ok(answer) => write_answer(writer, &answer),
        Err(_) => Status::NoMemory,
    }
}

/// Writes what a command answers, or the line of the fault, and tells the status: `Failed` where a read
/// or a write failed, and `NoMemory`, with nothing written, where memory was refused.
pub fn finish<W: TakesBytes>(
    alloc: Global,
    writer: &mut W,
    answer: Result<Answer, CommandError>,
) -> Status
    ensures writes { Finishes (W.contents writer.old) (W.contents writer.new) answer result }
    ensures cause { FinishesBy (W.failures writer.old) (W.failures writer.new) answer result }
    ensures passed { PassesOn (W.waits writer.new) result }
{
    match answer {
        Ok(answer) => write_answer(writer, &answer),
        Err(CommandError::Fault(fault)) => write_fault(alloc, writer, fault),
        Err(CommandError::ReadFailed) => Status::Failed,
        Err(CommandError::OutOfMemory) => Status::NoMemory,
    }
}
