//! The command `records`: the records of sessions that were traced or captured.

ghost use Rattle.std.specs.Prelude.{ℕ, ◌≡◌, ◌==◌, ◌<◌, ◌+◌, ◌-◌, Bool, ◌&&◌, nat_lt, slice_index, take, length, if◌then◌else◌, IfOk, IfErr, IfSome, OnOk, Ok, Err};
ghost use Rattle.std.specs.String.{string_bytes};
ghost use Rattle.cli_commands.specs.declared.status.Status.TheVariants.{Done};
ghost use Rattle.cli_commands.specs.Causes.{EndsBy, FailsBy};
ghost use Rattle.cli_commands.specs.Fault.{IsNoFault};
ghost use Rattle.cli_commands.specs.Streams.{IsWantOrFailure};
ghost use Rattle.cli_traces.specs.declared.line.Next.TheVariants.{Goes};
ghost use Rattle.cli_traces.specs.Held.{following_seen, IsReady};
ghost use Rattle.cli_traces.specs.Open.{open_text};
ghost use Rattle.cli_traces.specs.Printed.{AddsBy, PrintsLine, PrintsRecords, TracesBy, Writes, WritesEnd, status_of};

use crate::asked::Asked;
use crate::follower::Follower;
use crate::line::{Next, take_line};
use crate::reading::Reading;
use crate::text::push_open;
use cli_commands::{
    Answer, CommandError, GivesBytes, ReadAhead, Status, TakesBytes, finish, next_line, without_end,
};
use std::alloc::Global;

/// So many bytes are read at once.
const PIECE: usize = 8_192;

/// Writes what a line adds.
fn write_added<W: TakesBytes>(
    alloc: Global,
    writer: &mut W,
    text: String,
    next: Next,
) -> Result<Next, Status>
    ensures writes { Writes (string_bytes text) (W.contents writer.old) next result
        (W.contents writer.new) }
    ensures cause { AddsBy (W.failures writer.old) (W.failures writer.new) result }
{
    let answer = Answer {
        text,
        status: Status::Done,
    };
    match finish(alloc, writer, Ok(answer)) {
        Status::Done => Ok(next),
        status => Err(status),
    }
}

/// Takes the line of a number, from 1, and writes what it adds.
fn print_line<W: TakesBytes>(
    alloc: Global,
    asked: Asked,
    follower: &mut Follower,
    number: u64,
    line: &[u8],
    writer: &mut W,
) -> Result<Next, Status>
    requires ready { IsReady follower.old }
    ensures prints { PrintsLine asked number (following_seen follower.old) line.now
        (W.contents writer.old) result (following_seen follower.new) (W.contents writer.new) }
    ensures cause { AddsBy (W.failures writer.old) (W.failures writer.new) result }
    ensures ready { IfOk result (λ next. next ≡ Goes → IsReady follower.new) }
{
    let mut out = String::new(alloc);
    match take_line(alloc, asked, follower, number, line, &mut out) {
        Err(_) => Err(Status::NoMemory),
        Ok(next) => write_added(alloc, writer, out, next),
    }
}

/// Writes what is left open at the end.
fn print_end<W: TakesBytes>(alloc: Global, writer: &mut W, count: usize) -> Status
    ensures writes { WritesEnd (open_text count) (W.contents writer.old) result
        (W.contents writer.new) }
    ensures cause { EndsBy (W.failures writer.old) (W.failures writer.new) Done result }
{
    let mut text = String::new(alloc);
    match push_open(&mut text, count) {
        Err(_) => Status::NoMemory,
        Ok(()) => {
            let answer = Answer {
                text,
                status: Status::Done,
            };
            finish(alloc, writer, Ok(answer))
        }
    }
}

/// The status where a line can't be read.
fn status_of(error: CommandError) -> Status
    requires { IsNoFault error }
    ensures exact { result ≡ status_of error }
    ensures want { IsWantOrFailure result }
    ensures cause { (old : ℕ) (new : ℕ) → FailsBy old new error → EndsBy old new Done result }
{
    match error {
        CommandError::ReadFailed => Status::Failed,
        CommandError::OutOfMemory => Status::NoMemory,
        CommandError::Fault(_) => unreachable!(),
    }
}

/// Reads the lines of a trace or of a captured stream, and prints the records of a side: each as a
/// comment, and those of 3270 data as a line of hexadecimal after it; a comment where a connection
/// begins, and one that tells how many bytes are open where one ends. A line whose hexadecimal is
/// none, a line of more than 16,777,216 bytes, and a fault of a stream or of a header, is told with the
/// number of its line, from 1, and the status is `BadInput`. Lines are read and their text written in
/// turn, so the memory that it takes is that of one line, of its text, and of a record and a token of
/// each side. After a read
/// or a write that failed, and after 2^64 - 2 lines, the status is `Failed`, where memory was
/// refused `NoMemory`, and a front of the text was written.
pub fn run_records<R: GivesBytes, W: TakesBytes>(
    alloc: Global,
    asked: Asked,
    reader: &mut R,
    writer: &mut W,
) -> Status
    ensures prints { IfSome (R.remaining reader.old) (λ input. PrintsRecords asked input
        (W.contents writer.old) (W.contents writer.new) result) }
    ensures cause { IfSome (R.remaining reader.old) (λ input.
        TracesBy (R.failures reader.old + W.failures writer.old)
        (R.failures reader.new + W.failures writer.new) input result) }
{
    let Ok(mut ahead) = ReadAhead::new(alloc, PIECE) else {
        return Status::NoMemory;
    };
    let Ok(mut follower) = Follower::new(alloc, Reading::first()) else {
        return Status::NoMemory;
    };
    let mut line = Vec::new(alloc);
    for number in 1..u64::MAX {
        match next_line(reader, &mut ahead, &mut line) {
            Ok(true) => {}
            Ok(false) => return print_end(alloc, writer, follower.open_count(asked.side)),
            Err(error) => return status_of(error),
        }
        match print_line(
            alloc,
            asked,
            &mut follower,
            number,
            without_end(&line),
            writer,
        ) {
            Ok(Next::Goes) => {}
            Ok(Next::Stops) => return Status::BadInput,
            Err(status) => return status,
        }
    }
    Status::Failed
}
