//! Lines taken in turn as they are read.

ghost use Rattle.std.specs.Prelude.{◌≡◌, ◌≤◌, ◌<◌, ◌+◌, ◌-◌, IfErr, IfOk, IfSome, length, slice_index, nat_le};
ghost use Rattle.std.specs.Io.KnownBytes.{prepend_known};
ghost use Rattle.cli_commands.specs.Causes.{FailsBy, ReadsNothing, ToldBy};
ghost use Rattle.cli_commands.specs.Fault.{IsNoFault};
ghost use Rattle.cli_commands.specs.Taking.{TakesInput, TakesWhole, EndsAs};

use crate::fault::{CommandError, Fault};
use crate::input::ahead::ReadAhead;
use crate::input::bytes::{MOST_BYTES, PIECE};
use crate::input::lines::{TakesLines, take_numbered};
use crate::input::next::{front, next_line};
use crate::streams::GivesBytes;
use memchr::memrchr;
use std::alloc::Global;

/// Whether a reader has at most so many bytes left, which are read.
fn has_at_most<R: GivesBytes>(
    reader: &mut R,
    ahead: &mut ReadAhead,
    line: &mut Vec<u8>,
    most: usize,
) -> Result<bool, CommandError>
    requires { most ≤ 16777216 }
    ensures few { IfSome (prepend_known ahead.old (R.remaining reader.old))
        (λ rest. IfOk result (λ few. few ≡ nat_le (length rest) most)) }
    ensures cause { ToldBy (R.failures reader.old) (R.failures reader.new) result }
    ensures failed { IfErr result IsNoFault }
{
    let mut left = most;
    'lines: while next_line(reader, ahead, line)? {
        if left < line.len() {
            return Ok(false);
        }
        left -= line.len();
    }
    Ok(true)
}

/// The fault of a line, or of the whole input where it is too long: so many bytes may come yet.
fn fault_before_the_end<R: GivesBytes>(
    reader: &mut R,
    ahead: &mut ReadAhead,
    line: &mut Vec<u8>,
    left: usize,
    error: CommandError,
) -> CommandError
    requires left { left ≤ 16777216 }
    requires unread { ReadsNothing error }
    ensures ends { IfSome (prepend_known ahead.old (R.remaining reader.old))
        (λ rest. EndsAs (nat_le (length rest) left) error result) }
    ensures cause { FailsBy (R.failures reader.old) (R.failures reader.new) result }
{
    match error {
        CommandError::Fault(fault) => match has_at_most(reader, ahead, line, left) {
            Ok(true) => CommandError::Fault(fault),
            Ok(false) => CommandError::Fault(Fault::TooLong),
            Err(failed) => failed,
        },
        other => other,
    }
}

/// How many bytes are whole lines, each with its LF.
fn whole_len(bytes: &[u8]) -> usize
    ensures inside { result ≤ length bytes.now }
    ensures last { 0 < result → slice_index bytes.now (result - 1) ≡ 10 }
{
    match memrchr(b'\n', bytes) {
        Some(at) => at + 1,
        None => 0,
    }
}

/// Takes the whole lines that a reader shows, of which the first has this number, where they lie; at most so many bytes. Tells
/// how many bytes they are, and what they tell with the number of the next line, or their first fault.
fn take_shown<R: GivesBytes, T: TakesLines>(
    alloc: Global,
    reader: &mut R,
    ahead: &mut ReadAhead,
    most: usize,
    number: usize,
    told: T,
) -> Result<(usize, Result<(T, usize), CommandError>), CommandError>
    requires { number + most ≤ 16777217 }
    ensures takes { IfOk result (λ taken. TakesWhole T.takes number told
        (prepend_known ahead.old (R.remaining reader.old)) (prepend_known ahead.new (R.remaining reader.new)) taken.0 taken.1) }
    ensures few { IfOk result (λ taken. taken.0 ≤ most) }
    ensures next { IfOk result (λ taken. IfOk taken.1 (λ after. after.1 ≤ number + taken.0)) }
    ensures unread { IfOk result (λ taken. IfErr taken.1 ReadsNothing) }
    ensures cause { ToldBy (R.failures reader.old) (R.failures reader.new) result }
    ensures failed { IfErr result IsNoFault }
{
    ahead.fill(reader)?;
    let shown = ahead.shown();
    let seen = front(shown, most);
    let count = whole_len(seen);
    let taken = take_numbered(alloc, &seen[..count], number, told);
    ahead.consume(count);
    Ok((count, taken))
}

/// Takes the lines that a reader has left in turn, up to the first fault: those that it shows whole where they lie, and then the
/// one that goes on behind what it shows.
fn take_left<R: GivesBytes, T: TakesLines>(
    alloc: Global,
    reader: &mut R,
    ahead: &mut ReadAhead,
    none: T,
) -> Result<T, CommandError>
    ensures takes { IfSome (prepend_known ahead.old (R.remaining reader.old))
        (λ input. TakesInput T.takes none input result) }
    ensures cause { ToldBy (R.failures reader.old) (R.failures reader.new) result }
{
    let mut line = Vec::new(alloc);
    let mut told = none;
    let mut left = MOST_BYTES;
    let mut number = 1;
    'lines: loop {
        let (count, taken) = take_shown(alloc, reader, ahead, left, number, told)?;
        left -= count;
        let (next, after) = match taken {
            Ok(taken) => taken,
            Err(error) => return Err(fault_before_the_end(reader, ahead, &mut line, left, error)),
        };
        if !next_line(reader, ahead, &mut line)? {
            return Ok(next);
        }
        if left < line.len() {
            return Err(CommandError::Fault(Fault::TooLong));
        }
        left -= line.len();
        (told, number) = match take_numbered(alloc, &line, after, next) {
            Ok(taken) => taken,
            Err(error) => return Err(fault_before_the_end(reader, ahead, &mut line, left, error)),
        };
    }
}

/// Takes the lines of a reader in turn as they are read, up to the first fault: that the input is too long comes before what
/// its lines tell.
pub fn read_lines<R: GivesBytes, T: TakesLines>(
    alloc: Global,
    reader: &mut R,
    none: T,
) -> Result<T, CommandError>
    ensures takes { IfSome (R.remaining reader.old)
        (λ input. TakesInput T.takes none input result) }
    ensures cause { ToldBy (R.failures reader.old) (R.failures reader.new) result }
{
    let mut ahead = ReadAhead::new(alloc, PIECE)?;
    take_left(alloc, reader, &mut ahead, none)
}
