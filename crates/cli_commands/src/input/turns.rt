//! Lines of records in hexadecimal, with a line `turn` between the turns of a dialogue.

ghost use Rattle.std.specs.Prelude.{◌≡◌, IfSome, Ok};
ghost use Rattle.cli_commands.specs.Causes.{ToldBy};
ghost use Rattle.cli_commands.specs.Fault.{Gives, GivesOrFails};
ghost use Rattle.cli_commands.specs.Held.{line_seen};
ghost use Rattle.cli_commands.specs.TurnsHeld.{turns_seen, records_of};
ghost use Rattle.cli_commands.specs.Taking.{taken_in};
ghost use Rattle.cli_commands.specs.Turns.{no_turns, one_more, after_record, next_turn, take_turn_line, turns_told, turns_in};

use crate::fault::{CommandError, Fault};
use crate::input::bytes::at_most;
use crate::input::lines::TakesLines;
use crate::input::records::{Line, MOST_RECORD_BYTES, MOST_RECORDS, line_told};
use crate::input::sizes::SizeLine;
use crate::input::source::{Source, Text};
use crate::input::turn_lines::is_turn;
use std::alloc::Global;
use std::mem::replace;

/// The records that lines tell, turn by turn.
#[derive(Drop)]
pub struct Turns {
    /// The turns that ended.
    pub ended: Vec<Vec<Vec<u8>>>,
    /// The records of the turn at hand.
    pub current: Vec<Vec<u8>>,
    /// How many records all turns have.
    pub count: usize,
    /// The digits of a line.
    pub digits: Vec<u8>,
}

/// One more record.
fn add(told: &mut Turns, bytes: Vec<u8>) -> Result<(), CommandError>
    ensures { Gives (λ done. turns_seen told.new) result
        (one_more (turns_seen told.old) bytes.items) }
{
    at_most(bytes.len(), MOST_RECORD_BYTES)?;
    if told.count >= MOST_RECORDS {
        return Err(CommandError::Fault(Fault::TooLong));
    }
    told.current.push(bytes)?;
    told.count += 1;
    Ok(())
}

/// The turn at hand ends.
fn end_turn(alloc: Global, told: &mut Turns) -> Result<(), CommandError>
    ensures { Gives (λ done. turns_seen told.new) result (Ok (next_turn (turns_seen told.old))) }
{
    let ended = replace(&mut told.current, Vec::new(alloc));
    Ok(told.ended.push(ended)?)
}

/// What the line of a number adds.
fn add_line(told: &mut Turns, number: usize, line: Line) -> Result<(), CommandError>
    ensures { Gives (λ done. turns_seen told.new) result
        (after_record number (turns_seen told.old) (line_seen line)) }
{
    match line {
        Line::Ignored => Ok(()),
        Line::Record(bytes) => add(told, bytes),
        Line::Sizes(_) | Line::Bad => Err(CommandError::Fault(Fault::BadLine(number))),
    }
}

impl TakesLines for Turns {
    ghost takes = { λ number told line result. Gives turns_seen result (take_turn_line number (turns_seen told) line) };

    fn take(&mut self, alloc: Global, number: usize, line: &[u8]) -> Result<(), CommandError> {
        if is_turn(line) {
            return end_turn(alloc, self);
        }
        let told = line_told(alloc, SizeLine::Refused, line, &mut self.digits)?;
        add_line(self, number, told)
    }
}

/// No turn but the first, without records.
fn no_turns(alloc: Global) -> Turns
    ensures { turns_seen result ≡ no_turns }
{
    Turns {
        ended: Vec::new(alloc),
        current: Vec::new(alloc),
        count: 0,
        digits: Vec::new(alloc),
    }
}

/// The turns with the one at hand.
fn all_turns(told: Turns) -> Result<Vec<Vec<Vec<u8>>>, CommandError>
    ensures { Gives records_of result (Ok (turns_told (turns_seen told))) }
{
    let mut turns = told.ended;
    turns.push(told.current)?;
    Ok(turns)
}

/// The turns that the lines of a source tell, or their first fault.
fn take_turns<S: Source>(alloc: Global, source: &mut S, none: Turns) -> Result<Turns, CommandError>
    ensures added { IfSome (S.remaining source.old) (λ input. GivesOrFails turns_seen result
        (taken_in take_turn_line (turns_seen none) input)) }
    ensures cause { ToldBy (S.failures source.old) (S.failures source.new) result }
{
    source.take_lines(alloc, none)
}

/// The records of each turn of an input, or the first fault of its lines.
pub fn read_turns<S: Source>(
    alloc: Global,
    source: &mut S,
) -> Result<Vec<Vec<Vec<u8>>>, CommandError>
    ensures turns { IfSome (S.remaining source.old)
        (λ input. GivesOrFails records_of result (turns_in input)) }
    ensures cause { ToldBy (S.failures source.old) (S.failures source.new) result }
{
    all_turns(take_turns(alloc, source, no_turns(alloc))?)
}

/// The records of each turn of a text, or the first fault of its lines. A line `turn` stands between two turns.
pub fn turns_in(alloc: Global, text: &[u8]) -> Result<Vec<Vec<Vec<u8>>>, CommandError>
    ensures { Gives records_of result (turns_in text.now) }
{
    read_turns(alloc, &mut Text(text))
}
