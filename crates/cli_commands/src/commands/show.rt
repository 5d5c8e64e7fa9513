//! The command `show`: the screen that records leave.

ghost use Rattle.std.specs.Prelude.{◌≡◌, ◌+◌, IfSome};
ghost use Rattle.cli_commands.specs.Causes.{EndsBy, ToldBy};
ghost use Rattle.cli_commands.specs.Fault.{Finds, Gives, GivesOrFails};
ghost use Rattle.cli_commands.specs.Held.{answer_seen, records_held, records_seen};
ghost use Rattle.cli_commands.specs.Show.{show_from, show_told, show, printed_show};
ghost use Rattle.cli_commands.specs.Streams.{Prints};

use crate::fault::CommandError;
use crate::input::records::{Records, read_records};
use crate::input::sizes::SizeLine;
use crate::input::source::{Source, Text};
use crate::output::answer::{Answer, finish};
use crate::output::screen::screen_text;
use crate::shown::show_all;
use crate::status::Status;
use crate::streams::{GivesBytes, TakesBytes};
use ds_screen::PlaneCells;
use ds_terminal::Terminal;
use std::alloc::Global;

/// What `show` answers to records that are shown on a terminal.
fn show_from(
    alloc: Global,
    terminal: &mut Terminal<PlaneCells>,
    records: &[Vec<u8>],
) -> Result<Answer, CommandError>
    ensures { Finds answer_seen result (show_from terminal.old (records_held records.now)) }
{
    show_all(terminal, records)?;
    Ok(Answer {
        text: screen_text(alloc, terminal.screen())?,
        status: Status::Done,
    })
}

/// What `show` answers to records.
fn show_told(alloc: Global, told: &Records) -> Result<Answer, CommandError>
    ensures { Gives answer_seen result (show_told (records_seen told.now)) }
{
    let mut terminal = Terminal::new(alloc, told.geometry)?;
    show_from(alloc, &mut terminal, told.records.as_slice())
}

/// What `show` answers to the records of a source, or their first fault.
fn show<S: Source>(alloc: Global, source: &mut S) -> Result<Answer, CommandError>
    ensures answer { IfSome (S.remaining source.old)
        (λ input. GivesOrFails answer_seen result (show input)) }
    ensures cause { ToldBy (S.failures source.old) (S.failures source.new) result }
{
    let told = read_records(alloc, source, SizeLine::Allowed)?;
    show_told(alloc, &told)
}

/// What `show` answers to a text of records, or its first fault.
///
/// # Errors
///
/// The first fault of the lines, then the first record that is refused; out of memory.
pub fn show_text(alloc: Global, records: &[u8]) -> Result<Answer, CommandError>
    ensures { Gives answer_seen result (show records.now) }
{
    show(alloc, &mut Text(records))
}

/// Reads records in hexadecimal, one a line, applies them to a new screen, and prints the screen; or
/// the first fault of the lines, or the first record that is refused. At most 16,777,216 bytes, 1,000
/// records of 32,768 bytes. After a read or a write that failed the status is `Failed`, where memory
/// was refused `NoMemory`, and a front of the text was written.
pub fn run_show<R: GivesBytes, W: TakesBytes>(
    alloc: Global,
    reader: &mut R,
    writer: &mut W,
) -> Status
    ensures prints { IfSome (R.remaining reader.old) (λ input.
        Prints (W.contents writer.old) (W.contents writer.new) result (printed_show input)) }
    ensures cause { IfSome (R.remaining reader.old) (λ input.
        EndsBy (R.failures reader.old + W.failures writer.old)
        (R.failures reader.new + W.failures writer.new) (printed_show input).status result) }
{
    let answer = show(alloc, reader);
    finish(alloc, writer, answer)
}
