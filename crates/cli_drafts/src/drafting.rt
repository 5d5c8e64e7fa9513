//! The command `draft`.

ghost use Rattle.std.specs.Prelude.{◌≡◌, ◌+◌, IfSome};
ghost use Rattle.cli_commands.specs.Causes.{EndsBy, ToldBy};
ghost use Rattle.cli_commands.specs.Fault.{Gives, GivesOrFails};
ghost use Rattle.cli_commands.specs.Held.{answer_seen, records_seen};
ghost use Rattle.cli_commands.specs.Streams.{Prints};
ghost use Rattle.scr_draft.specs.Draft.{drafted};
ghost use Rattle.cli_drafts.specs.Draft.{printed_text, draft_told, draft, printed_draft};

use crate::stop::stop_line;
use cli_commands::{
    Answer, CommandError, GivesBytes, Records, SizeLine, Source, Status, TakesBytes, Text, finish,
    read_records,
};
use ds_screen::{PlaneCells, Screen};
use scr_draft::{Opened, draft, open};
use std::alloc::Global;

/// What `draft` answers to a screen.
fn draft_answer(alloc: Global, screen: &Screen<PlaneCells>) -> Result<Answer, CommandError>
    ensures { Gives answer_seen result (printed_text (drafted screen.now)) }
{
    let text = draft(alloc, screen)?;
    Ok(Answer {
        text,
        status: Status::Done,
    })
}

/// What `draft` answers to records.
fn draft_told(alloc: Global, told: &Records) -> Result<Answer, CommandError>
    ensures { Gives answer_seen result (draft_told (records_seen told.now)) }
{
    match open(alloc, told.geometry, told.records.as_slice())? {
        Opened::Leads(screen) => draft_answer(alloc, &screen),
        Opened::Stands(finding) => Ok(Answer {
            text: stop_line(alloc, finding)?,
            status: Status::Findings,
        }),
    }
}

/// What `draft` answers to the records of a source.
fn draft_records<S: Source>(alloc: Global, source: &mut S) -> Result<Answer, CommandError>
    ensures answer { IfSome (S.remaining source.old)
        (λ input. GivesOrFails answer_seen result (draft input)) }
    ensures cause { ToldBy (S.failures source.old) (S.failures source.new) result }
{
    let told = read_records(alloc, source, SizeLine::Allowed)?;
    draft_told(alloc, &told)
}

/// What `draft` answers to a text of records.
///
/// # Errors
///
/// The first fault of the lines, or of the draft as a layout; out of memory.
pub fn draft_text(alloc: Global, records: &[u8]) -> Result<Answer, CommandError>
    ensures { Gives answer_seen result (draft records.now) }
{
    draft_records(alloc, &mut Text(records))
}

/// Reads records in hexadecimal, one a line, applies them to a new screen, and prints a layout for it, in TOML: an entry
/// for each field that governs cells and is unprotected, or protected and modified, in rising order, and behind each what an
/// operator sees. Where the records are refused, don't erase or don't write, leave the keyboard locked or no field, the
/// checker's finding is printed, with the status `Findings`; where the lines have a fault, or a layout can't say the
/// screen, as L11 with more than 1,000 fields, the first fault, with the status `BadInput`. At most 16,777,216 bytes, 1,000
/// records of 32,768 bytes. After a read or a write that failed the status is `Failed`, where memory was refused
/// `NoMemory`, and a front of the text was written.
pub fn run_draft<R: GivesBytes, W: TakesBytes>(
    alloc: Global,
    reader: &mut R,
    writer: &mut W,
) -> Status
    ensures prints { IfSome (R.remaining reader.old) (λ input.
        Prints (W.contents writer.old) (W.contents writer.new) result (printed_draft input)) }
    ensures cause { IfSome (R.remaining reader.old) (λ input.
        EndsBy (R.failures reader.old + W.failures writer.old)
        (R.failures reader.new + W.failures writer.new) (printed_draft input).status result) }
{
    let answer = draft_records(alloc, reader);
    finish(alloc, writer, answer)
}
