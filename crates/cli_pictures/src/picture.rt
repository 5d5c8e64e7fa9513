//! The command `show` in the further forms.

ghost use Rattle.std.specs.Prelude.{◌≡◌, ◌+◌, IfOk, IfSome, string_bytes};
ghost use Rattle.cli_commands.specs.Causes.{EndsBy, ToldBy};
ghost use Rattle.cli_commands.specs.Fault.{Finds, Gives, GivesOrFails};
ghost use Rattle.cli_commands.specs.Held.{answer_seen, records_held, records_seen};
ghost use Rattle.cli_commands.specs.Printed.{printed};
ghost use Rattle.cli_commands.specs.Streams.{Prints};
ghost use Rattle.cli_commands.specs.declared.status.Status.TheVariants.{Done};
ghost use Rattle.cli_pictures.specs.Picture.{drawn, pictured_from, pictured_told, pictured, printed_picture};

use crate::colored::push_colored;
use crate::drawing::Drawing;
use crate::html::push_page;
use crate::json::push_json;
use crate::rows::push_rows;
use crate::svg::push_svg;
use cli_commands::{
    Answer, CommandError, GivesBytes, Records, SizeLine, Source, Status, TakesBytes, Text, finish,
    read_records, show_all,
};
use ds_screen::{PlaneCells, Screen};
use ds_terminal::Terminal;
use std::alloc::{AllocError, Global};

/// The text of a screen in a form.
fn drawn(alloc: Global, drawing: Drawing, screen: &Screen<PlaneCells>) -> Result<String, AllocError>
    ensures { IfOk result (λ text. string_bytes text ≡ drawn drawing screen.now) }
{
    let mut out = String::new(alloc);
    match drawing {
        Drawing::Svg => push_svg(&mut out, screen)?,
        Drawing::Html => push_page(&mut out, screen)?,
        Drawing::Colored => push_colored(&mut out, screen)?,
        Drawing::Json => push_json(alloc, &mut out, screen)?,
        Drawing::Rows => push_rows(&mut out, screen)?,
    }
    Ok(out)
}

/// What is printed of a screen in a form.
pub(crate) fn drawn_answer(
    alloc: Global,
    drawing: Drawing,
    screen: &Screen<PlaneCells>,
) -> Result<Answer, AllocError>
    ensures { IfOk result (λ answer. answer_seen answer
        ≡ printed (drawn drawing screen.now) Done) }
{
    Ok(Answer {
        text: drawn(alloc, drawing, screen)?,
        status: Status::Done,
    })
}

/// What is printed, in a form, of the screen that records leave on a terminal.
fn picture_from(
    alloc: Global,
    drawing: Drawing,
    terminal: &mut Terminal<PlaneCells>,
    records: &[Vec<u8>],
) -> Result<Answer, CommandError>
    ensures { Finds answer_seen result
        (pictured_from drawing terminal.old (records_held records.now)) }
{
    show_all(terminal, records)?;
    Ok(drawn_answer(alloc, drawing, terminal.screen())?)
}

/// What is printed, in a form, of the screen that records leave.
fn picture_told(alloc: Global, drawing: Drawing, told: &Records) -> Result<Answer, CommandError>
    ensures { Gives answer_seen result (pictured_told drawing (records_seen told.now)) }
{
    let mut terminal = Terminal::new(alloc, told.geometry)?;
    picture_from(alloc, drawing, &mut terminal, told.records.as_slice())
}

/// What is printed, in a form, of the screen that the records of a source leave, or their first fault.
fn picture_records<S: Source>(
    alloc: Global,
    drawing: Drawing,
    source: &mut S,
) -> Result<Answer, CommandError>
    ensures answer { IfSome (S.remaining source.old) (λ input.
        GivesOrFails answer_seen result (pictured drawing input)) }
    ensures cause { ToldBy (S.failures source.old) (S.failures source.new) result }
{
    let told = read_records(alloc, source, SizeLine::Allowed)?;
    picture_told(alloc, drawing, &told)
}

/// What is printed, in a form, of the screen that a text of records leaves, or its first fault.
///
/// # Errors
///
/// The first fault of the lines, then the first record that is refused; out of memory.
pub fn picture_text(alloc: Global, drawing: Drawing, records: &[u8]) -> Result<Answer, CommandError>
    ensures { Gives answer_seen result (pictured drawing records.now) }
{
    picture_records(alloc, drawing, &mut Text(records))
}

/// Reads records in hexadecimal, one a line, applies them to a new screen, and prints the screen in a form; or the first
/// fault of the lines, or the first record that is refused. At most 16,777,216 bytes, 1,000 records of 32,768 bytes. After
/// a read or a write that failed the status is `Failed`, where memory was refused `NoMemory`, and a front of the text was
/// written.
pub fn run_picture<R: GivesBytes, W: TakesBytes>(
    alloc: Global,
    drawing: Drawing,
    reader: &mut R,
    writer: &mut W,
) -> Status
    ensures prints { IfSome (R.remaining reader.old) (λ input.
        Prints (W.contents writer.old) (W.contents writer.new) result
        (printed_picture drawing input)) }
    ensures cause { IfSome (R.remaining reader.old) (λ input.
        EndsBy (R.failures reader.old + W.failures writer.old)
        (R.failures reader.new + W.failures writer.new) (printed_picture drawing input).status result) }
{
    let answer = picture_records(alloc, drawing, reader);
    finish(alloc, writer, answer)
}
