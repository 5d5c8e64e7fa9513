//! `check`, each finding explained.

ghost use Rattle.std.specs.Prelude.{◌≡◌, ◌+◌, option_map, IfErr, IfOk, IfSome};
ghost use Rattle.cli_commands.specs.Causes.{EndsBy, ToldBy};
ghost use Rattle.cli_commands.specs.Fault.{Gives, GivesOrFails};
ghost use Rattle.cli_commands.specs.Held.{answer_seen, records_held};
ghost use Rattle.cli_commands.specs.LayoutText.{layout_in};
ghost use Rattle.cli_commands.specs.Streams.{Prints};
ghost use Rattle.cli_reports.specs.Explained.{explained_findings, explained_told, explained_records, explained, printed_explained};

use crate::explain::push_findings;
use cli_commands::{
    Answer, CommandError, Demos, GivesBytes, SizeLine, Source, Status, TakesBytes, Text,
    demo_terminal, finish, read_layout, read_records,
};
use cli_findings::{Pen, find};
use ds_screen::PlaneCells;
use ds_terminal::Terminal;
use scr_check::Traced;
use scr_layout::Layout;
use std::alloc::{AllocError, Global};

/// `yes`, or the findings, explained on a terminal's screen.
pub(crate) fn findings_answer(
    alloc: Global,
    layout: &Layout,
    terminal: Option<&Terminal<PlaneCells>>,
    findings: &[Traced],
) -> Result<Answer, AllocError>
    ensures { IfOk result (λ answer. answer_seen answer
        ≡ explained_findings layout.now (option_map (λ t. t.now) terminal.entry) findings.now) }
{
    if findings.is_empty() {
        return Ok(Answer {
            text: String::from_str(alloc, "yes\n")?,
            status: Status::Done,
        });
    }
    let mut text = String::new(alloc);
    push_findings(alloc, &mut text, layout, terminal, findings)?;
    Ok(Answer {
        text,
        status: Status::Findings,
    })
}

/// What is explained of a layout and records that were told.
fn explained_told(
    alloc: Global,
    pen: Pen,
    layout: &Layout,
    records: &[Vec<u8>],
) -> Result<Answer, AllocError>
    ensures { IfOk result (λ answer. answer_seen answer
        ≡ explained_told pen layout.now (records_held records.now)) }
{
    let found = find(alloc, pen, layout, records)?;
    let terminal = demo_terminal(alloc, layout, records, Demos::Printed)?;
    findings_answer(alloc, layout, terminal.as_ref(), found.as_slice())
}

/// The same of a layout and the records of a source.
fn explained_records<S: Source>(
    alloc: Global,
    pen: Pen,
    layout: &Layout,
    source: &mut S,
) -> Result<Answer, CommandError>
    ensures answer { IfSome (S.remaining source.old) (λ input. GivesOrFails answer_seen result
        (explained_records pen layout.now input)) }
    ensures cause { ToldBy (S.failures source.old) (S.failures source.new) result }
{
    let told = read_records(alloc, source, SizeLine::Refused)?;
    Ok(explained_told(alloc, pen, layout, told.records.as_slice())?)
}

/// The same of the sources of a layout and of records.
fn explained_read<L: Source, R: Source>(
    alloc: Global,
    pen: Pen,
    layout: &mut L,
    records: &mut R,
) -> Result<Answer, CommandError>
    ensures answer { IfSome (L.remaining layout.old) (λ text. IfSome (R.remaining
        records.old) (λ input. GivesOrFails answer_seen result (explained pen text input))) }
    ensures cause { ToldBy (L.failures layout.old + R.failures records.old)
        (L.failures layout.new + R.failures records.new) result }
    ensures unread { IfSome (L.remaining layout.old) (λ text. IfErr (layout_in text) (λ fault.
        records.new ≡ records.old)) }
{
    let layout = read_layout(alloc, layout)?;
    explained_records(alloc, pen, &layout, records)
}

/// What `check --explain` answers to the texts of a layout and of records: `yes`, or the findings as `check` prints them, and
/// under each, indented, where its field is on the screen, what it means, and what mends it.
///
/// # Errors
///
/// The first fault, as of `check`: of the layout, then of the lines; out of memory.
pub fn explained_texts(
    alloc: Global,
    pen: Pen,
    layout: &[u8],
    records: &[u8],
) -> Result<Answer, CommandError>
    ensures { Gives answer_seen result (explained pen layout.now records.now) }
{
    explained_read(alloc, pen, &mut Text(layout), &mut Text(records))
}

/// Reads a layout and then records in hexadecimal, one a line, and prints `yes`, or the findings as `check` prints them, each with
/// lines under it; or the first fault: of the layout, then of the lines. Records aren't read where the layout has a fault. The
/// sizes are the layout's, so a line of sizes is bad. At most 16,777,216 bytes of either, 1,000 records of 32,768 bytes. After
/// a read or a write that failed the status is `Failed`, where memory was refused `NoMemory`, and a front of the text was
/// written.
pub fn run_explained<L: GivesBytes, R: GivesBytes, W: TakesBytes>(
    alloc: Global,
    pen: Pen,
    layout: &mut L,
    reader: &mut R,
    writer: &mut W,
) -> Status
    ensures prints { IfSome (L.remaining layout.old) (λ text. IfSome (R.remaining
        reader.old) (λ input.
        Prints (W.contents writer.old) (W.contents writer.new) result
        (printed_explained pen text input))) }
    ensures cause { IfSome (L.remaining layout.old) (λ text. IfSome (R.remaining
        reader.old) (λ input.
        EndsBy (L.failures layout.old + R.failures reader.old + W.failures writer.old)
        (L.failures layout.new + R.failures reader.new + W.failures writer.new)
        (printed_explained pen text input).status result)) }
    ensures unread { IfSome (L.remaining layout.old) (λ text. IfErr (layout_in text) (λ fault.
        reader.new ≡ reader.old)) }
{
    let answer = explained_read(alloc, pen, layout, reader);
    finish(alloc, writer, answer)
}
