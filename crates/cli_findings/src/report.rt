//! The command `check`, reported for tools.

ghost use Rattle.std.specs.Prelude.{◌≡◌, ◌+◌, ℕ, Ok, Result, IfErr, IfOk, IfSome};
ghost use Rattle.cli_commands.specs.Causes.{EndsBy, ToldBy};
ghost use Rattle.cli_commands.specs.Fault.{Gives, GivesOrFails};
ghost use Rattle.cli_commands.specs.Held.{answer_seen, records_held};
ghost use Rattle.cli_commands.specs.LayoutText.{layout_in};
ghost use Rattle.cli_commands.specs.Printed.{Printed};
ghost use Rattle.cli_commands.specs.Streams.{Prints};
ghost use Rattle.cli_commands.specs.declared.fault.Fault.{Fault as AFault};
ghost use Rattle.cli_findings.specs.Lines.{found_in};
ghost use Rattle.cli_findings.specs.Report.{report_findings, report_within, report_records, report, or_refusal, printed_report};

use crate::found::{Pen, find};
use crate::json_lines::{findings_answer, refusal_answer};
use crate::log::log_read;
use crate::paths::Paths;
use cli_commands::{
    Answer, CommandError, GivesBytes, SizeLine, Source, Status, TakesBytes, Text, Whole, finish,
    read_layout, records_in, within_limit,
};
use scr_layout::Layout;
use std::alloc::{AllocError, Global};

/// The form of a report.
#[derive(Clone, Copy, Debug, PartialEq, Eq)]
pub enum Report<'a> {
    /// A JSON object on each line.
    Json,
    /// A log of SARIF 2.1.0 on one line, with the files of these paths.
    Sarif(Paths<'a>),
}

/// What is reported of a layout and records that were told.
fn report_told(
    alloc: Global,
    pen: Pen,
    layout: &Layout,
    input: &[u8],
    records: &[Vec<u8>],
) -> Result<Answer, AllocError>
    ensures { IfOk result (λ answer. answer_seen answer
        ≡ report_findings layout.now input.now (records_held records.now) (found_in pen layout.now (records_held records.now))) }
{
    let found = find(alloc, pen, layout, records)?;
    findings_answer(alloc, layout, input, records, found.as_slice())
}

fn report_within(
    alloc: Global,
    pen: Pen,
    layout: &Layout,
    text: &[u8],
) -> Result<Answer, CommandError>
    ensures { Gives answer_seen result (report_within pen layout.now text.now) }
{
    let told = records_in(alloc, text, SizeLine::Refused)?;
    Ok(report_told(alloc, pen, layout, text, told.records.as_slice())?)
}

fn report_records(
    alloc: Global,
    pen: Pen,
    layout: &Layout,
    input: &[u8],
) -> Result<Answer, CommandError>
    ensures { Gives answer_seen result (report_records pen layout.now input.now) }
{
    let text = within_limit(input)?;
    report_within(alloc, pen, layout, text)
}

/// What is reported: the answer, or in its place what is wrong with an input.
fn or_refusal(alloc: Global, answer: Result<Answer, CommandError>) -> Result<Answer, CommandError>
    ensures texts { (due : Result Printed AFault) → Gives answer_seen answer due
        → Gives answer_seen result (Ok (or_refusal due)) }
    ensures readers { (due : Result Printed AFault) → GivesOrFails answer_seen answer due
        → GivesOrFails answer_seen result (Ok (or_refusal due)) }
    ensures cause { (old : ℕ) (new : ℕ) → ToldBy old new answer → ToldBy old new result }
{
    match answer {
        Ok(answer) => Ok(answer),
        Err(CommandError::Fault(fault)) => Ok(refusal_answer(alloc, fault)?),
        Err(CommandError::ReadFailed) => Err(CommandError::ReadFailed),
        Err(CommandError::OutOfMemory) => Err(CommandError::OutOfMemory),
    }
}

fn report_read<L: Source, R: Source>(
    alloc: Global,
    pen: Pen,
    layout: &mut L,
    records: &mut R,
) -> Result<Answer, CommandError>
    ensures answer { IfSome (L.remaining layout.old) (λ text. IfSome (R.remaining
        records.old) (λ input. GivesOrFails answer_seen result (report pen text input))) }
    ensures cause { ToldBy (L.failures layout.old + R.failures records.old)
        (L.failures layout.new + R.failures records.new) result }
    ensures unread { IfSome (L.remaining layout.old) (λ text. IfErr (layout_in text) (λ fault.
        records.new ≡ records.old)) }
{
    let layout = read_layout(alloc, layout)?;
    let records = records.whole(alloc)?;
    report_records(alloc, pen, &layout, records.bytes())
}

fn report_lines<L: Source, R: Source>(
    alloc: Global,
    pen: Pen,
    layout: &mut L,
    records: &mut R,
) -> Result<Answer, CommandError>
    ensures answer { IfSome (L.remaining layout.old) (λ text. IfSome (R.remaining
        records.old) (λ input. GivesOrFails answer_seen result (Ok (or_refusal (report pen text input))))) }
    ensures cause { ToldBy (L.failures layout.old + R.failures records.old)
        (L.failures layout.new + R.failures records.new) result }
    ensures unread { IfSome (L.remaining layout.old) (λ text. IfErr (layout_in text) (λ fault.
        records.new ≡ records.old)) }
{
    let answer = report_read(alloc, pen, layout, records);
    or_refusal(alloc, answer)
}

/// What is reported of the sources of a layout and of records.
fn report_streams<L: Source, R: Source>(
    alloc: Global,
    pen: Pen,
    report: Report<'_>,
    layout: &mut L,
    records: &mut R,
) -> Result<Answer, CommandError>
    ensures answer { IfSome (L.remaining layout.old) (λ text. IfSome (R.remaining
        records.old) (λ input. GivesOrFails answer_seen result (Ok (printed_report pen report.entry text input)))) }
    ensures cause { ToldBy (L.failures layout.old + R.failures records.old)
        (L.failures layout.new + R.failures records.new) result }
    ensures unread { IfSome (L.remaining layout.old) (λ text. IfErr (layout_in text) (λ fault.
        records.new ≡ records.old)) }
{
    match report {
        Report::Json => report_lines(alloc, pen, layout, records),
        Report::Sarif(paths) => log_read(alloc, pen, paths, layout, records),
    }
}

/// What `check` reports of the texts of a layout and of records. An input that is refused is reported too, with the
/// status `BadInput`.
///
/// # Errors
///
/// Where a request for memory was refused.
pub fn report_texts(
    alloc: Global,
    pen: Pen,
    report: Report<'_>,
    layout: &[u8],
    records: &[u8],
) -> Result<Answer, CommandError>
    ensures { Gives answer_seen result
        (Ok (printed_report pen report.entry layout.now records.now)) }
{
    report_streams(alloc, pen, report, &mut Text(layout), &mut Text(records))
}

/// Reads a layout and then records in hexadecimal, one a line, and reports what stands against them, with what the keys
/// of a finding send; or what is wrong with an input. Records aren't read where the layout has a fault. The sizes are the
/// layout's, so a line of sizes is bad. At most 16,777,216 bytes of either, 1,000 records of 32,768 bytes. After a read or a
/// write that failed the status is `Failed`, where memory was refused `NoMemory`, and a front of the text was written.
pub fn run_report<L: GivesBytes, R: GivesBytes, W: TakesBytes>(
    alloc: Global,
    pen: Pen,
    report: Report<'_>,
    layout: &mut L,
    reader: &mut R,
    writer: &mut W,
) -> Status
    ensures prints { IfSome (L.remaining layout.old) (λ text. IfSome (R.remaining
        reader.old) (λ input.
        Prints (W.contents writer.old) (W.contents writer.new) result (printed_report pen report.entry text input))) }
    ensures cause { IfSome (L.remaining layout.old) (λ text. IfSome (R.remaining
        reader.old) (λ input.
        EndsBy (L.failures layout.old + R.failures reader.old + W.failures writer.old)
        (L.failures layout.new + R.failures reader.new + W.failures writer.new)
        (printed_report pen report.entry text input).status result)) }
    ensures unread { IfSome (L.remaining layout.old) (λ text. IfErr (layout_in text) (λ fault.
        reader.new ≡ reader.old)) }
{
    let answer = report_streams(alloc, pen, report, layout, reader);
    finish(alloc, writer, answer)
}
