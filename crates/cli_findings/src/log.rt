//! The command `check`, reported as a log.

ghost use Rattle.std.specs.Prelude.{◌≡◌, ◌+◌, IfErr, IfOk, IfSome, Ok};
ghost use Rattle.cli_commands.specs.Causes.{ToldBy};
ghost use Rattle.cli_commands.specs.Fault.{Gives, GivesOrFails};
ghost use Rattle.cli_commands.specs.Held.{answer_seen, records_held};
ghost use Rattle.cli_commands.specs.LayoutText.{layout_in};
ghost use Rattle.cli_commands.specs.Lines.{within_limit};
ghost use Rattle.cli_findings.specs.Lines.{found_in};
ghost use Rattle.cli_findings.specs.Log.{log_findings, refused_log, log_within, log_records, or_refused, log_layout, printed_log};

use crate::found::{Pen, find};
use crate::json_lines::status_of;
use crate::paths::Paths;
use crate::region::{layout_line, line_of_fault};
use crate::sarif::refusal_log;
use crate::written_log::found_log;
use cli_commands::{
    Answer, CommandError, Fault, SizeLine, Source, Status, Whole, layout_in, records_in,
    within_limit,
};
use scr_check::Traced;
use scr_layout::Layout;
use std::alloc::{AllocError, Global};

/// The log of findings.
fn findings_answer(
    alloc: Global,
    pen: Pen,
    paths: Paths<'_>,
    layout: &Layout,
    input: &[u8],
    findings: &[Traced],
) -> Result<Answer, AllocError>
    ensures { IfOk result (λ answer. answer_seen answer
        ≡ log_findings pen paths.entry layout.now input.now findings.now) }
{
    let mut text = found_log(alloc, pen, "", paths.records, layout, input, findings)?;
    text.push_str("\n")?;
    Ok(Answer {
        text,
        status: status_of(findings),
    })
}

/// The log of an input that is refused.
fn refused_answer(
    alloc: Global,
    pen: Pen,
    path: &str,
    line: usize,
    fault: Fault,
) -> Result<Answer, AllocError>
    ensures { IfOk result (λ answer. answer_seen answer ≡ refused_log pen path.now line fault) }
{
    let mut text = refusal_log(alloc, pen, path, line, fault)?;
    text.push_str("\n")?;
    Ok(Answer {
        text,
        status: Status::BadInput,
    })
}

/// The log of a layout and records that were told.
fn log_told(
    alloc: Global,
    pen: Pen,
    paths: Paths<'_>,
    layout: &Layout,
    input: &[u8],
    records: &[Vec<u8>],
) -> Result<Answer, AllocError>
    ensures { IfOk result (λ answer. answer_seen answer
        ≡ log_findings pen paths.entry layout.now input.now (found_in pen layout.now (records_held records.now))) }
{
    let found = find(alloc, pen, layout, records)?;
    findings_answer(alloc, pen, paths, layout, input, found.as_slice())
}

fn log_within(
    alloc: Global,
    pen: Pen,
    paths: Paths<'_>,
    layout: &Layout,
    text: &[u8],
) -> Result<Answer, CommandError>
    ensures { Gives answer_seen result (log_within pen paths.entry layout.now text.now) }
{
    let told = records_in(alloc, text, SizeLine::Refused)?;
    Ok(log_told(alloc, pen, paths, layout, text, told.records.as_slice())?)
}

fn log_limited(
    alloc: Global,
    pen: Pen,
    paths: Paths<'_>,
    layout: &Layout,
    input: &[u8],
) -> Result<Answer, CommandError>
    ensures { Gives answer_seen result
        (log_records pen paths.entry layout.now (within_limit input.now)) }
{
    let text = within_limit(input)?;
    log_within(alloc, pen, paths, layout, text)
}

/// The log of a layout and of records, or of what is wrong with the records.
fn log_records(
    alloc: Global,
    pen: Pen,
    paths: Paths<'_>,
    layout: &Layout,
    input: &[u8],
) -> Result<Answer, CommandError>
    ensures { Gives answer_seen result (Ok (or_refused pen paths.entry.records.now
        (log_records pen paths.entry layout.now (within_limit input.now)))) }
{
    match log_limited(alloc, pen, paths, layout, input) {
        Ok(answer) => Ok(answer),
        Err(CommandError::Fault(fault)) => {
            Ok(refused_answer(alloc, pen, paths.records, line_of_fault(fault), fault)?)
        }
        Err(CommandError::ReadFailed) => Err(CommandError::ReadFailed),
        Err(CommandError::OutOfMemory) => Err(CommandError::OutOfMemory),
    }
}

/// The log of a layout, and of the records of a source.
fn log_with<S: Source>(
    alloc: Global,
    pen: Pen,
    paths: Paths<'_>,
    layout: &Layout,
    source: &mut S,
) -> Result<Answer, CommandError>
    ensures answer { IfSome (S.remaining source.old) (λ input. GivesOrFails answer_seen result
        (Ok (or_refused pen paths.entry.records.now (log_records pen paths.entry layout.now (within_limit input))))) }
    ensures cause { ToldBy (S.failures source.old) (S.failures source.new) result }
{
    let input = source.whole(alloc)?;
    log_records(alloc, pen, paths, layout, input.bytes())
}

/// The log of a layout's text and of the records of a source, unless the layout has a fault.
fn log_over<S: Source>(
    alloc: Global,
    pen: Pen,
    paths: Paths<'_>,
    text: &[u8],
    source: &mut S,
) -> Result<Answer, CommandError>
    ensures answer { IfSome (S.remaining source.old) (λ input. GivesOrFails answer_seen result
        (Ok (log_layout pen paths.entry (within_limit text.now) (layout_in text.now) (within_limit input)))) }
    ensures cause { ToldBy (S.failures source.old) (S.failures source.new) result }
    ensures unread { IfErr (layout_in text.now) (λ fault. source.new ≡ source.old) }
{
    match layout_in(alloc, text) {
        Ok(layout) => log_with(alloc, pen, paths, &layout, source),
        Err(CommandError::Fault(fault)) => {
            Ok(refused_answer(alloc, pen, paths.layout, layout_line(text, fault), fault)?)
        }
        Err(CommandError::ReadFailed) => Err(CommandError::ReadFailed),
        Err(CommandError::OutOfMemory) => Err(CommandError::OutOfMemory),
    }
}

/// The log of the sources of a layout and of records.
pub(crate) fn log_read<L: Source, R: Source>(
    alloc: Global,
    pen: Pen,
    paths: Paths<'_>,
    layout: &mut L,
    records: &mut R,
) -> Result<Answer, CommandError>
    ensures answer { IfSome (L.remaining layout.old) (λ text. IfSome (R.remaining
        records.old) (λ input. GivesOrFails answer_seen result (Ok (printed_log pen paths.entry text input)))) }
    ensures cause { ToldBy (L.failures layout.old + R.failures records.old)
        (L.failures layout.new + R.failures records.new) result }
    ensures unread { IfSome (L.remaining layout.old) (λ text. IfErr (layout_in text) (λ fault.
        records.new ≡ records.old)) }
{
    let text = layout.whole(alloc)?;
    log_over(alloc, pen, paths, text.bytes(), records)
}
