//! Lines of records in hexadecimal, each record checked against a layout as its line comes.

ghost use Rattle.std.specs.Prelude.{◌≡◌, IfOk, IfSome};
ghost use Rattle.scr_check.specs.Seen.{findings_in, TellsSome};
ghost use Rattle.cli_commands.specs.declared.input.sizes.SizeLine.TheVariants.{Refused};
ghost use Rattle.cli_commands.specs.Causes.{ToldBy};
ghost use Rattle.cli_commands.specs.Check.{records_beside, findings_beside, findings_told};
ghost use Rattle.cli_commands.specs.Fault.{Gives, GivesOrFails};
ghost use Rattle.cli_commands.specs.Held.{line_seen, records_checked, checking_seen};
ghost use Rattle.cli_commands.specs.Records.{IsNoSizes, no_records, one_more, after_line, take_record};
ghost use Rattle.cli_commands.specs.Taking.{taken_in, with_kept, beside};

use crate::fault::{CommandError, Fault};
use crate::input::bytes::at_most;
use crate::input::lines::TakesLines;
use crate::input::records::{Line, MOST_RECORD_BYTES, MOST_RECORDS, line_told};
use crate::input::sizes::SizeLine;
use crate::input::source::Source;
use scr_check::{Checker, Verdict};
use scr_layout::Layout;
use std::alloc::{AllocError, Global};

/// A checker that takes the records of lines. A line of sizes is refused: the sizes are the layout's.
#[derive(Drop)]
struct Checking<'l> {
    checker: Checker<'l>,
    /// The digits of a line.
    digits: Vec<u8>,
}

/// One more record.
fn add(told: &mut Checking<'_>, bytes: &[u8]) -> Result<(), CommandError>
    ensures { Gives (λ done. checking_seen told.new) result
        (with_kept told.old.checker.layout (one_more (records_checked told.old) bytes.now)) }
{
    at_most(bytes.len(), MOST_RECORD_BYTES)?;
    if told.checker.count() >= MOST_RECORDS {
        return Err(CommandError::Fault(Fault::TooLong));
    }
    told.checker.take(bytes);
    Ok(())
}

/// What the line of a number adds.
fn add_line(told: &mut Checking<'_>, number: usize, line: Line) -> Result<(), CommandError>
    requires { IsNoSizes (line_seen line) }
    ensures { Gives (λ done. checking_seen told.new) result
        (with_kept told.old.checker.layout
        (after_line number (records_checked told.old) (line_seen line))) }
{
    match line {
        Line::Ignored => Ok(()),
        Line::Record(bytes) => add(told, bytes.as_slice()),
        Line::Sizes(_) | Line::Bad => Err(CommandError::Fault(Fault::BadLine(number))),
    }
}

impl<'l> TakesLines for Checking<'l> {
    ghost takes = { λ number told line result. Gives checking_seen result (beside take_record number (checking_seen told) line) };

    fn take(&mut self, alloc: Global, number: usize, line: &[u8]) -> Result<(), CommandError> {
        let told = line_told(alloc, SizeLine::Refused, line, &mut self.digits)?;
        add_line(self, number, told)
    }
}

/// No record so far.
fn no_record<'l>(alloc: Global, layout: &'l Layout) -> Result<Checking<'l>, AllocError>
    ensures { IfOk result (λ told. checking_seen told ≡ (layout.now, no_records Refused)) }
{
    Ok(Checking {
        checker: Checker::new(alloc, layout)?,
        digits: Vec::new(alloc),
    })
}

/// The records that the lines of a source add, or their first fault.
fn take_added<'l, S: Source>(
    alloc: Global,
    source: &mut S,
    none: Checking<'l>,
) -> Result<Checking<'l>, CommandError>
    ensures added { IfSome (S.remaining source.old) (λ input. GivesOrFails checking_seen result
        (taken_in (beside take_record) (checking_seen none.entry) input)) }
    ensures cause { ToldBy (S.failures source.old) (S.failures source.new) result }
{
    source.take_lines(alloc, none)
}

/// The records of an input, or the first fault of its lines.
fn take_checked<'l, S: Source>(
    alloc: Global,
    layout: &'l Layout,
    source: &mut S,
) -> Result<Checking<'l>, CommandError>
    ensures checked { IfSome (S.remaining source.old)
        (λ input. GivesOrFails checking_seen result (records_beside layout.now input)) }
    ensures cause { ToldBy (S.failures source.old) (S.failures source.new) result }
{
    take_added(alloc, source, no_record(alloc, layout)?)
}

/// The verdict on the records of an input and the layout that was kept beside them.
fn verdict_beside<S: Source>(
    alloc: Global,
    layout: &Layout,
    source: &mut S,
) -> Result<Verdict, CommandError>
    ensures listed { IfSome (S.remaining source.old)
        (λ input. GivesOrFails findings_in result (findings_beside layout.now input)) }
    ensures cause { ToldBy (S.failures source.old) (S.failures source.new) result }
    ensures some { IfOk result TellsSome }
{
    let told = take_checked(alloc, layout, source)?;
    Ok(told.checker.verdict(alloc)?)
}

/// The verdict on the records of an input, each of which is checked as its line comes, or the first fault of the lines.
pub(crate) fn verdict_of<S: Source>(
    alloc: Global,
    layout: &Layout,
    source: &mut S,
) -> Result<Verdict, CommandError>
    ensures listed { IfSome (S.remaining source.old)
        (λ input. GivesOrFails findings_in result (findings_told layout.now input)) }
    ensures cause { ToldBy (S.failures source.old) (S.failures source.new) result }
    ensures some { IfOk result TellsSome }
{
    verdict_beside(alloc, layout, source)
}
