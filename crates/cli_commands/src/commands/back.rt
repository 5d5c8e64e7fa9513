//! The command `convert --back`: order lines as records.

ghost use Rattle.std.specs.Prelude.{◌≡◌, ◌+◌, IfOk, IfSome, Ok, None};
ghost use Rattle.std.specs.List.{flat_map};
ghost use Rattle.ds_codec.specs.Geometry.{Sizes, IsGood, cells_of};
ghost use Rattle.order_lines.specs.Draft.{begun as no_order};
ghost use Rattle.cli_commands.specs.Fault.{Finds, Gives, GivesOrFails};
ghost use Rattle.order_lines.specs.Told.{item_held, told_held};
ghost use Rattle.cli_commands.specs.declared.input.sizes.SizeLine.TheVariants.{Refused};
ghost use Rattle.cli_commands.specs.Held.{answer_seen, size_in_use, backward_seen, order_line_seen, written_line, written_printed};
ghost use Rattle.cli_commands.specs.Drafts.{words as of_words};
ghost use Rattle.cli_commands.specs.Taking.{taken_in};
ghost use Rattle.cli_commands.specs.Back.{size_after, back, printed_back};
ghost use Rattle.cli_commands.specs.Backward.{nothing, with_line, ended, begun, added, after_line, take_line, text_after, answer_to};
ghost use Rattle.cli_commands.specs.Causes.{EndsBy, ToldBy};
ghost use Rattle.cli_commands.specs.Streams.{Prints};

use crate::commands::backward::{Backward, SizeInUse, WrittenRecord};
use crate::fault::{CommandError, Fault};
use crate::input::drafts::{OrderLine, line_told};
use crate::input::lines::TakesLines;
use crate::input::records::MOST_RECORDS;
use crate::input::sizes::{SizeLine, usual_geometry};
use crate::input::source::{Source, Text};
use crate::output::answer::{Answer, finish};
use crate::output::pieces::{PrintsLines, lines_of, write_lines};
use crate::status::Status;
use crate::streams::{GivesBytes, TakesBytes};
use ds_codec::{Command, Geometry, Size};
use order_lines::{Draft, OwnedOrder, Told, push_bytes};
use std::alloc::{AllocError, Global};

/// The size for which a record is written: an erase sets it, for this record and those after it.
fn size_after(size: SizeInUse, command: &Command) -> SizeInUse
    ensures { (geometry : Sizes) → size_in_use geometry result
        ≡ size_after geometry (size_in_use geometry size) command.now }
{
    match command {
        Command::EraseWrite(_) => SizeInUse::Default,
        Command::EraseWriteAlternate(_) => SizeInUse::Alternate,
        _ => size,
    }
}

fn size_in_use(geometry: &Geometry, size: SizeInUse) -> Size
    ensures size { result ≡ size_in_use geometry.now size }
    ensures good { IsGood geometry.now.mode result }
{
    match size {
        SizeInUse::Default => geometry.default_size(),
        SizeInUse::Alternate => geometry.alternate_size(),
    }
}

impl PrintsLines for WrittenRecord {
    ghost lines = { written_line };

    fn push_lines(&self, out: &mut String) -> Result<(), AllocError> {
        push_bytes(out, self.bytes.as_slice())?;
        out.push_str("\n")
    }
}

/// The line of a record that has ended, or why it cannot be written.
fn push_written(told: &mut Backward, draft: Draft) -> Result<(), CommandError>
    requires ended { told.old.current ≡ None }
    requires good { told.old.flaw ≡ None }
    ensures { Gives (λ done. backward_seen told.new) result (Ok (with_line (backward_seen told.old)
        draft (backward_seen told.old).size)) }
{
    let index = told.count.saturating_sub(1);
    match draft.written() {
        Ok(bytes) => told.records.push(WrittenRecord { bytes })?,
        Err(flaw) => told.flaw = Some(Fault::Unwritable(index, flaw)),
    }
    Ok(())
}

/// The record that has begun ends. Its line follows, unless one before it cannot be written.
fn end(told: &mut Backward) -> Result<(), CommandError>
    ensures { Gives (λ done. backward_seen told.new) result
        (Ok (ended (backward_seen told.old) (backward_seen told.old).current)) }
{
    let Some(draft) = told.current.take() else {
        return Ok(());
    };
    told.size = size_after(told.size, &draft.command());
    match told.flaw {
        Some(_) => Ok(()),
        None => push_written(told, draft),
    }
}

/// A record of no order so far, for the size that its command sets.
fn new_draft(alloc: Global, told: &Backward, command: Command) -> Result<Draft, AllocError>
    ensures { IfOk result (λ draft. draft ≡ no_order told.now.geometry.mode
        (cells_of (size_after told.now.geometry (backward_seen told.now).size command)) command) }
{
    let size = size_in_use(&told.geometry, size_after(told.size, &command));
    Draft::new(alloc, command, told.geometry.mode(), size.cells())
}

/// A record begins.
fn begin(
    alloc: Global,
    told: &mut Backward,
    number: usize,
    command: Command,
) -> Result<(), CommandError>
    ensures { Gives (λ done. backward_seen told.new) result
        (begun number (backward_seen told.old) command (backward_seen told.old).current) }
{
    if told.current.is_some() {
        return Err(CommandError::Fault(Fault::BadLine(number)));
    }
    if told.count >= MOST_RECORDS {
        return Err(CommandError::Fault(Fault::TooLong));
    }
    told.current = Some(new_draft(alloc, told, command)?);
    told.size_line = SizeLine::Refused;
    told.count += 1;
    Ok(())
}

/// An order of the record that has begun.
fn add(told: &mut Backward, number: usize, order: &OwnedOrder) -> Result<(), CommandError>
    ensures { Gives (λ done. backward_seen told.new) result
        (added number (backward_seen told.old) (item_held order.now) (backward_seen told.old).current) }
{
    match &mut told.current {
        Some(draft) => Ok(draft.push(&order.lend())?),
        None => Err(CommandError::Fault(Fault::BadLine(number))),
    }
}

/// The sizes are told.
fn resize(told: &mut Backward, geometry: Geometry)
    ensures { backward_seen told.new ≡ record (backward_seen told.old)
        { size_line = Refused; geometry = geometry; size = geometry.default } }
{
    told.size_line = SizeLine::Refused;
    told.size = SizeInUse::Default;
    told.geometry = geometry;
}

/// What the words of the line of a number add.
fn add_words(
    alloc: Global,
    told: &mut Backward,
    number: usize,
    words: Told,
) -> Result<(), CommandError>
    ensures { Gives (λ done. backward_seen told.new) result
        (after_line number (backward_seen told.old) (of_words (told_held words))) }
{
    match words {
        Told::Command(command) => begin(alloc, told, number, command),
        Told::Order(order) => add(told, number, &order),
    }
}

/// What the line of a number adds.
fn add_line(
    alloc: Global,
    told: &mut Backward,
    number: usize,
    line: OrderLine,
) -> Result<(), CommandError>
    ensures { Gives (λ done. backward_seen told.new) result
        (after_line number (backward_seen told.old) (order_line_seen line)) }
{
    match line {
        OrderLine::Empty => end(told),
        OrderLine::Comment => Ok(()),
        OrderLine::Sizes(geometry) => {
            resize(told, geometry);
            Ok(())
        }
        OrderLine::Words(words) => add_words(alloc, told, number, words),
        OrderLine::Bad => Err(CommandError::Fault(Fault::BadLine(number))),
    }
}

impl TakesLines for Backward {
    ghost takes = { λ number told line result. Gives backward_seen result (take_line number (backward_seen told) line) };

    fn take(&mut self, alloc: Global, number: usize, line: &[u8]) -> Result<(), CommandError> {
        let told = line_told(alloc, self.size_line, line)?;
        add_line(alloc, self, number, told)
    }
}

/// The records, or the first that cannot be written.
fn records_of(told: Backward) -> Result<Vec<WrittenRecord>, CommandError>
    ensures { Finds (λ records. flat_map written_line records.items) result
        (backward_seen told).text }
{
    match told.flaw {
        Some(flaw) => Err(CommandError::Fault(flaw)),
        None => Ok(told.records),
    }
}

/// The records, once the last one has ended.
fn all_written(mut told: Backward) -> Result<Vec<WrittenRecord>, CommandError>
    ensures { Gives (λ records. flat_map written_line records.items) result
        (text_after (backward_seen told)) }
{
    end(&mut told)?;
    records_of(told)
}

/// What lines tell before the first.
fn nothing(alloc: Global) -> Backward
    ensures { backward_seen result ≡ nothing }
{
    Backward {
        size_line: SizeLine::Allowed,
        geometry: usual_geometry(),
        size: SizeInUse::Default,
        count: 0,
        current: None,
        records: Vec::new(alloc),
        flaw: None,
    }
}

/// What the lines of a source add, or their first fault.
fn take_added<S: Source>(
    alloc: Global,
    source: &mut S,
    none: Backward,
) -> Result<Backward, CommandError>
    ensures added { IfSome (S.remaining source.old) (λ input. GivesOrFails backward_seen result
        (taken_in take_line (backward_seen none) input)) }
    ensures cause { ToldBy (S.failures source.old) (S.failures source.new) result }
{
    source.take_lines(alloc, none)
}

/// The records that the order lines of a source tell, each written as it ends.
fn held<S: Source>(alloc: Global, source: &mut S) -> Result<Vec<WrittenRecord>, CommandError>
    ensures held { IfSome (S.remaining source.old)
        (λ input. GivesOrFails written_printed result (answer_to input)) }
    ensures cause { ToldBy (S.failures source.old) (S.failures source.new) result }
{
    all_written(take_added(alloc, source, nothing(alloc))?)
}

/// The same, said of all lines together.
fn back<S: Source>(alloc: Global, source: &mut S) -> Result<Vec<WrittenRecord>, CommandError>
    ensures records { IfSome (S.remaining source.old)
        (λ input. GivesOrFails written_printed result (back input)) }
    ensures cause { ToldBy (S.failures source.old) (S.failures source.new) result }
{
    held(alloc, source)
}

/// What `convert --back` answers to a text of order lines.
///
/// # Errors
///
/// The first fault of the lines, then the first record that cannot be written; out of memory.
pub fn convert_back_text(alloc: Global, lines: &[u8]) -> Result<Answer, CommandError>
    ensures { Gives answer_seen result (back lines.now) }
{
    let records = back(alloc, &mut Text(lines))?;
    Ok(Answer {
        text: lines_of(alloc, &records)?,
        status: Status::Done,
    })
}

/// Reads order lines and prints the bytes of each record in hexadecimal, one a line; or the first fault
/// of the lines, or the first record that cannot be written. Addresses are written for the default size
/// after Erase/Write and until another erase, for the alternate size after Erase/Write Alternate, at
/// first for the default size. At most 16,777,216 bytes and 1,000 records; the statuses are those of
/// `run_show`.
pub fn run_convert_back<R: GivesBytes, W: TakesBytes>(
    alloc: Global,
    reader: &mut R,
    writer: &mut W,
) -> Status
    ensures prints { IfSome (R.remaining reader.old) (λ input.
        Prints (W.contents writer.old) (W.contents writer.new) result (printed_back input)) }
    ensures cause { IfSome (R.remaining reader.old) (λ input.
        EndsBy (R.failures reader.old + W.failures writer.old)
        (R.failures reader.new + W.failures writer.new) (printed_back input).status result) }
{
    match back(alloc, reader) {
        Ok(records) => write_lines(alloc, writer, &records),
        Err(error) => finish(alloc, writer, Err(error)),
    }
}
