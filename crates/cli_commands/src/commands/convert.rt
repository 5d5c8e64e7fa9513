//! The command `convert`: records as order lines.

ghost use Rattle.std.specs.Prelude.{◌+◌, IfSome};
ghost use Rattle.std.specs.List.{flat_map};
ghost use Rattle.ds_codec.specs.Reading.{read_of};
ghost use Rattle.order_lines.specs.Print.{record_lines};
ghost use Rattle.cli_commands.specs.Causes.{EndsBy};
ghost use Rattle.cli_commands.specs.Fault.{Gives};
ghost use Rattle.cli_commands.specs.Held.{answer_seen, records_held};
ghost use Rattle.cli_commands.specs.Convert.{lines_or_refusal, lines_printed, lines_told, convert, printed_convert};
ghost use Rattle.cli_commands.specs.Printed.{printed_or_fault};
ghost use Rattle.cli_commands.specs.Streams.{Prints};

use crate::fault::{CommandError, Fault};
use crate::input::records::{Records, read_records, records_in};
use crate::input::sizes::SizeLine;
use crate::output::answer::{Answer, finish};
use crate::output::pieces::{PrintsLines, lines_of, write_lines};
use crate::status::Status;
use crate::streams::{GivesBytes, TakesBytes};
use ds_codec::{Mode, Record};
use ds_terminal::Refused;
use order_lines::push_record;
use std::alloc::{AllocError, Global};

impl<'a> PrintsLines for Record<'a> {
    ghost lines = { record_lines };

    fn push_lines(&self, out: &mut String) -> Result<(), AllocError> {
        push_record(out, self)
    }
}

/// The record of this index, unless it is refused.
fn read_one(mode: Mode, index: usize, bytes: &[u8]) -> Result<Record<'_>, CommandError>
    ensures { Gives record_lines result (lines_or_refusal index (read_of mode bytes.now)) }
{
    match Record::read(mode, bytes) {
        Ok(record) => Ok(record),
        Err(refused) => Err(CommandError::Fault(Fault::RecordRefused(
            index,
            Refused::Read(refused),
        ))),
    }
}

/// The records, or the first that is refused.
fn read_each<'a>(
    alloc: Global,
    mode: Mode,
    records: &'a [Vec<u8>],
) -> Result<Vec<Record<'a>>, CommandError>
    ensures { Gives (λ all. flat_map record_lines all.items) result
        (lines_printed mode 0 (records_held records.now)) }
{
    let mut all = Vec::new(alloc);
    for (index, bytes) in records.iter().enumerate() {
        all.push(read_one(mode, index, bytes.as_slice())?)?;
    }
    Ok(all)
}

/// What `convert` answers to a text of records.
///
/// # Errors
///
/// The first fault of the lines, then the first record that is refused; out of memory.
pub fn convert_text(alloc: Global, records: &[u8]) -> Result<Answer, CommandError>
    ensures { Gives answer_seen result (convert records.now) }
{
    let told = records_in(alloc, records, SizeLine::Allowed)?;
    let all = read_each(alloc, told.geometry.mode(), told.records.as_slice())?;
    Ok(Answer {
        text: lines_of(alloc, &all)?,
        status: Status::Done,
    })
}

/// Writes the lines of records, or the first of them that is refused.
fn write_told<W: TakesBytes>(alloc: Global, writer: &mut W, told: &Records) -> Status
    ensures prints { Prints (W.contents writer.old) (W.contents writer.new) result
        (printed_or_fault (lines_told told.now.geometry.mode (records_held told.now.records.items))) }
    ensures cause { EndsBy (W.failures writer.old) (W.failures writer.new)
        (printed_or_fault (lines_told told.now.geometry.mode (records_held told.now.records.items))).status result }
{
    match read_each(alloc, told.geometry.mode(), told.records.as_slice()) {
        Ok(all) => write_lines(alloc, writer, &all),
        Err(error) => finish(alloc, writer, Err(error)),
    }
}

/// Reads records in hexadecimal, one a line, and prints each as lines: its command, its orders, and an
/// empty line; or the first fault of the lines, or the first record that is refused. The limits and
/// the statuses are those of `run_show`.
pub fn run_convert<R: GivesBytes, W: TakesBytes>(
    alloc: Global,
    reader: &mut R,
    writer: &mut W,
) -> Status
    ensures prints { IfSome (R.remaining reader.old) (λ input.
        Prints (W.contents writer.old) (W.contents writer.new) result (printed_convert input)) }
    ensures cause { IfSome (R.remaining reader.old) (λ input.
        EndsBy (R.failures reader.old + W.failures writer.old)
        (R.failures reader.new + W.failures writer.new) (printed_convert input).status result) }
{
    match read_records(alloc, reader, SizeLine::Allowed) {
        Ok(told) => write_told(alloc, writer, &told),
        Err(error) => finish(alloc, writer, Err(error)),
    }
}
