//! The lines of an answer, one after the other.

ghost use Rattle.std.specs.Prelude.{◌≡◌, ◌++◌, IfOk, OnOk, Some};
ghost use Rattle.std.specs.String.{string_bytes};
ghost use Rattle.cli_commands.specs.Fault.{Gives};
ghost use Rattle.cli_commands.specs.Lines.{lines_in};
ghost use Rattle.cli_buffers.specs.Reading.{all_from, at_first, reading_seen, record_line, take_line, with_taken};
ghost use Rattle.buffer_lines.specs.Screen.{shot_seen};

use crate::sizes::{SizesLine, first_size, is_other, push_sizes};
use bstr::ByteSlice;
use buffer_lines::{Open, Shot, Step, read_line};
use cli_commands::{CommandError, Fault};
use ds_codec::Size;
use order_lines::push_bytes;
use std::alloc::{AllocError, Global};

/// What was read so far.
#[derive(Drop)]
pub(crate) struct Reading {
    /// The rows of the screen at hand.
    pub open: Open,
    /// The size of the first screen that was ended.
    pub first: Option<Size>,
    /// The lines so far.
    pub number: usize,
    /// The records of the screens that were ended.
    pub text: String,
}

pub(crate) fn at_first(alloc: Global) -> Reading
    ensures { reading_seen result ≡ at_first }
{
    Reading {
        open: Open::new(alloc),
        first: None,
        number: 0,
        text: String::new(alloc),
    }
}

fn push_record(out: &mut String, bytes: &[u8]) -> Result<(), AllocError>
    ensures { OnOk result (string_bytes out.new ≡ string_bytes out.old ++ record_line bytes.now) }
{
    push_bytes(out, bytes)?;
    out.push_str("\n")
}

/// A screen was ended: its record is added, and before the first one the line of sizes.
fn with_taken(sizes: SizesLine, mut reading: Reading, shot: &Shot) -> Result<Reading, CommandError>
    ensures { Gives reading_seen result
        (with_taken sizes (reading_seen reading) (shot_seen shot.now)) }
{
    if is_other(sizes, reading.first, shot.size) {
        return Err(CommandError::Fault(Fault::BadLine(reading.number)));
    }
    push_sizes(&mut reading.text, sizes, reading.first, shot.size)?;
    push_record(&mut reading.text, shot.record.as_slice())?;
    reading.first = Some(first_size(reading.first, shot.size));
    Ok(reading)
}

/// What follows the next line.
pub(crate) fn take_line(
    alloc: Global,
    sizes: SizesLine,
    mut reading: Reading,
    line: &[u8],
) -> Result<Reading, CommandError>
    ensures { Gives reading_seen result (take_line sizes (reading_seen reading) line.now) }
{
    reading.number = reading.number.saturating_add(1);
    let told = read_line(alloc, line)?;
    match reading.open.take(alloc, told)? {
        Step::Goes => Ok(reading),
        Step::Ends(shot) => with_taken(sizes, reading, &shot),
        Step::Refused => Err(CommandError::Fault(Fault::BadLine(reading.number))),
    }
}

/// What follows all lines of a text, up to the first that is refused.
pub(crate) fn all_lines(
    alloc: Global,
    sizes: SizesLine,
    text: &[u8],
) -> Result<Reading, CommandError>
    ensures { Gives reading_seen result (all_from sizes at_first (lines_in text.now)) }
{
    let mut reading = at_first(alloc);
    for line in text.lines() {
        reading = take_line(alloc, sizes, reading, line)?;
    }
    Ok(reading)
}
