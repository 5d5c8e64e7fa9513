//! Lines of records in hexadecimal.

ghost use Rattle.std.specs.Prelude.{◌≡◌, ◌==◌, not, IfOk, IfSome, OnOk, true, false};
ghost use Rattle.std.specs.List.{filter};
ghost use Rattle.hex.specs.Hex.{decode_of};
ghost use Rattle.cli_commands.specs.declared.input.sizes.SizeLine.{SizeLine};
ghost use Rattle.cli_commands.specs.Causes.{ToldBy};
ghost use Rattle.cli_commands.specs.Lines.{is_ignored};
ghost use Rattle.cli_commands.specs.Fault.{Gives, GivesOrFails};
ghost use Rattle.cli_commands.specs.Records.{line_told, digits_told, record_told, without_spaces, no_records, one_more, after_line, take_record, records_in};
ghost use Rattle.cli_commands.specs.Taking.{taken_in};
ghost use Rattle.cli_commands.specs.Held.{line_seen, records_seen};

use crate::fault::{CommandError, Fault};
use crate::input::bytes::at_most;
use crate::input::lines::{TakesLines, is_ignored, text_of};
use crate::input::sizes::{SizeLine, told_sizes, usual_geometry};
use crate::input::source::{Source, Text};
use ds_codec::{Geometry, bytes_of_digits};
use memchr::memchr;
use std::alloc::{AllocError, Global};

/// The most records of an input.
pub const MOST_RECORDS: usize = 1_000;
/// The most bytes of a record.
pub const MOST_RECORD_BYTES: usize = 32_768;

/// What one line tells.
#[derive(Drop)]
pub enum Line {
    Ignored,
    Sizes(Geometry),
    Record(Vec<u8>),
    Bad,
}

/// The sizes and the records that lines tell.
#[derive(Debug, Drop)]
pub struct Records {
    /// A line of sizes may come before any line that is not ignored.
    pub size_line: SizeLine,
    pub geometry: Geometry,
    pub records: Vec<Vec<u8>>,
    /// The digits of a line.
    pub digits: Vec<u8>,
}

/// Puts the line without its spaces into a buffer.
fn strip_spaces(buffer: &mut Vec<u8>, line: &[u8]) -> Result<(), AllocError>
    ensures { OnOk result (buffer.new.items ≡ without_spaces line.now) }
{
    buffer.clear();
    buffer.reserve(line.len())?;
    let mut rest = line;
    'words: while let Some(at) = memchr(b' ', rest) {
        buffer.extend_from_slice(&rest[..at])?;
        rest = &rest[at + 1..];
    }
    buffer.extend_from_slice(rest)?;
    Ok(())
}

/// The bytes of a record in hexadecimal.
fn decoded(alloc: Global, digits: &[u8]) -> Result<Line, AllocError>
    ensures { IfOk result (λ line. line_seen line ≡ record_told (decode_of digits.now)) }
{
    match bytes_of_digits(alloc, digits)? {
        Some(bytes) => Ok(Line::Record(bytes)),
        None => Ok(Line::Bad),
    }
}

/// What a line tells: its text, and the digits that it is without its spaces.
fn told_by(
    alloc: Global,
    size_line: SizeLine,
    text: &str,
    digits: &[u8],
) -> Result<Line, AllocError>
    ensures { IfOk result (λ told. line_seen told ≡ digits_told size_line text.now digits.now) }
{
    if is_ignored(digits) {
        return Ok(Line::Ignored);
    }
    match told_sizes(size_line, text) {
        Some(geometry) => Ok(Line::Sizes(geometry)),
        None => decoded(alloc, digits),
    }
}

/// Whether a line has a space. One without is its own digits.
fn has_space(line: &[u8]) -> bool
    ensures { (result ≡ false) → without_spaces line.now ≡ line.now }
{
    match memchr(b' ', line) {
        Some(_) => true,
        None => false,
    }
}

/// What a line tells that has anything but digits, or nothing; spaces count in a line of sizes alone.
fn other_line(
    alloc: Global,
    size_line: SizeLine,
    line: &[u8],
    digits: &mut Vec<u8>,
) -> Result<Line, AllocError>
    ensures { IfOk result (λ told. line_seen told ≡ line_told size_line line.now) }
{
    let Some(text) = text_of(line) else {
        return Ok(Line::Bad);
    };
    if !has_space(line) {
        return told_by(alloc, size_line, text, line);
    }
    strip_spaces(digits, line)?;
    told_by(alloc, size_line, text, digits.as_slice())
}

/// What a line tells that is empty or begins as a comment: nothing, where it is text.
fn line_ignored(line: &[u8]) -> Line
    requires { is_ignored line.now ≡ true }
    ensures { (size_line : SizeLine) → line_seen result ≡ line_told size_line line.now }
{
    match text_of(line) {
        Some(_) => Line::Ignored,
        None => Line::Bad,
    }
}

/// What a line tells. One of digits alone is a record, and nothing else is looked for in it.
pub(crate) fn line_told(
    alloc: Global,
    size_line: SizeLine,
    line: &[u8],
    digits: &mut Vec<u8>,
) -> Result<Line, AllocError>
    ensures { IfOk result (λ told. line_seen told ≡ line_told size_line line.now) }
{
    if is_ignored(line) {
        return Ok(line_ignored(line));
    }
    match bytes_of_digits(alloc, line)? {
        Some(bytes) if !bytes.is_empty() => Ok(Line::Record(bytes)),
        _ => other_line(alloc, size_line, line, digits),
    }
}

/// One more record.
fn add(told: &mut Records, bytes: Vec<u8>) -> Result<(), CommandError>
    ensures { Gives (λ done. records_seen told.new) result
        (one_more (records_seen told.old) bytes.items) }
{
    at_most(bytes.len(), MOST_RECORD_BYTES)?;
    told.size_line = SizeLine::Refused;
    told.records.push(bytes)?;
    Ok(at_most(told.records.len(), MOST_RECORDS)?)
}

/// What the line of a number adds.
fn add_line(told: &mut Records, number: usize, line: Line) -> Result<(), CommandError>
    ensures { Gives (λ done. records_seen told.new) result
        (after_line number (records_seen told.old) (line_seen line)) }
{
    match line {
        Line::Ignored => Ok(()),
        Line::Sizes(geometry) => {
            told.size_line = SizeLine::Refused;
            told.geometry = geometry;
            Ok(())
        }
        Line::Record(bytes) => add(told, bytes),
        Line::Bad => Err(CommandError::Fault(Fault::BadLine(number))),
    }
}

impl TakesLines for Records {
    ghost takes = { λ number told line result. Gives records_seen result (take_record number (records_seen told) line) };

    fn take(&mut self, alloc: Global, number: usize, line: &[u8]) -> Result<(), CommandError> {
        let told = line_told(alloc, self.size_line, line, &mut self.digits)?;
        add_line(self, number, told)
    }
}

/// No records so far.
fn no_records(alloc: Global, size_line: SizeLine) -> Records
    ensures { records_seen result ≡ no_records size_line }
{
    Records {
        size_line,
        geometry: usual_geometry(),
        records: Vec::new(alloc),
        digits: Vec::new(alloc),
    }
}

/// The sizes and the records that the lines of a source add, or their first fault.
fn take_records<S: Source>(
    alloc: Global,
    source: &mut S,
    none: Records,
) -> Result<Records, CommandError>
    ensures added { IfSome (S.remaining source.old) (λ input. GivesOrFails records_seen result
        (taken_in take_record (records_seen none) input)) }
    ensures cause { ToldBy (S.failures source.old) (S.failures source.new) result }
{
    source.take_lines(alloc, none)
}

/// The sizes and the records of an input, or the first fault of its lines. Where a line of sizes is
/// refused, they are told elsewhere.
pub fn read_records<S: Source>(
    alloc: Global,
    source: &mut S,
    size_line: SizeLine,
) -> Result<Records, CommandError>
    ensures records { IfSome (S.remaining source.old) (λ input. GivesOrFails records_seen result
        (records_in size_line input)) }
    ensures cause { ToldBy (S.failures source.old) (S.failures source.new) result }
{
    take_records(alloc, source, no_records(alloc, size_line))
}

/// The sizes and the records of a text, or the first fault of its lines. Where a line of sizes is
/// refused, they are told elsewhere.
pub fn records_in(alloc: Global, text: &[u8], size_line: SizeLine) -> Result<Records, CommandError>
    ensures { Gives records_seen result (records_in size_line text.now) }
{
    read_records(alloc, &mut Text(text), size_line)
}
