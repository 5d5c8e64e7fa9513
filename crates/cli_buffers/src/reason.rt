//! The line at which the answers are refused, and why.

ghost use Rattle.std.specs.Prelude.{◌≡◌, IfOk, option_map};
ghost use Rattle.buffer_lines.specs.Flaw.{flaw_of};
ghost use Rattle.buffer_lines.specs.Screen.{open_seen};
ghost use Rattle.cli_commands.specs.Lines.{lines_in};
ghost use Rattle.cli_buffers.specs.Reading.{at_first, reading_seen};
ghost use Rattle.cli_buffers.specs.Reason.{buffer_flaw, end_flaw, flaw_from, records_of, refused_line, why_by};

use crate::reading::{Reading, at_first, take_line};
use crate::sizes::SizesLine;
use bstr::ByteSlice;
use buffer_lines::{Flaw, Open};
use cli_commands::CommandError;
use std::alloc::{AllocError, Global};

/// Why a line is refused.
#[derive(Clone, Copy, Debug, PartialEq, Eq)]
pub enum BufferWhy {
    /// What it says, after the lines before it.
    Line(Flaw),
    /// It ends a screen of another size than the first, and one line of sizes is told.
    OtherScreen,
    /// It is the last, and no status line ended the rows.
    NoStatus,
}

/// A line that is refused.
#[derive(Clone, Copy, Debug, PartialEq, Eq)]
pub struct BufferFlaw {
    /// Counted from 1.
    pub number: usize,
    pub why: BufferWhy,
}

/// Why a line is refused, if it is, after the rows before it.
fn why_of(alloc: Global, begun: &Open, line: &[u8]) -> Result<BufferWhy, AllocError>
    ensures { IfOk result (λ why. why ≡ why_by (flaw_of (open_seen begun.now) line.now)) }
{
    match begun.flaw(alloc, line)? {
        Some(flaw) => Ok(BufferWhy::Line(flaw)),
        None => Ok(BufferWhy::OtherScreen),
    }
}

/// What is refused at the end, where the rows of a screen aren't ended.
fn end_flaw(reading: &Reading) -> Option<BufferFlaw>
    ensures { result ≡ end_flaw (reading_seen reading.now) }
{
    if reading.open.is_empty() {
        None
    } else {
        Some(BufferFlaw {
            number: reading.number,
            why: BufferWhy::NoStatus,
        })
    }
}

/// What is refused of the lines of a text.
fn lines_flaw(
    alloc: Global,
    sizes: SizesLine,
    text: &[u8],
) -> Result<Option<BufferFlaw>, AllocError>
    ensures { IfOk result (λ flaw. flaw ≡ flaw_from sizes at_first (lines_in text.now)) }
{
    let mut reading = at_first(alloc);
    for line in text.lines() {
        let number = reading.number.saturating_add(1);
        let why = why_of(alloc, &reading.open, line)?;
        match take_line(alloc, sizes, reading, line) {
            Ok(next) => reading = next,
            Err(CommandError::Fault(_)) => return Ok(Some(BufferFlaw { number, why })),
            // Of a text no read fails.
            Err(CommandError::ReadFailed | CommandError::OutOfMemory) => return Err(AllocError),
        }
    }
    Ok(end_flaw(&reading))
}

/// The first line of answers of `ReadBuffer(Ebcdic)` that `records --from buffer` refuses, and why: the very line that it prints.
///
/// # Errors
///
/// Where a request for memory was refused.
#[tactic(auto, using(crate::proofs::Same::same_line))]
pub fn buffer_flaw(
    alloc: Global,
    sizes: SizesLine,
    text: &[u8],
) -> Result<Option<BufferFlaw>, AllocError>
    ensures why { IfOk result (λ flaw. flaw ≡ buffer_flaw sizes text.now) }
    ensures line { IfOk result (λ flaw. option_map (λ told. told.number) flaw
        ≡ refused_line (records_of sizes text.now)) }
{
    let flaw = lines_flaw(alloc, sizes, text)?;
    Ok(flaw)
}
