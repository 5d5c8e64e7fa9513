//! The line on which a record stands.

ghost use Rattle.std.specs.Prelude.{◌≡◌, IfOk};
ghost use Rattle.cli_commands.specs.Lines.{is_ignored};
ghost use Rattle.cli_commands.specs.Records.{without_spaces};
ghost use Rattle.cli_commands.specs.Says.{is_silent};
ghost use Rattle.std.specs.Str.{is_utf8};
ghost use Rattle.cli_findings.specs.RecordLine.{record_numbers, record_line};

use bstr::ByteSlice;
use std::alloc::{AllocError, Global};

/// Whether a line is empty but for spaces, or a comment.
fn is_ignored_without_spaces(line: &[u8]) -> bool
    ensures { result ≡ is_ignored (without_spaces line.now) }
{
    for byte in line {
        if *byte != b' ' {
            return *byte == b'#';
        }
    }
    true
}

fn is_text(line: &[u8]) -> bool
    ensures { result ≡ is_utf8 line.now }
{
    match str::from_utf8(line) {
        Ok(_) => true,
        Err(_) => false,
    }
}

/// Whether a line tells no record.
pub fn is_silent(line: &[u8]) -> bool
    ensures { result ≡ is_silent line.now }
{
    is_text(line) && is_ignored_without_spaces(line)
}

/// The line on which the record of an index stands, counted from 1: the lines that are not ignored are records. None
/// where there are fewer.
#[tactic(auto, using(crate::proofs::RecordLines::over_silent, crate::proofs::RecordLines::here, crate::proofs::RecordLines::beyond))]
pub fn line_of_record(text: &[u8], index: usize) -> Option<usize>
    ensures { result ≡ record_line text.now index }
{
    let mut left = index;
    let mut number = 1;
    for line in text.lines() {
        if !is_silent(line) {
            if left == 0 {
                return Some(number);
            }
            left -= 1;
        }
        number += 1;
    }
    None
}

/// The lines on which the records stand, in turn, counted from 1.
#[tactic(auto, using(crate::proofs::RecordLines::none_of_silent, crate::proofs::RecordLines::one_of_telling))]
pub(crate) fn record_numbers(alloc: Global, text: &[u8]) -> Result<Vec<usize>, AllocError>
    ensures { IfOk result (λ numbers. numbers.items ≡ record_numbers text.now) }
{
    let mut numbers = Vec::new(alloc);
    let mut line_number = 1;
    for line in text.lines() {
        if !is_silent(line) {
            numbers.push(line_number)?;
        }
        line_number += 1;
    }
    Ok(numbers)
}
