//! Why a line of records is refused.

ghost use Rattle.std.specs.Prelude.{◌≡◌, ◌<◌, length};
ghost use Rattle.cli_reasons.specs.RecordLine.{byte_why, byte_before, size_why, flaw_of_digits, text_flaw, record_flaw};

use crate::digits::{digit_count, first_other};
use crate::flaw::{Flaw, Why};
use crate::text::checked;
use cli_commands::is_turn;

/// What tells the sizes of the terminal.
#[derive(Clone, Copy, Debug, PartialEq, Eq)]
pub enum SizesBy {
    /// A line that may come next.
    Line,
    /// An earlier line, or none before the first record.
    Earlier,
    Layout,
}

/// Why a byte that is neither a digit nor a space is refused, after this one.
fn byte_why(byte: u8, before: Option<u8>) -> Why
    ensures { result ≡ byte_why byte before }
{
    match byte {
        0 => Why::Utf16,
        b'\t' => Why::Tab,
        b'#' => Why::Comment,
        0xEF if before.is_none() => Why::ByteOrderMark,
        b'x' | b'X' if before == Some(b'0') => Why::Prefix,
        _ => Why::NotDigit(byte),
    }
}

/// Why a line that begins as one of sizes does is refused.
pub(crate) fn size_why(sizes: SizesBy) -> Why
    ensures { result ≡ size_why sizes }
{
    match sizes {
        SizesBy::Line => Why::NoSizes,
        SizesBy::Earlier => Why::SizesTooLate,
        SizesBy::Layout => Why::SizesOfLayout,
    }
}

/// The byte before a place, where there is one.
fn byte_before(line: &[u8], place: usize) -> Option<u8>
    requires { place < length line.now }
    ensures { result ≡ byte_before line.now place }
{
    if place == 0 {
        None
    } else {
        Some(line[place - 1])
    }
}

/// What is wrong with a line that is to be digits: its first byte that is none, or that they are an odd number.
fn flaw_of_digits(line: &[u8]) -> Flaw
    ensures { result ≡ flaw_of_digits line.now }
{
    match first_other(line) {
        Some(place) => Flaw::at(place + 1, byte_why(line[place], byte_before(line, place))),
        None => Flaw::at(line.len() + 1, Why::OddDigits(digit_count(line))),
    }
}

/// What is wrong with a line of text that is refused.
fn text_flaw(sizes: SizesBy, line: &[u8]) -> Flaw
    ensures { result ≡ text_flaw sizes line.now }
{
    if line.starts_with(b"size".as_slice()) {
        Flaw::at(1, size_why(sizes))
    } else if is_turn(line) {
        Flaw::at(1, Why::Turn)
    } else {
        flaw_of_digits(line)
    }
}

/// What is wrong with a line of records that is refused.
pub fn record_flaw(sizes: SizesBy, line: &[u8]) -> Flaw
    ensures { result ≡ record_flaw sizes line.now }
{
    match checked(line) {
        Ok(_) => text_flaw(sizes, line),
        Err(flaw) => flaw,
    }
}
