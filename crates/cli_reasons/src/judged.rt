//! What a line does, as the commands take it.

ghost use Rattle.std.specs.Prelude.{◌≡◌, ◌≤◌, ◌<◌, ◌+◌, ◌^◌, ◌&&◌, length, is_some, position, IfSome};
ghost use Rattle.std.specs.Str.{is_utf8};
ghost use Rattle.cli_commands.specs.Fault.{Gives};
ghost use Rattle.cli_commands.specs.Held.{records_held};
ghost use Rattle.ds_keys.specs.Lines.{key_of};
ghost use Rattle.cli_reasons.specs.Digits.{BeginsWithDigits};
ghost use Rattle.cli_reasons.specs.Judged.{size_line, is_plain, is_session, is_spaced, judged_digits, spaced_bytes, stream_flaw};
ghost use Rattle.cli_reasons.specs.Judged.{JudgedAs, judged_by, judged_record, judged_turn, names_in, judged_name, judged_other, is_comment, judged_order, judged_characters, is_space, is_no_space, leading_spaces, offset_len, judged_trace, judged_stream};

use crate::character_line::character_flaw;
use crate::digits::{are_digits, digit_count, first_other};
use crate::flaw::{Flaw, Limit, Why};
use crate::key_line::{Names, key_flaw};
use crate::order_line::order_flaw;
use crate::record_line::{SizesBy, record_flaw};
use crate::text::checked;
use cli_characters::{plain_line, string_of};
use cli_commands::{
    CommandError, Fault, Records, SizeLine, is_turn, keys_in, records_in, strokes_in,
};
use ds_keys::key_of_line;
use order_lines::{Told, read_line};
use std::alloc::{AllocError, Global};

/// Of longer lines nothing is told.
const MOST_TOLD: usize = 16_777_216;

/// What a line does.
#[derive(Clone, Copy, Debug, PartialEq, Eq)]
pub(crate) enum Judged {
    /// Nothing that counts.
    Nothing,
    /// It tells the sizes.
    Sizes,
    /// It is a record of so many bytes.
    Record(usize),
    Key,
    /// It types so many characters.
    Characters(usize),
    /// A command, which begins a record.
    Command,
    /// An order of a record that has begun.
    Order,
    /// It ends a record.
    End,
    /// It has bytes of a session.
    Session,
    Refused(Flaw),
}

/// Whether a line of sizes may come.
fn size_line(sizes: SizesBy) -> SizeLine
    ensures { result ≡ size_line sizes }
{
    match sizes {
        SizesBy::Line => SizeLine::Allowed,
        SizesBy::Earlier | SizesBy::Layout => SizeLine::Refused,
    }
}

/// Whether a line is a record without spaces: digits alone, an even number and some. So many at its front are known.
fn is_plain(line: &[u8], known: usize) -> bool
    requires { BeginsWithDigits known line.now }
    ensures { result ≡ is_plain line.now }
{
    !line.is_empty() && line.len() % 2 == 0 && are_digits(line, known)
}

/// Whether a line is digits, an even number of them, and spaces.
#[tactic(auto, using(crate::proofs::Spaced::none_other))]
pub(crate) fn is_spaced(line: &[u8]) -> bool
    ensures { result ≡ is_spaced line.now }
{
    if are_digits(line, 0) {
        return line.len() % 2 == 0;
    }
    first_other(line).is_none() && digit_count(line) % 2 == 0
}

/// How many bytes a line of digits and spaces spells, where it spells any.
fn spaced_bytes(line: &[u8]) -> Option<usize>
    ensures { result ≡ spaced_bytes line.now }
{
    if !is_spaced(line) {
        return None;
    }
    match digit_count(line) / 2 {
        0 => None,
        bytes => Some(bytes),
    }
}

/// What the records that a line alone tells show of it.
fn judged_by(told: &Records, sizes: SizesBy) -> Judged
    ensures { result ≡ judged_by sizes told.now.size_line (records_held told.now.records.items) }
{
    match told.records.as_slice() {
        [record, ..] => Judged::Record(record.len()),
        [] if sizes == SizesBy::Line && told.size_line == SizeLine::Refused => Judged::Sizes,
        [] => Judged::Nothing,
    }
}

/// What a line of records does, of which so many bytes at its front are known to be digits.
pub(crate) fn judged_record(
    alloc: Global,
    sizes: SizesBy,
    line: &[u8],
    known: usize,
) -> Result<Judged, CommandError>
    requires { BeginsWithDigits known line.now }
    ensures { JudgedAs result (judged_record sizes line.now) }
{
    if is_plain(line, known) {
        return Ok(Judged::Record(line.len() / 2));
    }
    if let Some(bytes) = spaced_bytes(line) {
        return Ok(Judged::Record(bytes));
    }
    match records_in(alloc, line, size_line(sizes)) {
        Ok(told) => Ok(judged_by(&told, sizes)),
        Err(CommandError::Fault(Fault::TooLong)) => Ok(Judged::Refused(Flaw::at(
            1,
            Why::TooLong(Limit::RecordBytes),
        ))),
        Err(CommandError::Fault(_)) => Ok(Judged::Refused(record_flaw(sizes, line))),
        Err(error) => Err(error),
    }
}

/// What a line of records of several turns does, of which so many bytes at its front are known to be digits.
pub(crate) fn judged_turn(
    alloc: Global,
    sizes: SizesBy,
    line: &[u8],
    known: usize,
) -> Result<Judged, CommandError>
    requires { BeginsWithDigits known line.now }
    ensures { JudgedAs result (judged_turn sizes line.now) }
{
    if is_turn(line) {
        return Ok(Judged::Nothing);
    }
    judged_record(alloc, sizes, line, known)
}

/// Whether a line names a key, which is a stroke too.
fn is_key(line: &[u8]) -> bool
    ensures { result ≡ (is_utf8 line.now && is_some (key_of line.now)) }
{
    match checked(line) {
        Ok(word) => key_of_line(word).is_some(),
        Err(_) => false,
    }
}

/// How many keys or strokes a line alone names.
fn names_in(alloc: Global, names: Names, line: &[u8]) -> Result<usize, CommandError>
    ensures { Gives (λ count. count) result (names_in names line.now) }
{
    match names {
        Names::Keys => Ok(keys_in(alloc, line)?.keys.len()),
        Names::Strokes => Ok(strokes_in(alloc, line)?.strokes.len()),
    }
}

/// What a line of keys or strokes does.
pub(crate) fn judged_name(alloc: Global, names: Names, line: &[u8]) -> Result<Judged, CommandError>
    ensures { JudgedAs result (judged_name names line.now) }
{
    if is_key(line) {
        return Ok(Judged::Key);
    }
    if names == Names::Strokes {
        if let Some(text) = string_of(alloc, line)? {
            return Ok(Judged::Characters(text.len()));
        }
    }
    match names_in(alloc, names, line) {
        Ok(0) => Ok(Judged::Nothing),
        Ok(_) => Ok(Judged::Key),
        Err(CommandError::Fault(_)) => Ok(Judged::Refused(key_flaw(names, line))),
        Err(error) => Err(error),
    }
}

/// What a line does that is no command and no order: whether it tells sizes, or is refused.
fn judged_other(alloc: Global, sizes: SizesBy, line: &[u8]) -> Result<Judged, CommandError>
    ensures { JudgedAs result (judged_other sizes line.now) }
{
    match records_in(alloc, line, size_line(sizes)) {
        Ok(told) => match judged_by(&told, sizes) {
            Judged::Sizes => Ok(Judged::Sizes),
            _ => Ok(Judged::Refused(order_flaw(sizes, line))),
        },
        Err(CommandError::Fault(_)) => Ok(Judged::Refused(order_flaw(sizes, line))),
        Err(error) => Err(error),
    }
}

/// Whether a line of text begins with `#`.
fn is_comment(line: &[u8]) -> bool
    ensures { result ≡ is_comment line.now }
{
    line.starts_with(b"#".as_slice()) && checked(line).is_ok()
}

/// What a line of orders does.
pub(crate) fn judged_order(
    alloc: Global,
    sizes: SizesBy,
    line: &[u8],
) -> Result<Judged, CommandError>
    ensures { JudgedAs result (judged_order sizes line.now) }
{
    if line.is_empty() {
        return Ok(Judged::End);
    }
    if is_comment(line) {
        return Ok(Judged::Nothing);
    }
    match read_line(alloc, line)? {
        Some(Told::Command(_)) => Ok(Judged::Command),
        Some(Told::Order(_)) => Ok(Judged::Order),
        None => judged_other(alloc, sizes, line),
    }
}

/// What a line of orders does whose texts may be characters.
pub(crate) fn judged_characters(
    alloc: Global,
    sizes: SizesBy,
    line: &[u8],
) -> Result<Judged, CommandError>
    ensures { JudgedAs result (judged_characters sizes line.now) }
{
    let plain = plain_line(alloc, line)?;
    match judged_order(alloc, sizes, plain.as_slice())? {
        Judged::Refused(_) => Ok(Judged::Refused(character_flaw(sizes, line))),
        judged => Ok(judged),
    }
}

/// Whether a line of a trace has bytes of a side.
pub(crate) fn is_session(line: &[u8]) -> bool
    ensures { result ≡ is_session line.now }
{
    line.starts_with(b"< 0x".as_slice()) || line.starts_with(b"> 0x".as_slice())
}

/// What is wrong with digits that stand after so many bytes of a line.
fn stream_flaw(before: usize, digits: &[u8]) -> Flaw
    requires { before + length digits.now < 2 ^ 32 }
    ensures { result ≡ stream_flaw before digits.now }
{
    match first_other(digits) {
        Some(place) => Flaw::at(before + place + 1, Why::NotDigit(digits[place])),
        None => Flaw::at(
            before + digits.len() + 1,
            Why::OddDigits(digit_count(digits)),
        ),
    }
}

/// Judges the digits that stand after so many bytes of a line.
fn judged_digits(before: usize, digits: &[u8]) -> Judged
    requires { before + length digits.now < 2 ^ 32 }
    ensures { result ≡ judged_digits before digits.now }
{
    if is_spaced(digits) {
        Judged::Session
    } else {
        Judged::Refused(stream_flaw(before, digits))
    }
}

fn first_space(bytes: &[u8]) -> Option<usize>
    ensures first { result ≡ position is_space bytes.now }
    ensures inside { IfSome result (λ place. place < length bytes.now) }
{
    bytes.iter().position(|byte| *byte == b' ')
}

fn first_no_space(bytes: &[u8]) -> Option<usize>
    ensures first { result ≡ position is_no_space bytes.now }
    ensures inside { IfSome result (λ place. place < length bytes.now) }
{
    bytes.iter().position(|byte| *byte != b' ')
}

/// How many spaces stand at the front.
fn leading_spaces(bytes: &[u8]) -> usize
    ensures value { result ≡ leading_spaces bytes.now }
    ensures inside { result ≤ length bytes.now }
{
    match first_no_space(bytes) {
        Some(place) => place,
        None => bytes.len(),
    }
}

/// How many bytes stand before the digits of a line of a trace: a side, an offset and spaces.
fn offset_len(line: &[u8]) -> usize
    requires { 4 ≤ length line.now }
    ensures value { result ≡ offset_len line.now }
    ensures inside { result ≤ length line.now }
{
    match first_space(&line[4..]) {
        Some(place) => 4 + place + leading_spaces(&line[4 + place..]),
        None => line.len(),
    }
}

/// What a line of a trace does: those that have bytes begin with a side.
pub(crate) fn judged_trace(line: &[u8]) -> Judged
    ensures { result ≡ judged_trace line.now }
{
    if !is_session(line) || MOST_TOLD < line.len() {
        return Judged::Nothing;
    }
    let before = offset_len(line);
    judged_digits(before, &line[before..])
}

/// What a line of a stream does.
pub(crate) fn judged_stream(line: &[u8]) -> Judged
    ensures { result ≡ judged_stream line.now }
{
    if MOST_TOLD < line.len() {
        return Judged::Session;
    }
    judged_digits(0, line)
}
