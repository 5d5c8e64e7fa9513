//! The text of String, piece by piece.

ghost use Rattle.std.specs.Prelude.{◌≡◌, ◌<◌, ◌≤◌, ◌+◌, ◌*◌, ◌++◌, length, codes, option_map, IfSome, OnOk};
ghost use Rattle.script_screens.specs.Lines.{data_line};
ghost use Rattle.script_screens.specs.Pieces.{after_first, character_at, coded, typed, typed_at, numbered_at, pf_key, pa_key, pf_second, pf_at, pa_at, function_at, lettered, escaped_at, control, piece_at, fault_words};

use crate::code_page::{CodePage, code_of_value};
use crate::hexadecimal::{is_hex, read_hex};
use crate::lines::{begin_line, end_line, push_decimal};
use crate::number::is_digit;
use std::alloc::AllocError;

/// A key that a text presses.
#[derive(Clone, Copy, Debug, PartialEq, Eq)]
pub enum StringKey {
    Tab,
    BackTab,
    Left,
    Newline,
    Enter,
    Clear,
    /// PF1 to PF24.
    Pf(u8),
    /// PA1 to PA3.
    Pa(u8),
}

/// What is wrong in a text; the rest of it is typed.
#[derive(Clone, Copy, Debug, PartialEq, Eq)]
pub enum StringFault {
    /// It ends after `\`, `\x`, `\u` or `\p`.
    MissingData,
    /// No digit comes after `\x` or `\u`.
    MissingDigits,
    /// Neither `f` nor `a` comes after `\p`.
    AfterP,
    /// No digit comes after `\pf`.
    AfterPf,
    /// No digit comes after `\pa`.
    AfterPa,
    /// There is no such PF key.
    UnknownPf(u8),
    /// There is no such PA key.
    UnknownPa(u8),
    /// `\a`.
    Bell,
    /// `\v`.
    VerticalTab,
}

/// A piece of a text.
#[derive(Clone, Copy, Debug, PartialEq, Eq)]
pub enum Piece {
    /// A character, as its code in the host's page.
    Character(u8),
    /// Nothing is typed: what has no code, and `\pf` or `\pa` at the end.
    Ignored,
    Key(StringKey),
    Fault(StringFault),
}

/// The second byte of a character of Latin-1, and what comes after it.
fn after_first(first: u8, rest: &[u8]) -> (Option<u32>, &[u8])
    requires { 0xC0 ≤ first }
    ensures character { (result.0, result.1.now) ≡ after_first first rest.now }
    ensures shorter { length result.1.now ≤ length rest.now }
{
    match rest {
        [byte, others @ ..] if 0x80 <= *byte && *byte <= 0xBF => (
            Some(u32::from(first - 0xC0) * 64 + u32::from(*byte - 0x80)),
            others,
        ),
        _ => (None, rest),
    }
}

/// The character that begins with a byte, if it is of ASCII or Latin-1, and what comes after it.
pub(crate) fn character_at(byte: u8, rest: &[u8]) -> (Option<u32>, &[u8])
    ensures character { (result.0, result.1.now) ≡ character_at byte rest.now }
    ensures shorter { length result.1.now ≤ length rest.now }
{
    if byte < 0x80 {
        return (Some(u32::from(byte)), rest);
    }
    if byte == 0xC2 || byte == 0xC3 {
        return after_first(byte, rest);
    }
    (None, rest)
}

fn coded(code: Option<u8>) -> Piece
    ensures { result ≡ coded code }
{
    match code {
        Some(code) => Piece::Character(code),
        None => Piece::Ignored,
    }
}

fn typed(code_page: CodePage, character: Option<u32>) -> Piece
    ensures { result ≡ typed code_page character }
{
    match character {
        Some(value) => coded(code_of_value(code_page, value)),
        None => Piece::Ignored,
    }
}

fn typed_at(code_page: CodePage, byte: u8, rest: &[u8]) -> (Piece, &[u8])
    ensures piece { (result.0, result.1.now) ≡ typed_at code_page byte rest.now }
    ensures shorter { length result.1.now ≤ length rest.now }
{
    let (character, others) = character_at(byte, rest);
    (typed(code_page, character), others)
}

/// What comes after `\x` and `\u`.
fn numbered_at(code_page: CodePage, rest: &[u8]) -> (Piece, &[u8])
    ensures piece { (result.0, result.1.now) ≡ numbered_at code_page rest.now }
    ensures shorter { length result.1.now ≤ length rest.now }
{
    match rest {
        [] => (Piece::Fault(StringFault::MissingData), rest),
        [byte, ..] if is_hex(*byte) => {
            let (value, others) = read_hex(4, rest);
            (typed(code_page, Some(value)), others)
        }
        _ => (Piece::Fault(StringFault::MissingDigits), rest),
    }
}

fn pf_key(number: u8) -> Piece
    ensures { result ≡ pf_key number }
{
    if 1 <= number && number <= 24 {
        Piece::Key(StringKey::Pf(number))
    } else {
        Piece::Fault(StringFault::UnknownPf(number))
    }
}

fn pa_key(number: u8) -> Piece
    ensures { result ≡ pa_key number }
{
    if 1 <= number && number <= 3 {
        Piece::Key(StringKey::Pa(number))
    } else {
        Piece::Fault(StringFault::UnknownPa(number))
    }
}

/// What comes after the first digit of a PF key.
fn pf_second(first: u8, rest: &[u8]) -> (Piece, &[u8])
    requires { first < 10 }
    ensures piece { (result.0, result.1.now) ≡ pf_second first rest.now }
    ensures shorter { length result.1.now ≤ length rest.now }
{
    match rest {
        [byte, others @ ..] if is_digit(*byte) => (pf_key(first * 10 + (*byte - 0x30)), others),
        _ => (pf_key(first), rest),
    }
}

fn pf_at(rest: &[u8]) -> (Piece, &[u8])
    ensures piece { (result.0, result.1.now) ≡ pf_at rest.now }
    ensures shorter { length result.1.now ≤ length rest.now }
{
    match rest {
        [] => (Piece::Ignored, rest),
        [byte, others @ ..] if is_digit(*byte) => pf_second(*byte - 0x30, others),
        [_, others @ ..] => (Piece::Fault(StringFault::AfterPf), others),
    }
}

fn pa_at(rest: &[u8]) -> (Piece, &[u8])
    ensures piece { (result.0, result.1.now) ≡ pa_at rest.now }
    ensures shorter { length result.1.now ≤ length rest.now }
{
    match rest {
        [] => (Piece::Ignored, rest),
        [byte, others @ ..] if is_digit(*byte) => (pa_key(*byte - 0x30), others),
        [_, others @ ..] => (Piece::Fault(StringFault::AfterPa), others),
    }
}

/// What comes after `\p`.
fn function_at(rest: &[u8]) -> (Piece, &[u8])
    ensures piece { (result.0, result.1.now) ≡ function_at rest.now }
    ensures shorter { length result.1.now ≤ length rest.now }
{
    match rest {
        [] => (Piece::Fault(StringFault::MissingData), rest),
        [b'f', others @ ..] => pf_at(others),
        [b'a', others @ ..] => pa_at(others),
        [_, others @ ..] => (Piece::Fault(StringFault::AfterP), others),
    }
}

/// The letters that are a piece by themselves after `\`.
fn lettered(byte: u8) -> Option<Piece>
    ensures { result ≡ lettered byte }
{
    match byte {
        b't' => Some(Piece::Key(StringKey::Tab)),
        b'T' => Some(Piece::Key(StringKey::BackTab)),
        b'b' => Some(Piece::Key(StringKey::Left)),
        b'r' => Some(Piece::Key(StringKey::Newline)),
        b'n' => Some(Piece::Key(StringKey::Enter)),
        b'f' => Some(Piece::Key(StringKey::Clear)),
        b'a' => Some(Piece::Fault(StringFault::Bell)),
        b'v' => Some(Piece::Fault(StringFault::VerticalTab)),
        _ => None,
    }
}

/// What comes after `\`.
fn escaped_at(code_page: CodePage, rest: &[u8]) -> (Piece, &[u8])
    ensures piece { (result.0, result.1.now) ≡ escaped_at code_page rest.now }
    ensures shorter { length result.1.now ≤ length rest.now }
{
    let [byte, others @ ..] = rest else {
        return (Piece::Fault(StringFault::MissingData), rest);
    };
    if let Some(piece) = lettered(*byte) {
        return (piece, others);
    }
    match *byte {
        b'x' | b'u' => numbered_at(code_page, others),
        b'p' => function_at(others),
        _ => typed_at(code_page, *byte, others),
    }
}

/// The controls that are a key.
fn control(byte: u8) -> Option<Piece>
    ensures { result ≡ control byte }
{
    match byte {
        0x08 => Some(Piece::Key(StringKey::Left)),
        0x09 => Some(Piece::Key(StringKey::Tab)),
        0x0C => Some(Piece::Key(StringKey::Clear)),
        _ => None,
    }
}

/// The piece at the front of a text of String, and what comes after it; none at its end. Characters are read as UTF-8, and those that
/// the code page hasn't are ignored, as are bytes that are no UTF-8.
pub fn next_piece(code_page: CodePage, text: &[u8]) -> Option<(Piece, &[u8])>
    ensures piece { option_map (λ parts. (parts.0, parts.1.now)) result
        ≡ piece_at code_page text.now }
    ensures shorter { IfSome result (λ parts. length parts.1.now < length text.now) }
{
    let [byte, rest @ ..] = text else {
        return None;
    };
    if let Some(piece) = control(*byte) {
        return Some((piece, rest));
    }
    if *byte == 0x5C {
        return Some(escaped_at(code_page, rest));
    }
    Some(typed_at(code_page, *byte, rest))
}

/// Adds the words of a fault.
fn push_fault_words(out: &mut Vec<u8>, fault: StringFault) -> Result<(), AllocError>
    ensures { OnOk result (out.new.items ≡ out.old.items ++ fault_words fault) }
{
    match fault {
        StringFault::MissingData => out.extend_from_slice(b"Missing data after \\"),
        StringFault::MissingDigits => out.extend_from_slice(b"Missing hex digits after \\x"),
        StringFault::AfterP => out.extend_from_slice(b"Unknown character after \\p"),
        StringFault::AfterPf => out.extend_from_slice(b"Unknown character after \\pf"),
        StringFault::AfterPa => out.extend_from_slice(b"Unknown character after \\pa"),
        StringFault::UnknownPf(number) => {
            out.extend_from_slice(b"Unknown PF key ")?;
            push_decimal(out, u64::from(number))
        }
        StringFault::UnknownPa(number) => {
            out.extend_from_slice(b"Unknown PA key ")?;
            push_decimal(out, u64::from(number))
        }
        StringFault::Bell => out.extend_from_slice(b"Bell not supported"),
        StringFault::VerticalTab => out.extend_from_slice(b"Vertical tab not supported"),
    }
}

/// Adds the data line of a fault.
pub fn push_string_fault(out: &mut Vec<u8>, fault: StringFault) -> Result<(), AllocError>
    ensures { OnOk result (out.new.items
        ≡ out.old.items ++ data_line (codes "String(): " ++ fault_words fault)) }
{
    begin_line(out)?;
    out.extend_from_slice(b"String(): ")?;
    push_fault_words(out, fault)?;
    end_line(out)
}
