//! The texts of INITIAL and XINIT.

ghost use Rattle.std.specs.Prelude.{◌≡◌, ◌<◌, ◌≤◌, IfSome, IfOk, length, is_some};
ghost use Rattle.bms_map.specs.Texts.{are_doubled, is_doubled, after_front, codes_in, seen, string_of, digit_of, are_digits, text_byte, byte_of, bytes_in, digits_of, text_in};
ghost use Rattle.std.specs.Option.{option_map};
ghost use Rattle.bms_map.specs.Laws.{TextsAreText};

use crate::characters::code_of;
use crate::values::between;
use bms_source::{Letter, Place};
use std::alloc::{AllocError, Global};

/// What a text is read as: its codes, another form, or the place of a bad character.
#[derive(Drop)]
pub(crate) enum Text {
    Codes(Vec<u8>),
    NoText,
    Bad(Place),
}

/// Whether the apostrophes inside a string stand in pairs.
fn are_doubled(inner: &[Letter]) -> bool
    ensures { result ≡ are_doubled inner.now }
{
    let mut rest = inner;
    while let [first, others @ ..] = rest {
        if first.code != b'\'' {
            rest = others;
            continue;
        }
        match others {
            [second, after @ ..] if second.code == b'\'' => rest = after,
            _ => return false,
        }
    }
    true
}

/// Whether a character stands for itself where it is doubled: an apostrophe or an ampersand.
fn is_doubled(code: u8) -> bool
    ensures { result ≡ is_doubled code }
{
    code == b'\'' || code == b'&'
}

/// What comes after the character at the front of a string, if that one is whole.
fn after_front(first: Letter, others: &[Letter]) -> Option<&[Letter]>
    ensures after { option_map (λ after. after.now) result ≡ after_front first others.now }
    ensures shorter { IfSome result (λ after. length after.now ≤ length others.now) }
{
    if !is_doubled(first.code) {
        return Some(others);
    }
    match others {
        [second, after @ ..] if second.code == first.code => Some(after),
        _ => None,
    }
}

fn codes_in(alloc: Global, inner: &[Letter]) -> Result<Text, AllocError>
    ensures { IfOk result (λ text. seen text ≡ codes_in inner.now) }
{
    let mut codes = Vec::new(alloc);
    let mut rest = inner;
    while let [first, others @ ..] = rest {
        let Some(after) = after_front(*first, others) else {
            return Ok(Text::Bad(first.place));
        };
        let Some(code) = code_of(first.code) else {
            return Ok(Text::Bad(first.place));
        };
        codes.push(code)?;
        rest = after;
    }
    Ok(Text::Codes(codes))
}

/// The text of a string.
pub(crate) fn string_of(alloc: Global, value: &[Letter]) -> Result<Text, AllocError>
    ensures { IfOk result (λ text. seen text ≡ string_of value.now) }
{
    match between(value, b'\'', b'\'') {
        Some(inner) => {
            if are_doubled(inner) {
                codes_in(alloc, inner)
            } else {
                Ok(Text::NoText)
            }
        }
        None => Ok(Text::NoText),
    }
}

#[tactic(auto, unfolding(crate::specs::Texts::digit_of))]
fn digit_of(code: u8) -> Option<u8>
    ensures digit { result ≡ digit_of code }
    ensures few { IfSome result (λ d. d < 16) }
{
    match code {
        b'0'..=b'9' => Some(code - b'0'),
        b'A'..=b'F' => Some(code - b'A' + 10),
        b'a'..=b'f' => Some(code - b'a' + 10),
        _ => None,
    }
}

fn is_digit(code: u8) -> bool
    ensures { result ≡ is_some (digit_of code) }
{
    digit_of(code).is_some()
}

fn are_digits(value: &[Letter]) -> bool
    ensures { result ≡ are_digits value.now }
{
    value.iter().all(|letter| is_digit(letter.code))
}

/// A null, or a byte of text.
fn text_byte(byte: u8) -> Option<u8>
    ensures { result ≡ text_byte byte }
{
    if byte == 0 || (0x40 <= byte && byte <= 0xFE) {
        Some(byte)
    } else {
        None
    }
}

fn byte_of(high: u8, low: u8) -> Option<u8>
    ensures { result ≡ byte_of high low }
{
    let high = digit_of(high)?;
    let low = digit_of(low)?;
    text_byte(high * 16 + low)
}

/// The bytes of pairs of digits.
fn bytes_in(alloc: Global, value: &[Letter]) -> Result<Text, AllocError>
    ensures { IfOk result (λ text. seen text ≡ bytes_in value.now) }
{
    let mut codes = Vec::new(alloc);
    let mut rest = value;
    while let [high, low, others @ ..] = rest {
        match byte_of(high.code, low.code) {
            Some(byte) => codes.push(byte)?,
            None => return Ok(Text::Bad(high.place)),
        }
        rest = others;
    }
    Ok(Text::Codes(codes))
}

/// The text of hexadecimal digits.
pub(crate) fn digits_of(alloc: Global, value: &[Letter]) -> Result<Text, AllocError>
    ensures { IfOk result (λ text. seen text ≡ digits_of value.now) }
{
    if value.len() % 2 == 1 || !are_digits(value) {
        return Ok(Text::NoText);
    }
    bytes_in(alloc, value)
}

/// The codes that were read.
pub(crate) fn codes_of(text: Text) -> Option<Vec<u8>>
    ensures { option_map (λ codes. codes.items) result ≡ text_in (seen text) }
{
    match text {
        Text::Codes(codes) => Some(codes),
        Text::NoText | Text::Bad(_) => None,
    }
}

/// Whatever text operands tell, a record takes its characters.
pub fn texts_are_text()
    ensures { TextsAreText }
{}
