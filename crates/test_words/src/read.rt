//! Words read.

ghost use Rattle.std.specs.Prelude.{◌≡◌, [], ◌∷◌, ◌++◌, IfOk, OnOk};
ghost use Rattle.std.specs.Str.Parse.{ParsesUnsigned};
ghost use Rattle.test_words.specs.Printed.{GoesOn};
ghost use Rattle.test_words.specs.Read.{is_row, is_answer, AreParts, AreWritten};

use anyhow::{Context, Result};
use std::alloc::{AllocError, Global};

/// Whether a line is a row: neither empty nor a comment.
pub fn is_row(line: &str) -> bool
    ensures { result ≡ is_row line.now }
{
    match line.as_bytes() {
        [] => false,
        [first, ..] => *first != b'#',
    }
}

/// Whether a line is one of the answer to the row above it.
pub fn is_answer(line: &str) -> bool
    ensures { result ≡ is_answer line.now }
{
    match line.as_bytes() {
        [] => false,
        [first, ..] => *first == b'=',
    }
}

/// A decimal number.
pub fn number(text: &str) -> Result<u32>
    ensures { ParsesUnsigned 32 10 text.now result }
{
    Ok(u32::from_str_radix(text, 10)?)
}

/// A byte of two hexadecimal digits.
pub fn byte(text: &str) -> Result<u8>
    ensures { ParsesUnsigned 8 16 text.now result }
{
    Ok(u8::from_str_radix(text, 16)?)
}

/// The first word, and what follows it; refuses one word alone.
pub fn cut_word(words: &str) -> Result<(&str, &str)>
    ensures { IfOk result (λ parts. AreParts words.now parts.0.now parts.1.now) }
{
    words.split_once(' ').context("two words")
}

/// The text between two bars.
pub fn between_bars(words: &str) -> Result<&str>
    ensures { IfOk result (λ text. words.now ≡ 0x7C ∷ (text.now ++ 0x7C ∷ [])) }
{
    let text = words.strip_prefix("|").context("a bar")?;
    text.strip_suffix("|").context("a bar")
}

/// Two decimal numbers.
pub fn two_numbers(words: &str) -> Result<(u32, u32)>
    ensures { IfOk result (λ pair. AreWritten 10 words.now pair.0 pair.1) }
{
    let (first, second) = cut_word(words)?;
    Ok((number(first)?, number(second)?))
}

/// Two bytes, each a word.
pub fn two_bytes(words: &str) -> Result<(u8, u8)>
    ensures { IfOk result (λ pair. AreWritten 16 words.now pair.0 pair.1) }
{
    let (first, second) = cut_word(words)?;
    Ok((byte(first)?, byte(second)?))
}

/// Adds some bytes so many times.
fn push_times(bytes: &mut Vec<u8>, part: &[u8], times: u32) -> Result<(), AllocError>
    ensures { OnOk result (GoesOn bytes.old.items bytes.new.items) }
{
    for _ in 0..times {
        bytes.extend_from_slice(part)?;
    }
    Ok(())
}

/// Adds some bytes and a number of two bytes so many times, the number going on by one each time.
fn push_counted(bytes: &mut Vec<u8>, part: &[u8], first: u16, times: u32) -> Result<(), AllocError>
    ensures { OnOk result (GoesOn bytes.old.items bytes.new.items) }
{
    let mut number = first;
    for _ in 0..times {
        bytes.extend_from_slice(part)?;
        bytes.extend_from_slice(&number.to_be_bytes())?;
        number = number.saturating_add(1);
    }
    Ok(())
}

/// Adds the bytes of digits so many times.
fn push_repeated(alloc: Global, bytes: &mut Vec<u8>, digits: &str, times: u32) -> Result<()>
    ensures { OnOk result (GoesOn bytes.old.items bytes.new.items) }
{
    let part = hex::decode(alloc, digits)?;
    Ok(push_times(bytes, part.as_slice(), times)?)
}

/// Adds the bytes of digits so many times, the number of the last two going on by one each time.
fn push_rising(alloc: Global, bytes: &mut Vec<u8>, digits: &str, times: u32) -> Result<()>
    ensures { OnOk result (GoesOn bytes.old.items bytes.new.items) }
{
    let part = hex::decode(alloc, digits)?;
    match part.as_slice() {
        [front @ .., high, low] => {
            let first = u16::from_be_bytes([*high, *low]);
            Ok(push_counted(bytes, front, first, times)?)
        }
        _ => None.context("a number of two bytes"),
    }
}

/// Adds the bytes of a word.
fn push_word(alloc: Global, bytes: &mut Vec<u8>, word: &str) -> Result<()>
    ensures { OnOk result (GoesOn bytes.old.items bytes.new.items) }
{
    if let Some((digits, times)) = word.split_once('*') {
        return push_repeated(alloc, bytes, digits, number(times)?);
    }
    if let Some((digits, times)) = word.split_once('^') {
        return push_rising(alloc, bytes, digits, number(times)?);
    }
    push_repeated(alloc, bytes, word, 1)
}

/// Adds the bytes of words of hexadecimal: `C1C2` these, `C1C2*100` these a hundred times, `110001^100` a hundred
/// times as well, the number of the last two bytes going on by one. What stood before stands.
pub fn push_words(alloc: Global, bytes: &mut Vec<u8>, text: &str) -> Result<()>
    ensures { OnOk result (GoesOn bytes.old.items bytes.new.items) }
{
    for word in text.split(' ') {
        push_word(alloc, bytes, word)?;
    }
    Ok(())
}
