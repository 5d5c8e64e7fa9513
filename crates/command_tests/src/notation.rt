//! Texts of several lines in one line of a script.

use anyhow::{Context, Result};
use std::alloc::{AllocError, Global};
use test_words::{Row, byte, cut_word, number, push_word_number};

/// How many equal lines are printed as one with their number.
const FOLDED: u32 = 32;

/// Adds a byte, and more text.
fn push_part(bytes: &mut Vec<u8>, byte: u8, rest: &str) -> Result<(), AllocError> {
    bytes.push(byte)?;
    bytes.extend_from_slice(rest.as_bytes())
}

/// The byte of two digits, and what follows it.
fn of_digits(part: &str) -> Result<(u8, &str)> {
    let (digits, rest) = part.split_at_checked(2).context("two digits")?;
    Ok((byte(digits)?, rest))
}

/// The byte of what follows a backslash, `n`, `r` or `x` and two digits, and what follows it.
fn unescaped(part: &str) -> Result<(u8, &str)> {
    match part.split_at_checked(1) {
        Some(("n", rest)) => Ok((b'\n', rest)),
        Some(("r", rest)) => Ok((b'\r', rest)),
        Some((_, rest)) => of_digits(rest),
        None => None.context("a letter"),
    }
}

/// Adds what follows each backslash.
fn push_parts(bytes: &mut Vec<u8>, parts: &str) -> Result<()> {
    for part in parts.split('\\') {
        let (byte, rest) = unescaped(part)?;
        push_part(bytes, byte, rest)?;
    }
    Ok(())
}

/// Adds the bytes of a text with escapes.
fn push_text(bytes: &mut Vec<u8>, text: &str) -> Result<()> {
    let (first, rest) = text.split_once('\\').unwrap_or((text, ""));
    bytes.extend_from_slice(first.as_bytes())?;
    if rest.is_empty() {
        return Ok(());
    }
    push_parts(bytes, rest)
}

/// The bytes of a text with escapes.
pub(crate) fn bytes_of(alloc: Global, text: &str) -> Result<Vec<u8>> {
    let mut bytes = Vec::new(alloc);
    push_text(&mut bytes, text)?;
    Ok(bytes)
}

/// The same; spoils a row where it cannot be read.
pub(crate) fn read_text(row: &mut Row, text: &str) -> Vec<u8> {
    row.take(bytes_of(row.alloc(), text))
        .unwrap_or(Vec::new(row.alloc()))
}

/// Adds the bytes of a text so many times.
fn push_times(bytes: &mut Vec<u8>, text: &str, times: u32) -> Result<()> {
    for _ in 0..times {
        push_text(bytes, text)?;
    }
    Ok(())
}

/// Adds the bytes of `N TEXT ^ TEXT`.
fn push_repeated(bytes: &mut Vec<u8>, words: &str) -> Result<()> {
    let (times, texts) = cut_word(words)?;
    let (often, last) = texts.split_once(" ^ ").unwrap_or((texts, ""));
    push_times(bytes, often, number(times)?)?;
    push_text(bytes, last)
}

/// The bytes of `N TEXT ^ TEXT`: the first text so many times, then the other.
pub(crate) fn repeated(alloc: Global, words: &str) -> Result<Vec<u8>> {
    let mut bytes = Vec::new(alloc);
    push_repeated(&mut bytes, words)?;
    Ok(bytes)
}

fn push_line(out: &mut String, line: &str) -> Result<(), AllocError> {
    out.push_str(line)?;
    out.push_str("\\n")
}

fn push_folded(out: &mut String, line: &str, count: u32) -> Result<(), AllocError> {
    out.push('[')?;
    out.push_str(line)?;
    push_word_number(out, "*", count)?;
    out.push_str("]\\n")
}

/// Adds a line that stands so often one after the other.
fn push_run(out: &mut String, line: &str, count: u32) -> Result<(), AllocError> {
    if count >= FOLDED {
        return push_folded(out, line, count);
    }
    for _ in 0..count {
        push_line(out, line)?;
    }
    Ok(())
}

/// Adds lines; of 32 or more equal ones their number.
fn push_lines(alloc: Global, out: &mut String, text: &str) -> Result<(), AllocError> {
    let mut last = String::new(alloc);
    let mut count = 0u32;
    for line in text.lines() {
        if line != last.as_str() {
            push_run(out, last.as_str(), count)?;
            last = String::from_str(alloc, line)?;
            count = 0;
        }
        count = count.saturating_add(1);
    }
    push_run(out, last.as_str(), count)
}

/// Adds what was written, its ends of lines as `\n`; after a last line without one a dollar sign.
pub(crate) fn push_written(alloc: Global, out: &mut String, bytes: &[u8]) -> Result<()> {
    let text = str::from_utf8(bytes)?;
    push_lines(alloc, out, text)?;
    let is_cut = !text.is_empty() && !text.ends_with("\n");
    Ok(out.push_str(if is_cut { "$" } else { "" })?)
}
