//! Why a line of keys is refused, or one of strokes.

ghost use Rattle.std.specs.Prelude.{◌≡◌, drop};
ghost use Rattle.cli_reasons.specs.KeyLine.{is_string, is_stroke, no_key, other_flaw, key_text_flaw, key_flaw};

use crate::character_line::string_flaw;
use crate::flaw::{Flaw, Why};
use crate::text::checked;

/// Which lines name what an operator does.
#[derive(Clone, Copy, Debug, PartialEq, Eq)]
pub enum Names {
    /// Keys.
    Keys,
    /// Keys, strings, and what is struck beside them.
    Strokes,
}

/// Whether a line is `string`, alone or with characters.
fn is_string(line: &str) -> bool
    ensures { result ≡ is_string line.now }
{
    line == "string" || line.as_bytes().starts_with(b"string ".as_slice())
}

/// Whether a line is a stroke, and no key.
fn is_stroke(word: &str) -> bool
    ensures { result ≡ is_stroke word.now }
{
    match word {
        "insert" | "dup" | "fieldmark" => true,
        _ => is_string(word),
    }
}

/// Why a line of keys is refused that names none.
fn no_key(line: &str) -> Why
    ensures { result ≡ no_key line.now }
{
    if is_stroke(line) {
        Why::NeedsStrokes
    } else {
        Why::NoKey
    }
}

/// The bytes after so many, or none.
fn rest_after(line: &[u8], count: usize) -> &[u8]
    ensures { result.now ≡ drop count line.now }
{
    if count < line.len() {
        &line[count..]
    } else {
        b"".as_slice()
    }
}

/// What is wrong with a line that begins no key, or a string.
fn other_flaw(names: Names, line: &str) -> Flaw
    ensures { result ≡ other_flaw names line.now }
{
    match names {
        Names::Keys => Flaw::at(1, no_key(line)),
        Names::Strokes if is_string(line) => string_flaw(rest_after(line.as_bytes(), 7)),
        Names::Strokes => Flaw::at(1, Why::NoStroke),
    }
}

/// What is wrong with a line of text.
fn text_flaw(names: Names, line: &str) -> Flaw
    ensures { result ≡ key_text_flaw names line.now }
{
    if line.as_bytes().starts_with(b"type ".as_slice()) {
        Flaw::at(6, Why::NoCode)
    } else {
        other_flaw(names, line)
    }
}

/// What is wrong with a line of keys, or of strokes, that is refused.
pub fn key_flaw(names: Names, line: &[u8]) -> Flaw
    ensures { result ≡ key_flaw names line.now }
{
    match checked(line) {
        Ok(text) => text_flaw(names, text),
        Err(flaw) => flaw,
    }
}
