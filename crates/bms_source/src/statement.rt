//! Statements.

ghost use Rattle.std.specs.Prelude.{◌≡◌, ◌≤◌, ◌<◌, ◌+◌, ◌^◌, map, length, IfOk};
ghost use Rattle.bms_source.specs.Results.{Gives};
ghost use Rattle.bms_source.specs.Rows.{lines_in};
ghost use Rattle.bms_source.specs.Statement.{word_length, blank_length, word_in, after_word, is_comment, operation_of, place_of, unknown, statement_of, said_of, found_in, statement_in};
ghost use Rattle.bms_source.specs.Seen.{seen};
ghost use Rattle.bms_source.specs.Gathered.{operands_of};

use crate::gathered::operands_of;
use crate::letter::{Letter, Place};
use crate::refusal::{SourceError, Why};
use crate::rows::{Row, rows_of};
use crate::words::{is_named, is_symbol, upper_word};
use bstr::ByteSlice;
use std::alloc::{AllocError, Global};
use std::marker::Model;

/// What a statement does.
#[derive(Clone, Copy, Debug, PartialEq, Eq)]
pub enum Operation {
    /// DFHMSD.
    Mapset,
    /// DFHMDI.
    Map,
    /// DFHMDF.
    Field,
    /// PRINT, TITLE, EJECT and SPACE.
    Passed,
    End,
}

/// A macro, as it stands.
#[derive(Debug, Drop)]
pub struct Statement {
    pub operation: Operation,
    /// Where its operation stands.
    pub place: Place,
    /// The number of its first line.
    pub line: usize,
    pub label: Vec<Letter>,
    pub operands: Vec<Letter>,
}

impl Model for Statement {
    ghost use Rattle.bms_source.specs.Statement.{Said};

    ghost Value = { Said };

    ghost view = { λ s. record { operation = s.operation; place = s.place; line = s.line; label = s.label.items; operands = s.operands.items } };
}

/// What stands at the front of lines.
#[derive(Debug, Drop)]
pub enum Read {
    /// A comment, a blank line, or a statement without effect.
    Passed,
    /// END, at this place.
    End(Place),
    Macro(Statement),
}

/// The lines of a text.
pub fn lines_of(alloc: Global, text: &[u8]) -> Result<Vec<&[u8]>, AllocError>
    ensures { IfOk result (λ lines. map (λ line. line.now) lines.items ≡ lines_in text.now) }
{
    let mut lines = Vec::new(alloc);
    for line in text.lines() {
        lines.push(line)?;
    }
    Ok(lines)
}

/// How many letters stand before the first blank.
fn word_length(letters: &[Letter]) -> usize
    ensures count { result ≡ word_length letters.now }
    ensures inside { result ≤ length letters.now }
{
    let mut count = 0usize;
    let mut rest = letters;
    while let [letter, others @ ..] = rest {
        if letter.code == b' ' {
            return count;
        }
        count += 1;
        rest = others;
    }
    count
}

/// How many blanks stand at the front.
fn blank_length(letters: &[Letter]) -> usize
    ensures count { result ≡ blank_length letters.now }
    ensures inside { result ≤ length letters.now }
{
    let mut count = 0usize;
    let mut rest = letters;
    while let [letter, others @ ..] = rest {
        if letter.code != b' ' {
            return count;
        }
        count += 1;
        rest = others;
    }
    count
}

/// The word at the front, and what comes after it from the next letter on.
fn cut_word(letters: &[Letter]) -> (&[Letter], &[Letter])
    ensures word { result.0.now ≡ word_in letters.now }
    ensures rest { result.1.now ≡ after_word letters.now }
{
    let (word, others) = letters.split_at(word_length(letters));
    (word, &others[blank_length(others)..])
}

/// Whether a line is blank, or a comment.
fn is_comment(letters: &[Letter]) -> bool
    ensures { result ≡ is_comment letters.now }
{
    match letters {
        [] => true,
        [first] => first.code == b'*' || first.code == b' ',
        [first, second, ..] => {
            (first.code == b'.' && second.code == b'*')
                || first.code == b'*'
                || blank_length(letters) == letters.len()
        }
    }
}

#[tactic(auto, unfolding(crate::specs::Statement::operation_of))]
fn operation_of(word: &[Letter]) -> Option<Operation>
    ensures { result ≡ operation_of word.now }
{
    if is_named(word, b"DFHMDF") {
        Some(Operation::Field)
    } else if is_named(word, b"DFHMDI") {
        Some(Operation::Map)
    } else if is_named(word, b"DFHMSD") {
        Some(Operation::Mapset)
    } else if is_named(word, b"END") {
        Some(Operation::End)
    } else if is_named(word, b"PRINT")
        || is_named(word, b"TITLE")
        || is_named(word, b"EJECT")
        || is_named(word, b"SPACE")
    {
        Some(Operation::Passed)
    } else {
        None
    }
}

/// Where an operation stands.
fn place_of(line: usize, word: &[Letter]) -> Place
    ensures { result ≡ place_of line word.now }
{
    match word {
        [first, ..] => first.place,
        [] => Place { line, column: 1 },
    }
}

/// The refusal of an operation, with its word where that is a symbol.
#[tactic(auto, unfolding(crate::specs::Statement::unknown))]
fn unknown(alloc: Global, line: usize, word: &[Letter]) -> Result<SourceError, AllocError>
    ensures { IfOk result (λ error. error ≡ SourceError.Refused (unknown line word.now)) }
{
    let place = place_of(line, word);
    if is_symbol(word) && word.len() <= 63 {
        return Ok(SourceError::with_word(Why::UnknownOperation, upper_word(alloc, word)?, place));
    }
    Ok(SourceError::at(alloc, Why::UnknownOperation, place))
}

/// A macro, its operands from a text of its first line on.
fn macro_of(
    alloc: Global,
    operation: Operation,
    place: Place,
    line: usize,
    label: &[Letter],
    text: &[Letter],
    rows: &[Row],
) -> Result<Read, SourceError>
    ensures { Gives seen result
        (said_of operation place line label.now (operands_of text.now rows.now)) }
{
    let operands = operands_of(alloc, text, rows)?;
    Ok(Read::Macro(Statement {
        operation,
        place,
        line,
        label: Vec::from_slice(alloc, label)?,
        operands,
    }))
}

/// The statement of lines, its first one's letters being these.
#[tactic(auto, unfolding(crate::specs::Statement::statement_of))]
fn statement_of(
    alloc: Global,
    line: usize,
    letters: &[Letter],
    rows: &[Row],
) -> Result<Read, SourceError>
    ensures { Gives seen result (statement_of line letters.now rows.now) }
{
    if is_comment(letters) {
        return Ok(Read::Passed);
    }
    let (label, others) = cut_word(letters);
    let (word, text) = cut_word(others);
    let place = place_of(line, word);
    match operation_of(word) {
        None => Err(unknown(alloc, line, word)?),
        Some(Operation::Passed) => Ok(Read::Passed),
        Some(Operation::End) => Ok(Read::End(place)),
        Some(Operation::Mapset) => macro_of(
            alloc,
            Operation::Mapset,
            place,
            line,
            label,
            text,
            rows,
        ),
        Some(Operation::Map) => macro_of(alloc, Operation::Map, place, line, label, text, rows),
        Some(Operation::Field) => macro_of(alloc, Operation::Field, place, line, label, text, rows),
    }
}

/// What the lines of a statement say, and how many they are.
fn found_in(alloc: Global, rows: &[Row]) -> Result<(Read, usize), SourceError>
    ensures found { Gives (λ found. (seen found.0, found.1)) result (found_in rows.now) }
    ensures count { IfOk result (λ found. found.1 ≡ length rows.now) }
{
    match rows {
        [] => Ok((Read::Passed, 0)),
        [first, later @ ..] => {
            let read = statement_of(alloc, first.number, first.letters.as_slice(), later)?;
            Ok((read, rows.len()))
        }
    }
}

/// Reads the statement at the front of lines, of which the first has this number; and how many lines it has.
#[tactic(auto, unfolding(crate::specs::Statement::statement_in))]
pub fn read_statement(
    alloc: Global,
    number: usize,
    lines: &[&[u8]],
) -> Result<(Read, usize), SourceError>
    requires { number + length lines.now < 2 ^ 63 }
    ensures said { Gives (λ found. (seen found.0, found.1)) result
        (statement_in number (map (λ line. line.now) lines.now)) }
    ensures few { IfOk result (λ found. found.1 ≤ length lines.now) }
    ensures some { 0 < length lines.now → IfOk result (λ found. 0 < found.1) }
{
    let rows = rows_of(alloc, number, lines)?;
    found_in(alloc, rows.as_slice())
}
