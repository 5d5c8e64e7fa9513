//! What one line tells.

ghost use Rattle.std.specs.Prelude.{◌≡◌, ◌∷◌, [], map, IfOk, option_map};
ghost use Rattle.buffer_lines.specs.Left.{IsHeldLine};
ghost use Rattle.buffer_lines.specs.Line.{data_of, is_silent, line_seen, line_told, row_line, words_line};

use crate::row::row_told;
use crate::status::{Status, status_told};
use crate::words::words_of;
use ds_codec::Cell;
use std::alloc::{AllocError, Global};

/// What a line tells.
#[derive(Drop)]
pub enum BufferLine {
    /// Nothing: it is empty, or `ok`.
    Silent,
    /// The cells of a row.
    Row(Vec<Cell>),
    /// That the rows before it are all.
    Status(Status),
    Refused,
}

fn is_silent(line: &[u8]) -> bool
    ensures { result ≡ is_silent line.now }
{
    match line {
        [] => true,
        [o, k] => *o == b'o' && *k == b'k',
        _ => false,
    }
}

/// What follows `data: `, where a line begins so.
pub(crate) fn data_of(line: &[u8]) -> Option<&[u8]>
    ensures { option_map (λ rest. rest.now) result ≡ data_of line.now }
{
    match line {
        [d, a, t, b, colon, space, rest @ ..] => {
            if *d == b'd'
                && *a == b'a'
                && *t == b't'
                && *b == b'a'
                && *colon == b':'
                && *space == b' '
            {
                Some(rest)
            } else {
                None
            }
        }
        _ => None,
    }
}

/// A row, where all its words are known.
fn row_line(alloc: Global, words: &[Vec<u8>]) -> Result<BufferLine, AllocError>
    ensures { IfOk result
        (λ told. line_seen told ≡ row_line (map (λ word. word.items) words.now)) }
{
    match row_told(alloc, words)? {
        Some(cells) => Ok(BufferLine::Row(cells)),
        None => Ok(BufferLine::Refused),
    }
}

/// A status line, or a row without its prefix.
fn words_line(alloc: Global, words: &[Vec<u8>]) -> Result<BufferLine, AllocError>
    ensures { IfOk result
        (λ told. line_seen told ≡ words_line (map (λ word. word.items) words.now)) }
{
    match status_told(words) {
        Some(status) => Ok(BufferLine::Status(status)),
        None => row_line(alloc, words),
    }
}

/// What a line of an answer to `ReadBuffer(Ebcdic)` tells: `data: ` and the cells of a row, which may stand without that prefix;
/// twelve words of status; `ok`, or nothing.
///
/// # Errors
///
/// Where a request for memory was refused.
pub fn read_line(alloc: Global, line: &[u8]) -> Result<BufferLine, AllocError>
    ensures exact { IfOk result (λ told. line_seen told ≡ line_told line.now) }
    ensures held { IfOk result (λ told. IsHeldLine (line_seen told)) }
{
    let told = told_by(alloc, line)?;
    Ok(told)
}

/// What a line tells, by its prefix or its words.
fn told_by(alloc: Global, line: &[u8]) -> Result<BufferLine, AllocError>
    ensures { IfOk result (λ told. line_seen told ≡ line_told line.now) }
{
    if is_silent(line) {
        return Ok(BufferLine::Silent);
    }
    match data_of(line) {
        Some(data) => {
            let words = words_of(alloc, data)?;
            row_line(alloc, words.as_slice())
        }
        None => {
            let words = words_of(alloc, line)?;
            words_line(alloc, words.as_slice())
        }
    }
}
