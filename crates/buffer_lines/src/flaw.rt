//! Why a line is refused.

ghost use Rattle.std.specs.Prelude.{◌≡◌, IfOk, map, option_map};
ghost use Rattle.buffer_lines.specs.Cell.{word_told};
ghost use Rattle.buffer_lines.specs.Flaw.{column_from, is_refused, line_column, next_column};
ghost use Rattle.buffer_lines.specs.Line.{data_of};

use crate::cell::{Word, word_told};
use crate::line::data_of;
use crate::words::words_of;
use std::alloc::{AllocError, Global};

/// Why a line is refused.
#[derive(Clone, Copy, Debug, PartialEq, Eq)]
pub enum Flaw {
    /// The word from this column on, counted from 1, is no cell and no attribute.
    NoCell(usize),
    /// A row has so many cells, and those before it have so many.
    OtherCells(usize, usize),
    /// A row after 255 others.
    TooManyRows,
    /// A status line tells another size than that of so many rows of so many cells.
    OtherSize(usize, usize),
    /// It tells a size that no terminal has.
    NoTerminal,
    /// It tells a cursor outside the screen.
    CursorOutside,
}

/// Whether a word is no cell and no attribute.
fn is_refused(word: &[u8]) -> bool
    ensures { result ≡ is_refused (word_told word.now) }
{
    matches!(word_told(word), Word::Refused)
}

/// The column after a word and the space behind it.
fn next_column(column: usize, word: &[u8]) -> usize
    ensures { result ≡ next_column column word.now }
{
    column.saturating_add(word.len()).saturating_add(1)
}

/// The column of the first word that is refused, where the first word of all stands at this one.
fn column_from(first: usize, words: &[Vec<u8>]) -> Option<usize>
    ensures { result ≡ column_from first (map (λ word. word.items) words.now) }
{
    let mut column = first;
    for word in words {
        if is_refused(word.as_slice()) {
            return Some(column);
        }
        column = next_column(column, word.as_slice());
    }
    None
}

/// The column of the first word of a line that is refused.
pub(crate) fn line_column(alloc: Global, line: &[u8]) -> Result<Option<usize>, AllocError>
    ensures { IfOk result (λ column. column ≡ line_column (data_of line.now) line.now) }
{
    match data_of(line) {
        Some(data) => {
            let words = words_of(alloc, data)?;
            Ok(column_from(7, words.as_slice()))
        }
        None => {
            let words = words_of(alloc, line)?;
            Ok(column_from(1, words.as_slice()))
        }
    }
}
