//! A row of the buffer.

ghost use Rattle.std.specs.Prelude.{◌≡◌, ◌++◌, IfOk, option_map, map};
ghost use Rattle.buffer_lines.specs.Row.{row_told};

use crate::cell::{Word, word_told};
use ds_codec::Cell;
use std::alloc::{AllocError, Global};

/// The cells of a row's words, or nothing where one of them is no cell and no attribute.
pub(crate) fn row_told(alloc: Global, words: &[Vec<u8>]) -> Result<Option<Vec<Cell>>, AllocError>
    ensures { IfOk result (λ row. option_map (λ cells. cells.items) row
        ≡ row_told (map (λ word. word.items) words.now)) }
{
    let mut cells = Vec::new(alloc);
    for word in words {
        match word_told(word.as_slice()) {
            Word::Cell(cell) => cells.push(cell)?,
            Word::Extended => {}
            Word::Refused => return Ok(None),
        }
    }
    Ok(Some(cells))
}
