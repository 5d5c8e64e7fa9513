//! The status line that ends a screen.

ghost use Rattle.std.specs.Prelude.{◌≡◌, map, option_map, slice_get};
ghost use Rattle.buffer_lines.specs.Status.{number_at, status_at, status_told};

use crate::words::number_told;

/// What a status line tells: the size of the screen, and the cursor's row and column, counted from 0.
#[derive(Clone, Copy, Debug, PartialEq, Eq)]
pub struct Status {
    pub rows: u16,
    pub cols: u16,
    pub row: u16,
    pub col: u16,
}

fn word_at(words: &[Vec<u8>], index: usize) -> Option<&[u8]>
    ensures { option_map (λ word. word.now) result
        ≡ slice_get (map (λ word. word.items) words.now) index }
{
    match words.get(index) {
        Some(word) => Some(word.as_slice()),
        None => None,
    }
}

fn number_at(words: &[Vec<u8>], index: usize) -> Option<u16>
    ensures { result ≡ number_at (map (λ word. word.items) words.now) index }
{
    match word_at(words, index) {
        Some(word) => number_told(word),
        None => None,
    }
}

fn status_at(words: &[Vec<u8>]) -> Option<Status>
    ensures { result ≡ status_at (map (λ word. word.items) words.now) }
{
    Some(Status {
        rows: number_at(words, 6)?,
        cols: number_at(words, 7)?,
        row: number_at(words, 8)?,
        col: number_at(words, 9)?,
    })
}

/// The status that twelve words tell.
pub(crate) fn status_told(words: &[Vec<u8>]) -> Option<Status>
    ensures { result ≡ status_told (map (λ word. word.items) words.now) }
{
    if words.len() == 12 {
        status_at(words)
    } else {
        None
    }
}
