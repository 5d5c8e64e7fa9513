//! Lines as they are read.

use crate::notation::read_text;
use cli_commands::{GivesBytes, ReadAhead, next_line, without_end};
use test_words::Row;

/// The most lines that are read of an input.
const MOST_LINES: usize = 64;
/// So many bytes are read at once: fewer than most lines have.
const PIECE: usize = 3;

/// Reads the next line; whether there is one.
fn is_read<R: GivesBytes>(
    row: &mut Row,
    reader: &mut R,
    ahead: &mut ReadAhead,
    line: &mut Vec<u8>,
) -> bool {
    row.take(next_line(reader, ahead, line)).unwrap_or(false)
}

fn push_lines<R: GivesBytes>(row: &mut Row, reader: &mut R, ahead: &mut ReadAhead) {
    let mut line = Vec::new(row.alloc());
    for _ in 0..MOST_LINES {
        if !is_read(row, reader, ahead, &mut line) {
            return;
        }
        row.word("[");
        row.bytes(without_end(line.as_slice()));
        row.word("]");
    }
}

/// Adds each line of an input, without its end, in hexadecimal.
pub(crate) fn push_read(row: &mut Row, text: &str) {
    let input = read_text(row, text);
    let mut bytes = input.as_slice();
    match ReadAhead::new(row.alloc(), PIECE) {
        Ok(mut ahead) => push_lines(row, &mut bytes, &mut ahead),
        Err(_) => row.spoil(),
    }
}
