//! What a row asks for that runs an end over a line in memory.

use crate::lists::add;
use ds_keys::{Key, key_of_line};
use ds_strokes::{Stroke, stroke_of_line};
use scr_layout::Layout;
use test_words::Row;

/// A run that a row asks for.
#[derive(Drop)]
pub(crate) struct Asked {
    pub enhanced: bool,
    pub responses: bool,
    pub end: End,
    pub pieces: Vec<Vec<u8>>,
}

/// The end that runs.
#[derive(Drop)]
pub(crate) enum End {
    Terminal(Vec<Key>),
    /// A terminal whose operator strikes.
    Operator(Vec<Stroke>),
    Host(Hosted),
}

/// A host's layout and its records.
#[derive(Drop)]
pub(crate) struct Hosted {
    pub layout: Layout,
    pub records: Vec<Vec<u8>>,
}

/// Adds a copy of a piece.
pub(crate) fn push_piece(row: &mut Row, pieces: &mut Vec<Vec<u8>>, piece: &[u8]) {
    match piece.to_vec(row.alloc()) {
        Ok(bytes) => add(row, pieces, bytes),
        Err(_) => row.spoil(),
    }
}

/// Words of hexadecimal, each a piece.
pub(crate) fn read_pieces(row: &mut Row, words: &str, between: char) -> Vec<Vec<u8>> {
    let mut pieces = Vec::new(row.alloc());
    for word in words.split(between) {
        let bytes = row.read_bytes(word);
        add(row, &mut pieces, bytes);
    }
    pieces
}

/// Keys that are parted by commas; `-` is none.
fn read_keys(row: &mut Row, words: &str) -> Vec<Key> {
    let mut keys = Vec::new(row.alloc());
    for word in words.split(',') {
        if let Some(key) = key_of_line(word) {
            add(row, &mut keys, key);
        }
    }
    keys
}

/// Adds a stroke, each by its name, so that the borrow checker is told of the key within.
fn add_stroke(row: &mut Row, strokes: &mut Vec<Stroke>, stroke: Stroke) {
    match stroke {
        Stroke::Key(key) => add(row, strokes, Stroke::Key(key)),
        Stroke::Insert => add(row, strokes, Stroke::Insert),
        Stroke::Dup => add(row, strokes, Stroke::Dup),
        Stroke::FieldMark => add(row, strokes, Stroke::FieldMark),
    }
}

/// Strokes that are parted by commas.
fn read_strokes(row: &mut Row, words: &str) -> Vec<Stroke> {
    let mut strokes = Vec::new(row.alloc());
    for word in words.split(',') {
        if let Some(stroke) = stroke_of_line(word) {
            add_stroke(row, &mut strokes, stroke);
        }
    }
    strokes
}

/// A layout of this size, with the input `code` at row 1, column 4, of length 3.
fn read_layout(row: &mut Row, size: &str) -> Option<Layout> {
    let mut text = Row::new(row.alloc());
    text.word("default = \"");
    text.word(size);
    text.word("\"\n[[field]]\nname = \"code\"\nrow = 1\ncol = 4\nlength = 3\n");
    let text = row.take(text.finish())?;
    row.take(Layout::from_text(row.alloc(), text.as_str()))
}

/// The host of `24x80 HEX,HEX`.
fn read_host(row: &mut Row, words: &str) -> Option<Hosted> {
    let (size, records) = row.cut(words, " ");
    let layout = read_layout(row, size)?;
    let records = read_pieces(row, records, ',');
    Some(Hosted { layout, records })
}

fn read_end(row: &mut Row, verb: &str, words: &str) -> Option<End> {
    match verb {
        "press" => Some(End::Terminal(read_keys(row, words))),
        "strike" => Some(End::Operator(read_strokes(row, words))),
        "serve" => Some(End::Host(read_host(row, words)?)),
        _ => {
            row.spoil();
            None
        }
    }
}

/// The run of `press classic none type C2,enter`, of `strike classic none insert,enter`, or of `serve classic none 24x80 HEX,HEX`,
/// over these pieces.
pub(crate) fn read_asked(row: &mut Row, verb: &str, words: &str, pieces: &str) -> Option<Asked> {
    let (kind, words) = row.cut(words, " ");
    let (responses, words) = row.cut(words, " ");
    let end = read_end(row, verb, words)?;
    Some(Asked {
        enhanced: kind == "enhanced",
        responses: responses == "responses",
        end,
        pieces: read_pieces(row, pieces, ' '),
    })
}
