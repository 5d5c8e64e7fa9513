//! Strokes by their words, as lines of strokes name them (our own).

ghost use Rattle.std.specs.Prelude.{◌≡◌};
ghost use Rattle.ds_strokes.specs.Lines.{other_stroke, stroke_of};

use crate::stroke::Stroke;
use ds_keys::key_of_line;

/// A stroke that is no key of `press`.
fn other_stroke(word: &str) -> Option<Stroke>
    ensures { result ≡ other_stroke word.now }
{
    match word {
        "insert" => Some(Stroke::Insert),
        "dup" => Some(Stroke::Dup),
        "fieldmark" => Some(Stroke::FieldMark),
        _ => None,
    }
}

/// The stroke that a line names: `insert`, `dup`, `fieldmark`, or a key's line as `key_of_line` reads it. `None` for every
/// other line.
pub fn stroke_of_line(line: &str) -> Option<Stroke>
    ensures { result ≡ stroke_of line.now }
{
    match other_stroke(line) {
        Some(stroke) => Some(stroke),
        None => match key_of_line(line) {
            Some(key) => Some(Stroke::Key(key)),
            None => None,
        },
    }
}
