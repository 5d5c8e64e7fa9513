//! Strokes.

use ds_keys::Key;

/// What an operator strikes (GA23-0059, "Keyboard").
#[derive(Clone, Copy, Debug, PartialEq, Eq)]
pub enum Stroke {
    /// A key as `press` takes it.
    Key(Key),
    /// Insert mode begins.
    Insert,
    /// The character duplicate, 1C, and then Tab.
    Dup,
    /// The character field mark, 1E.
    FieldMark,
}
