//! Characters of a source, each with its place.

/// A line and a column, both counted from 1.
#[derive(Clone, Copy, Debug, PartialEq, Eq)]
pub struct Place {
    pub line: usize,
    pub column: usize,
}

/// A character of a source. One that is not of ASCII has a code of 192 or more.
#[derive(Clone, Copy, Debug, PartialEq, Eq)]
pub struct Letter {
    pub code: u8,
    pub place: Place,
}
