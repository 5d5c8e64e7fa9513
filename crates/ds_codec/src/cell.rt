//! What a position of the buffer holds.

use crate::attribute::Attr;
use crate::character::Char;

/// A position of the character buffer holds an attribute or a character (GA23-0059, "Character buffer").
#[derive(Clone, Copy, Debug, PartialEq, Eq)]
pub enum Cell {
    Field(Attr),
    Char(Char),
}
