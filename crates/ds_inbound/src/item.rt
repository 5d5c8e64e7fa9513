//! The items of an answer: characters, and the beginnings of fields.

use ds_codec::Char;

/// A character, or the mark and the place of a field.
#[derive(Clone, Copy)]
pub enum Item {
    Char(Char),
    Field(u32),
}
