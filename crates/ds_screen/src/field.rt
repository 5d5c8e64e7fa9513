//! Fields, as they stand in a buffer.

use ds_codec::Attr;

/// A field: the characters that an attribute governs, up to the next attribute round the buffer
/// (GA23-0059, "Fields").
#[derive(Clone, Copy, Debug, PartialEq, Eq)]
pub struct FieldAt {
    /// The position of the attribute, counted from 0.
    pub at: u32,
    pub attr: Attr,
    /// The position behind the attribute: 0 behind the last one.
    pub place: u32,
    /// The number of cells that the attribute governs, 0 to the number of cells less 1.
    pub length: u32,
}
