//! Order lines whose records are written as they come, and printed once all of them can be written.

use crate::fault::Fault;
use crate::input::sizes::SizeLine;
use ds_codec::Geometry;
use order_lines::Draft;

/// The size for which records are written.
#[derive(Clone, Copy)]
pub enum SizeInUse {
    Default,
    Alternate,
}

/// The bytes of a record.
#[derive(Drop)]
pub struct WrittenRecord {
    pub bytes: Vec<u8>,
}

/// What order lines tell.
#[derive(Drop)]
pub struct Backward {
    /// A line of sizes may come before any line that is neither empty nor a comment.
    pub size_line: SizeLine,
    pub geometry: Geometry,
    /// The size for which the last record was written, at first the default size.
    pub size: SizeInUse,
    /// How many records have begun.
    pub count: usize,
    /// The record that has begun and has not ended.
    pub current: Option<Draft>,
    /// The records that have ended, up to the first that cannot be written.
    pub records: Vec<WrittenRecord>,
    /// Why that one cannot be written.
    pub flaw: Option<Fault>,
}
