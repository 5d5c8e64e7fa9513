//! Parts of the script.

use scr_layout::{Layout, LayoutError};
use test_words::Row;

/// Adds an item; spoils the row where memory runs out.
pub(crate) fn keep<T: Drop>(row: &mut Row, items: &mut Vec<T>, item: T) {
    let _pushed = row.take(items.push(item));
}

/// A copy of words.
pub(crate) fn copied(row: &mut Row, words: &str) -> String {
    let mut copy = String::new(row.alloc());
    row.note(copy.push_str(words));
    copy
}

/// The text of another row; spoils this one where that is spoilt.
pub(crate) fn text_of(row: &mut Row, told: Row) -> String {
    match told.finish() {
        Ok(text) => text,
        Err(_) => {
            row.spoil();
            String::new(row.alloc())
        }
    }
}

/// The layout of a text. Where it has none, the row is spoilt if memory ran out, and says why if not.
pub(crate) fn layout_of(row: &mut Row, text: &str) -> Option<Layout> {
    match Layout::from_text(row.alloc(), text) {
        Ok(layout) => return Some(layout),
        Err(LayoutError::OutOfMemory) => row.spoil(),
        Err(error) => row.show(&error),
    }
    None
}
