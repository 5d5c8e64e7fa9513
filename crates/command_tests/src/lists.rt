//! Lists that a row makes.

use test_words::Row;

/// Adds an item to a list; spoils the row where memory ran out.
pub(crate) fn add<T: Drop>(row: &mut Row, list: &mut Vec<T>, item: T) {
    if list.push(item).is_err() {
        row.spoil();
    }
}
