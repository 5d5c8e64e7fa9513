//! Texts of several lines in one.

use test_words::Row;

/// The bytes of a text, in which `\n` is a line's end.
pub(crate) fn text_of(row: &mut Row, text: &str) -> Vec<u8> {
    let mut bytes = Vec::new(row.alloc());
    for (index, part) in text.split("\\n").enumerate() {
        if index > 0 {
            let pushed = bytes.push(b'\n');
            let _pushed = row.take(pushed);
        }
        row.note(bytes.extend_from_slice(part.as_bytes()));
    }
    bytes
}
