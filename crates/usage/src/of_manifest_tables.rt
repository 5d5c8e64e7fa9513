//! The example of `manifest_tables`.

use manifest_tables::is_plain;

/// Whether a manifest takes a text as a name: it isn't empty, and has no control character.
fn is_name(text: &str) -> bool {
    is_plain(text.as_bytes())
}
