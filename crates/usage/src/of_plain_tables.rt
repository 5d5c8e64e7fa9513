//! The example of `plain_tables`.

use plain_tables::header;

/// Whether a line opens one more table of screens.
fn opens_screen(line: &str) -> bool {
    header("screen", line).is_some()
}
