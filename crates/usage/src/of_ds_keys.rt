//! The example of `ds_keys`.

use ds_keys::{Pressed, key_of_line, press};
use ds_screen::{Cells, Screen};

/// Presses the key of a line such as `tab` or `type C1`; tells whether it did something.
fn press_line<C: Cells>(screen: &mut Screen<C>, line: &str) -> bool {
    match key_of_line(line) {
        Some(key) => matches!(press(screen, key), Pressed::Done),
        None => false,
    }
}
