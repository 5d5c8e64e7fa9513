//! The example of `ds_strokes`.

use ds_keys::Pressed;
use ds_screen::{Cells, Screen};
use ds_strokes::{strike, stroke_of_line};

/// Strikes the key of a line such as `insert`, `dup` or `tab`.
fn strike_line<C: Cells>(
    screen: &mut Screen<C>,
    inserts: &mut bool,
    line: &str,
) -> Option<Pressed> {
    let stroke = stroke_of_line(line)?;
    Some(strike(screen, inserts, stroke))
}
