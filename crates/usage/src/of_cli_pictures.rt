//! The example of `cli_pictures`.

use cli_commands::{Answer, CommandError};
use cli_pictures::{Drawing, picture_text};
use std::alloc::Global;

/// The drawing of the screen that records leave.
fn svg(alloc: Global, records: &[u8]) -> Result<Answer, CommandError> {
    picture_text(alloc, Drawing::Svg, records)
}
