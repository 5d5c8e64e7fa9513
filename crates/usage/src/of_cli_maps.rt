//! The example of `cli_maps`.

use bms_map::Control;
use cli_commands::{Answer, CommandError};
use cli_maps::{Asked, Report, check_map_text};
use std::alloc::Global;

/// What `check --map` prints of all maps of a source, and its status.
fn check(alloc: Global, source: &[u8]) -> Result<Answer, CommandError> {
    let control = Control {
        free_keyboard: false,
        reset_modified: false,
    };
    check_map_text(
        alloc,
        Report::Text,
        source,
        Asked {
            name: None,
            control,
        },
    )
}
