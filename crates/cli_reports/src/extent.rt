//! How many cells a field has on the screen.

ghost use Rattle.std.specs.Prelude.{◌≡◌, ◌++◌, OnOk, string_bytes};
ghost use Rattle.ds_screen.specs.Fields.{fields_of};
ghost use Rattle.cli_reports.specs.Extent.{length_in, length_words};

use ds_screen::{PlaneCells, Screen};
use std::alloc::AllocError;

/// How many cells the field has that begins at a place, if one does.
pub(crate) fn length_at(screen: &Screen<PlaneCells>, place: u32) -> Option<u32>
    ensures { result ≡ length_in place (fields_of screen.now.cells) }
{
    for field in screen.fields() {
        if field.place == place {
            return Some(field.length);
        }
    }
    None
}

/// The same in words.
pub(crate) fn push_length(
    out: &mut String,
    screen: &Screen<PlaneCells>,
    place: u32,
) -> Result<(), AllocError>
    ensures { OnOk result (string_bytes out.new ≡ string_bytes out.old
        ++ length_words (length_in place (fields_of screen.now.cells))) }
{
    match length_at(screen, place) {
        Some(length) => write!(out, ", length {length}"),
        None => Ok(()),
    }
}
