//! Records of any kind, as an application of one screen.

ghost use Rattle.std.specs.Prelude.{◌≡◌, IfOk};
ghost use Rattle.std.specs.String.{string_bytes};
ghost use Rattle.cli_commands.specs.Fault.{Gives};
ghost use Rattle.cli_commands.specs.LayoutText.{layout_in};
ghost use Rattle.cli_offers.specs.Any.{OffersAny, addresses, is_fit, larger, layout_text, screen_text, size_text, sizes_text};

use crate::prepare::Prepared;
use crate::sizes::{has_model, is_geometry, no_model};
use cli_commands::{CommandError, SizeLine, layout_in, records_in};
use cli_dialogues::{Application, Telling};
use ds_codec::{Geometry, Mode, Size};
use scr_layout::Layout;
use std::alloc::{AllocError, Global};
use tn_dialogue::Reading;

/// The size that has more cells: an address of either is one of it.
fn larger(geometry: &Geometry) -> &'static str
    ensures { result.now ≡ larger geometry.now }
{
    if geometry.default_size().cells() < geometry.alternate_size().cells() {
        "alternate"
    } else {
        "default"
    }
}

/// The addresses of a mode, as a layout has them.
fn addresses(mode: Mode) -> u8
    ensures { result ≡ addresses mode }
{
    match mode {
        Mode::Bits14 => 14,
        Mode::Bits16 => 16,
    }
}

/// A size, as a layout has it.
fn size_text(alloc: Global, size: Size) -> Result<String, AllocError>
    ensures { IfOk result (λ text. string_bytes text ≡ size_text size) }
{
    let Size { rows, cols } = size;
    format!(in alloc; "{rows}x{cols}")
}

/// The lines of both sizes.
fn sizes_text(alloc: Global, geometry: &Geometry) -> Result<String, AllocError>
    ensures { IfOk result (λ text. string_bytes text ≡ sizes_text geometry.now) }
{
    let default = size_text(alloc, geometry.default_size())?;
    let alternate = size_text(alloc, geometry.alternate_size())?;
    format!(in alloc; "default = '{default}'\nalternate = '{alternate}'\n")
}

/// The lines of the size of the fields, and of the addresses.
fn screen_text(alloc: Global, geometry: &Geometry) -> Result<String, AllocError>
    ensures { IfOk result (λ text. string_bytes text ≡ screen_text geometry.now) }
{
    let screen = larger(geometry);
    let bits = addresses(geometry.mode());
    format!(in alloc; "screen = '{screen}'\naddresses = {bits}\n")
}

/// A layout of these sizes, without a field.
fn layout_text(alloc: Global, geometry: &Geometry) -> Result<String, AllocError>
    ensures { IfOk result (λ text. string_bytes text ≡ layout_text geometry.now) }
{
    let mut text = sizes_text(alloc, geometry)?;
    let screen = screen_text(alloc, geometry)?;
    text.push_str(screen.as_str())?;
    Ok(text)
}

/// The layout of a terminal of these sizes.
fn layout_of(alloc: Global, geometry: &Geometry) -> Result<Layout, CommandError>
    ensures { Gives (λ layout. layout) result (layout_in (layout_text geometry.now)) }
{
    let text = layout_text(alloc, geometry)?;
    layout_in(alloc, text.as_bytes())
}

/// Whether a layout is of these sizes, and some model has them.
fn is_fit(layout: &Layout, geometry: &Geometry) -> bool
    ensures { result ≡ is_fit geometry.now layout.now }
{
    is_geometry(layout, geometry) && has_model(layout)
}

/// The records of a text, whatever they are, as an application of one screen without a field, to which any answer will do. Its
/// sizes are those of the line `size` that may come first, or 24x80. Where no model has them there is an answer to print.
///
/// # Errors
///
/// The first line that is refused; out of memory.
pub fn any_application(alloc: Global, text: &[u8]) -> Result<Prepared, CommandError>
    ensures { OffersAny text.now result }
{
    let told = records_in(alloc, text, SizeLine::Allowed)?;
    let layout = layout_of(alloc, &told.geometry)?;
    if !is_fit(&layout, &told.geometry) {
        return Ok(Prepared::Stops(no_model(alloc)?));
    }
    let application = Application::of_one(
        alloc,
        layout,
        Reading::Any,
        told.records,
        Telling::Bytes,
    )?;
    Ok(Prepared::Ready(application))
}
